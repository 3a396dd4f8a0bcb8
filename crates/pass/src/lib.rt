// One load's pass over the table: each row of the next layer is emptied where something can reach it, and is then offered, for each
// setting in ascending order, the row that lies as far back as the setting's active powers say. Of each row only a stretch of columns
// counts.
#![tactic(auto)]

ghost use Rattle.std.specs.Prelude.{◌≡◌, true, ◌<◌, length};
ghost use Rattle.model.specs.Bounds.{most_rows};
ghost use Rattle.table.specs.Table.{Rows};
ghost use Rattle.stretch.specs.Stretch.{GridFits, StretchesFit, LoadFits, EmptyFrom, Reaches};
ghost use Rattle.rows.specs.Row.{held, LoadRoom};
ghost use Rattle.pass.specs.Pass.{RowMade, LayerMade, count_rows};

use grid::Grid;
use stretch::{LoadMoves, Stretch, Stretches};

// A row that was made: its stretch, and how many of its cells hold something, where that was asked for.
#[derive(Clone, Copy)]
pub struct Made {
    pub stretch: Stretch,
    pub count: usize,
}

// Makes one row of the next layer, and counts its reached cells where that is asked for.
fn load_row(
    work: &mut [u64],
    grid: &Grid,
    cur: usize,
    next: usize,
    layer: &Stretches,
    row: usize,
    load: LoadMoves,
    asked: bool,
) -> Made
    requires grid_fits { GridFits grid.now }
    requires rows { Rows work.old cur next grid.now.cells }
    requires stretches_fit { StretchesFit layer.now.lows layer.now.highs grid.now }
    requires row_lt_rows { row < grid.now.rows }
    requires load_fits { LoadFits grid.now load }
    requires load_room { LoadRoom work.old layer.now.lows layer.now.highs grid.now cur load }
    ensures { RowMade work.old work.new layer.now.lows layer.now.highs grid.now cur next load row asked result }
{
    let s = stretch::span_of(grid, layer, row, load);
    if s.low < s.high {
        let at = next + row * grid.width + s.low;
        let len = s.high - s.low;
        let first = rows::open_row(work, grid, cur, next, layer, row, load, s, at);
        rows::settings_row(work, grid, cur, next, layer, row, load, first);
        let count = table::count_if(work, at, len, asked);
        return Made { stretch: s, count };
    }
    Made {
        stretch: Stretch { low: 0, high: 0 },
        count: 0,
    }
}

// Makes the next layer and its stretches from the current one, and counts its reached cells where that is asked for. Only `rows` rows
// can be reached.
pub fn load_pass(
    work: &mut [u64],
    grid: &Grid,
    cur: usize,
    next: usize,
    layer: &Stretches,
    fresh: &mut Stretches,
    load: LoadMoves,
    used: usize,
    rows: usize,
    asked: bool,
) -> usize
    requires grid_fits { GridFits grid.now }
    requires rows { Rows work.old cur next grid.now.cells }
    requires stretches_fit { StretchesFit layer.now.lows layer.now.highs grid.now }
    requires load_fits { LoadFits grid.now load }
    requires load_room { LoadRoom work.old layer.now.lows layer.now.highs grid.now cur load }
    requires fresh_len { (length fresh.old.lows ≡ most_rows) × (length fresh.old.highs ≡ most_rows) }
    requires empty_from { EmptyFrom layer.now.lows layer.now.highs used }
    requires empty_from_2 { EmptyFrom fresh.old.lows fresh.old.highs rows }
    requires reaches { Reaches grid.now load used rows }
    ensures empty_from_3 { EmptyFrom fresh.new.lows fresh.new.highs rows }
    ensures value { asked ≡ true → result ≡ count_rows grid.now.rows grid.now.width (held work.new fresh.new.lows fresh.new.highs next grid.now.width) }
    ensures layer_made { LayerMade work.old work.new layer.now.lows layer.now.highs fresh.new.lows fresh.new.highs grid.now cur next load grid.now.rows }
{
    let mut reached: usize = 0;
    for row in 0..rows {
        let made = load_row(work, grid, cur, next, layer, row, load, asked);
        fresh.lows[row] = made.stretch.low;
        fresh.highs[row] = made.stretch.high;
        reached += made.count;
    }
    reached
}
