// One row of the next layer: it is opened, and is then offered what each setting brings there.
#![tactic(auto)]

ghost use Rattle.std.specs.Prelude.{◌≡◌, true, ◌+◌, ◌-◌, ◌*◌, ◌^◌, ◌<◌, ◌≤◌};
ghost use Rattle.table.specs.Table.{Rows};
ghost use Rattle.stretch.specs.Stretch.{move_of, GridFits, StretchesFit, MoveFits, LoadFits, Spans};
ghost use Rattle.rows.specs.Row.{MoveRoom, LoadRoom, Ends, RowKeys, Opened, raised_row, raised_rows};

use grid::Grid;
use stretch::{LoadMoves, SettingMove, Stretch, Stretches};

// The cell of the current layer from which a setting comes to the first column of its part of a row.
fn source_cell(grid: &Grid, cur: usize, row: usize, mv: SettingMove, part: Stretch) -> usize
    requires ends { Ends grid.now row mv part }
    requires cells_bound { (2 * (cur + grid.now.cells) < 2 ^ 64) × (mv.up ≤ 1099511627776) }
    ensures { result ≡ cur + (row - mv.back) * grid.now.width + (part.low + mv.down - mv.up) }
{
    cur + (row - mv.back) * grid.width + (part.low + mv.down - mv.up)
}

// Offers one row of the next layer what a setting brings there.
fn setting_row(
    work: &mut [u64],
    grid: &Grid,
    cur: usize,
    next: usize,
    layer: &Stretches,
    row: usize,
    mv: SettingMove,
)
    requires grid_fits { GridFits grid.now }
    requires rows { Rows work.old cur next grid.now.cells }
    requires stretches_fit { StretchesFit layer.now.lows layer.now.highs grid.now }
    requires row_lt_rows { row < grid.now.rows }
    requires move_fits { MoveFits grid.now mv }
    requires move_room { MoveRoom work.old layer.now.lows layer.now.highs grid.now cur mv.gain mv.digit }
    ensures { RowKeys work.old work.new (next + row * grid.now.width) grid.now.width (raised_row work.old layer.now.lows layer.now.highs grid.now cur next mv row) }
{
    let part = stretch::part_of(grid, layer, row, mv);
    if part.low < part.high {
        let from = source_cell(grid, cur, row, mv, part);
        let to = next + row * grid.width + part.low;
        table::offer_row(work, from, to, part.high - part.low, mv.gain, mv.digit);
    }
}

// Offers one row of the next layer what each setting from `first` on brings there, in turn.
pub fn settings_row(
    work: &mut [u64],
    grid: &Grid,
    cur: usize,
    next: usize,
    layer: &Stretches,
    row: usize,
    load: LoadMoves,
    first: usize,
)
    requires grid_fits { GridFits grid.now }
    requires rows { Rows work.old cur next grid.now.cells }
    requires stretches_fit { StretchesFit layer.now.lows layer.now.highs grid.now }
    requires row_lt_rows { row < grid.now.rows }
    requires load_fits { LoadFits grid.now load }
    requires load_room { LoadRoom work.old layer.now.lows layer.now.highs grid.now cur load }
    requires first_le_count { first ≤ load.count }
    ensures { RowKeys work.old work.new (next + row * grid.now.width) grid.now.width (raised_rows work.old layer.now.lows layer.now.highs grid.now cur next load row first (load.count - first)) }
{
    for m in first..load.count {
        setting_row(work, grid, cur, next, layer, row, load.moves[m]);
    }
}

// Whether the first setting of a load adds neither worth nor code, as standing does.
fn adds_no_key(load: LoadMoves) -> bool
    ensures { result ≡ true → (0 < load.count) × ((move_of load 0).gain ≡ 0) × ((move_of load 0).digit ≡ 0) }
{
    let mv = load.moves[0];
    0 < load.count && mv.gain == 0 && mv.digit == 0
}

// Empties the stretch of a row, whose cells begin at `at`. What a first setting that adds neither worth nor code brings there is copied at
// once; gives the number of settings that have been offered, 0 or 1.
pub fn open_row(
    work: &mut [u64],
    grid: &Grid,
    cur: usize,
    next: usize,
    layer: &Stretches,
    row: usize,
    load: LoadMoves,
    s: Stretch,
    at: usize,
) -> usize
    requires grid_fits { GridFits grid.now }
    requires rows { Rows work.old cur next grid.now.cells }
    requires stretches_fit { StretchesFit layer.now.lows layer.now.highs grid.now }
    requires row_lt_rows { row < grid.now.rows }
    requires load_fits { LoadFits grid.now load }
    requires spans { Spans layer.now.lows layer.now.highs grid.now row load load.count s }
    requires low_lt_high { (s.low < s.high) × (at ≡ next + row * grid.now.width + s.low) }
    ensures { Opened work.old work.new layer.now.lows layer.now.highs grid.now cur next load row s result }
{
    let len = s.high - s.low;
    if adds_no_key(load) {
        let mv = load.moves[0];
        let part = stretch::part_of(grid, layer, row, mv);
        if part.low < part.high {
            let from = source_cell(grid, cur, row, mv, part);
            table::carry_row(work, from, at, part.low - s.low, part.high - part.low, len);
            return 1;
        }
    }
    table::clear(work, at, len);
    0
}
