// The search: the passes of all loads, the layers changing places after each, and the trials counted on the way.
#![tactic(auto)]

ghost use Rattle.std.specs.Prelude.{◌≡◌, ◌+◌, ◌*◌, ◌<◌, ◌≤◌, length, drop};
ghost use Rattle.model.specs.Bounds.{most_settings, most_cells};
ghost use Rattle.table.specs.Table.{put_at};
ghost use Rattle.stretch.specs.Stretch.{EmptyFrom};
ghost use Rattle.search.specs.Search.{first_cell, Modelled, Places, Run, Searched};

use grid::Grid;
use model::Book;
use stretch::{LoadMoves, Stretches};
use table::Cell;

// The first layer: one choice, of no load, at the cell `origin` of row 0.
fn start(work: &mut [u64], origin: usize)
    requires { 2 * origin + 1 < length work.old }
    ensures { work.new ≡ put_at work.old origin first_cell }
{
    table::put(work, origin, Cell { worth: 1, code: 0 });
}

// The trials of one load: the cells that are reached before it, times its settings.
fn tries(reached: usize, count: usize) -> usize
    requires { (reached ≤ most_cells) × (count ≤ most_settings) }
    ensures { (result ≡ reached * count) × (result ≤ most_settings * most_cells) }
{
    reached * count
}

// What the search leaves: the trials, which layer is the last one (0 or the number of cells), and its stretches.
#[derive(Clone, Copy)]
pub struct Ran {
    pub trials: usize,
    pub cur: usize,
    pub layer: Stretches,
}

// The passes of the first n loads over a first layer that is made, as long as the trials are within the budget. No trial depends on what
// the last pass reaches, so it is not counted.
fn run_loads(
    work: &mut [u64],
    grid: Grid,
    n: usize,
    moves: [LoadMoves; Book::LOADS],
    budget: usize,
    first: Stretches,
) -> Ran
    requires cells_in_bounds { 4 * grid.cells ≤ length work.old }
    requires modelled { Modelled grid n moves }
    requires empty_from { EmptyFrom first.lows first.highs 1 }
    requires run { (m : Modelled grid n moves) → Run work.old work.old first.lows first.highs grid n moves m 0 0 1 0 }
    ensures places { Places work.old work.new result.layer.lows result.layer.highs grid result.cur }
    ensures searched { (m : Modelled grid n moves) → Searched work.new result.layer.lows result.layer.highs grid n moves m budget result.cur result.trials }
{
    let cells = grid.cells;
    let mut layer = first;
    let mut fresh = Stretches {
        lows: [0; Grid::ROWS],
        highs: [0; Grid::ROWS],
    };
    let mut trials: usize = 0;
    let mut reached: usize = 1;
    let mut cur: usize = 0;
    let mut used: usize = 1;
    for k in 0..n {
        let load = moves[k];
        trials += tries(reached, load.count);
        if budget < trials {
            return Ran { trials, cur, layer };
        }
        let rows = stretch::reach_of(grid, load, used);
        reached = pass::load_pass(
            work,
            &grid,
            cur,
            cells - cur,
            &layer,
            &mut fresh,
            load,
            used,
            rows,
            k + 1 < n,
        );
        used = rows;
        layer = fresh;
        cur = cells - cur;
    }
    Ran { trials, cur, layer }
}

// The search of the first n loads, from nothing.
pub fn search(
    work: &mut [u64],
    grid: Grid,
    n: usize,
    moves: [LoadMoves; Book::LOADS],
    budget: usize,
) -> Ran
    requires cells_in_bounds { 4 * grid.cells ≤ length work.old }
    requires modelled { Modelled grid n moves }
    ensures work_unchanged { drop (4 * grid.cells) work.new ≡ drop (4 * grid.cells) work.old }
    ensures places { Places work.old work.new result.layer.lows result.layer.highs grid result.cur }
    ensures searched { (m : Modelled grid n moves) → Searched work.new result.layer.lows result.layer.highs grid n moves m budget result.cur result.trials }
{
    let origin = grid.origin;
    let mut first = Stretches {
        lows: [0; Grid::ROWS],
        highs: [0; Grid::ROWS],
    };
    first.lows[0] = origin;
    first.highs[0] = origin + 1;
    start(work, origin);
    run_loads(work, grid, n, moves, budget, first)
}
