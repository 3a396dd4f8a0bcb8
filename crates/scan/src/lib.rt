// The last step of the planner: the best cell of the last layer that passes a test.
#![tactic(auto)]

ghost use Rattle.std.specs.Prelude.{◌≡◌, ℕ, ◌+◌, ◌*◌, ◌<◌, ◌≤◌, length};
ghost use Rattle.model.specs.Grid.{slots_of};
ghost use Rattle.model.specs.Cells.{join, join_upto, passing};
ghost use Rattle.model.specs.Values.{Held, IsCode, problem_of};
ghost use Rattle.table.specs.Table.{cell_at, key_of};
ghost use Rattle.stretch.specs.Stretch.{GridFits, StretchesFit};
ghost use Rattle.grid.specs.Geometry.{GridIs};
ghost use Rattle.scan.specs.Scan.{Better, test_of, passed_in, best_of_layer, Coded, RowCoded, LayerCoded};

use grid::Grid;
use model::Book;
use stretch::Stretches;
use table::Cell;

// The test that a cell of the last layer must pass: an enum and no closure, as `test_of`, `plan_by` and `result_by` go by it.
#[derive(Clone, Copy)]
pub enum Test {
    // The plain planner's: every slot admits the cell's pairs.
    Admission,
    // The strict planner's (document 02, M-109): the true sums of the cell's own choice keep every limit.
    TrueSums,
}

// Whether a cell is better than the best so far: greater worth, then smaller code. An empty cell is not.
fn beats(c: Cell, best: Cell) -> bool
    ensures { Better best c result }
{
    if c.worth == 0 {
        return false;
    }
    if c.worth == best.worth {
        return c.code < best.code;
    }
    best.worth < c.worth
}

// Whether the cell of a row and a column, which holds a choice's code, passes the test.
fn passes(code: u64, row: usize, col: usize, grid: Grid, book: Book, test: Test) -> bool
    requires held { Held book }
    requires grid_is { GridIs (slots_of (problem_of book)) grid }
    requires code { IsCode (problem_of book) code }
    ensures { result ≡ test_of test (problem_of book) row col code }
{
    match test {
        Test::Admission => {
            let limits = book.limits;
            admits::admits_cell(row, col, grid, book.count as u64, limits)
        }
        Test::TrueSums => limits::keeps_code(book, code),
    }
}

// The best so far after the cell x, of a row and a column. The test is dear, and comes last.
fn better_at(
    work: &[u64],
    x: usize,
    best: Cell,
    row: usize,
    col: usize,
    grid: Grid,
    book: Book,
    test: Test,
) -> Cell
    requires x_in_bounds { 2 * x + 1 < length work.now }
    requires held { Held book }
    requires grid_is { GridIs (slots_of (problem_of book)) grid }
    requires coded { Coded (problem_of book) (key_of (cell_at work.now x)) }
    ensures { key_of result ≡ join (key_of best) (passing (test_of test (problem_of book) row col) (key_of (cell_at work.now x))) }
{
    let c = table::get(work, x);
    if !beats(c, best) {
        return best;
    }
    if passes(c.code, row, col, grid, book, test) {
        return c;
    }
    best
}

// The best so far after a row whose cells start at `at`, and of which the stretch from `low` to `high` is held.
fn scan_row(
    work: &[u64],
    at: usize,
    low: usize,
    high: usize,
    row: usize,
    first: Cell,
    grid: Grid,
    book: Book,
    test: Test,
) -> Cell
    requires high_in_bounds { 2 * (at + high) ≤ length work.now }
    requires held { Held book }
    requires grid_is { GridIs (slots_of (problem_of book)) grid }
    requires row_coded { RowCoded (problem_of book) work.now at low high }
    ensures { (width : ℕ) → high ≤ width
        → key_of result ≡ join (key_of first) (join_upto width (passed_in (test_of test (problem_of book)) work.now at low high row)) }
{
    let mut best = first;
    for col in low..high {
        let worth = work[2 * (at + col)];
        if best.worth <= worth {
            best = better_at(work, at + col, best, row, col, grid, book, test);
        }
    }
    best
}

// The best cell of the layer at `cur` that passes the test; empty where none does.
pub fn scan(work: &[u64], grid: Grid, cur: usize, layer: &Stretches, book: Book, test: Test) -> Cell
    requires grid_fits { GridFits grid }
    requires cells_in_bounds { 2 * (cur + grid.cells) ≤ length work.now }
    requires stretches_fit { StretchesFit layer.now.lows layer.now.highs grid }
    requires held { Held book }
    requires grid_is { GridIs (slots_of (problem_of book)) grid }
    requires layer_coded { LayerCoded (problem_of book) work.now layer.now.lows layer.now.highs grid cur }
    ensures { key_of result ≡ best_of_layer (test_of test (problem_of book)) work.now layer.now.lows layer.now.highs grid cur }
{
    let rows = grid.rows;
    let width = grid.width;
    let mut best = Cell { worth: 0, code: 0 };
    for row in 0..rows {
        let low = layer.lows[row];
        let high = layer.highs[row];
        best = scan_row(
            work,
            cur + row * width,
            low,
            high,
            row,
            best,
            grid,
            book,
            test,
        );
    }
    best
}
