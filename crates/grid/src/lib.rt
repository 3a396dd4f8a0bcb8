// The geometry of a book's table: the step and the sizes of each slot, and the rows, columns and cells that they come to.
#![tactic(auto)]

ghost use Rattle.std.specs.Prelude.{◌≡◌, ℕ, ◌≤◌};
ghost use Rattle.model.specs.Bounds.{most_loads, most_fineness, most_ratio};
ghost use Rattle.model.specs.Grid.{step_for, slot_at};
ghost use Rattle.model.specs.Values.{Held, problem_of};
ghost use Rattle.grid.specs.Geometry.{SlotIs, BookGrid};

use model::Book;

// The table's geometry: the cells, the columns of a row, the rows, the column of no power, and the sizes of each slot. What holds of it (`GridIs`, `GridFits`)
// is a clause, as `grid_of` gives a grid for a table that is too large, too, of which neither holds.
#[derive(Clone, Copy)]
pub struct Grid {
    pub cells: usize,
    pub width: usize,
    pub rows: usize,
    pub origin: usize,
    pub slots: usize,
    pub sizes: [SlotGrid; Book::SLOTS],
}

impl Grid {
    // No table of at most 1,048,576 cells has more rows (model/specs/Bounds.antt says why).
    pub const ROWS: usize = 724;
}

// One slot's sizes: the step L, the number R + 1 of active grid values, the number of reactive ones, and how far below 0 these begin.
#[derive(Clone, Copy)]
pub struct SlotGrid {
    pub step: u64,
    pub top: usize,
    pub width: usize,
    pub depth: usize,
}

// S div (N d), but at least 1.
fn step_of(limit: u64, loads: u64, fineness: u64) -> u64
    requires { (1 ≤ loads) × (loads ≤ most_loads) × (1 ≤ fineness) × (fineness ≤ most_fineness) }
    ensures { result ≡ step_for loads fineness limit }
{
    let step = limit / (loads * fineness);
    if step < 1 {
        return 1;
    }
    step
}

// A slot with this limit, in a book of N loads and ratio r: R + 1 values of a, and 2rR + (2r - 1) × N + 1 of b, the first of them r × (R + N) below 0.
fn slot_of(limit: u64, loads: usize, fineness: u64, ratio: usize) -> SlotGrid
    requires le_loads { (1 ≤ loads) × (loads ≤ most_loads) × (1 ≤ fineness) × (fineness ≤ most_fineness) }
    requires limit_bound { (limit ≤ 65535) × (1 ≤ ratio) × (ratio ≤ most_ratio) }
    ensures { (t : ℕ) → SlotIs (slot_at loads fineness ratio t limit) result }
{
    let step = step_of(limit, loads as u64, fineness);
    let most = (limit / step) as usize;
    let top = most + 1;
    let width = 2 * ratio * most + (2 * ratio - 1) * loads + 1;
    let depth = ratio * most + ratio * loads;
    SlotGrid {
        step,
        top,
        width,
        depth,
    }
}

// The geometry of a book's table. Once the cells are over their bound nothing more is multiplied.
pub fn grid_of(book: Book) -> Grid
    requires { Held book }
    ensures { BookGrid (problem_of book) result }
{
    let slots = book.slots;
    let limits = book.limits;
    let ratio = book.ratio as usize;
    let mut sizes = [SlotGrid {
        step: 0,
        top: 0,
        width: 0,
        depth: 0,
    }; Book::SLOTS];
    let mut rows: usize = 1;
    let mut width: usize = 1;
    let mut cells: usize = 1;
    let mut origin: usize = 0;
    for t in (0..slots).rev() {
        if Book::CELLS < cells {
            break;
        }
        let slot = slot_of(limits[t], book.count, book.fineness, ratio);
        sizes[t] = slot;
        rows *= slot.top;
        width *= slot.width;
        cells *= slot.top * slot.width;
        origin = origin * slot.width + slot.depth;
    }
    Grid {
        cells,
        width,
        rows,
        origin,
        slots,
        sizes,
    }
}
