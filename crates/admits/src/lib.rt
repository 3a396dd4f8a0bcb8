// Whether the slots admit a cell of the table.
#![tactic(auto)]

ghost use Rattle.std.specs.Prelude.{◌≡◌, ◌+◌, ◌-◌, ◌*◌, ◌≤◌, leb};
ghost use Rattle.std.proofs.Math.IntN.{sub_ℕ};
ghost use Rattle.model.specs.Choice.{square};
ghost use Rattle.model.specs.Grid.{least_abs};
ghost use Rattle.model.specs.Cells.{admits_all};
ghost use Rattle.model.specs.Index.{grid_from};
ghost use Rattle.admits.specs.Admits.{most_reach, PairFits, SlotsHeld};

use grid::{Grid, SlotGrid};
use model::Book;

// The least |q| of bL ≤ q ≤ bL + e, where `raised` is b + depth, `step` is L and `spread` is e.
fn nearest(raised: u64, depth: u64, step: u64, spread: u64) -> u64
    requires { (raised + depth) * step ≤ most_reach }
    ensures { (result ≡ least_abs step spread (sub_ℕ raised depth)) × (result ≤ most_reach) }
{
    if depth <= raised {
        return (raised - depth) * step;
    }
    ((depth - raised) * step).saturating_sub(spread)
}

// Whether a slot is admitted at the grid pair (a, b), where `raised` is b + `depth`, and `count` is N.
fn admits_pair(a: u64, raised: u64, depth: u64, step: u64, count: u64, limit: u64) -> bool
    requires { PairFits a raised depth step count limit }
    ensures { result ≡ leb (square (a * step) + square (least_abs step (count * (step - 1)) (sub_ℕ raised depth))) (square limit) }
{
    let p = a * step;
    let q = nearest(raised, depth, step, count * (step - 1));
    p * p + q * q <= limit * limit
}

// Whether every slot is admitted at the cell of a row and a column.
pub fn admits_cell(
    row: usize,
    col: usize,
    grid: Grid,
    count: u64,
    limits: [u64; Book::SLOTS],
) -> bool
    requires { SlotsHeld grid count limits }
    ensures { (h : SlotsHeld grid count limits) → result ≡ admits_all h.laid.slots (grid_from h.laid.slots row col) }
{
    let slots = grid.slots;
    let mut a = row;
    let mut b = col;
    for t in 0..slots {
        let SlotGrid {
            step,
            top,
            width,
            depth,
        } = grid.sizes[t];
        let limit = limits[t];
        if !admits_pair(
            (a % top) as u64,
            (b % width) as u64,
            depth as u64,
            step,
            count,
            limit,
        ) {
            return false;
        }
        a /= top;
        b /= width;
    }
    true
}
