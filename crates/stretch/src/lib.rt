// What a setting does to a cell, and how far a load's settings reach: the stretch of columns of each row, and the rows.
#![tactic(auto)]

ghost use Rattle.std.specs.Prelude.{◌≡◌, ℕ, ◌+◌, ◌<◌, ◌≤◌, get_or};
ghost use Rattle.model.specs.Bounds.{most_slots, most_settings, most_cells};
ghost use Rattle.grid.specs.Geometry.{no_sizes};
ghost use Rattle.stretch.specs.Stretch.{covers_from, GridFits, StretchesFit, MoveFits, LoadFits, Clipped, Part, Joined, Spans, Reaches};

use grid::{Grid, SlotGrid};
use model::{Book, Load};

// What a setting does to a cell: the worth it adds, its digit in the code, how many rows back its source row is, how far the columns
// move up and down, and its active coordinates.
#[derive(Clone, Copy)]
pub struct SettingMove {
    pub gain: u64,
    pub digit: u64,
    pub back: usize,
    pub up: usize,
    pub down: usize,
    pub active: [usize; Book::SLOTS],
}

// What the settings of a load do, by ascending number: an array with its count, as there is no heap.
#[derive(Clone, Copy)]
pub struct LoadMoves {
    pub count: usize,
    pub moves: [SettingMove; Load::SETTINGS],
}

// The columns from `low` to before `high`; none where low is not below high. No Option, as the definitions (`Spans`, `StretchesFit`) ask for both ends of
// every stretch, empty or not.
#[derive(Clone, Copy)]
pub struct Stretch {
    pub low: usize,
    pub high: usize,
}

// The stretches of a layer's rows, in two arrays, as the definitions (`EmptyFrom`, `LayerMade`) take two lists. That they fit a grid is a clause, as it is said
// of both.
#[derive(Clone, Copy)]
pub struct Stretches {
    pub lows: [usize; Grid::ROWS],
    pub highs: [usize; Grid::ROWS],
}

// Whether a row's active coordinate is at least `active` in every slot.
fn covers(
    row: usize,
    slots: usize,
    sizes: &[SlotGrid; Book::SLOTS],
    active: [usize; Book::SLOTS],
) -> bool
    requires slots_le_most_slots { slots ≤ most_slots }
    requires by_index { (t : ℕ) → t < slots → 0 < (get_or sizes.now t no_sizes).top }
    ensures { result ≡ covers_from sizes.now active 0 slots row }
{
    let mut rest = row;
    for t in 0..slots {
        let top = sizes[t].top;
        if rest % top < active[t] {
            return false;
        }
        rest /= top;
    }
    true
}

// The columns to which a shift by `up` and `down` takes a stretch, within a row.
fn clip(low: usize, high: usize, up: usize, down: usize, width: usize) -> Stretch
    requires { (low ≤ most_cells) × (high ≤ most_cells) × (up ≤ 1099511627776) × (down ≤ 1099511627776) }
    ensures { Clipped low high up down width result }
{
    Stretch {
        low: (low + up).saturating_sub(down).min(width),
        high: (high + up).saturating_sub(down).min(width),
    }
}

// The columns of a row to which a setting offers something.
pub fn part_of(grid: &Grid, layer: &Stretches, row: usize, mv: SettingMove) -> Stretch
    requires grid_fits { GridFits grid.now }
    requires stretches_fit { StretchesFit layer.now.lows layer.now.highs grid.now }
    requires row_lt_rows { row < grid.now.rows }
    requires move_fits { MoveFits grid.now mv }
    ensures { Part layer.now.lows layer.now.highs grid.now row mv result }
{
    let back = mv.back;
    if row < back {
        return Stretch { low: 0, high: 0 };
    }
    let from = row - back;
    let low = layer.lows[from];
    let high = layer.highs[from];
    if high <= low {
        return Stretch { low: 0, high: 0 };
    }
    let active = mv.active;
    if covers(row, grid.slots, &grid.sizes, active) {
        return clip(low, high, mv.up, mv.down, grid.width);
    }
    Stretch { low: 0, high: 0 }
}

impl Stretch {
    // The least stretch that holds both.
    fn joined(self, part: Stretch) -> Stretch
        ensures { Joined self part result }
    {
        if part.high <= part.low {
            return self;
        }
        if self.high <= self.low {
            return part;
        }
        Stretch {
            low: self.low.min(part.low),
            high: self.high.max(part.high),
        }
    }
}

// The stretch of a row that a load's settings can reach.
pub fn span_of(grid: &Grid, layer: &Stretches, row: usize, load: LoadMoves) -> Stretch
    requires grid_fits { GridFits grid.now }
    requires stretches_fit { StretchesFit layer.now.lows layer.now.highs grid.now }
    requires row_lt_rows { row < grid.now.rows }
    requires load_fits { LoadFits grid.now load }
    ensures { Spans layer.now.lows layer.now.highs grid.now row load load.count result }
{
    let mut s = Stretch { low: 0, high: 0 };
    for n in 0..load.count {
        s = s.joined(part_of(grid, layer, row, load.moves[n]));
    }
    s
}

// How many rows of the next layer a load can reach, where `used` rows of the current one are.
pub fn reach_of(grid: Grid, load: LoadMoves, used: usize) -> usize
    requires { (load.count ≤ most_settings) × (used ≤ grid.rows) }
    ensures { Reaches grid load used result }
{
    let mut r = used;
    for n in 0..load.count {
        r = r.max(used.saturating_add(load.moves[n].back).min(grid.rows));
    }
    r
}
