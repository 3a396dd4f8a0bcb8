// What each setting of a book does to a cell of the table.
#![tactic(auto)]

ghost use Rattle.std.specs.Prelude.{◌≡◌, [], ℕ, ◌+◌, ◌^◌, ◌<◌, ◌≤◌, get_or};
ghost use Rattle.model.specs.Grid.{floor_div};
ghost use Rattle.model.specs.Choice.{setting_of};
ghost use Rattle.model.specs.Values.{raised, lowered, Held, problem_of};
ghost use Rattle.model.specs.Rounding.{floor_by_sum};
ghost use Rattle.grid.specs.Geometry.{Laid};
ghost use Rattle.moves.specs.Moves.{moves_of, MoveIs, LoadIs, LoadHeld};

use grid::{Grid, SlotGrid};
use model::{Book, Load};
use stretch::{LoadMoves, SettingMove};

// The grid value of a reactive power, by arithmetic that asks for no sign: `power` is Q + 32,768, so that 32,768 × (L - 1) more make
// Q + 32,768 × L, and the quotient is the grid value + 32,768. The 32,768 are taken off where the columns move (`down`).
fn grid_value(power: u64, step: u64) -> u64
    requires { (power ≤ 65536) × (1 ≤ step) × (step ≤ 65535) }
    ensures value { result ≡ raised (floor_by_sum (lowered power) step) }
    ensures step_value { floor_by_sum (lowered power) step ≡ floor_div (lowered power) step }
{
    (power + 32768 * (step - 1)) / step
}

// What setting c of a load does, where `unit` is what an option counts in the code. Both ways of the columns are raised alike.
fn move_of(load: Load, c: usize, unit: u64, grid: Grid) -> SettingMove
    requires load_held { LoadHeld load }
    requires laid { Laid grid }
    requires least_le_c { (load.least ≤ c) × (c < load.least + load.settings) × (unit ≤ 70368744177664) }
    ensures { (h : LoadHeld load) (l : Laid grid) (k : ℕ) → unit ≡ 4 ^ k → MoveIs l.slots k (setting_of h.settings c) result }
{
    let mut active = [0usize; Book::SLOTS];
    let mut back: usize = 0;
    let mut up: usize = 0;
    let mut down: usize = 0;
    for t in (0..grid.slots).rev() {
        let at = Book::SLOTS * c + t;
        let SlotGrid {
            step,
            top,
            width,
            ..
        } = grid.sizes[t];
        let p = load.actives[at];
        let q = load.reactives[at];
        let a = (p / step) as usize;
        let b = grid_value(q, step) as usize;
        active[t] = a;
        back = back * top + a;
        up = up * width + b;
        down = down * width + 32768;
    }
    let gain = load.worths[c];
    let digit = c as u64 * unit;
    SettingMove {
        gain,
        digit,
        back,
        up,
        down,
        active,
    }
}

// What fills the places of settings that a load does not have.
fn no_move() -> SettingMove {
    SettingMove {
        gain: 0,
        digit: 0,
        back: 0,
        up: 0,
        down: 0,
        active: [0; Book::SLOTS],
    }
}

// What the settings of a load do, in their order, which is that of their numbers.
fn moves_of(load: Load, unit: u64, grid: Grid) -> LoadMoves
    requires load_held { LoadHeld load }
    requires laid { Laid grid }
    requires unit_bound { unit ≤ 70368744177664 }
    ensures { (h : LoadHeld load) (l : Laid grid) (k : ℕ) → unit ≡ 4 ^ k → LoadIs l.slots k h.settings result }
{
    let least = load.least;
    let settings = load.settings;
    let still = no_move();
    let mut moves = [still; Load::SETTINGS];
    for i in 0..settings {
        moves[i] = move_of(load, least + i, unit, grid);
    }
    LoadMoves {
        count: settings,
        moves,
    }
}

// What the settings of all loads do; an option of load k + 1 counts 4^k.
pub fn loads_of(book: Book, grid: Grid) -> [LoadMoves; Book::LOADS]
    requires held { Held book }
    requires laid { Laid grid }
    ensures { (l : Laid grid) (k : ℕ) → k < book.count → LoadIs l.slots k (get_or (problem_of book).loads k []) (moves_of result k) }
{
    let loads = book.count;
    let still = no_move();
    let none = LoadMoves {
        count: 0,
        moves: [still; Load::SETTINGS],
    };
    let mut moves = [none; Book::LOADS];
    let mut unit: u64 = 1;
    for k in 0..loads {
        let load = book.loads[k];
        moves[k] = moves_of(load, unit, grid);
        unit *= 4;
    }
    moves
}
