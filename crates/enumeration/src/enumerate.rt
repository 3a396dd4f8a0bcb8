// The enumeration: every choice of a book by itself, numbered from 0 in the order of their codes, and what document 01 says of it.
ghost use Rattle.std.specs.Prelude.{◌≡◌, ◌*◌, ◌%◌, ◌^◌, ◌≤◌};
ghost use Rattle.enumeration.specs.Choices.{choices_of};

use fields::{Book, Header, Setting};

// The number of choices of the first loads.
pub fn choices(book: &Book, first: usize) -> u64
    ensures { result ≡ choices_of book.now first }
{
    let loads = book.loads().iter().take(first);
    loads.fold(1, |all: u64, load| all.wrapping_mul(load.levels()))
}

// The c of a load.
pub fn level(book: &Book, choice: u64, k: usize) -> u64 {
    let levels = book.loads().get(k).map_or(1, |load| load.levels());
    let before = choice.checked_div(choices(book, k)).unwrap_or(0);
    before.checked_rem(levels).unwrap_or(0)
}

// "Its code is the sum of c × 4^(k-1)", from the last load on.
pub fn code(book: &Book, choice: u64) -> u64 {
    let mut code: u64 = 0;
    for k in (0..book.header.loads).rev() {
        code = code.wrapping_mul(4).wrapping_add(level(book, choice, k));
    }
    code
}

// What a choice comes to in one slot: its worth, the true sums, and the sums of the grid values. A reactive sum is how far it goes up
// and how far down.
#[derive(Clone, Copy)]
pub struct Totals {
    pub worth: u64,
    pub active: u64,
    pub up: u64,
    pub down: u64,
    pub grid_active: u64,
    pub grid_up: u64,
    pub grid_down: u64,
}

impl Totals {
    const NONE: Totals = Totals {
        worth: 0,
        active: 0,
        up: 0,
        down: 0,
        grid_active: 0,
        grid_up: 0,
        grid_down: 0,
    };

    // The sums with one more option; "each rounded first", toward minus infinity.
    fn with_option(self, option: &Setting, slot: usize, step: u64) -> Totals {
        let pair = option.pair(slot);
        let rounded = |n: u64| n.checked_div(step).unwrap_or(0);
        let deeper = pair.down.wrapping_add(step.saturating_sub(1));
        Totals {
            worth: self.worth.wrapping_add(option.worth),
            active: self.active.wrapping_add(pair.active),
            up: self.up.wrapping_add(pair.up),
            down: self.down.wrapping_add(pair.down),
            grid_active: self.grid_active.wrapping_add(rounded(pair.active)),
            grid_up: self.grid_up.wrapping_add(rounded(pair.up)),
            grid_down: self.grid_down.wrapping_add(rounded(deeper)),
        }
    }
}

// "those of the chosen P and Q"; "0 is standing and draws nothing."
pub fn sums(book: &Book, choice: u64, slot: usize) -> Totals {
    let step = book.header.step(slot);
    let mut sums = Totals::NONE;
    for (k, load) in book.loads().iter().enumerate() {
        let c = level(book, choice, k) as usize;
        if let Some(option) = load.options.get(c.wrapping_sub(1)) {
            sums = sums.with_option(option, slot, step);
        }
    }
    sums
}

pub fn worth(book: &Book, choice: u64) -> u64 {
    let s = sums(book, choice, 0);
    s.worth
}

pub fn square(a: u64) -> u64
    ensures { result ≡ (a * a) % 2 ^ 64 }
{
    a.wrapping_mul(a)
}

// "P² + Q² ≤ S²" in a slot.
fn is_within(header: Header, slot: usize, p: u64, q: u64) -> bool {
    square(p).wrapping_add(square(q)) <= square(header.limit(slot))
}

// Whether every slot's true sums are within the limit.
pub fn keeps(book: &Book, choice: u64) -> bool {
    (0..book.header.slots).all(|slot| {
        let s = sums(book, choice, slot);
        is_within(book.header, slot, s.active, s.up.abs_diff(s.down))
    })
}

// "only p = aL and the q nearest to 0 need be tried"
fn is_admitted(book: &Book, choice: u64, slot: usize) -> bool {
    let s = sums(book, choice, slot);
    let step = book.header.step(slot);
    let spread = step
        .saturating_sub(1)
        .wrapping_mul(book.header.loads as u64);
    let p = s.grid_active.wrapping_mul(step);
    let high = s.grid_up.saturating_sub(s.grid_down).wrapping_mul(step);
    let low = s.grid_down.saturating_sub(s.grid_up).wrapping_mul(step);
    let q = high.wrapping_add(low.saturating_sub(spread));
    is_within(book.header, slot, p, q)
}

// "A choice is admitted when all its slots are."
fn admitted(book: &Book, choice: u64) -> bool {
    (0..book.header.slots).all(|slot| is_admitted(book, choice, slot))
}

// "the admitted choice of greatest worth; among equals, the smallest code", and how many equals come after it.
#[derive(Clone, Copy)]
pub struct Best {
    pub choice: u64,
    pub worth: u64,
    pub equals: u64,
}

pub fn best_choice(book: &Book) -> Best {
    let mut best = Best {
        choice: 0,
        worth: 0,
        equals: 0,
    };
    for choice in 1..choices(book, book.header.loads) {
        best = better(best, book, choice);
    }
    best
}

fn better(best: Best, book: &Book, choice: u64) -> Best {
    let worth = worth(book, choice);
    if worth < best.worth || !admitted(book, choice) {
        best
    } else if worth == best.worth {
        Best {
            equals: best.equals.wrapping_add(1),
            ..best
        }
    } else {
        Best {
            choice,
            worth,
            equals: 0,
        }
    }
}

// Numbers of cells from here on are not told apart; all of them are too many (oversize).
const MANY: u64 = 4000000;

// "cells is the product over the slots"; in a loop, as it is capped after each factor
pub fn cells(header: Header) -> u64
    ensures { result ≤ 4000000 }
{
    let mut product: u64 = 1;
    for slot in 0..header.slots {
        let pairs = pairs(header, slot).min(MANY);
        product = product.wrapping_mul(pairs).min(MANY);
    }
    product
}

// "a slot has (R + 1) × (2R + N + 1) grid pairs"
fn pairs(header: Header, slot: usize) -> u64 {
    let r = header.reach(slot);
    let wide = r.wrapping_mul(2).wrapping_add(header.loads as u64);
    r.wrapping_add(1).wrapping_mul(wide.wrapping_add(1))
}
