// The tally: how often each kind of thing was drawn and answered, and how that is printed. A kind is a place in the tally and no enum, as most kinds go by a
// number, T, o or a refusal's, that is added to the first place.
#![tactic(auto)]

ghost use Rattle.std.specs.Prelude.{◌≡◌, cond, replicate};
ghost use Rattle.kinds.specs.Tally.{counted};

use plain::at;
use std::io;
use std::io::Print;

// Answers by the number that is due: those of the planner, the quick planner and the sheet reader.
pub const PLANNER: usize = 0;

pub const QUICK: usize = 16;

pub const READER: usize = 32;

// Books by T, from the next on.
pub const BOOKS: usize = 48;

pub const LIMIT_ZERO: usize = 53;

pub const STEP_ONE: usize = 54;

pub const STEP_ABOVE_ONE: usize = 55;

// Loads by o, from the next on.
pub const LOADS: usize = 56;

// Loads that are the one before again, and those with its Q turned about.
pub const AGAIN: usize = 60;

pub const TURNED_ABOUT: usize = 61;

// Options and slots with a P and a Q; Q below 0; |Q| as large as P.
pub const PAIRS: usize = 62;

pub const BELOW_ZERO: usize = 63;

pub const AS_LARGE: usize = 64;

// Books whose plan has equals in worth.
pub const TIES: usize = 65;

// Damaged books with one fault and with two, from the next on.
pub const FAULTS: usize = 66;

// Comparisons, and those that differ.
pub const COMPARED: usize = 69;

pub const DIFFER: usize = 70;

// Books that fit the work area and have a step above 1 in a slot, and in two, by T, from the next on.
pub const STEPPED: usize = 71;

pub const STEPPED_TWICE: usize = 76;

#[derive(Drop)]
pub struct Tally {
    counts: [u64; 96],
}

impl Tally {
    pub fn new() -> Tally
        ensures { result.counts ≡ replicate 96 0 }
    {
        Tally { counts: [0; 96] }
    }

    // One more of a kind.
    pub fn count(&mut self, kind: usize)
        ensures { self.new.counts ≡ counted self.old.counts kind }
    {
        // by index: no clause says what a write through `get_mut` leaves
        if kind < self.counts.len() {
            self.counts[kind] = self.counts[kind].wrapping_add(1);
        }
    }

    // One more where a fact holds.
    pub fn count_if(&mut self, kind: usize, holds: bool)
        ensures { self.new.counts ≡ cond holds (counted self.old.counts kind) self.old.counts }
    {
        if holds {
            self.count(kind);
        }
    }
}

fn print_count(rt: &impl Print, name: &[u8], n: u64) -> io::Result<()> {
    rt.write_all(name)?;
    rt.print(n)?;
    rt.write_all(b"\n")
}

fn print_kind(rt: &impl Print, name: &[u8], tally: &Tally, kind: usize) -> io::Result<()> {
    print_count(rt, name, at(&tally.counts, kind))
}

// The answers of one call, by number.
fn print_answers(rt: &impl Print, call: &[u8], tally: &Tally, first: usize) -> io::Result<()> {
    let answers = tally.counts.iter().skip(first).take(14);
    for (number, n) in answers.enumerate() {
        if *n > 0 {
            rt.write_all(call)?;
            rt.print(number)?;
            print_count(rt, b": ", *n)?;
        }
    }
    Ok(())
}

// What was drawn, by kind.
fn print_drawn(rt: &impl Print, tally: &Tally) -> io::Result<()> {
    let kinds: [(&[u8], usize); 25] = [
        (b"books of 1 slot: ", BOOKS + 1),
        (b"books of 2 slots: ", BOOKS + 2),
        (b"books of 3 slots: ", BOOKS + 3),
        (b"books of 4 slots: ", BOOKS + 4),
        (b"books whose plan has equals: ", TIES),
        (b"slots with limit 0: ", LIMIT_ZERO),
        (b"slots with step 1: ", STEP_ONE),
        (b"slots with a step above 1: ", STEP_ABOVE_ONE),
        (b"planned books of 1 slot, step above 1: ", STEPPED + 1),
        (b"planned books of 2 slots, a step above 1: ", STEPPED + 2),
        (b"planned books of 3 slots, a step above 1: ", STEPPED + 3),
        (b"planned books of 4 slots, a step above 1: ", STEPPED + 4),
        (
            b"planned books of 2 slots, two steps above 1: ",
            STEPPED_TWICE + 2,
        ),
        (
            b"planned books of 3 slots, two steps above 1: ",
            STEPPED_TWICE + 3,
        ),
        (
            b"planned books of 4 slots, two steps above 1: ",
            STEPPED_TWICE + 4,
        ),
        (b"loads with 1 option: ", LOADS + 1),
        (b"loads with 2 options: ", LOADS + 2),
        (b"loads with 3 options: ", LOADS + 3),
        (b"loads that are the one before again: ", AGAIN),
        (
            b"loads with the Q of the one before turned about: ",
            TURNED_ABOUT,
        ),
        (b"pairs of P and Q: ", PAIRS),
        (b"pairs with Q below 0: ", BELOW_ZERO),
        (b"pairs with |Q| = P above 0: ", AS_LARGE),
        (b"damaged books with one fault: ", FAULTS + 1),
        (b"damaged books with two faults: ", FAULTS + 2),
    ];
    for (name, kind) in kinds {
        print_kind(rt, name, tally, kind)?;
    }
    Ok(())
}

pub fn print_tally(rt: &impl Print, tally: &Tally) -> io::Result<()> {
    print_drawn(rt, tally)?;
    print_answers(rt, b"planner, number ", tally, PLANNER)?;
    print_answers(rt, b"quick planner, number ", tally, QUICK)?;
    print_answers(rt, b"sheet reader, number ", tally, READER)?;
    print_kind(rt, b"compared: ", tally, COMPARED)?;
    print_kind(rt, b"differ: ", tally, DIFFER)
}
