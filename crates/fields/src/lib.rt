// A book as the bench draws it, and as text (`text`). The budget stands beside it.
#![tactic(auto)]

ghost use Rattle.std.specs.Prelude.{◌≡◌, ◌+◌, ◌/◌, ◌%◌, ◌^◌, slice_index, slice_index_or};
ghost use Rattle.fields.specs.Slots.{negative_bits, reactive_bits, parts_of, step_of, steps_above};
ghost use Rattle.fields.specs.Used.{used_loads};

use plain::at;

mod text;

pub use text::{push_header, push_load, text_of};

// P and Q of an option in a slot: Q as how far it lies above 0, and how far below.
#[derive(Clone, Copy)]
pub struct Pair {
    pub active: u64,
    pub up: u64,
    pub down: u64,
}

// An option, with a pair for each of four slots, of which the book uses the first.
#[derive(Clone, Copy)]
pub struct Setting {
    pub worth: u64,
    pub pairs: [Pair; 4],
}

// How a load was drawn: as the one before again, with that one's Q turned about, or by itself.
#[derive(Clone, Copy)]
pub enum Way {
    Again,
    TurnedAbout,
    ByItself,
}

// A load, which uses the first of its options: o says how many.
#[derive(Clone, Copy)]
pub struct Load {
    pub way: Way,
    pub o: usize,
    pub options: [Setting; 3],
}

// T, N, d and the limits, of which the book uses the first T.
#[derive(Clone, Copy)]
pub struct Header {
    pub slots: usize,
    pub loads: usize,
    pub fineness: u64,
    pub limits: [u64; 4],
}

// A book, which uses the first N of its loads.
#[derive(Drop)]
pub struct Book {
    pub header: Header,
    pub loads: [Load; 10],
}

// The 16 bits of a Q that lies this far below 0, at most 32,768.
pub fn negative(far: u64) -> u64
    ensures { result ≡ negative_bits far }
{
    if far == 0 {
        0
    } else {
        65536u64.saturating_sub(far)
    }
}

impl Pair {
    pub const NONE: Pair = Pair {
        active: 0,
        up: 0,
        down: 0,
    };

    // |Q|: it lies on one side of 0 only.
    pub fn far(self) -> u64
        ensures { result ≡ (self.up + self.down) % 2 ^ 64 }
    {
        self.up.wrapping_add(self.down)
    }

    // Q as 16 bits.
    fn reactive(self) -> u64
        ensures { result ≡ reactive_bits self.up self.down }
    {
        self.up.wrapping_add(negative(self.down))
    }
}

impl Setting {
    pub const NONE: Setting = Setting {
        worth: 0,
        pairs: [Pair::NONE; 4],
    };

    pub fn pair(&self, slot: usize) -> Pair
        ensures { result ≡ slice_index_or self.now.pairs slot (record { active = 0; up = 0; down = 0 }) }
    {
        self.pairs.get(slot).copied().unwrap_or(Pair::NONE)
    }
}

impl Load {
    pub const NONE: Load = Load {
        way: Way::ByItself,
        o: 0,
        options: [Setting::NONE; 3],
    };

    // Standing, and each option.
    pub fn levels(&self) -> u64
        ensures { result ≡ (self.now.o + 1) % 2 ^ 64 }
    {
        (self.o as u64).wrapping_add(1)
    }
}

impl Header {
    pub fn limit(&self, slot: usize) -> u64
        ensures { result ≡ slice_index self.now.limits slot }
    {
        at(&self.limits, slot)
    }

    // N × d
    pub fn parts(&self) -> u64
        ensures { result ≡ parts_of self.now.fineness self.now.loads }
    {
        self.fineness.wrapping_mul(self.loads as u64)
    }

    // "the step L is S div (N × d), but at least 1"
    pub fn step(&self, slot: usize) -> u64
        ensures { result ≡ step_of (slice_index self.now.limits slot) (parts_of self.now.fineness self.now.loads) }
    {
        let step = self.limit(slot).checked_div(self.parts());
        step.unwrap_or(0).max(1)
    }

    // How many slots have a step above 1.
    pub fn steps_above(&self) -> usize
        ensures { result ≡ steps_above self.now.limits (parts_of self.now.fineness self.now.loads) self.now.slots }
    {
        (0..self.slots).filter(|slot| self.step(*slot) > 1).count()
    }

    // "R = S div L"
    pub fn reach(&self, slot: usize) -> u64
        ensures { result ≡ slice_index self.now.limits slot / step_of (slice_index self.now.limits slot) (parts_of self.now.fineness self.now.loads) }
    {
        self.limit(slot).checked_div(self.step(slot)).unwrap_or(0)
    }
}

impl Book {
    // The loads that the book uses.
    pub fn loads(&self) -> &[Load]
        ensures { result.now ≡ used_loads self.now }
    {
        self.loads.get(..self.header.loads).unwrap_or(&[])
    }
}
