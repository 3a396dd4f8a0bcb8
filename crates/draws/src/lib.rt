// The generator of books, and the counts of what it drew. A way of drawing goes by the number that was drawn for it, and is no enum, as several numbers stand for
// one way so that it is drawn more often.
#![tactic(auto)]

ghost use Rattle.std.specs.Prelude.{◌≡◌, ◌+◌, ◌%◌, ◌<◌, ◌≤◌};

use fields::{Book, Header, Load, Pair, Setting, Way};
use plain::Draws;

mod count;

pub use count::count_book;

// Whether a book's table is kept small by limits near 0, as more loads or more slots would pass the work area.
fn is_tight(header: Header) -> bool {
    let slots = header.slots;
    slots > 2 && slots.wrapping_add(header.loads) > 5
}

// A fineness for which most books fit the work area, by T and N.
fn draw_fitting(draws: &mut Draws, header: Header) -> u64
    ensures { (0 < result) × (result ≤ 64) }
{
    let loads = header.loads as u64;
    match header.slots {
        1 => draws.roll_from(1, 160u64.checked_div(loads).unwrap_or(0).min(64)),
        2 => draws.roll_from(1, 8u64.checked_div(loads).unwrap_or(0).max(1)),
        _ => 1,
    }
}

// A fineness: any, or one that fits.
fn draw_fineness(draws: &mut Draws, header: Header) -> u64
    ensures { (0 < result) × (result ≤ 64) }
{
    let kind = draws.roll(32);
    if kind == 0 || (kind < 16 && is_tight(header)) {
        draws.roll_from(1, 64)
    } else {
        draw_fitting(draws, header)
    }
}

// A limit of a tight book: with the least fineness a step above 1 in some slots and 0 in most others, else near 0.
fn draw_tight(draws: &mut Draws, header: Header) -> u64 {
    let kind = draws.roll(16);
    let least = header.fineness == 1;
    if least && kind < 6 {
        draw_multiple(draws, header.loads as u64)
    } else if least && kind < 13 {
        0
    } else {
        draws.roll(6u64.saturating_sub(header.slots as u64))
    }
}

// A multiple of N × d and a little more, so that R is N × d. The steps are small in every other draw, as there the spread tells most.
fn draw_multiple(draws: &mut Draws, parts: u64) -> u64 {
    let most = if draws.roll(2) == 0 { 4 } else { 200 };
    let largest = 65535u64.checked_div(parts).unwrap_or(0).saturating_sub(1);
    let step = draws.roll_from(1, largest.min(most));
    draws.roll_from(step.wrapping_mul(parts), step.min(parts))
}

// A limit: any, 0, or as the book's T and N bear it: where it is not tight, below the first step above 1, or a multiple of N × d and a little more.
fn draw_limit(draws: &mut Draws, header: Header) -> u64 {
    let kind = draws.roll(16);
    let parts = header.parts();
    match kind {
        0 => draws.roll(65536),
        1 => 0,
        _ if is_tight(header) => draw_tight(draws, header),
        2..=5 => draws.roll(parts.wrapping_mul(2)),
        _ => draw_multiple(draws, parts),
    }
}

// N: mostly up to 8, now and then 9 or 10.
fn draw_count(draws: &mut Draws) -> usize
    ensures { (0 < result) × (result ≤ 10) }
{
    let many = draws.roll(24);
    let few = draws.roll(8);
    let n = if many == 0 {
        9 + few % 2
    } else {
        few.wrapping_add(1)
    };
    n as usize
}

// T in turn, then N, d and the limits.
fn draw_header(draws: &mut Draws, turn: usize) -> Header
    ensures slots { result.slots ≡ turn % 4 + 1 }
    ensures loads { (0 < result.loads) × (result.loads ≤ 10) }
    ensures fineness { (0 < result.fineness) × (result.fineness ≤ 64) }
{
    let mut header = Header {
        slots: turn % 4 + 1,
        loads: draw_count(draws),
        fineness: 1,
        limits: [0; 4],
    };
    header.fineness = draw_fineness(draws, header);
    let mut limits = [0; 4];
    for limit in limits.iter_mut().take(header.slots) {
        *limit = draw_limit(draws, header);
    }
    header.limits = limits;
    header
}

// As many options as the enumeration bears.
fn draw_options(draws: &mut Draws, loads: usize) -> usize {
    let o = match loads {
        0..=4 => draws.roll_from(1, 3),
        5 => draws.roll_from(1, 2),
        _ => 1,
    };
    o as usize
}

// Worth: of few values, so that there are ties, or any.
fn draw_worth(draws: &mut Draws) -> u64 {
    let values = if draws.roll(3) == 0 { 65536 } else { 4 };
    draws.roll(values)
}

// P: such that some of the loads fit together, and now and then any.
fn draw_active(draws: &mut Draws, header: Header, slot: usize) -> u64 {
    if draws.roll(40) == 0 {
        draws.roll(65536)
    } else {
        let three = header.limit(slot).wrapping_mul(3);
        let share = three.checked_div(header.loads as u64).unwrap_or(0);
        draws.roll(share.wrapping_add(2)).min(65535)
    }
}

// P, and Q by its kind: 0, as large as P on either side of 0, or between.
fn draw_pair(draws: &mut Draws, header: Header, slot: usize) -> Pair {
    let active = draw_active(draws, header, slot);
    let kind = draws.roll(7);
    let far = draws.roll(active.wrapping_add(1));
    let (up, down) = match kind {
        0 => (0, 0),
        1 => (active.min(32767), 0),
        2 => (0, active.min(32768)),
        3 | 4 => (far.min(32767), 0),
        _ => (0, far.min(32768)),
    };
    Pair { active, up, down }
}

fn draw_option(draws: &mut Draws, header: Header) -> Setting {
    let mut option = Setting::NONE;
    option.worth = draw_worth(draws);
    for slot in 0..4 {
        option.pairs[slot] = draw_pair(draws, header, slot);
    }
    option
}

// A load by itself, with its o and options of which it may use fewer.
fn draw_own(draws: &mut Draws, header: Header, o: usize) -> Load {
    let mut options = [Setting::NONE; 3];
    for option in options.iter_mut() {
        *option = draw_option(draws, header);
    }
    Load {
        way: Way::ByItself,
        o,
        options,
    }
}

// A load with each Q on the other side of 0, so that it cancels the one before.
fn turned_about(before: &Load) -> Load {
    let mut load = *before;
    for option in load.options.iter_mut() {
        for pair in option.pairs.iter_mut() {
            let up = pair.down.min(32767);
            pair.down = pair.up;
            pair.up = up;
        }
    }
    load
}

// A load: mostly by itself, else a twin of the one before, if there is one. The o of a twin is drawn too, and then given up.
fn draw_load(draws: &mut Draws, header: Header, before: Option<Load>) -> Load {
    let kind = draws.roll(6);
    let o = draw_options(draws, header.loads);
    match before {
        Some(before) if kind == 0 => Load {
            way: Way::Again,
            ..before
        },
        Some(before) if kind == 1 => Load {
            way: Way::TurnedAbout,
            ..turned_about(&before)
        },
        _ => draw_own(draws, header, o),
    }
}

// The book of a turn; loads that it does not use are drawn too.
pub fn draw_book(draws: &mut Draws, turn: usize) -> Book
    ensures slots { result.header.slots ≡ turn % 4 + 1 }
    ensures loads { (0 < result.header.loads) × (result.header.loads ≤ 10) }
    ensures fineness { (0 < result.header.fineness) × (result.header.fineness ≤ 64) }
{
    let header = draw_header(draws, turn);
    let mut loads = [Load::NONE; 10];
    let mut before = None;
    for load in loads.iter_mut() {
        *load = draw_load(draws, header, before);
        before = Some(*load);
    }
    Book { header, loads }
}
