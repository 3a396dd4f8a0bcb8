// Books with one fault or two, put in on purpose: a fault is a refusal's number of 1 to 8 and the line that it is put on. By
// document 01's order the answer is that of the earlier line, and on one line the lower number. A fault goes by its number and is no enum: it is drawn and
// compared as a number, and answered as one.
#![tactic(auto)]

ghost use Rattle.std.specs.Prelude.{◌≡◌, ◌<◌, ◌≤◌, ◌==◌, ◌&&◌, cond, nat_lt, MatchOption, IsNone, IsSomeAnd};

use fields::{Book, Load, negative, push_header, push_load};
use plain::{Draws, Text};

#[derive(Clone, Copy)]
pub struct Fault {
    pub number: u64,
    pub line: u64,
}

// A fault, and where there are two the one of the higher number.
#[derive(Clone, Copy)]
pub struct Faults {
    pub high: Option<Fault>,
    pub low: Fault,
}

// A line on which a fault of this number can be.
fn draw_line(draws: &mut Draws, loads: u64, number: u64) -> u64 {
    match number {
        6 => 1,
        7 => draws.roll_from(2, loads),
        8 => loads.wrapping_add(2),
        _ => draws.roll_from(1, loads.wrapping_add(1)),
    }
}

fn draw_fault(draws: &mut Draws, book: &Book, number: u64) -> Fault
    ensures { result.number ≡ number }
{
    let line = draw_line(draws, book.header.loads as u64, number);
    Fault { number, line }
}

pub fn draw_one(draws: &mut Draws, book: &Book) -> Faults
    ensures one { IsNone result.high }
    ensures number { (0 < result.low.number) × (result.low.number ≤ 8) }
{
    let number = draws.roll_from(1, 8);
    Faults {
        high: None,
        low: draw_fault(draws, book, number),
    }
}

// Two faults of different numbers.
pub fn draw_two(draws: &mut Draws, book: &Book) -> Faults
    ensures low { 0 < result.low.number }
    ensures high { IsSomeAnd result.high (λ high. (result.low.number < high.number) × (high.number ≤ 8)) }
{
    let one = draws.roll_from(2, 7);
    let other = draws.roll_from(1, one.saturating_sub(1));
    let high = draw_fault(draws, book, one);
    Faults {
        high: Some(high),
        low: draw_fault(draws, book, other),
    }
}

impl Faults {
    // How many faults are in the text: nothing comes after an unterminated line.
    pub fn shown(self) -> usize
        ensures { MatchOption self.high (result ≡ 1) (λ high. result ≡ cond ((self.low.number == 1) && nat_lt self.low.line high.line) 1 2) }
    {
        match self.high {
            None => 1,
            Some(high) if self.low.number == 1 && high.line > self.low.line => 1,
            Some(_) => 2,
        }
    }

    // The fault that is answered.
    pub fn first(self) -> Fault
        ensures { MatchOption self.high (result ≡ self.low) (λ high. result ≡ cond (nat_lt high.line self.low.line) high self.low) }
    {
        match self.high {
            Some(high) if high.line < self.low.line => high,
            _ => self.low,
        }
    }

    // Whether this line is the unterminated one (torn).
    fn is_torn(self, line: u64) -> bool {
        self.low.number == 1 && self.low.line == line
    }

    // Whether there is a byte after the last line (trailing).
    fn trails(self) -> bool {
        self.low.number == 8 || self.high.is_some_and(|high| high.number == 8)
    }
}

// A T or an o out of its range: 0, the least that is too large, or one from it on.
fn draw_range(draws: &mut Draws, least: u64) -> u64 {
    let kind = draws.roll(3);
    let more = draws.roll(256u64.saturating_sub(least));
    match kind {
        0 => 0,
        1 => least,
        _ => least.wrapping_add(more),
    }
}

// T or o out of its range (crowded), by two digits that begin at the line's third.
fn slots_or_options_out_of_range(text: &mut Text, start: usize, draws: &mut Draws) {
    let least = if start == 0 { 5 } else { 4 };
    text.put_number(start.wrapping_add(2), 2, draw_range(draws, least));
}

// N or d out of its range (beyond): 0, or some number of two digits from the least that is too large on.
fn loads_or_fineness_out_of_range(text: &mut Text, draws: &mut Draws) {
    match draws.roll(4) {
        0 => text.put_number(4, 2, 0),
        1 => text.put_number(4, 2, draws.roll_from(25, 256 - 25)),
        2 => text.put_number(6, 2, 0),
        _ => text.put_number(6, 2, draws.roll_from(65, 256 - 65)),
    }
}

// Where some option's P and Q of some slot begin on a load's line.
fn draw_pair(draws: &mut Draws, load: &Load, slots: usize) -> usize {
    let option = draws.roll(load.o as u64) as usize;
    let slot = draws.roll(slots as u64) as usize;
    let each = slots.wrapping_mul(8).wrapping_add(4);
    let place = option.wrapping_mul(each).wrapping_add(slot.wrapping_mul(8));
    place.wrapping_add(8)
}

// A Q of 16 bits with |Q| one above P, the farthest that there is, or between; on the side that is drawn if it has one there.
fn draw_exceeding(draws: &mut Draws, p: u64) -> u64 {
    let more = draws.roll(32768u64.saturating_sub(p));
    let above = p.wrapping_add(1);
    let far = match draws.roll(3) {
        0 => above,
        1 => 32768,
        _ => above.wrapping_add(more),
    };
    if draws.roll(2) == 0 && far < 32768 {
        far
    } else {
        negative(far)
    }
}

// |Q| above P in some option and slot (slack).
fn reactive_exceeds_active(
    text: &mut Text,
    start: usize,
    draws: &mut Draws,
    load: &Load,
    slots: usize,
) {
    let place = start.wrapping_add(draw_pair(draws, load, slots));
    let p = draws.roll(32768);
    text.put_number(place, 4, p);
    text.put_number(place.wrapping_add(4), 4, draw_exceeding(draws, p));
}

// A byte of the line that is no digit (smudged); an empty line gets one.
fn not_hex(text: &mut Text, start: usize, draws: &mut Draws) {
    let bytes = text.len().saturating_sub(start);
    let place = start.wrapping_add(draws.roll(bytes as u64) as usize);
    let byte = draws.pick(b"gafG:/@` \r\t\0");
    if bytes == 0 {
        text.push_byte(byte);
    } else {
        text.put_byte(place, byte);
    }
}

// An unterminated line (torn) ends early.
fn unterminated(text: &mut Text, start: usize, draws: &mut Draws) {
    let bytes = text.len().saturating_sub(start) as u64;
    let left = draws.roll(bytes.wrapping_add(1)) as usize;
    text.truncate(start.wrapping_add(left));
}

// One digit more or less (misshapen).
fn wrong_length(text: &mut Text, draws: &mut Draws) {
    if draws.roll(2) == 0 {
        text.push_byte(b'0');
    } else {
        text.truncate(text.len().saturating_sub(1));
    }
}

// A kind that is not due. Document 02 gives the kinds 06 to 08 to lines of a book, so that a reader may take them. The bench has document 01's books only;
// 03, which no line has, stands in for them as a fault.
fn draw_wrong_kind(draws: &mut Draws, due: u64) -> u64 {
    match draws.roll_from(due.wrapping_add(1), 255) % 256 {
        6..=8 => 3,
        kind => kind,
    }
}

// Fewer than 4 digits, or a kind that is not due (stray).
fn wrong_kind(text: &mut Text, start: usize, draws: &mut Draws) {
    let digits = draws.roll(8) as usize;
    if digits < 4 {
        text.truncate(start.wrapping_add(digits));
    } else {
        let due = if start == 0 { 1 } else { 2 };
        text.put_number(start, 2, draw_wrong_kind(draws, due));
    }
}

// Puts a fault into the text's last line, which starts at a place. One of number 8 is in no line.
fn put_fault(text: &mut Text, start: usize, draws: &mut Draws, book: &Book, fault: Fault) {
    match fault.number {
        1 => unterminated(text, start, draws),
        2 => not_hex(text, start, draws),
        3 => wrong_kind(text, start, draws),
        4 => slots_or_options_out_of_range(text, start, draws),
        5 => wrong_length(text, draws),
        6 => loads_or_fineness_out_of_range(text, draws),
        7 => {
            if let Some(load) = load_on(book, fault.line) {
                reactive_exceeds_active(text, start, draws, load, book.header.slots);
            }
        }
        _ => {}
    }
}

// The load on a line.
fn load_on(book: &Book, line: u64) -> Option<&Load> {
    let k = line.checked_sub(2)?;
    book.loads.get(k as usize)
}

// A line of a book without its end, at a budget of 0.
fn push_line(text: &mut Text, book: &Book, line: u64) {
    if let Some(load) = load_on(book, line) {
        push_load(text, load, book.header.slots);
    } else {
        push_header(text, book.header, 0);
    }
}

// A line with the faults that are on it: the one of the higher number first, which the other then leaves hidden.
fn push_damaged_line(text: &mut Text, draws: &mut Draws, book: &Book, faults: Faults, line: u64) {
    let start = text.len();
    push_line(text, book, line);
    if let Some(high) = faults.high {
        if high.line == line {
            put_fault(text, start, draws, book, high);
        }
    }
    if faults.low.line == line {
        put_fault(text, start, draws, book, faults.low);
    }
}

// A byte after the last line: no LF where the last line is unterminated, as it would end it.
fn push_trailing(text: &mut Text, faults: Faults) {
    if faults.low.number == 1 || text.len() % 2 == 0 {
        text.push_byte(b'0');
    } else {
        text.end_line();
    }
}

// A book's text with its faults; an unterminated line is the last.
pub fn damaged(draws: &mut Draws, book: &Book, faults: Faults) -> Text {
    let mut text = Text::new();
    for k in 0..book.header.loads.wrapping_add(1) {
        let line = (k as u64).wrapping_add(1);
        push_damaged_line(&mut text, draws, book, faults, line);
        if faults.is_torn(line) {
            break;
        }
        text.end_line();
    }
    if faults.trails() {
        push_trailing(&mut text, faults);
    }
    text
}
