// Asks the planners and the sheet reader, and compares each answer, the sheet buffer and the work area with what is wanted.
#![tactic(auto)]

ghost use Rattle.std.specs.Prelude.{◌≡◌};
ghost use Rattle.comparison.specs.Settled.{settled};

use kinds::Tally;
use model::{Answer, SheetAnswer};

// What a call is to answer, in the numbers that C takes.
#[derive(Clone, Copy, PartialEq)]
pub struct Wanted {
    pub number: u64,
    pub line: u64,
    pub bytes: u64,
    pub worth: u64,
    pub trials: u64,
    pub code: u64,
}

pub fn success(bytes: u64, worth: u64, trials: u64) -> Wanted
    ensures { result ≡ record { number = 0; line = 0; bytes = bytes; worth = worth; trials = trials; code = 0 } }
{
    Wanted {
        number: 0,
        line: 0,
        bytes,
        worth,
        trials,
        code: 0,
    }
}

pub fn refusal(number: u64, line: u64) -> Wanted
    ensures { result ≡ record { number = number; line = line; bytes = 0; worth = 0; trials = 0; code = 0 } }
{
    Wanted {
        number,
        line,
        bytes: 0,
        worth: 0,
        trials: 0,
        code: 0,
    }
}

impl From<Answer> for Wanted {
    ghost from_gives = { λ a w. w ≡ record { number = a.number; line = a.line; bytes = a.bytes; worth = a.worth; trials = a.trials; code = 0 } };

    fn from(a: Answer) -> Wanted {
        Wanted {
            number: a.number,
            line: a.line,
            bytes: a.bytes,
            worth: a.worth,
            trials: a.trials,
            code: 0,
        }
    }
}

impl From<SheetAnswer> for Wanted {
    ghost from_gives = { λ a w. w ≡ record { number = a.answer.number; line = a.answer.line; bytes = a.answer.bytes; worth = a.answer.worth; trials = a.answer.trials; code = a.code } };

    fn from(a: SheetAnswer) -> Wanted {
        Wanted {
            code: a.code,
            ..Wanted::from(a.answer)
        }
    }
}

// The word at place i of the work area, where it is to keep its value, is given one of its own, to see later whether it did.
fn own_value(i: usize) -> u64 {
    0x5EED0000u64.wrapping_add(i as u64)
}

fn mark(work: &mut [u64], first: usize, end: usize) {
    if let Some(words) = work.get_mut(first..end) {
        for (i, word) in words.iter_mut().enumerate() {
            *word = own_value(first.wrapping_add(i));
        }
    }
}

fn is_marked(work: &[u64], first: usize, end: usize) -> bool {
    let words = work.get(first..end).unwrap_or(&[]);
    words
        .iter()
        .enumerate()
        .all(|(i, word)| *word == own_value(first.wrapping_add(i)))
}

// Counts a comparison under the number that was wanted.
pub fn settle(tally: &mut Tally, call: usize, wanted: Wanted, same: bool)
    ensures { tally.new.counts ≡ settled tally.old.counts call wanted.number same }
{
    tally.count(call.wrapping_add(wanted.number as usize));
    tally.count(kinds::COMPARED);
    tally.count_if(kinds::DIFFER, !same);
}

// How many words of the work area and bytes of the buffer the planner is lent.
#[derive(Clone, Copy)]
pub struct Lent {
    pub words: usize,
    pub room: usize,
}

// Bytes of the buffers; a sheet of the bench has fewer.
pub const ROOM: usize = 192;

// Nothing, where more is to be lent than there is.
fn ask_planner(book: &[u8], work: &mut [u64], buffer: &mut [u8], lent: Lent) -> Option<Answer> {
    let work = work.get_mut(..lent.words)?;
    let sheet = buffer.get_mut(..lent.room)?;
    Some(planner::plan(book, work, sheet))
}

fn ask_quick(book: &[u8], buffer: &mut [u8], room: usize) -> Option<Answer> {
    let sheet = buffer.get_mut(..room)?;
    Some(quick::quick(book, sheet))
}

fn is_answer(answer: Option<Answer>, wanted: Wanted) -> bool {
    answer.is_some_and(|a| Wanted::from(a) == wanted)
}

// The word from which on the work area is to keep its values, where the planner uses so many.
fn first_free(wanted: Wanted, used: usize) -> usize {
    match wanted.number {
        0 | 12 => used,
        _ => 0,
    }
}

// Whether the planner does what is wanted; `sheet` is what the buffer is to hold where that is no refusal, and `used` the words that the
// planner may change.
pub fn plan_agrees(
    book: &[u8],
    work: &mut [u64],
    lent: Lent,
    wanted: Wanted,
    sheet: &[u8],
    used: usize,
) -> bool {
    let free = first_free(wanted, used);
    let mut buffer = [b'.'; ROOM];
    mark(work, free, lent.words);
    let answer = ask_planner(book, work, &mut buffer, lent);
    is_answer(answer, wanted) && is_marked(work, free, lent.words) && holds(&buffer, sheet, wanted)
}

// Whether the buffer holds the wanted bytes of the sheet and is as it was after them.
fn holds(buffer: &[u8], sheet: &[u8], wanted: Wanted) -> bool {
    let bytes = wanted.bytes as usize;
    buffer.get(..bytes) == sheet.get(..bytes) && buffer.iter().skip(bytes).all(|byte| *byte == b'.')
}

pub fn compare_quick(tally: &mut Tally, book: &[u8], room: usize, wanted: Wanted, sheet: &[u8]) {
    let mut buffer = [b'.'; ROOM];
    let answer = ask_quick(book, &mut buffer, room);
    let same = is_answer(answer, wanted) && holds(&buffer, sheet, wanted);
    settle(tally, kinds::QUICK, wanted, same);
}

pub fn compare_reading(tally: &mut Tally, book: &[u8], sheet: &[u8], wanted: Wanted) {
    let reading = Wanted::from(reader::read_sheet(book, sheet));
    settle(tally, kinds::READER, wanted, reading == wanted);
}
