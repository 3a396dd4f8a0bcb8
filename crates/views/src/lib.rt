// What the mill and the supply company see of a sheet: the worth and the running loads, and the slot lines, or refusals 13 and 11; the book's own
// refusals come first.
#![tactic(auto)]

ghost use Rattle.std.specs.Prelude.{◌≡◌, suc, ◌+◌, ◌≤◌, ◌<◌, length};
ghost use Rattle.model.specs.Answers.{Writes, in_room};
ghost use Rattle.model.specs.Bounds.{most_loads};
ghost use Rattle.model.specs.Sheet.{sums_and_limits};
ghost use Rattle.model.specs.Values.{Held, Picked, choice_of, problem_of};
ghost use Rattle.model.specs.Views.{mill_line, supply_view, mill_result, supply_result, NothingElse};
ghost use Rattle.hexadecimal.specs.Written.{written};
ghost use Rattle.views.specs.Read.{Read};
ghost use Rattle.views.specs.MillLine.{load_bytes, loads_bytes, mill_bytes};

use model::{Answer, Book, Refusal, Refused};

// A book and the numbers of the choice on a sheet that belongs to it.
#[derive(Clone, Copy)]
pub struct SheetRead {
    pub book: Book,
    pub picks: [usize; Book::LOADS],
}

// Reads a book and a sheet: refusals 1 to 8 and 13, or the book and the choice.
fn read(book: &[u8], sheet: &[u8]) -> Result<SheetRead, Refused>
    ensures { Read book.now sheet.now result }
{
    let book = book::read_book(book)?;
    let Some(on) = chosen::choice_on(book, sheet) else {
        return Err(Refusal::ForeignSheet.on_line(0));
    };
    let picks = on.picks;
    Ok(SheetRead { book, picks })
}

// How many bytes number and level of the running loads take.
fn loads_length(picks: [usize; Book::LOADS], count: usize) -> usize
    requires { count ≤ most_loads }
    ensures { result ≡ length (loads_bytes picks count) }
{
    let mut bytes = 0;
    for k in 0..count {
        if picks[k] != 0 {
            bytes += 4;
        }
    }
    bytes
}

// Writes number and level of load k + 1 from `at` on, where it runs, and answers the place after what was written.
fn write_load(view: &mut [u8], at: usize, k: usize, level: usize) -> usize
    requires k_lt_most_loads { k < most_loads }
    requires level_in_bounds { at + length (load_bytes (suc k) level) ≤ length view.old }
    ensures bytes { view.new ≡ written view.old at (load_bytes (suc k) level) }
    ensures next { result ≡ at + length (load_bytes (suc k) level) }
{
    if level == 0 {
        return at;
    }
    hexadecimal::write(view, at, 2, k as u64 + 1);
    hexadecimal::write(view, at + 2, 2, level as u64);
    at + 4
}

// Writes number and level of the running loads from `at` on, and answers the place after them; a `fold` would have to lend the view to its closure.
fn write_loads(view: &mut [u8], at: usize, picks: [usize; Book::LOADS], count: usize) -> usize
    requires count_le_most_loads { count ≤ most_loads }
    requires count_in_bounds { at + length (loads_bytes picks count) ≤ length view.old }
    ensures bytes { view.new ≡ written view.old at (loads_bytes picks count) }
    ensures next { result ≡ at + length (loads_bytes picks count) }
{
    let mut next = at;
    for k in 0..count {
        next = write_load(view, next, k, picks[k]);
    }
    next
}

// Writes the mill's line from the start on.
fn write_line(view: &mut [u8], worth: u64, picks: [usize; Book::LOADS], count: usize)
    requires count_le_most_loads { count ≤ most_loads }
    requires count_in_bounds { 11 + length (loads_bytes picks count) ≤ length view.old }
    ensures { view.new ≡ written view.old 0 (mill_bytes worth picks count) }
{
    hexadecimal::write(view, 0, 2, 9);
    hexadecimal::write(view, 2, 8, worth);
    let end = write_loads(view, 10, picks, count);
    view[end] = 10;
}

// The mill's view of the choice whose numbers are in `picks`: refusal 11, or the line.
fn mill_of(book: Book, picks: [usize; Book::LOADS], view: &mut [u8]) -> Answer
    requires held { Held book }
    requires picked { Picked (problem_of book) picks }
    ensures { Writes (in_room (mill_line (choice_of (problem_of book) picks)) (length view.old)) view.old view.new result }
{
    let count = book.count;
    let bytes = 11 + loads_length(picks, count);
    if view.len() < bytes {
        return Answer::refusal(Refusal::BufferTooSmall, 0);
    }
    let worth = sums::worth_of(book, picks);
    write_line(view, worth, picks, count);
    Answer::success(bytes as u64, 0, 0)
}

// The supply company's view of the choice whose numbers are in `picks`: refusal 11, or the slot lines.
fn supply_of(book: Book, picks: [usize; Book::LOADS], view: &mut [u8]) -> Answer
    requires held { Held book }
    requires picked { Picked (problem_of book) picks }
    ensures { Writes (supply_view (sums_and_limits (problem_of book) (choice_of (problem_of book) picks)) (length view.old)) view.old view.new result }
{
    let bytes = 23 * book.slots;
    if view.len() < bytes {
        return Answer::refusal(Refusal::BufferTooSmall, 0);
    }
    let sums = sums::sums_of(book, picks);
    let actives = sums.actives;
    let reactives = sums.reactives;
    let limits = book.limits;
    lines::write_slots(view, book.slots, book.count, actives, reactives, limits);
    Answer::success(bytes as u64, 0, 0)
}

// The mill's view of a sheet. This call and the next are no one function, as what each makes of the choice has a promise of its own.
pub fn mill_view(book: &[u8], sheet: &[u8], view: &mut [u8]) -> Answer
    ensures { Writes (mill_result book.now sheet.now (length view.old)) view.old view.new result }
{
    match read(book, sheet) {
        Ok(read) => mill_of(read.book, read.picks, view),
        Err(refused) => Answer::from(refused),
    }
}

// The supply company's view of a sheet.
pub fn supply_view(book: &[u8], sheet: &[u8], view: &mut [u8]) -> Answer
    ensures result { Writes (supply_result book.now sheet.now (length view.old)) view.old view.new result }
    ensures alone { NothingElse book.now sheet.now view.old view.new result }
{
    match read(book, sheet) {
        Ok(read) => supply_of(read.book, read.picks, view),
        Err(refused) => Answer::from(refused),
    }
}
