// The sheet of a choice, written into a lent buffer.
#![tactic(auto)]

ghost use Rattle.std.specs.Prelude.{◌≡◌, ◌≤◌, length};
ghost use Rattle.model.specs.Refusals.{done};
ghost use Rattle.model.specs.Answers.{Writes};
ghost use Rattle.model.specs.Sheet.{sheet_of, sheet_length};
ghost use Rattle.model.specs.Values.{Held, Picked, choice_of, problem_of};

use model::{Answer, Book};

// How many bytes a sheet for this book has.
pub fn sheet_length(book: Book) -> usize
    requires { Held book }
    ensures { result ≡ sheet_length (problem_of book) }
{
    19 + 2 * book.count + 23 * book.slots
}

// Writes the sheet of the choice whose numbers are in `picks`.
pub fn write_sheet(book: Book, picks: [usize; Book::LOADS], trials: u64, sheet: &mut [u8]) -> Answer
    requires held { Held book }
    requires picked { Picked (problem_of book) picks }
    requires book_in_bounds { sheet_length (problem_of book) ≤ length sheet.old }
    ensures { Writes (done (sheet_of (problem_of book) (choice_of (problem_of book) picks) trials)) sheet.old sheet.new result }
{
    let slots = book.slots;
    let count = book.count;
    let limits = book.limits;
    let worth = sums::worth_of(book, picks);
    let sums = sums::sums_of(book, picks);
    let actives = sums.actives;
    let reactives = sums.reactives;
    lines::write_first(sheet, count, picks, worth, trials);
    let first = 19 + 2 * count;
    lines::write_slots(
        &mut sheet[first..],
        slots,
        count,
        actives,
        reactives,
        limits,
    );
    Answer::success(sheet_length(book) as u64, worth, trials)
}
