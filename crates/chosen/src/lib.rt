// The choice on a sheet: a sheet is read against a book, to the choice and the trials of one that belongs to it.
#![tactic(auto)]

ghost use Rattle.std.specs.Prelude.{◌≡◌, length};
ghost use Rattle.model.specs.Sheet.{sheet_bytes, sheet_length};
ghost use Rattle.model.specs.Values.{Held, Picked, choice_of, problem_of};
ghost use Rattle.chosen.specs.Chosen.{PicksOn, Belongs, ChoiceOn};

use model::Book;

// What the first line of a sheet that belongs to a book says: the number of each load's setting, and the trials.
#[derive(Clone, Copy)]
pub struct OnSheet {
    pub picks: [usize; Book::LOADS],
    pub trials: u64,
}

// The loads' numbers on the first line of a sheet, where each is one of its load's.
fn picks_on(sheet: &[u8], book: Book) -> Option<[usize; Book::LOADS]>
    requires held { Held book }
    requires sheet_len { length sheet.now ≡ sheet_length (problem_of book) }
    ensures { PicksOn sheet.now (problem_of book) result }
{
    let mut picks = [0usize; Book::LOADS];
    for k in 0..book.count {
        let load = book.loads[k];
        let c = hexadecimal::number(sheet, 18 + 2 * k, 2) as usize;
        if c < load.least {
            return None;
        }
        if load.least + load.settings <= c {
            return None;
        }
        picks[k] = c;
    }
    Some(picks)
}

// The sheet is the one that the choice whose numbers are in `picks` and the trials give.
fn belongs(sheet: &[u8], book: Book, picks: [usize; Book::LOADS], trials: u64) -> bool
    requires held { Held book }
    requires picked { Picked (problem_of book) picks }
    ensures { Belongs sheet.now (sheet_bytes (problem_of book) (choice_of (problem_of book) picks) trials) result }
{
    let n = sheet::sheet_length(book);
    let mut due = [0u8; Book::SHEET];
    sheet::write_sheet(book, picks, trials, &mut due[..n]);
    check::same(sheet, &due[..n])
}

// A sheet, read to a choice: it must be the one that the choice and the trials on its own first line give.
pub fn choice_on(book: Book, sheet: &[u8]) -> Option<OnSheet>
    requires { Held book }
    ensures { ChoiceOn sheet.now (problem_of book) result }
{
    if sheet.len() != sheet::sheet_length(book) {
        return None;
    }
    let picks = picks_on(sheet, book)?;
    let trials = hexadecimal::number(sheet, 10, 8);
    if belongs(sheet, book, picks, trials) {
        Some(OnSheet { picks, trials })
    } else {
        None
    }
}
