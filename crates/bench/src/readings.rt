// The sheet reader against the enumeration, on sheets as they are and changed.
use comparison::{Wanted, compare_reading, refusal};
use enumeration::{Change, choices, code, draw_sheet, sheet_of, worth};
use fields::{Book, text_of};
use kinds::Tally;
use plain::{Draws, Text};

// Whether a text is the sheet of a choice with so many trials.
fn is_sheet_of(book: &Book, choice: u64, trials: u64, sheet: &Text) -> bool {
    let own = sheet_of(book, choice, trials);
    own.bytes() == sheet.bytes()
}

fn reading_of(book: &Book, choice: u64, trials: u64) -> Wanted {
    Wanted {
        number: 0,
        line: 0,
        bytes: 0,
        worth: worth(book, choice),
        trials,
        code: code(book, choice),
    }
}

// What the reader is to answer: the choice among all whose sheet this is, with the trials that stand in it.
fn wanted_reading(book: &Book, sheet: &Text) -> Wanted {
    let trials = sheet.number_at(10);
    let mut all = 0..choices(book, book.header.loads);
    all.find(|choice| is_sheet_of(book, *choice, trials, sheet))
        .map_or(refusal(13, 0), |choice| reading_of(book, choice, trials))
}

// A sheet of each kind of change, of a book at a budget of 0.
pub fn compare_readings(draws: &mut Draws, tally: &mut Tally, book: &Book) {
    let changes = [
        Change::Unchanged,
        Change::Byte,
        Change::Level,
        Change::Shorter,
        Change::Longer,
    ];
    for change in changes {
        let sheet = draw_sheet(draws, book, change);
        let wanted = wanted_reading(book, &sheet);
        let given = text_of(book, 0);
        compare_reading(tally, given.bytes(), sheet.bytes(), wanted);
    }
}
