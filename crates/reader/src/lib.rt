// The sheet reader: the code, worth and trials of a sheet that belongs to a book, or refusal 13; the book's own refusals come first.
#![tactic(auto)]

ghost use Rattle.std.specs.Prelude.{◌≡◌};
ghost use Rattle.model.specs.SheetReader.{sheet_data, reader_result, sheet_answer_of};
ghost use Rattle.model.specs.Values.{Held, problem_of};

use model::{Answer, Book, Refusal, SheetAnswer};

// The sheet reader for a book that was read: refusal 13, or code, worth and trials.
fn read_for(book: Book, sheet: &[u8]) -> SheetAnswer
    requires { Held book }
    ensures { result ≡ sheet_answer_of (sheet_data sheet.now (problem_of book)) }
{
    let Some(on) = chosen::choice_on(book, sheet) else {
        let answer = Answer::refusal(Refusal::ForeignSheet, 0);
        return SheetAnswer { answer, code: 0 };
    };
    let picks = on.picks;
    let worth = sums::worth_of(book, picks);
    let code = sums::code_of(book, picks);
    let answer = Answer::success(0, worth, on.trials);
    SheetAnswer { answer, code }
}

// The sheet reader.
pub fn read_sheet(book: &[u8], sheet: &[u8]) -> SheetAnswer
    ensures { result ≡ sheet_answer_of (reader_result book.now sheet.now) }
{
    match book::read_book(book) {
        Ok(read) => read_for(read, sheet),
        Err(refused) => SheetAnswer {
            answer: Answer::from(refused),
            code: 0,
        },
    }
}
