// What the program prints for its input.
#![tactic(auto)]

ghost use Rattle.std.specs.Prelude.{◌≡◌, ◌≤◌, length, replicate};
ghost use Rattle.model.specs.Bounds.{most_sheet, program_bytes, program_words};
ghost use Rattle.model.specs.Program.{program_output};
ghost use Rattle.program.specs.PrintedValue.{printed_value};

use model::Book;

// How many bytes of its input the program takes as the book, and how many words it lends.
const BYTES: usize = 4096;

const WORDS: usize = 6144;

// The first `length` of these bytes are printed: an array with its length, as there is no heap. No sheet is longer than it.
#[derive(Clone, Copy)]
pub struct Printed {
    pub bytes: [u8; Book::SHEET],
    pub length: usize,
}

// How many bytes of an input of n bytes are the book.
fn book_length(n: usize) -> usize
    ensures { (n ≤ program_bytes → result ≡ n) × (program_bytes ≤ n → result ≡ program_bytes) }
{
    if n < BYTES {
        return n;
    }
    BYTES
}

// The work area of the program.
fn words() -> [u64; WORDS]
    ensures { program_words ≡ length result }
{
    [0; WORDS]
}

// Room for every sheet.
fn room() -> [u8; Book::SHEET]
    ensures { result ≡ replicate most_sheet 0 }
{
    [0; Book::SHEET]
}

// What the program prints for an input.
pub fn output(input: &[u8]) -> Printed
    ensures { result ≡ printed_value (program_output input.now) }
{
    let mut work = words();
    let mut bytes = room();
    let end = book_length(input.len());
    let answer = planner::plan(&input[..end], &mut work, &mut bytes);
    let length = print::print_answer(answer, &mut bytes);
    Printed { bytes, length }
}
