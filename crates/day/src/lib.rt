// A day's books at once: the planner's answer to each of them, in the form in which the program prints it, one after the other, or refusals 18 and 19.
#![tactic(auto)]

ghost use Rattle.std.specs.Prelude.{◌≡◌, true, ◌+◌, ◌*◌, ◌≤◌, length, drop};
ghost use Rattle.model.specs.Answers.{Writes};
ghost use Rattle.model.specs.Bounds.{most_sheet};
ghost use Rattle.model.specs.Calls.{free_words};
ghost use Rattle.model.specs.Day.{books_of, book_output, day_output, day_result, most_free, day_free_words};
ghost use Rattle.model.specs.Trials.{WordsKept};
ghost use Rattle.hexadecimal.specs.Written.{written};
ghost use Rattle.day.specs.BookLength.{book_length};

use model::{Answer, Book, Refusal};

// Where the book that begins at `from` ends: at the next empty line, or at the end of the input.
fn book_end(books: &[u8], from: usize) -> usize
    requires { from ≤ length books.now }
    ensures { result ≡ from + book_length true (drop from books.now) }
{
    let mut starts = true;
    for at in from..books.len() {
        let ends = books[at] == 10;
        if starts && ends {
            return at;
        }
        starts = ends;
    }
    books.len()
}

// How many books there are.
fn book_count(books: &[u8]) -> usize
    ensures { result ≡ length (books_of books.now) }
{
    let mut count: usize = 0;
    let mut from: usize = 0;
    // No `for`: the place goes on by a book's length, and one turn comes at the end of the input too.
    while from <= books.len() {
        from = book_end(books, from) + 1;
        count += 1;
    }
    count
}

// Plans a book, writes what is printed of it, and answers how many bytes that is.
fn write_book(book: &[u8], work: &mut [u64], out: &mut [u8]) -> usize
    requires { most_sheet ≤ length out.old }
    ensures bytes { out.new ≡ written out.old 0 (book_output (length work.old) book.now) }
    ensures length { result ≡ length (book_output (length work.old) book.now) }
    ensures words { WordsKept (free_words book.now (length work.old) most_sheet) work.old work.new }
{
    let answer = planner::plan(book, work, out);
    print::print_answer(answer, out)
}

// The same of each book, one after the other.
fn write_books(books: &[u8], work: &mut [u64], out: &mut [u8]) -> usize
    requires { length (books_of books.now) * most_sheet ≤ length out.old }
    ensures bytes { out.new ≡ written out.old 0 (day_output (length work.old) (books_of books.now)) }
    ensures length { result ≡ length (day_output (length work.old) (books_of books.now)) }
    ensures words { WordsKept (most_free (length work.old) (books_of books.now)) work.old work.new }
{
    let mut at: usize = 0;
    let mut from: usize = 0;
    // No `for`: as in `book_count`.
    while from <= books.len() {
        let end = book_end(books, from);
        at += write_book(&books[from..end], work, &mut out[at..]);
        from = end + 1;
    }
    at
}

// The day. Whether its output fits is known only when all books are planned, and a refusal leaves the buffer as it is: so the output waits in a
// buffer of its own.
pub fn day(books: &[u8], work: &mut [u64], out: &mut [u8]) -> Answer
    ensures result { Writes (day_result books.now (length work.old) (length out.old)) out.old out.new result }
    ensures words { WordsKept (day_free_words books.now (length work.old)) work.old work.new }
{
    if Book::BOOKS < book_count(books) {
        return Answer::refusal(Refusal::TooManyBooks, 0);
    }
    let mut waiting = [0u8; Book::DAY];
    let length = write_books(books, work, &mut waiting);
    if out.len() < length {
        return Answer::refusal(Refusal::OutputTooLong, 0);
    }
    hexadecimal::copy(out, 0, &waiting[..length]);
    Answer::success(length as u64, 0, 0)
}
