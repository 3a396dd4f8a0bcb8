// The book reader: the book in a slice of bytes, or the first of refusals 1 to 8 with its line.
#![tactic(auto)]

ghost use Rattle.std.specs.Prelude.{◌≡◌, ◌≤◌, Ok};
ghost use Rattle.model.specs.Refusals.{first};
ghost use Rattle.model.specs.Book.{header_rules, read_loads, read_book};
ghost use Rattle.model.specs.Values.{reading_of};
ghost use Rattle.model.specs.Bounds.{most_slots, most_ratio, most_loads};
ghost use Rattle.book.specs.Lines.{loads_reading, rest_read};

use model::{Book, Load, Refusal, Refused};

// The load lines of a book with this many slots and loads, and this ratio.
fn read_loads(
    s: &[u8],
    slots: usize,
    ratio: u64,
    count: usize,
) -> Result<[Load; Book::LOADS], Refused>
    requires { (slots ≤ most_slots) × (ratio ≤ most_ratio) × (count ≤ most_loads) }
    ensures { result ≡ loads_reading (read_loads slots ratio count 2 s.now) }
{
    let none = Load::fresh();
    let mut loads = [none; Book::LOADS];
    let mut at = 0;
    for k in 0..count {
        let number = k as u64 + 2;
        let rest = &s[at..];
        let n = hexadecimal::line_length(rest);
        if rest.len() <= n {
            return Err(Refusal::Unterminated.on_line(number));
        }
        let end = at + n;
        let line = &s[at..end];
        if let Err(r) = loadline::load_finding(line, slots, ratio) {
            return Err(r.on_line(number));
        }
        let options = hexadecimal::number(line, 2, 2) as usize;
        loads[k] = loadline::load_of(line, slots, options);
        at = end + 1;
    }
    if at < s.len() {
        return Err(Refusal::TrailingBytes.on_line(count as u64 + 2));
    }
    Ok(loads)
}

// The book whose header line is not refused, from that line and the bytes after it.
fn read_rest(line: &[u8], rest: &[u8]) -> Result<Book, Refused>
    requires { first (header_rules line.now) ≡ Ok tt }
    ensures { result ≡ reading_of (rest_read line.now rest.now) }
{
    let slots = hexadecimal::number(line, 2, 2) as usize;
    let count = hexadecimal::number(line, 4, 2) as usize;
    let ratio = header::ratio_of(line);
    let limits = header::limits_of(line, slots);
    let loads = read_loads(rest, slots, ratio, count)?;
    let mut book = Book::fresh();
    book.slots = slots;
    book.count = count;
    book.fineness = hexadecimal::number(line, 6, 2);
    book.ratio = ratio;
    book.budget = header::budget_of(line);
    book.limits = limits;
    book.loads = loads;
    Ok(book)
}

// The book in these bytes, or the first refusal of 1 to 8.
pub fn read_book(s: &[u8]) -> Result<Book, Refused>
    ensures { result ≡ reading_of (read_book s.now) }
{
    let end = hexadecimal::line_length(s);
    if s.len() <= end {
        return Err(Refusal::Unterminated.on_line(1));
    }
    let line = &s[0..end];
    if let Err(r) = header::header_finding(line) {
        return Err(r.on_line(1));
    }
    read_rest(line, &s[end + 1..])
}
