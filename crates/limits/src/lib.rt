// Whether the sums of a choice keep the limits, and whether the choice of a code does.
#![tactic(auto)]

ghost use Rattle.std.specs.Prelude.{◌≡◌, ◌+◌, ◌-◌, ◌<◌, leb, length};
ghost use Rattle.model.specs.Lists.{Every};
ghost use Rattle.model.specs.Choice.{Choice, square};
ghost use Rattle.model.specs.Grid.{slots_of, keeps_limits};
ghost use Rattle.model.specs.Valid.{SettingSmall};
ghost use Rattle.model.specs.Values.{Held, IsCode, choice_coded, problem_of};
ghost use Rattle.sums.specs.Sums.{sums_value, SumsSmall};

use model::Book;
use sums::Sums;

// P² + Q² ≤ S², where q is Q + zero.
fn fits(p: u64, q: u64, zero: u64, limit: u64) -> bool
    requires { (p < 2147483648) × (q < 2147483648) × (zero < 2147483648) × (limit < 65536) }
    ensures { result ≡ leb (square p + square ((q - zero) + (zero - q))) (square limit) }
{
    let size = q.abs_diff(zero);
    p * p + size * size <= limit * limit
}

// The sums of a choice of the book's loads keep every limit.
pub fn keeps(sums: Sums, book: Book) -> bool
    requires held { Held book }
    requires sums_small { SumsSmall sums }
    ensures { (c : Choice) → sums ≡ sums_value c → Every SettingSmall c → length c ≡ length (problem_of book).loads
        → result ≡ keeps_limits (slots_of (problem_of book)) c }
{
    let zero = 32768 * book.count as u64;
    for s in 0..book.slots {
        if !fits(sums.actives[s], sums.reactives[s], zero, book.limits[s]) {
            return false;
        }
    }
    true
}

// Whether the choice of a code keeps every limit.
pub fn keeps_code(book: Book, code: u64) -> bool
    requires held { Held book }
    requires code { IsCode (problem_of book) code }
    ensures { result ≡ keeps_limits (slots_of (problem_of book)) (choice_coded (problem_of book) code) }
{
    let picks = sums::picks_of(code, book.count);
    keeps(sums::sums_of(book, picks), book)
}
