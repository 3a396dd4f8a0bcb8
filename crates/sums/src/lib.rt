// The true sums of a choice in each slot, its worth and its code, as running values; and the numbers of a code.
#![tactic(auto)]

ghost use Rattle.std.specs.Prelude.{◌≡◌, [], ◌≤◌, take};
ghost use Rattle.model.specs.Bounds.{most_loads};
ghost use Rattle.model.specs.Choice.{worth_of, code_of, decode};
ghost use Rattle.model.specs.Values.{Held, Picked, choice_of, problem_of};
ghost use Rattle.sums.specs.Sums.{sums_value, shifted, added, exchanged, CanShift, CanAdd, CanExchange};

use model::{Book, Load};

// The sums in each slot: P, and Q + 32,768 for each load; in two arrays, as `shifted` serves both.
#[derive(Clone, Copy)]
pub struct Sums {
    pub actives: [u64; Book::SLOTS],
    pub reactives: [u64; Book::SLOTS],
}

impl Sums {
    fn none() -> Sums
        ensures { result ≡ sums_value [] }
    {
        Sums {
            actives: [0; Book::SLOTS],
            reactives: [0; Book::SLOTS],
        }
    }

    // With setting c of one load more.
    fn plus(mut self, load: Load, c: usize) -> Sums
        requires { CanAdd self load c }
        ensures { result ≡ added self load c }
    {
        let actives = self.actives;
        let reactives = self.reactives;
        let p = load.actives;
        let q = load.reactives;
        let actives = shifted(actives, p, c, [0; Load::POWERS], 0);
        let reactives = shifted(reactives, q, c, [0; Load::POWERS], 0);
        self.actives = actives;
        self.reactives = reactives;
        self
    }

    // With setting 1 of a load in place of its least setting.
    pub fn exchanged(mut self, load: Load) -> Sums
        requires { CanExchange self load }
        ensures { result ≡ exchanged self load }
    {
        let actives = self.actives;
        let reactives = self.reactives;
        let p = load.actives;
        let q = load.reactives;
        let actives = shifted(actives, p, 1, p, load.least);
        let reactives = shifted(reactives, q, 1, q, load.least);
        self.actives = actives;
        self.reactives = reactives;
        self
    }
}

// The sums of P, or of Q, with setting c of a load's `powers` more and setting `from` of `less` less.
fn shifted(
    sums: [u64; Book::SLOTS],
    powers: [u64; Load::POWERS],
    c: usize,
    less: [u64; Load::POWERS],
    from: usize,
) -> [u64; Book::SLOTS]
    requires { CanShift sums powers c less from }
    ensures { result ≡ shifted sums powers c less from }
{
    let mut next = sums;
    for s in 0..Book::SLOTS {
        next[s] = sums[s] + powers[Book::SLOTS * c + s] - less[Book::SLOTS * from + s];
    }
    next
}

// The sums of the choice whose numbers are in `picks`.
pub fn sums_of(book: Book, picks: [usize; Book::LOADS]) -> Sums
    requires held { Held book }
    requires picked { Picked (problem_of book) picks }
    ensures { result ≡ sums_value (choice_of (problem_of book) picks) }
{
    let mut sums = Sums::none();
    for k in 0..book.count {
        let load = book.loads[k];
        sums = sums.plus(load, picks[k]);
    }
    sums
}

pub fn worth_of(book: Book, picks: [usize; Book::LOADS]) -> u64
    requires held { Held book }
    requires picked { Picked (problem_of book) picks }
    ensures { result ≡ worth_of (choice_of (problem_of book) picks) }
{
    let mut worth: u64 = 0;
    for k in 0..book.count {
        let load = book.loads[k];
        let c = picks[k];
        worth += load.worths[c];
    }
    worth
}

// From the last load down.
pub fn code_of(book: Book, picks: [usize; Book::LOADS]) -> u64
    requires held { Held book }
    requires picked { Picked (problem_of book) picks }
    ensures { result ≡ code_of (choice_of (problem_of book) picks) }
{
    let mut code: u64 = 0;
    for k in (0..book.count).rev() {
        code = picks[k] as u64 + 4 * code;
    }
    code
}

// c of each load, from the code of a choice: its digits to the base 4, the lowest first.
pub fn picks_of(code: u64, count: usize) -> [usize; Book::LOADS]
    requires { count ≤ most_loads }
    ensures { take count result ≡ decode count code }
{
    let mut picks = [0usize; Book::LOADS];
    let mut rest = code;
    for k in 0..count {
        picks[k] = (rest % 4) as usize;
        rest = rest / 4;
    }
    picks
}
