// The declared types of the load planner. What a value of each says is defined in specs/.
#![tactic(auto)]

ghost use Rattle.std.specs.Prelude.{◌≡◌, []};
ghost use Rattle.model.specs.Refusals.{number_of};
ghost use Rattle.model.specs.Answers.{success_answer, refusal_answer};
ghost use Rattle.model.specs.Values.{load_value, fresh_book};

// Why a call gives no result, with its number; specs/Refusals.antt has document 01's word or document 02's request for each.
#[derive(Clone, Copy)]
pub enum Refusal {
    Unterminated = 1,
    NotHex,
    WrongKind,
    SlotsOrOptionsOutOfRange,
    WrongLength,
    LoadsOrFinenessOutOfRange,
    ReactiveExceedsActive,
    TrailingBytes,
    TooManyCells,
    WorkTooSmall,
    BufferTooSmall,
    BudgetExceeded,
    ForeignSheet,
    WrongPriceCount,
    WrongNames,
    NamedLoadStands,
    NoPlan,
    TooManyBooks,
    OutputTooLong,
    TooCoarse,
    SlotsOrFinenessDiffer,
    TooManyLoads,
    LimitSumTooLarge,
}

// A refusal, and the number of the line that it was found on; 0 where it is of no line.
#[derive(Clone, Copy)]
pub struct Refused {
    pub refusal: Refusal,
    pub line: u64,
}

// What a public call answers. Success has number 0 and line 0.
#[derive(Clone, Copy)]
#[repr(C)]
pub struct Answer {
    pub number: u64,
    pub line: u64,
    pub bytes: u64,
    pub worth: u64,
    pub trials: u64,
}

// What the sheet reader answers: the code of the sheet's choice after the rest.
#[derive(Clone, Copy)]
#[repr(C)]
pub struct SheetAnswer {
    pub answer: Answer,
    pub code: u64,
}

// What the charge of a plan answers: the charge, in hundredths of a unit of money, after the rest.
#[derive(Clone, Copy)]
#[repr(C)]
pub struct ChargeAnswer {
    pub answer: Answer,
    pub charge: u64,
}

// What the order of starting answers: how many loads start, and how many stop, after the rest.
#[derive(Clone, Copy)]
#[repr(C)]
pub struct OrderAnswer {
    pub answer: Answer,
    pub starts: u64,
    pub stops: u64,
}

// A load: it has `settings` settings, with the numbers from `least` on; standing is number 0, the options are 1 and up. Setting c has
// worths[c] and, in slot s, the active power actives[4 c + s] and the reactive power reactives[4 c + s] - 32,768. Where `least` is 1,
// the places of setting 0 hold no worth and no power. Arrays with counts, as there is no heap; the powers in two, each of which `sums::shifted` takes.
#[derive(Clone, Copy)]
pub struct Load {
    pub settings: usize,
    pub worths: [u64; Load::SETTINGS],
    pub actives: [u64; Load::POWERS],
    pub reactives: [u64; Load::POWERS],
    pub least: usize,
}

// A book that was read: the header's numbers and limits, and the loads in book order. That it is valid is a clause, `Held`, and no invariant: `reading_of`
// gives a book for every Problem, valid or not.
#[derive(Clone, Copy)]
pub struct Book {
    pub slots: usize,
    pub count: usize,
    pub fineness: u64,
    pub ratio: u64,
    pub budget: u64,
    pub limits: [u64; Book::SLOTS],
    pub loads: [Load; Book::LOADS],
}

impl Load {
    // Standing and the options; and a power of each setting in each slot.
    pub const SETTINGS: usize = Book::OPTIONS + 1;

    pub const POWERS: usize = Load::SETTINGS * Book::SLOTS;

    pub fn fresh() -> Load
        ensures { result ≡ load_value [] }
    {
        Load {
            settings: 0,
            worths: [0; Load::SETTINGS],
            actives: [0; Load::POWERS],
            reactives: [32768; Load::POWERS],
            least: 0,
        }
    }
}

impl Book {
    // Document 01's upper bounds of T, N, d and o, and M-108's of r; each lower bound is 1. Then of a limit, which may be 0, of the cells, and the bytes of the
    // longest sheet; of a day's books (M-107), and the bytes of a day's longest output.
    pub const SLOTS: usize = 4;

    pub const LOADS: usize = 24;

    pub const FINENESS: u64 = 64;

    pub const OPTIONS: usize = 3;

    pub const RATIO: u64 = 3;

    pub const LIMIT: u64 = 65535;

    pub const CELLS: usize = 1048576;

    pub const SHEET: usize = 19 + 2 * Book::LOADS + 23 * Book::SLOTS;

    pub const BOOKS: usize = 32;

    pub const DAY: usize = Book::BOOKS * Book::SHEET;

    pub fn fresh() -> Book
        ensures { result ≡ fresh_book }
    {
        let none = Load::fresh();
        Book {
            slots: 0,
            count: 0,
            fineness: 0,
            ratio: 0,
            budget: 0,
            limits: [0; Book::SLOTS],
            loads: [none; Book::LOADS],
        }
    }
}

impl Refusal {
    fn number(self) -> u64
        ensures { result ≡ number_of self }
    {
        self as u64
    }

    // This refusal, found on the line of this number.
    pub fn on_line(self, line: u64) -> Refused
        ensures { result ≡ record { refusal = self; line = line } }
    {
        Refused {
            refusal: self,
            line,
        }
    }
}

impl Answer {
    pub fn success(bytes: u64, worth: u64, trials: u64) -> Answer
        ensures { result ≡ success_answer bytes worth trials }
    {
        Answer {
            number: 0,
            line: 0,
            bytes,
            worth,
            trials,
        }
    }

    pub fn refusal(r: Refusal, line: u64) -> Answer
        ensures { result ≡ refusal_answer r line }
    {
        let number = r.number();
        Answer {
            number,
            line,
            bytes: 0,
            worth: 0,
            trials: 0,
        }
    }
}

impl From<Refused> for Answer {
    ghost from_gives = { λ x a. a ≡ refusal_answer x.refusal x.line };

    fn from(x: Refused) -> Answer {
        Answer::refusal(x.refusal, x.line)
    }
}
