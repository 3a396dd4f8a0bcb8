// The planner and the quick planner against the enumeration, on books as they are drawn.
use comparison::{Lent, Wanted, compare_quick, plan_agrees, refusal, settle, success};
use enumeration::{best_choice, cells, sheet_of, trials, worth};
use fields::{Book, text_of};
use kinds::Tally;
use plain::Text;

// What the enumeration found for a book: the plan's answer and sheet, the needed words, and how many choices are its equals in worth.
#[derive(Drop)]
struct Found {
    done: Wanted,
    sheet: Text,
    need: usize,
    equals: u64,
}

fn find_plan(book: &Book) -> Found {
    let trials = trials(book);
    let best = best_choice(book);
    let sheet = sheet_of(book, best.choice, trials);
    Found {
        done: success(sheet.len() as u64, best.worth, trials),
        sheet,
        need: cells(book.header).wrapping_mul(4) as usize,
        equals: best.equals,
    }
}

// The first of refusals 9 to 12 that applies.
fn first_refusal(found: &Found, lent: Lent, budget: u64) -> Option<u64> {
    if found.need > 4 * 1048576 {
        Some(9)
    } else if lent.words < found.need {
        Some(10)
    } else if lent.room < found.sheet.len() {
        Some(11)
    } else if budget < found.done.trials {
        Some(12)
    } else {
        None
    }
}

// In each case the budget, the buffer and the work area are at the need or one less, by the case's bits; in the last there is more of
// the last two.
fn budget_in(case: usize, trials: u64) -> u64 {
    trials.saturating_sub((case % 2) as u64)
}

fn lent_in(case: usize, found: &Found, most: usize) -> Lent {
    let words = found.need.saturating_sub(case / 4 % 2);
    let room = found.sheet.len().saturating_sub(case / 2 % 2);
    let more = case / 8;
    Lent {
        words: words.wrapping_add(more.wrapping_mul(70)).min(most),
        room: room.wrapping_add(more.wrapping_mul(9)),
    }
}

fn compare_case(tally: &mut Tally, book: &Book, work: &mut [u64], found: &Found, case: usize) {
    let budget = budget_in(case, found.done.trials);
    let lent = lent_in(case, found, work.len());
    let wanted = match first_refusal(found, lent, budget) {
        None => found.done,
        Some(number) => refusal(number, 0),
    };
    let given = text_of(book, budget);
    let sheet = found.sheet.bytes();
    let same = plan_agrees(given.bytes(), work, lent, wanted, sheet, found.need);
    settle(tally, kinds::PLANNER, wanted, same);
}

// Counts a book by what the enumeration found; `planned` says that it fits the work area.
fn count_found(tally: &mut Tally, book: &Book, equals: u64, planned: bool) {
    let slots = book.header.slots;
    let steps = book.header.steps_above();
    tally.count_if(kinds::TIES, equals > 0);
    tally.count_if(kinds::STEPPED.wrapping_add(slots), planned && steps > 0);
    tally.count_if(
        kinds::STEPPED_TWICE.wrapping_add(slots),
        planned && steps > 1,
    );
}

pub fn compare_plans(tally: &mut Tally, book: &Book, work: &mut [u64]) {
    let found = find_plan(book);
    count_found(tally, book, found.equals, found.need <= work.len());
    for case in 0..9 {
        compare_case(tally, book, work, &found, case);
    }
}

// The quick planner with the buffer at the need and one less, on a book at a budget of 0.
pub fn compare_quicks(tally: &mut Tally, book: &Book) {
    let loads = book.header.loads as u64;
    let choice = enumeration::quick(book);
    let sheet = sheet_of(book, choice, loads);
    let bytes = sheet.len();
    let wanted = success(bytes as u64, worth(book, choice), loads);
    let given = text_of(book, 0);
    compare_quick(tally, given.bytes(), bytes, wanted, sheet.bytes());
    let less = bytes.saturating_sub(1);
    compare_quick(tally, given.bytes(), less, refusal(11, 0), sheet.bytes());
}
