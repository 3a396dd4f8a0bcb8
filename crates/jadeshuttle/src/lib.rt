// The public calls for programs in C and other languages: the planner, the strict planner, the quick planner, the sheet reader, the charge, the
// order of starting, what the mill and the supply company see, a day's books at once, and one book for two mills.
#![tactic(auto)]

ghost use Rattle.std.specs.Prelude.{◌≡◌, ◌≤◌, length, take};
ghost use Rattle.model.specs.Trials.{WordsKept};
ghost use Rattle.model.specs.Answers.{Writes};
ghost use Rattle.model.specs.Calls.{planner_result, free_words};
ghost use Rattle.model.specs.Quick.{quick_result};
ghost use Rattle.model.specs.SheetReader.{reader_result, sheet_answer_of};
ghost use Rattle.model.specs.Demand.{Answered, Demand3};
ghost use Rattle.model.specs.Strict.{strict_result, strict_free, StrictAnswered, NeverAbove, NoMargin};
ghost use Rattle.model.specs.Charge.{charge_result, charge_answer_of};
ghost use Rattle.model.specs.Order.{order_result, WritesOrder, OrderKept};
ghost use Rattle.model.specs.Views.{mill_result, supply_result, NothingElse};
ghost use Rattle.model.specs.Day.{day_result, day_free_words};
ghost use Rattle.model.specs.Pool.{pool_result, Pooled};
ghost use Rattle.model.specs.Bounds.{most_charge};

use model::{Answer, ChargeAnswer, OrderAnswer, SheetAnswer};

// The planner: the sheet of the plan, or the first refusal of 1 to 12 and 17.
#[unsafe(no_mangle)]
pub extern "C" fn jadeshuttle_plan(book: &[u8], work: &mut [u64], sheet: &mut [u8]) -> Answer
    ensures result { Writes (planner_result book.now (length work.old) (length sheet.old)) sheet.old sheet.new result }
    ensures words { WordsKept (free_words book.now (length work.old) (length sheet.old)) work.old work.new }
    ensures answered { Answered book.now (length work.old) (length sheet.old) result.number }
    ensures demand { result.number ≡ 0 → Demand3 book.now sheet.new }
{
    planner::plan(book, work, sheet)
}

// The strict planner: the sheet of the strict plan, which never goes above a limit, or the first refusal of 1 to 8, 20, 9 to 12 and 17.
#[unsafe(no_mangle)]
pub extern "C" fn jadeshuttle_plan_strict(book: &[u8], work: &mut [u64], sheet: &mut [u8]) -> Answer
    ensures result { Writes (strict_result book.now (length work.old) (length sheet.old)) sheet.old sheet.new result }
    ensures words { WordsKept (strict_free book.now (length work.old) (length sheet.old)) work.old work.new }
    ensures answered { StrictAnswered book.now (length work.old) (length sheet.old) result.number }
    ensures keeps { result.number ≡ 0 → NeverAbove book.now (length work.old) (length sheet.old) sheet.new }
    ensures margin { result.number ≡ 17 → NoMargin book.now }
{
    strict::plan_strict(book, work, sheet)
}

// The quick planner: refusals 1 to 8, 11 and 17, or the quick sheet.
#[unsafe(no_mangle)]
pub extern "C" fn jadeshuttle_quick(book: &[u8], sheet: &mut [u8]) -> Answer
    ensures { Writes (quick_result book.now (length sheet.old)) sheet.old sheet.new result }
{
    quick::quick(book, sheet)
}

// The sheet reader: the code, worth and trials of a sheet that belongs to a book, or refusal 13; the book's own refusals come first.
#[unsafe(no_mangle)]
pub extern "C" fn jadeshuttle_read_sheet(book: &[u8], sheet: &[u8]) -> SheetAnswer
    ensures { result ≡ sheet_answer_of (reader_result book.now sheet.now) }
{
    reader::read_sheet(book, sheet)
}

// The charge: what the energy on a sheet costs at a price for each slot, or refusals 13 and 14; the book's own refusals come first.
#[unsafe(no_mangle)]
pub extern "C" fn jadeshuttle_charge(book: &[u8], sheet: &[u8], prices: &[u16]) -> ChargeAnswer
    ensures result { result ≡ charge_answer_of (charge_result book.now sheet.now prices.now) }
    ensures most { result.charge ≤ most_charge }
{
    charge::charge(book, sheet, prices)
}

// The order of starting: the loads that start when the new sheet follows the running one, or refusals 13, 15, 16 and 11; the book's own refusals come first.
#[unsafe(no_mangle)]
pub extern "C" fn jadeshuttle_order(
    book: &[u8],
    running: &[u8],
    planned: &[u8],
    names: &[u8],
    order: &mut [u8],
) -> OrderAnswer
    ensures result { WritesOrder (order_result book.now running.now planned.now names.now (length order.old)) order.old order.new result }
    ensures kept { result.answer.number ≡ 0 → OrderKept book.now running.now planned.now names.now order.new result }
{
    order::order(book, running, planned, names, order)
}

// The mill's view of a sheet: the worth and the running loads, or refusals 13 and 11; the book's own refusals come first.
#[unsafe(no_mangle)]
pub extern "C" fn jadeshuttle_mill_view(book: &[u8], sheet: &[u8], view: &mut [u8]) -> Answer
    ensures { Writes (mill_result book.now sheet.now (length view.old)) view.old view.new result }
{
    views::mill_view(book, sheet, view)
}

// The supply company's view of a sheet: the slot lines, or refusals 13 and 11; the book's own refusals come first.
#[unsafe(no_mangle)]
pub extern "C" fn jadeshuttle_supply_view(book: &[u8], sheet: &[u8], view: &mut [u8]) -> Answer
    ensures result { Writes (supply_result book.now sheet.now (length view.old)) view.old view.new result }
    ensures alone { NothingElse book.now sheet.now view.old view.new result }
{
    views::supply_view(book, sheet, view)
}

// A day's books at once: the planner's answer to each of them, in the form in which the program prints it, one after the other, or refusals 18 and 19.
#[unsafe(no_mangle)]
pub extern "C" fn jadeshuttle_day(books: &[u8], work: &mut [u64], out: &mut [u8]) -> Answer
    ensures result { Writes (day_result books.now (length work.old) (length out.old)) out.old out.new result }
    ensures words { WordsKept (day_free_words books.now (length work.old)) work.old work.new }
{
    day::day(books, work, out)
}

// One book for two mills on one transformer, or refusals 1 to 8 of the first book, of the second with its lines counted on, 21 to 23 and 11.
#[unsafe(no_mangle)]
pub extern "C" fn jadeshuttle_pool(first: &[u8], second: &[u8], pooled: &mut [u8]) -> Answer
    ensures result { Writes (pool_result first.now second.now (length pooled.old)) pooled.old pooled.new result }
    ensures joint { result.number ≡ 0 → Pooled first.now second.now (take result.bytes pooled.new) }
{
    pool::pool(first, second, pooled)
}
