// The planner: the sheet of the plan, or the first refusal of 1 to 12 and 17. Which plan a book has goes by the test of the search.
#![tactic(auto)]

ghost use Rattle.std.specs.Prelude.{◌≡◌, ◌≤◌, length};
ghost use Rattle.model.specs.Grid.{slots_of};
ghost use Rattle.model.specs.Trials.{needed_words, WordsKept};
ghost use Rattle.model.specs.Answers.{Writes};
ghost use Rattle.model.specs.Sheet.{sheet_length};
ghost use Rattle.model.specs.Calls.{plan_sheet, planner_result, fitting, free_for, free_words};
ghost use Rattle.model.specs.Demand.{Answered, Demand3};
ghost use Rattle.model.specs.Values.{Held, problem_of};
ghost use Rattle.grid.specs.Geometry.{GridIs};
ghost use Rattle.found.specs.Found.{plan_by};
ghost use Rattle.planner.specs.Planner.{fitted_plan, answered, coarse, result_by, free_by};

use grid::Grid;
use model::{Answer, Book, Refusal};
use scan::Test;

// The planner for a book that was read: the sheet's answer, or refusals 9 to 12 and 17.
fn plan_book(book: Book, work: &mut [u64], sheet: &mut [u8], test: Test) -> Result<Answer, Refusal>
    requires { Held book }
    ensures result { Writes (fitted_plan test (length work.old) (length sheet.old) (problem_of book)) sheet.old sheet.new (answered result) }
    ensures words { WordsKept (free_for (fitting (length work.old) (length sheet.old) (problem_of book))) work.old work.new }
{
    let grid = grid::grid_of(book);
    fits::size_finding(book, grid.cells, work.len(), sheet.len())?;
    let plan = found::search_for(book, grid, work, test)?;
    let Some(code) = plan.code else {
        return Err(Refusal::NoPlan);
    };
    let picks = sums::picks_of(code, book.count);
    Ok(sheet::write_sheet(book, picks, plan.trials, sheet))
}

// Whether refusal 20 applies to a book of this fineness.
fn too_coarse(test: Test, fineness: u64) -> bool
    ensures { result ≡ coarse test fineness }
{
    match test {
        Test::Admission => false,
        Test::TrueSums => fineness == 1,
    }
}

// The plain or the strict planner, by the test. It takes the book's bytes, as a book that is handed over by value is copied.
pub fn plan_by(book: &[u8], work: &mut [u64], sheet: &mut [u8], test: Test) -> Answer
    ensures result { Writes (result_by test book.now (length work.old) (length sheet.old)) sheet.old sheet.new result }
    ensures words { WordsKept (free_by test book.now (length work.old) (length sheet.old)) work.old work.new }
{
    let read = match book::read_book(book) {
        Ok(read) => read,
        Err(refused) => return Answer::from(refused),
    };
    if too_coarse(test, read.fineness) {
        return Answer::refusal(Refusal::TooCoarse, 0);
    }
    match plan_book(read, work, sheet, test) {
        Ok(answer) => answer,
        Err(refusal) => Answer::refusal(refusal, 0),
    }
}

// The planner: the sheet of the plan, or the first refusal of 1 to 12 and 17.
pub fn plan(book: &[u8], work: &mut [u64], sheet: &mut [u8]) -> Answer
    ensures result { Writes (planner_result book.now (length work.old) (length sheet.old)) sheet.old sheet.new result }
    ensures words { WordsKept (free_words book.now (length work.old) (length sheet.old)) work.old work.new }
    ensures answered { Answered book.now (length work.old) (length sheet.old) result.number }
    ensures demand { result.number ≡ 0 → Demand3 book.now sheet.new }
{
    plan_by(book, work, sheet, Test::Admission)
}
