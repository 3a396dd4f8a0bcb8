// The strict planner (document 02, M-109): the sheet of the strict plan, which never goes above a limit, or the first refusal of 1 to 8, 20, 9 to 12 and 17.
#![tactic(auto)]

ghost use Rattle.std.specs.Prelude.{◌≡◌, length};
ghost use Rattle.model.specs.Trials.{WordsKept};
ghost use Rattle.model.specs.Answers.{Writes};
ghost use Rattle.model.specs.Strict.{strict_result, strict_free, StrictAnswered, NeverAbove, NoMargin};

use model::Answer;
use scan::Test;

// The plain planner with another test of a cell, and refusal 20 for d = 1, with which no choice could have the margin.
pub fn plan_strict(book: &[u8], work: &mut [u64], sheet: &mut [u8]) -> Answer
    ensures result { Writes (strict_result book.now (length work.old) (length sheet.old)) sheet.old sheet.new result }
    ensures words { WordsKept (strict_free book.now (length work.old) (length sheet.old)) work.old work.new }
    ensures answered { StrictAnswered book.now (length work.old) (length sheet.old) result.number }
    ensures keeps { result.number ≡ 0 → NeverAbove book.now (length work.old) (length sheet.old) sheet.new }
    ensures margin { result.number ≡ 17 → NoMargin book.now }
{
    planner::plan_by(book, work, sheet, Test::TrueSums)
}
