// What the search finds: the trials of a book whose table fits the work area, and the plan's code or that there is no plan; or refusal 12.
#![tactic(auto)]

ghost use Rattle.std.specs.Prelude.{◌≡◌, ◌≤◌, length};
ghost use Rattle.model.specs.Grid.{slots_of};
ghost use Rattle.model.specs.Trials.{needed_words, WordsKept};
ghost use Rattle.model.specs.Values.{Held, problem_of};
ghost use Rattle.grid.specs.Geometry.{GridIs};
ghost use Rattle.found.specs.Found.{found_for};

use grid::Grid;
use model::{Book, Refusal};
use scan::Test;

// What was found within the budget: the trials, and the code of the plan's choice, where there is a plan.
#[derive(Clone, Copy)]
pub struct Planned {
    pub trials: u64,
    pub code: Option<u64>,
}

// Searches the table of a book that fits into the work area; the test says which cells of the last layer may be the plan.
pub fn search_for(book: Book, grid: Grid, work: &mut [u64], test: Test) -> Result<Planned, Refusal>
    requires held { Held book }
    requires grid_is { GridIs (slots_of (problem_of book)) grid }
    requires book_in_bounds { needed_words (problem_of book) ≤ length work.old }
    ensures found { result ≡ found_for test (problem_of book) }
    ensures words { WordsKept (needed_words (problem_of book)) work.old work.new }
{
    let moves = moves::loads_of(book, grid);
    let count = book.count;
    let budget = book.budget as usize;
    let ran = search::search(work, grid, count, moves, budget);
    let trials = ran.trials;
    if budget < trials {
        return Err(Refusal::BudgetExceeded);
    }
    let trials = trials as u64;
    let best = scan::scan(work, grid, ran.cur, &ran.layer, book, test);
    // A reached cell holds its worth plus 1, so a plan's is not 0.
    if best.worth == 0 {
        return Ok(Planned { trials, code: None });
    }
    Ok(Planned {
        trials,
        code: Some(best.code),
    })
}
