// Whether a book's table and sheet fit what is lent: refusals 9 to 11.
#![tactic(auto)]

ghost use Rattle.std.specs.Prelude.{◌≡◌};
ghost use Rattle.model.specs.Refusals.{first};
ghost use Rattle.model.specs.Trials.{cells};
ghost use Rattle.model.specs.Calls.{size_rules};
ghost use Rattle.model.specs.Values.{Held, problem_of};
ghost use Rattle.grid.specs.Geometry.{Capped};

use model::{Book, Refusal};

// Refusals 9 to 11, in this order, of a book with so many cells, for a work area of so many words and a buffer with room for so many bytes.
pub fn size_finding(book: Book, total: usize, words: usize, room: usize) -> Result<(), Refusal>
    requires held { Held book }
    requires capped { Capped (cells (problem_of book)) total }
    ensures { result ≡ first (size_rules (problem_of book) words room) }
{
    if Book::CELLS < total {
        return Err(Refusal::TooManyCells);
    }
    if words < 4 * total {
        return Err(Refusal::WorkTooSmall);
    }
    if room < sheet::sheet_length(book) {
        return Err(Refusal::BufferTooSmall);
    }
    Ok(())
}
