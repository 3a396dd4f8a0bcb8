// What document 01 says of a book, found by trying every choice, and a choice's sheet as text. Shares no function with the planner.
#![tactic(auto)]

mod enumerate;
mod lists;
mod sheet;
mod sizes;

pub use enumerate::{Best, best_choice, cells, choices, code, worth};
pub use lists::trials;
pub use sheet::{Change, draw_sheet, sheet_of};
pub use sizes::quick;
