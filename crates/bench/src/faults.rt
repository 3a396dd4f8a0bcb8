// The planners and the sheet reader on damaged books.
use comparison::{Lent, ROOM, compare_quick, compare_reading, plan_agrees, refusal, settle};
use damage::{Faults, damaged, draw_one, draw_two};
use fields::Book;
use kinds::Tally;
use plain::Draws;

// The planners and the sheet reader on a damaged book, which each of them refuses alike, with some words and some room.
fn compare_faults(
    draws: &mut Draws,
    tally: &mut Tally,
    book: &Book,
    work: &mut [u64],
    faults: Faults,
) {
    let text = damaged(draws, book, faults);
    tally.count(kinds::FAULTS.wrapping_add(faults.shown()));
    let words = draws.roll(4096) as usize;
    let room = words % ROOM;
    let fault = faults.first();
    let wanted = refusal(fault.number, fault.line);
    let sheet = [0u8; ROOM];
    let lent = Lent { words, room };
    let same = plan_agrees(text.bytes(), work, lent, wanted, &sheet, 0);
    settle(tally, kinds::PLANNER, wanted, same);
    compare_quick(tally, text.bytes(), room, wanted, &sheet);
    compare_reading(tally, text.bytes(), &sheet[..room], wanted);
}

// A book with one fault and with two.
pub fn compare_damaged(draws: &mut Draws, tally: &mut Tally, book: &Book, work: &mut [u64]) {
    let one = draw_one(draws, book);
    compare_faults(draws, tally, book, work, one);
    let two = draw_two(draws, book);
    compare_faults(draws, tally, book, work, two);
}
