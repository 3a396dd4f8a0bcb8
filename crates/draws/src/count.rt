// What was drawn, counted by kind in the tally.
use fields::{Book, Header, Load, Pair, Way};
use kinds::Tally;

fn kind_of_slot(header: Header, slot: usize) -> usize {
    if header.limit(slot) == 0 {
        kinds::LIMIT_ZERO
    } else if header.step(slot) == 1 {
        kinds::STEP_ONE
    } else {
        kinds::STEP_ABOVE_ONE
    }
}

fn count_pair(tally: &mut Tally, pair: Pair) {
    tally.count(kinds::PAIRS);
    tally.count_if(kinds::BELOW_ZERO, pair.down > 0);
    tally.count_if(
        kinds::AS_LARGE,
        pair.active > 0 && pair.far() == pair.active,
    );
}

// Each P and Q that the book uses.
fn count_pairs(tally: &mut Tally, load: &Load, slots: usize) {
    for option in load.options.iter().take(load.o) {
        for pair in option.pairs.iter().take(slots) {
            count_pair(tally, *pair);
        }
    }
}

// Counts a load by its o, and where it is a twin by how.
fn count_load(tally: &mut Tally, load: &Load) {
    tally.count(kinds::LOADS.wrapping_add(load.o));
    match load.way {
        Way::Again => tally.count(kinds::AGAIN),
        Way::TurnedAbout => tally.count(kinds::TURNED_ABOUT),
        Way::ByItself => {}
    }
}

pub fn count_book(tally: &mut Tally, book: &Book) {
    let header = book.header;
    tally.count(kinds::BOOKS.wrapping_add(header.slots));
    for slot in 0..header.slots {
        tally.count(kind_of_slot(header, slot));
    }
    for load in book.loads() {
        count_load(tally, load);
        count_pairs(tally, load, header.slots);
    }
}
