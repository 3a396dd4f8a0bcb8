// The bench: books from a seeded generator, on which the planner, the quick planner and the sheet reader are compared with a plain
// enumeration over all codes that shares no function with them. Prints counts by kind, and how many answers differ.
#![tactic(auto)]

mod faults;
mod plans;
mod readings;

use kinds::Tally;
use plain::Draws;
use std::io;

// How many books are drawn.
const TURNS: usize = 3000;

// The planners and the sheet reader on the book of a turn as it was drawn, and damaged.
fn run_turn(draws: &mut Draws, tally: &mut Tally, work: &mut [u64], turn: usize) {
    let book = draws::draw_book(draws, turn);
    draws::count_book(tally, &book);
    plans::compare_plans(tally, &book, work);
    plans::compare_quicks(tally, &book);
    readings::compare_readings(draws, tally, &book);
    faults::compare_damaged(draws, tally, &book, work);
}

fn run(tally: &mut Tally, work: &mut [u64]) {
    let mut draws = Draws::from_seed(20261115);
    for turn in 0..TURNS {
        run_turn(&mut draws, tally, work, turn);
    }
}

fn main(rt: HostRuntime) -> io::Result<()> {
    let mut tally = Tally::new();
    // words for books of up to 98,304 cells, with something in them
    let mut work = [77u64; 393216];
    run(&mut tally, &mut work);
    kinds::print_tally(&rt, &tally)
}
