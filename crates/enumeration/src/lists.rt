// "H(k) is the number of different lists of grid pairs": the list of each choice is compared with every list before it.
use crate::enumerate::{choices, sums};
use fields::Book;

// A choice's list, its grid pair in each of four slots, and whether it has a ≤ R in each. A reactive value stands above 0 by a bias.
#[derive(Clone, Copy, PartialEq)]
struct List {
    actives: [u64; 4],
    reactives: [u64; 4],
    is_reached: bool,
}

impl List {
    const NONE: List = List {
        actives: [0; 4],
        reactives: [0; 4],
        is_reached: true,
    };
}

const BIAS: u64 = 0x1000000;

fn list_of(book: &Book, choice: u64) -> List {
    let mut list = List::NONE;
    for slot in 0..book.header.slots.min(4) {
        let s = sums(book, choice, slot);
        list.actives[slot] = s.grid_active;
        list.reactives[slot] = BIAS.wrapping_add(s.grid_up).wrapping_sub(s.grid_down);
        list.is_reached = list.is_reached && s.grid_active <= book.header.reach(slot);
    }
    list
}

// How many of these lists have a ≤ R in every slot, and are no list before. This sum and the next wrap, so that neither is `sum` or `count`.
fn different(lists: &[List]) -> u64 {
    let mut n: u64 = 0;
    for (i, list) in lists.iter().enumerate() {
        if list.is_reached && lists.iter().take(i).all(|before| before != list) {
            n = n.wrapping_add(1);
        }
    }
    n
}

// "The trials of a book are the sum over k" of "H(k-1) × (o of load k, plus 1)".
fn all_tries(book: &Book, lists: &[List]) -> u64 {
    let mut n: u64 = 0;
    for (k, load) in book.loads().iter().enumerate() {
        let first = lists.get(..choices(book, k) as usize).unwrap_or(&[]);
        n = different(first).wrapping_mul(load.levels()).wrapping_add(n);
    }
    n
}

// The lists of the first loads' choices come first, since the later loads stand in them.
pub fn trials(book: &Book) -> u64 {
    // the lists of up to 1,024 choices
    let mut lists = [List::NONE; 1024];
    let choices = choices(book, book.header.loads) as usize;
    for (choice, list) in lists.iter_mut().enumerate().take(choices) {
        *list = list_of(book, choice as u64);
    }
    all_tries(book, &lists)
}
