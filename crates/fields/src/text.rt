// A book as text. A function that pushes writes at the text's end.
use crate::{Book, Header, Load, Setting};
use plain::Text;

// The header without its end.
pub fn push_header(text: &mut Text, header: Header, budget: u64) {
    text.push_number(2, 1);
    text.push_number(2, header.slots as u64);
    text.push_number(2, header.loads as u64);
    text.push_number(2, header.fineness);
    text.push_number(8, budget);
    for slot in 0..header.slots {
        text.push_number(4, header.limit(slot));
    }
}

fn push_option(text: &mut Text, option: &Setting, slots: usize) {
    text.push_number(4, option.worth);
    for pair in option.pairs.iter().take(slots) {
        text.push_number(4, pair.active);
        text.push_number(4, pair.reactive());
    }
}

// A load's line without its end.
pub fn push_load(text: &mut Text, load: &Load, slots: usize) {
    text.push_number(2, 2);
    text.push_number(2, load.o as u64);
    for option in load.options.iter().take(load.o) {
        push_option(text, option, slots);
    }
}

// A book's text at a budget.
pub fn text_of(book: &Book, budget: u64) -> Text {
    let mut text = Text::new();
    push_header(&mut text, book.header, budget);
    text.end_line();
    for load in book.loads() {
        push_load(&mut text, load, book.header.slots);
        text.end_line();
    }
    text
}
