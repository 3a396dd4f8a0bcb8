// A choice's sheet as text, as it is or changed.
use crate::enumerate::{choices, level, sums, worth};
use fields::Book;
use plain::{Draws, Text};

fn push_slot(text: &mut Text, book: &Book, choice: u64, slot: usize) {
    let s = sums(book, choice, slot);
    text.push_number(2, 5);
    text.push_number(8, s.active);
    text.push_number(8, s.up.wrapping_add(0x100000000).saturating_sub(s.down));
    text.push_number(4, book.header.limit(slot));
    text.end_line();
}

// The first line of a choice's sheet, with a number of trials: the levels have two digits a load.
fn push_first(text: &mut Text, book: &Book, choice: u64, trials: u64) {
    text.push_number(2, 4);
    text.push_number(8, worth(book, choice));
    text.push_number(8, trials);
    for k in 0..book.header.loads {
        text.push_number(2, level(book, choice, k));
    }
    text.end_line();
}

// The sheet of a choice, with a number of trials.
pub fn sheet_of(book: &Book, choice: u64, trials: u64) -> Text {
    let mut text = Text::new();
    push_first(&mut text, book, choice, trials);
    for slot in 0..book.header.slots {
        push_slot(&mut text, book, choice, slot);
    }
    text
}

// A number of trials, or now and then the least or the greatest that there is.
fn draw_trials(draws: &mut Draws) -> u64 {
    let some = draws.roll(65537);
    let other = draws.roll(65536);
    match some % 8 {
        0 => 0,
        1 => 0xFFFFFFFF,
        _ => some.wrapping_mul(other),
    }
}

// What becomes of a drawn sheet.
#[derive(Clone, Copy)]
pub enum Change {
    Unchanged,
    Byte,
    Level,
    Shorter,
    Longer,
}

// A byte becomes some byte that a sheet may have, or not.
fn change_byte(sheet: &mut Text, draws: &mut Draws) {
    let place = draws.roll(sheet.len() as u64) as usize;
    sheet.put_byte(place, draws.pick(b"0123456789ABCDEFa \n\0"));
}

// Some load's level becomes another, or the same.
fn change_level(sheet: &mut Text, loads: usize, draws: &mut Draws) {
    let load = draws.roll(loads as u64) as usize;
    let level = draws.roll(5);
    sheet.put_number(load.wrapping_mul(2).wrapping_add(18), 2, level);
}

fn take_off(sheet: &mut Text, draws: &mut Draws) {
    let bytes = sheet.len();
    let off = draws.roll_from(1, bytes as u64) as usize;
    sheet.truncate(bytes.saturating_sub(off));
}

// A sheet of some choice and some trials, as it is, or with a byte or a level changed, bytes taken off or one added.
pub fn draw_sheet(draws: &mut Draws, book: &Book, change: Change) -> Text {
    let loads = book.header.loads;
    let choice = draws.roll(choices(book, loads));
    let trials = draw_trials(draws);
    let mut sheet = sheet_of(book, choice, trials);
    match change {
        Change::Unchanged => {}
        Change::Byte => change_byte(&mut sheet, draws),
        Change::Level => change_level(&mut sheet, loads, draws),
        Change::Shorter => take_off(&mut sheet, draws),
        Change::Longer => sheet.push_byte(draws.pick(b"0\n")),
    }
    sheet
}
