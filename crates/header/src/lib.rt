// The header line of a book: refusals 2 to 6, its ratio, its budget and its limits.
#![tactic(auto)]

ghost use Rattle.std.specs.Prelude.{◌≡◌, map, ◌+◌, ◌≤◌, length, get_or};
ghost use Rattle.model.specs.Lists.{upto};
ghost use Rattle.model.specs.Refusals.{first};
ghost use Rattle.model.specs.Book.{ratio_digits, ratio_in, budget_in, limits_in, header_rules};
ghost use Rattle.model.specs.Bounds.{most_slots};
ghost use Rattle.header.specs.Header.{HeaderLine};

use model::{Book, Refusal};

// How many digits a header line has for its ratio, by its kind.
#[tactic(auto, unfolding(model::specs::Book::ratio_digits, model::specs::Book::states_ratio))]
fn ratio_digits(line: &[u8]) -> usize
    requires { 2 ≤ length line.now }
    ensures { result ≡ ratio_digits line.now }
{
    hexadecimal::of_kind(line, 8, 2)
}

// The ratio; 1 where the line states none.
pub fn ratio_of(line: &[u8]) -> u64
    requires { 16 + ratio_digits line.now ≤ length line.now }
    ensures { result ≡ ratio_in line.now }
{
    let digits = ratio_digits(line);
    if digits < 1 {
        return 1;
    }
    hexadecimal::number(line, 8, digits)
}

pub fn budget_of(line: &[u8]) -> u64
    requires { 16 + ratio_digits line.now ≤ length line.now }
    ensures { result ≡ budget_in line.now }
{
    let digits = ratio_digits(line);
    hexadecimal::number(line, 8 + digits, 8)
}

// Refusals 2 to 6, in this order, of a header line.
#[tactic(auto, using(model::proofs::FrameLaws::field_below, model::proofs::LengthLaws::ratio_few), unfolding(model::specs::Book::header_rules, model::specs::Refusals::first))]
pub fn header_finding(line: &[u8]) -> Result<(), Refusal>
    ensures { result ≡ first (header_rules line.now) }
{
    if !hexadecimal::all_digits(line) {
        return Err(Refusal::NotHex);
    }
    if hexadecimal::wrong_kind(line, &[1, 8]) {
        return Err(Refusal::WrongKind);
    }
    let slots = hexadecimal::number(line, 2, 2);
    if hexadecimal::outside(slots, 1, Book::SLOTS as u64) {
        return Err(Refusal::SlotsOrOptionsOutOfRange);
    }
    let digits = ratio_digits(line);
    if line.len() as u64 != 16 + digits as u64 + 4 * slots {
        return Err(Refusal::WrongLength);
    }
    if hexadecimal::outside(hexadecimal::number(line, 4, 2), 1, Book::LOADS as u64) {
        return Err(Refusal::LoadsOrFinenessOutOfRange);
    }
    if hexadecimal::outside(hexadecimal::number(line, 6, 2), 1, Book::FINENESS) {
        return Err(Refusal::LoadsOrFinenessOutOfRange);
    }
    if hexadecimal::outside(ratio_of(line), 1, Book::RATIO) {
        return Err(Refusal::LoadsOrFinenessOutOfRange);
    }
    Ok(())
}

// The limit of slot s, counted from 0; 0 past the last slot.
fn limit_at(line: &[u8], slots: usize, s: usize) -> u64
    requires { HeaderLine slots line.now }
    ensures { result ≡ get_or (limits_in line.now) s 0 }
{
    if s < slots {
        let digits = ratio_digits(line);
        return hexadecimal::number(line, 16 + digits + 4 * s, 4);
    }
    0
}

pub fn limits_of(line: &[u8], slots: usize) -> [u64; Book::SLOTS]
    requires { HeaderLine slots line.now }
    ensures { result ≡ map (λ s. get_or (limits_in line.now) s 0) (upto most_slots) }
{
    let mut limits = [0u64; Book::SLOTS];
    for s in 0..Book::SLOTS {
        limits[s] = limit_at(line, slots, s);
    }
    limits
}
