// A load line of a book: refusals 2 to 5 and 7, and its load.
#![tactic(auto)]

ghost use Rattle.std.specs.Prelude.{◌≡◌, map, ◌+◌, ◌*◌, ◌≤◌, length};
ghost use Rattle.model.specs.Lists.{upto};
ghost use Rattle.model.specs.Refusals.{first};
ghost use Rattle.model.specs.Book.{no_power, standing_pairs, option_start, power_at, standing_power, settings, reactive_exceeds, some_exceeds, load_rules};
ghost use Rattle.model.specs.Choice.{setting_of, power_in};
ghost use Rattle.model.specs.MustRun.{least_number};
ghost use Rattle.model.specs.Values.{load_value};
ghost use Rattle.model.specs.Bounds.{most_slots, most_ratio, most_options, most_settings};
ghost use Rattle.loadline.specs.LoadLine.{LoadLine, power_value};

use model::{Book, Load, Refusal};

// An active power, and a reactive power plus 32,768.
#[derive(Clone, Copy)]
pub struct PowerValue {
    pub active: u64,
    pub reactive: u64,
}

impl PowerValue {
    fn none() -> PowerValue
        ensures { result ≡ power_value no_power }
    {
        PowerValue {
            active: 0,
            reactive: 32768,
        }
    }
}

// How many pairs for standing a load line carries, by its kind.
#[tactic(auto, unfolding(model::specs::Book::standing_pairs))]
fn standing_pairs(line: &[u8], slots: usize) -> usize
    requires { 4 ≤ length line.now }
    ensures { result ≡ standing_pairs slots line.now }
{
    hexadecimal::of_kind(line, 6, slots)
}

// The least number of a load line's settings, by its kind: 0, which is standing, or 1 where its load must run.
#[tactic(auto, unfolding(model::specs::MustRun::least_number, model::specs::Book::must_run))]
fn least_number(line: &[u8]) -> usize
    requires { 4 ≤ length line.now }
    ensures { result ≡ least_number line.now }
{
    hexadecimal::of_kind(line, 7, 1)
}

// Where option j + 1 of a load line with so many pairs for standing starts.
fn option_start(slots: usize, pairs: usize, j: usize) -> usize
    requires { (slots ≤ most_slots) × (pairs ≤ slots) × (j ≤ most_options) }
    ensures { result ≡ option_start slots pairs j }
{
    4 + 8 * pairs + j * (4 + 8 * slots)
}

// The P and Q that start at a place.
fn power_at(line: &[u8], at: usize) -> PowerValue
    requires { at + 8 ≤ length line.now }
    ensures { result ≡ power_value (power_at line.now at) }
{
    PowerValue {
        active: hexadecimal::number(line, at, 4),
        reactive: (hexadecimal::number(line, at + 4, 4) + 32768) % 65536,
    }
}

// What standing draws in slot s.
fn standing_power(line: &[u8], slots: usize, pairs: usize, s: usize) -> PowerValue
    requires pairs_value { pairs ≡ standing_pairs slots line.now }
    requires pairs_in_bounds { 4 + 8 * pairs ≤ length line.now }
    ensures { result ≡ power_value (standing_power slots line.now s) }
{
    if s < pairs {
        return power_at(line, 4 + 8 * s);
    }
    PowerValue::none()
}

// The power of setting c in slot s; none past the last option and slot, nor for setting 0 where the load must run.
fn power_of(line: &[u8], slots: usize, pairs: usize, count: usize, c: usize, s: usize) -> PowerValue
    requires { LoadLine slots pairs count line.now }
    ensures { result ≡ power_value (power_in s (setting_of (settings slots line.now) c)) }
{
    if c < 1 {
        return standing_power(line, slots, pairs, s);
    }
    if count < c {
        return PowerValue::none();
    }
    if slots <= s {
        return PowerValue::none();
    }
    let at = option_start(slots, pairs, c - 1);
    power_at(line, at + 4 + 8 * s)
}

// |Q| > r × P in setting c and slot s.
fn exceeds_at(
    line: &[u8],
    slots: usize,
    ratio: u64,
    pairs: usize,
    count: usize,
    c: usize,
    s: usize,
) -> bool
    requires load_line { LoadLine slots pairs count line.now }
    requires ratio_le_most_ratio { ratio ≤ most_ratio }
    ensures { result ≡ reactive_exceeds ratio (power_in s (setting_of (settings slots line.now) c)) }
{
    let power = power_of(line, slots, pairs, count, c, s);
    ratio * power.active < power.reactive.abs_diff(32768)
}

// |Q| > r × P in some setting and slot; where the load must run, setting 0 has no power and exceeds nowhere.
fn some_exceeds(line: &[u8], slots: usize, ratio: u64, pairs: usize, count: usize) -> bool
    requires load_line { LoadLine slots pairs count line.now }
    requires ratio_le_most_ratio { ratio ≤ most_ratio }
    ensures { result ≡ some_exceeds ratio (settings slots line.now) }
{
    let mut found = false;
    let settings = count + 1;
    'settings: for c in 0..settings {
        for s in 0..slots {
            if exceeds_at(line, slots, ratio, pairs, count, c, s) {
                found = true;
                break 'settings;
            }
        }
    }
    found
}

// Refusals 2 to 5 and 7, in this order, of a load line.
#[tactic(auto, using(model::proofs::LengthLaws::pairs_most, hexadecimal::proofs::RangeLaws::in_range_lem), unfolding(model::specs::Book::load_rules, model::specs::Refusals::first))]
pub fn load_finding(line: &[u8], slots: usize, ratio: u64) -> Result<(), Refusal>
    requires { (slots ≤ most_slots) × (ratio ≤ most_ratio) }
    ensures { result ≡ first (load_rules slots ratio line.now) }
{
    if !hexadecimal::all_digits(line) {
        return Err(Refusal::NotHex);
    }
    if hexadecimal::wrong_kind(line, &[2, 6, 7]) {
        return Err(Refusal::WrongKind);
    }
    let count = hexadecimal::number(line, 2, 2);
    if hexadecimal::outside(count, 1, Book::OPTIONS as u64) {
        return Err(Refusal::SlotsOrOptionsOutOfRange);
    }
    let pairs = standing_pairs(line, slots);
    let due = option_start(slots, pairs, count as usize);
    if line.len() != due {
        return Err(Refusal::WrongLength);
    }
    if some_exceeds(line, slots, ratio, pairs, count as usize) {
        return Err(Refusal::ReactiveExceedsActive);
    }
    Ok(())
}

// The worth of setting c; 0 for standing and past the last option.
fn worth_of(line: &[u8], slots: usize, pairs: usize, count: usize, c: usize) -> u64
    requires { LoadLine slots pairs count line.now }
    ensures { result ≡ (setting_of (settings slots line.now) c).worth }
{
    if c < 1 {
        return 0;
    }
    if count < c {
        return 0;
    }
    let at = option_start(slots, pairs, c - 1);
    hexadecimal::number(line, at, 4)
}

fn worths_of(line: &[u8], slots: usize, pairs: usize, count: usize) -> [u64; Load::SETTINGS]
    requires { LoadLine slots pairs count line.now }
    ensures { result ≡ map (λ c. (setting_of (settings slots line.now) c).worth) (upto most_settings) }
{
    let mut worths = [0u64; Load::SETTINGS];
    for c in 0..Load::SETTINGS {
        worths[c] = worth_of(line, slots, pairs, count, c);
    }
    worths
}

// The load of a load line that is not refused.
pub fn load_of(line: &[u8], slots: usize, count: usize) -> Load
    requires { LoadLine slots (standing_pairs slots line.now) count line.now }
    ensures { result ≡ load_value (settings slots line.now) }
{
    let pairs = standing_pairs(line, slots);
    let worths = worths_of(line, slots, pairs, count);
    let mut actives = [0u64; Load::POWERS];
    let mut reactives = [0u64; Load::POWERS];
    for k in 0..Load::POWERS {
        let power = power_of(line, slots, pairs, count, k / Book::SLOTS, k % Book::SLOTS);
        actives[k] = power.active;
        reactives[k] = power.reactive;
    }
    let least = least_number(line);
    let settings = count + 1 - least;
    Load {
        settings,
        worths,
        actives,
        reactives,
        least,
    }
}
