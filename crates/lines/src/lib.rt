// The writers of a sheet's lines: digits and an LF, put into a lent buffer.
#![tactic(auto)]

ghost use Rattle.std.specs.Prelude.{◌≡◌, ℕ, ◌+◌, ◌*◌, ◌^◌, ◌≤◌, ◌<◌, length, get_or};
ghost use Rattle.std.proofs.Math.IntN.{sub_ℕ};
ghost use Rattle.model.specs.Bounds.{most_slots, most_loads};
ghost use Rattle.model.specs.Frames.{unsigned};
ghost use Rattle.hexadecimal.specs.Written.{written};
ghost use Rattle.lines.specs.Lines.{numbers_in, first_bytes, slot_bytes, slots_bytes};

use model::Book;

// Writes the first `count` numbers from `at` on.
fn write_numbers(buf: &mut [u8], at: usize, picks: [usize; Book::LOADS], count: usize)
    requires { (count ≤ most_loads) × (at + 2 * count ≤ length buf.old) }
    ensures { buf.new ≡ written buf.old at (numbers_in picks count) }
{
    // Not `hexadecimal::write_row`: an array of u64 made from these numbers is no plainer.
    for k in 0..count {
        hexadecimal::write(buf, at + 2 * k, 2, picks[k] as u64);
    }
}

// Writes the first line, of a sheet for `count` loads, from the start on.
pub fn write_first(
    buf: &mut [u8],
    count: usize,
    picks: [usize; Book::LOADS],
    worth: u64,
    trials: u64,
)
    requires { (count ≤ most_loads) × (19 + 2 * count ≤ length buf.old) }
    ensures { buf.new ≡ written buf.old 0 (first_bytes picks count worth trials) }
{
    hexadecimal::write(buf, 0, 2, 4);
    hexadecimal::write(buf, 2, 8, worth);
    hexadecimal::write(buf, 10, 8, trials);
    write_numbers(buf, 18, picks, count);
    buf[18 + 2 * count] = b'\n';
}

// Writes one slot line from `at` on.
fn write_slot(part: &mut [u8], at: usize, active: u64, word: u64, limit: u64)
    requires { at + 23 ≤ length part.old }
    ensures { part.new ≡ written part.old at (slot_bytes active word limit) }
{
    hexadecimal::write(part, at, 2, 5);
    hexadecimal::write(part, at + 2, 8, active);
    hexadecimal::write(part, at + 10, 8, word);
    hexadecimal::write(part, at + 18, 4, limit);
    part[at + 22] = b'\n';
}

// The two's complement word, of 32 bits, of `reactive` - `base`.
fn word_of(reactive: u64, base: u64) -> u64
    requires { (reactive ≤ 2 ^ 31) × (base ≤ 2 ^ 31) }
    ensures { result ≡ unsigned 32 (sub_ℕ reactive base) }
{
    (reactive + 4294967296 - base) % 4294967296
}

// Writes the slot lines from the start on, where `reactives` are sums of Q over `count` loads, each Q raised by 32,768.
pub fn write_slots(
    part: &mut [u8],
    slots: usize,
    count: usize,
    actives: [u64; Book::SLOTS],
    reactives: [u64; Book::SLOTS],
    limits: [u64; Book::SLOTS],
)
    requires slots_le_most_slots { (slots ≤ most_slots) × (count ≤ most_loads) × (23 * slots ≤ length part.old) }
    requires by_index { (s : ℕ) → s < most_slots → get_or reactives s 0 ≤ 2 ^ 31 }
    ensures { part.new ≡ written part.old 0 (slots_bytes count actives reactives limits slots) }
{
    let base = 32768 * count as u64;
    for s in 0..slots {
        let word = word_of(reactives[s], base);
        write_slot(part, 23 * s, actives[s], word, limits[s]);
    }
}
