// Two mills on one transformer: the book that pools two, or the first refusal of the one, of the other with its lines counted on, 21 to 23, or 11.
#![tactic(auto)]

ghost use Rattle.std.specs.Prelude.{◌≡◌, map, ℕ, ◌+◌, ◌*◌, ◌^◌, ◌<◌, ◌≤◌, ltb, length, get_or, take};
ghost use Rattle.model.specs.Lists.{upto, any};
ghost use Rattle.model.specs.Bounds.{most_slots, most_limit, most_book};
ghost use Rattle.model.specs.Refusals.{first, done};
ghost use Rattle.model.specs.Answers.{Writes, in_room};
ghost use Rattle.model.specs.Book.{read_book};
ghost use Rattle.model.specs.Values.{Held, problem_of};
ghost use Rattle.model.specs.Pool.{read_both, pair_rules, pooled, header_line, pooled_with, pool_result, Pooled};
ghost use Rattle.hexadecimal.specs.Written.{written};
ghost use Rattle.pool.specs.Mills.{later_refused, mills_of};

use model::{Answer, Book, Refusal, Refused};

// A refusal whose line comes after so many others.
fn later(x: Refused, lines: u64) -> Refused
    requires { lines + x.line < 2 ^ 64 }
    ensures { result ≡ later_refused lines x }
{
    x.refusal.on_line(lines + x.line)
}

// Each slot's two limits, added.
fn limit_sums(a: [u64; Book::SLOTS], b: [u64; Book::SLOTS]) -> [u64; Book::SLOTS]
    requires by_index { (s : ℕ) → s < most_slots → get_or a s 0 ≤ most_limit }
    requires by_index_2 { (s : ℕ) → s < most_slots → get_or b s 0 ≤ most_limit }
    ensures { result ≡ map (λ s. get_or a s 0 + get_or b s 0) (upto most_slots) }
{
    let mut sums = [0u64; Book::SLOTS];
    for s in 0..Book::SLOTS {
        sums[s] = a[s] + b[s];
    }
    sums
}

// One of the first `slots` sums is above what a limit can be.
fn too_large(sums: [u64; Book::SLOTS], slots: usize) -> bool
    requires { slots ≤ most_slots }
    ensures { result ≡ any (ltb most_limit) (map (λ s. get_or sums s 0) (upto slots)) }
{
    sums[..slots].iter().any(|sum| Book::LIMIT < *sum)
}

// Refusals 21 to 23, in this order, of two books that were read.
fn pair_finding(a: Book, b: Book) -> Result<(), Refusal>
    requires held { Held a }
    requires held_2 { Held b }
    ensures { result ≡ first (pair_rules (mills_of a b)) }
{
    if a.slots != b.slots {
        return Err(Refusal::SlotsOrFinenessDiffer);
    }
    if a.fineness != b.fineness {
        return Err(Refusal::SlotsOrFinenessDiffer);
    }
    if Book::LOADS < a.count + b.count {
        return Err(Refusal::TooManyLoads);
    }
    let limits = a.limits;
    let others = b.limits;
    let sums = limit_sums(limits, others);
    if too_large(sums, a.slots) {
        return Err(Refusal::LimitSumTooLarge);
    }
    Ok(())
}

// Writes the header of the book that pools two from the start on.
fn write_header(buf: &mut [u8], a: Book, b: Book)
    requires held { Held a }
    requires held_2 { Held b }
    requires slots_in_bounds { 19 + 4 * a.slots ≤ length buf.old }
    ensures { buf.new ≡ written buf.old 0 (header_line (pooled (mills_of a b))) }
{
    let slots = a.slots as u64;
    let count = (a.count + b.count) as u64;
    let ratio = a.ratio.max(b.ratio);
    let budget = a.budget.max(b.budget);
    let limits = a.limits;
    let others = b.limits;
    let sums = limit_sums(limits, others);
    hexadecimal::write_row(buf, 0, 2, &[8, slots, count, a.fineness, ratio]);
    hexadecimal::write(buf, 10, 8, budget);
    hexadecimal::write_row(buf, 18, 4, &sums[..a.slots]);
    buf[18 + 4 * a.slots] = 10;
}

// Writes the pooled book: the header, the load lines of the first book, and those of the second; or refusal 11.
fn write_pooled(a: Book, b: Book, lines: &[u8], others: &[u8], pooled: &mut [u8]) -> Answer
    requires held { Held a }
    requires held_2 { Held b }
    requires others_len_bound { length (pooled_with (mills_of a b) lines.now others.now) ≤ most_book }
    ensures { Writes (in_room (pooled_with (mills_of a b) lines.now others.now) (length pooled.old)) pooled.old pooled.new result }
{
    let header = 19 + 4 * a.slots;
    let second = header + lines.len();
    let bytes = second + others.len();
    if pooled.len() < bytes {
        return Answer::refusal(Refusal::BufferTooSmall, 0);
    }
    write_header(pooled, a, b);
    hexadecimal::copy(pooled, header, lines);
    hexadecimal::copy(pooled, second, others);
    Answer::success(bytes as u64, 0, 0)
}

// Pools two books that were read.
fn pool_both(a: Book, b: Book, first: &[u8], second: &[u8], pooled: &mut [u8]) -> Answer
    requires held { Held a }
    requires held_2 { Held b }
    requires second_value { read_both first.now second.now ≡ done (mills_of a b) }
    ensures { Writes (pool_result first.now second.now (length pooled.old)) pooled.old pooled.new result }
{
    if let Err(r) = pair_finding(a, b) {
        return Answer::refusal(r, 0);
    }
    let lines = hexadecimal::line_length(first) + 1;
    let others = hexadecimal::line_length(second) + 1;
    write_pooled(a, b, &first[lines..], &second[others..], pooled)
}

// Pools a book that was read with a second one.
fn pool_with(a: Book, first: &[u8], second: &[u8], pooled: &mut [u8]) -> Answer
    requires held { Held a }
    requires first_value { read_book first.now ≡ done (problem_of a) }
    ensures { Writes (pool_result first.now second.now (length pooled.old)) pooled.old pooled.new result }
{
    match book::read_book(second) {
        Ok(b) => pool_both(a, b, first, second, pooled),
        Err(refused) => Answer::from(later(refused, a.count as u64 + 1)),
    }
}

// One book for two mills on one transformer.
pub fn pool(first: &[u8], second: &[u8], pooled: &mut [u8]) -> Answer
    ensures result { Writes (pool_result first.now second.now (length pooled.old)) pooled.old pooled.new result }
    ensures joint { result.number ≡ 0 → Pooled first.now second.now (take result.bytes pooled.new) }
{
    match book::read_book(first) {
        Ok(a) => pool_with(a, first, second, pooled),
        Err(refused) => Answer::from(refused),
    }
}
