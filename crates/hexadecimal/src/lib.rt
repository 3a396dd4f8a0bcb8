// Hexadecimal digits, numbers and lines in a slice of bytes, read, written and copied; whether a number is in its range and a line of a kind that is due.
#![tactic(auto)]

ghost use Rattle.std.specs.Prelude.{◌≡◌, ◌==◌, cond, not, map, ◌+◌, ◌*◌, ◌≤◌, ◌<◌, length};
ghost use Rattle.model.specs.Lists.{all, within, concat};
ghost use Rattle.model.specs.Frames.{is_digit, digit_value, digit, field, digits, line_length};
ghost use Rattle.model.specs.Book.{kind_rule};
ghost use Rattle.hexadecimal.specs.Written.{written};

#[tactic(auto, using(std::proofs::lemmas::Bool::Decides::nat_tests), unfolding(model::specs::Frames::is_digit))]
fn is_digit(b: u8) -> bool
    ensures { result ≡ is_digit b }
{
    matches!(b, b'0'..=b'9' | b'A'..=b'F')
}

// What a digit stands for; 0 for any other byte.
#[tactic(auto, using(std::proofs::lemmas::Bool::Decides::nat_tests), unfolding(model::specs::Frames::digit_value))]
fn value_of(b: u8) -> u64
    ensures { result ≡ digit_value b }
{
    match b {
        b'0'..=b'9' => u64::from(b - b'0'),
        b'A'..=b'F' => u64::from(b - b'A' + 10),
        _ => 0,
    }
}

pub fn all_digits(line: &[u8]) -> bool
    ensures { result ≡ all is_digit line.now }
{
    line.iter().all(|b| is_digit(*b))
}

// The number in the n digits from `at` on.
pub fn number(line: &[u8], at: usize, n: usize) -> u64
    requires { (at + n ≤ length line.now) × (n ≤ 8) }
    ensures { result ≡ field line.now at n }
{
    let mut v: u64 = 0;
    for i in 0..n {
        v = v * 16 + value_of(line[at + i]);
    }
    v
}

// How many bytes stand before the first LF; all, where there is none.
pub fn line_length(s: &[u8]) -> usize
    ensures { result ≡ line_length s.now }
{
    s.iter().position(|b| *b == b'\n').unwrap_or(s.len())
}

// The digit of a number below 16.
#[tactic(auto, using(std::proofs::lemmas::Bool::Decides::nat_tests), unfolding(model::specs::Frames::digit))]
fn digit_of(x: u64) -> u8
    requires { x < 16 }
    ensures { result ≡ digit x }
{
    match x {
        0..=9 => b'0' + x as u8,
        _ => b'A' + (x - 10) as u8,
    }
}

// Writes the lowest n digits of x from `at` on, the last one first.
pub fn write(buf: &mut [u8], at: usize, n: usize, x: u64)
    requires { at + n ≤ length buf.old }
    ensures { buf.new ≡ written buf.old at (digits n x) }
{
    let mut rest = x;
    for i in (0..n).rev() {
        buf[at + i] = digit_of(rest % 16);
        rest = rest / 16;
    }
}

// Writes the lowest n digits of each number, one after the other, from `at` on.
pub fn write_row(buf: &mut [u8], at: usize, n: usize, xs: &[u64])
    requires { at + n * length xs.now ≤ length buf.old }
    ensures { buf.new ≡ written buf.old at (concat (map (digits n) xs.now)) }
{
    for (i, x) in xs.iter().enumerate() {
        write(buf, at + n * i, n, *x);
    }
}

// Writes these bytes from `at` on.
// Not `copy_from_slice`: the archive would need memmove of the C library.
pub fn copy(buf: &mut [u8], at: usize, bytes: &[u8])
    requires { at + length bytes.now ≤ length buf.old }
    ensures { buf.new ≡ written buf.old at bytes.now }
{
    for (i, b) in bytes.iter().enumerate() {
        buf[at + i] = *b;
    }
}

pub fn outside(x: u64, low: u64, high: u64) -> bool
    ensures { result ≡ not (within low high x) }
{
    !(low..=high).contains(&x)
}

// Refusal 3 for a line on which one of these kinds is due. Kinds are numbers, as the definition `kind_rule` has them.
pub fn wrong_kind(line: &[u8], kinds: &[u64]) -> bool
    ensures { result ≡ (kind_rule kinds.now line.now).applies }
{
    if line.len() < 4 {
        return true;
    }
    !kinds.contains(&number(line, 0, 2))
}

// n for a line of this kind, and 0 for any other.
pub fn of_kind(line: &[u8], kind: u64, n: usize) -> usize
    requires { 2 ≤ length line.now }
    ensures { result ≡ cond (field line.now 0 2 == kind) n 0 }
{
    if number(line, 0, 2) == kind { n } else { 0 }
}
