// The loads that start when one choice follows another: their masks and how many they are, the names that are refused (15 and 16), and the load that is
// started next. A choice is an array of the loads' numbers c; load k + 1 is at place k.
#![tactic(auto)]

ghost use Rattle.std.specs.Prelude.{◌≡◌, ◌^◌, ◌≤◌, ◌<◌, length};
ghost use Rattle.std.specs.Int.Count.{ones};
ghost use Rattle.model.specs.Bounds.{most_loads};
ghost use Rattle.model.specs.Order.{running_mask, and_not, start_count, wrong_names, some_blocked};
ghost use Rattle.starts.specs.Places.{running_in, bad_name_at, starts_at, served, blocked_at, may_start_at, NamesInside, Found};

use model::Book;

// The mask of the loads that run, from the last load down.
fn running_mask(picks: [usize; Book::LOADS], count: usize) -> u32
    requires { count ≤ most_loads }
    ensures { result ≡ running_mask count (running_in count picks) }
{
    let mut mask: u32 = 0;
    for k in (0..count).rev() {
        mask = (picks[k] != 0) as u32 + 2 * mask;
    }
    mask
}

// How many loads are in one mask and not in another.
fn ones_and_not(x: u32, y: u32) -> u64
    requires x_bound { x < 2 ^ most_loads }
    requires y_bound { y < 2 ^ most_loads }
    ensures { result ≡ ones (and_not x y) }
{
    u32::count_ones(x & !y) as u64
}

// How many loads start: new and not old.
pub fn start_count(old: [usize; Book::LOADS], new: [usize; Book::LOADS], count: usize) -> u64
    requires { count ≤ most_loads }
    ensures { result ≡ start_count count (running_in count old) (running_in count new) }
{
    let old = running_mask(old, count);
    let new = running_mask(new, count);
    ones_and_not(new, old)
}

// A name other than 0 that is not the number of a load above load k + 1.
fn bad_name(name: u64, k: usize, count: usize) -> bool
    requires { k < most_loads }
    ensures { result ≡ bad_name_at count name k }
{
    if name == 0 {
        return false;
    }
    hexadecimal::outside(name, k as u64 + 2, count as u64)
}

// A list of another length, or a bad name on it.
pub fn wrong_names(names: &[u8], count: usize) -> bool
    requires { count ≤ most_loads }
    ensures { result ≡ wrong_names count names.now }
{
    if names.len() != count {
        return true;
    }
    for (k, name) in names.iter().enumerate() {
        if bad_name(*name as u64, k, count) {
            return true;
        }
    }
    false
}

// Load k + 1 stands in `on` and runs in `planned`.
fn starts_at(on: [usize; Book::LOADS], planned: [usize; Book::LOADS], k: usize) -> bool
    requires { k < most_loads }
    ensures { result ≡ starts_at on planned k }
{
    if on[k] != 0 {
        return false;
    }
    planned[k] != 0
}

// No load is named, or the named load runs.
fn served(on: [usize; Book::LOADS], name: usize) -> bool
    requires { name ≤ most_loads }
    ensures { result ≡ served on name }
{
    if name == 0 {
        return true;
    }
    on[name - 1] != 0
}

// Load k + 1 starts, and its named load stands in the new sheet.
fn blocked_at(
    running: [usize; Book::LOADS],
    planned: [usize; Book::LOADS],
    name: usize,
    k: usize,
) -> bool
    requires name_le_most_loads { name ≤ most_loads }
    requires k_lt_most_loads { k < most_loads }
    ensures { result ≡ blocked_at running planned name k }
{
    if starts_at(running, planned, k) {
        return !served(planned, name);
    }
    false
}

// Load k + 1 is left and may start, where `on` holds the loads that run by now.
fn may_start(on: [usize; Book::LOADS], planned: [usize; Book::LOADS], name: usize, k: usize) -> bool
    requires name_le_most_loads { name ≤ most_loads }
    requires k_lt_most_loads { k < most_loads }
    ensures { result ≡ may_start_at on planned name k }
{
    if starts_at(on, planned, k) {
        return served(on, name);
    }
    false
}

// Some load that starts is blocked.
pub fn some_blocked(
    running: [usize; Book::LOADS],
    planned: [usize; Book::LOADS],
    names: &[u8],
) -> bool
    requires { NamesInside names.now }
    ensures { result ≡ some_blocked (length names.now) (running_in (length names.now) running) (running_in (length names.now) planned) names.now }
{
    for (k, name) in names.iter().enumerate() {
        if blocked_at(running, planned, *name as usize, k) {
            return true;
        }
    }
    false
}

// The place of the lowest load that may start, where there is one.
pub fn next_start(
    on: [usize; Book::LOADS],
    planned: [usize; Book::LOADS],
    names: &[u8],
) -> Option<usize>
    requires { NamesInside names.now }
    ensures { Found on planned names.now result }
{
    for (k, name) in names.iter().enumerate() {
        if may_start(on, planned, *name as usize, k) {
            return Some(k);
        }
    }
    None
}
