// Cells in a lent slice of words, two words a cell: read, stored, offered a choice, counted and emptied.
#![tactic(auto)]

ghost use Rattle.std.specs.Prelude.{◌≡◌, ◌+◌, ◌*◌, ◌<◌, ◌≤◌, length, cond, true, ltb};
ghost use Rattle.model.specs.Cells.{count_upto};
ghost use Rattle.table.specs.Table.{cell_at, put_at, offered, offered_at, Room, Rows, Roomy, Filled, offered_row, copied_row, carried_row, no_cell, reached};

// A cell: `worth` is 0 where it is empty, and else one more than the worth of its choice; `code` is the code of its choice.
// No Option: a cell is two of the lent words, which leave no room for a third.
#[derive(Clone, Copy)]
pub struct Cell {
    pub worth: u64,
    pub code: u64,
}

impl Cell {
    // This cell after it is offered the choice of `src` with a setting's gain and digit: only a greater worth replaces.
    fn offer(self, src: Cell, gain: u64, digit: u64) -> Cell
        requires { Room src gain digit }
        ensures { result ≡ offered self src gain digit }
    {
        if src.worth == 0 {
            return self;
        }
        let worth = src.worth + gain;
        if self.worth < worth {
            return Cell {
                worth,
                code: src.code + digit,
            };
        }
        self
    }
}

// The cell x.
pub fn get(work: &[u64], x: usize) -> Cell
    requires { 2 * x + 1 < length work.now }
    ensures { result ≡ cell_at work.now x }
{
    Cell {
        worth: work[2 * x],
        code: work[2 * x + 1],
    }
}

// Stores a cell.
pub fn put(work: &mut [u64], x: usize, c: Cell)
    requires { 2 * x + 1 < length work.old }
    ensures { work.new ≡ put_at work.old x c }
{
    work[2 * x] = c.worth;
    work[2 * x + 1] = c.code;
}

// Offers the cell `to` the choice of the cell `from`, with a setting's gain and digit. An empty cell offers nothing, and the cell `to` is
// not touched: most cells of a sparse table are empty.
fn offer_cell(work: &mut [u64], from: usize, to: usize, gain: u64, digit: u64)
    requires from_in_bounds { (2 * from + 1 < length work.old) × (2 * to + 1 < length work.old) }
    requires room { Room (cell_at work.old from) gain digit }
    ensures { work.new ≡ offered_at work.old from to gain digit }
{
    let src = get(work, from);
    if src.worth == 0 {
        return;
    }
    let old = get(work, to);
    put(work, to, old.offer(src, gain, digit));
}

// Offers each of `len` cells, from `to` on, the choice of the cell as far from `from`, with a setting's gain and digit.
pub fn offer_row(work: &mut [u64], from: usize, to: usize, len: usize, gain: u64, digit: u64)
    requires rows { Rows work.old from to len }
    requires roomy { Roomy work.old from len gain digit }
    ensures { Filled work.old work.new to len (offered_row work.old from to gain digit) }
{
    for j in 0..len {
        offer_cell(work, from + j, to + j, gain, digit);
    }
}

// Copies each of `len` cells, from `from` on, to the cell as far from `to`.
fn copy_row(work: &mut [u64], from: usize, to: usize, len: usize)
    requires { Rows work.old from to len }
    ensures { Filled work.old work.new to len (copied_row work.old from) }
{
    for j in 0..len {
        let c = get(work, from + j);
        put(work, to + j, c);
    }
}

// 1 for a reached cell, 0 for an empty one.
fn one(worth: u64) -> usize
    ensures { (result ≡ cond (ltb 0 worth) 1 0) × (result ≤ 1) }
{
    usize::from(worth != 0)
}

// Counts the reached cells among the `len` cells from `at` on.
fn count_row(work: &[u64], at: usize, len: usize) -> usize
    requires { 2 * (at + len) ≤ length work.now }
    ensures { (result ≡ count_upto len (reached work.now at)) × (result ≤ len) }
{
    let mut count: usize = 0;
    for j in 0..len {
        let c = get(work, at + j);
        count += one(c.worth);
    }
    count
}

// The same count where one is asked for.
pub fn count_if(work: &[u64], at: usize, len: usize, asked: bool) -> usize
    requires { 2 * (at + len) ≤ length work.now }
    ensures { (asked ≡ true → result ≡ count_upto len (reached work.now at)) × (result ≤ len) }
{
    if asked {
        return count_row(work, at, len);
    }
    0
}

// Empties the `len` cells from `at` on.
pub fn clear(work: &mut [u64], at: usize, len: usize)
    requires { 2 * (at + len) ≤ length work.old }
    ensures { Filled work.old work.new at len no_cell }
{
    for j in 0..len {
        put(work, at + j, Cell { worth: 0, code: 0 });
    }
}

// Copies `count` cells, from `from` on, into the `len` cells from `to` on, behind `skip` of them; the others are emptied.
pub fn carry_row(work: &mut [u64], from: usize, to: usize, skip: usize, count: usize, len: usize)
    requires rows { Rows work.old from (to + skip) count }
    requires count_bound { (skip + count ≤ len) × (2 * (to + len) ≤ length work.old) }
    ensures { Filled work.old work.new to len (carried_row work.old from skip count) }
{
    copy_row(work, from, to + skip, count);
    clear(work, to, skip);
    clear(work, to + skip + count, len - (skip + count));
}
