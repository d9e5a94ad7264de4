// The lent table of free amounts: the smallest of a run is read; runs, rows and the whole table are written.
ghost use Rattle.std.specs.Prelude.{◌≡◌, ◌+◌, min, length, replicate};
ghost use Rattle.amounts.specs.Ranges.{replaced, least_of};
ghost use Rattle.amounts.specs.Amounts.{taken, freed_row, freed_table};

use amounts::row_of;
use parts::{POINTS, Point, ROW};
use std::ops::Range;

// Which of the n places from `at` on lie in a list of that length. A list, a place and a number travel together, and no slice: a run
// may lie past the list's end, where by the rule of the project 0 is read and nothing is written.
fn places_within(len: usize, at: usize, n: usize) -> Range<usize>
    ensures from { result.start ≡ min at len }
    ensures to { result.end ≡ min (at + n) len }
{
    let from = at.min(len);
    from..from + n.min(len - from)
}

// The smallest of `most` and of the n free amounts from place `at` on; an amount past the end is 0, by that rule, and so there is no
// `Option`.
#[tactic(auto, using(amounts::proofs::RangeLaws::least_past), unfolding(amounts::specs::Ranges::least_of))]
pub fn least_free(free: &[u32], at: usize, n: usize, most: u32) -> u32
    ensures { result ≡ least_of free.now at n most }
{
    let run = &free[places_within(free.len(), at, n)];
    if run.len() < n {
        return 0;
    }
    let mut least = most;
    for amount in run.iter() {
        least = least.min(*amount);
    }
    least
}

// Takes an amount from each of the n free amounts from place `at` on. What would go below 0 stays at 0.
#[tactic(auto, using(crate::proofs::TableLaws::run_put), unfolding(amounts::specs::Amounts::taken))]
pub fn take_free(free: &mut [u32], at: usize, n: usize, amount: u32)
    ensures { free.new ≡ taken free.old at n amount }
{
    let places = places_within(free.len(), at, n);
    for x in free[places].iter_mut() {
        *x = x.saturating_sub(amount);
    }
}

// Every number of a lent list becomes 0.
pub fn clear(list: &mut [u32])
    ensures { list.new ≡ replicate (length list.old) 0 }
{
    list.fill(0);
}

// Each of the n numbers from place `at` on becomes v.
#[tactic(auto, using(crate::proofs::TableLaws::run_put))]
fn fill(list: &mut [u32], at: usize, n: usize, v: u32)
    ensures { list.new ≡ replaced list.old at n (λ _. v) }
{
    let places = places_within(list.len(), at, n);
    list[places].fill(v);
}

// Every gas-day of a year with so many days is free to the total of point i. The places after the year's end are filled apart, so
// that no place asks which it is.
pub fn free_row(free: &mut [u32], i: u8, days: usize, p: Point)
    ensures { free.new ≡ freed_row free.old i days p }
{
    let at = row_of(i);
    let n = days.min(ROW);
    fill(free, at, n, p.total);
    fill(free, at + n, ROW - n, 0);
}

// The same of all points.
#[tactic(auto, using(crate::proofs::TableLaws::table_turns))]
pub fn free_table(free: &mut [u32], days: usize, points: &[Point; POINTS])
    ensures { free.new ≡ freed_table free.old days points.now }
{
    for (i, p) in points.iter().enumerate() {
        free_row(free, i as u8, days, *p);
    }
}
