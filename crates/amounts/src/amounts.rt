// The lent table of free amounts: 366 for each point in turn, first the one for 1 October. It is one list, with places by multiplication,
// since a host in C lends it as a pointer and a length.
ghost use Rattle.std.specs.Prelude.{◌≡◌};
ghost use Rattle.amounts.specs.Amounts.{days_of_year, entry_at, entry_in, capacity};

use parts::{Point, ROW, TABLE};

// The gas-days of a thermal year; a year that has none has 0 of them, which is no sentinel.
#[tactic(auto, using(crate::proofs::AmountLaws::days_of_years))]
pub fn days_of_year(year: u16) -> usize
    ensures { result ≡ days_of_year year }
{
    calendar::thermal_year(year).map_or(0, |span| span.days())
}

// Where the row of a point begins, with the entry of 1 October.
pub fn row_of(point: u8) -> usize
    ensures { result ≡ entry_at point 0 }
{
    ROW * (point as usize)
}

// The entry of the k-th day from 1 October, for a point.
fn entry_at(point: u8, k: u16) -> usize
    ensures { result ≡ entry_at point k }
{
    row_of(point) + (k as usize)
}

// The entry of a gas-day of a thermal year, for a point; for a day outside the year the place after the table's end. No `Option`: what
// reads or writes the table finds nothing there, as past the end of any list, and its callers would only say so once more.
#[tactic(auto, using(crate::proofs::AmountLaws::entries))]
pub fn entry_in(year: u16, point: u8, day: u16) -> usize
    ensures { result ≡ entry_in year point day }
{
    match calendar::thermal_year(year) {
        Some(span) if span.contains(day) => entry_at(point, day - span.first),
        _ => TABLE,
    }
}

// What can be free at a point on the k-th day from 1 October: its total, and nothing after the year's end.
pub fn capacity_on(days: usize, p: Point, k: usize) -> u32
    ensures { result ≡ capacity days p k }
{
    if k < days {
        return p.total;
    }
    0
}
