// What the lines of a batch get: whether it can be shared out at all, and the call.
ghost use Rattle.std.specs.Prelude.{◌≡◌, ◌<◌, length, true};
ghost use Rattle.calendar.specs.ThermalYears.{is_thermal_year};
ghost use Rattle.parts.specs.Limits.{point_count, table_length};
ghost use Rattle.amounts.specs.Amounts.{year_days, entry_at};
ghost use Rattle.shares.specs.Batches.{batch_in};
ghost use Rattle.shares.specs.Shares.{smallest};
ghost use Rattle.shares.specs.ShareLines.{can_share, shares_listed, numbers_listed};

use crate::batches::Batch;
use crate::lines::ask_lines;
use crate::sharing::{share_out, sum_asked};
use register::Register;

// The smallest free amount of the year at a point. Year and point are asked about before, as at `ask_lines`.
#[tactic(auto, using(amounts::proofs::AmountLaws::days_of_lem))]
fn free_of_year(year: u16, free: &[u32], point: u8) -> u32
    requires { (is_thermal_year year ≡ true) × ((point < point_count) × (length free.now ≡ table_length)) }
    ensures { result ≡ smallest free.now (entry_at point 0) (year_days year) }
{
    let at = register::row_of(point);
    register::least_free(free, at, register::days_of_year(year), free[at])
}

// Whether a batch can be shared out at all; the lists for shares and numbers have so many places.
fn can_share(r: &Register, free: &[u32], b: Batch, shares: usize, numbers: usize) -> bool
    ensures { result ≡ can_share r.now free.now (batch_in b.entry) shares numbers }
{
    calendar::is_thermal_year(r.year)
        & (free.len() == register::TABLE)
        & (register::names_point(b.point) & b.lengths_fit(shares, numbers))
}

// Shares out a batch: the shares and the numbers of its lines go to the two last lists. Whether it can be done at all is asked once.
// Outside the thermal years, or with a point or a list out of limits, both stay as they were.
pub fn share_lines(r: &Register, free: &[u32], b: Batch, shares: &mut [u32], numbers: &mut [u8])
    ensures shares { shares.new ≡ shares_listed r.now free.now (batch_in b.entry) shares.old numbers.old }
    ensures numbers { numbers.new ≡ numbers_listed r.now free.now (batch_in b.entry) shares.old numbers.old }
{
    if !can_share(r, free, b, shares.len(), numbers.len()) {
        return;
    }
    let smallest = free_of_year(r.year, free, b.point);
    ask_lines(r, b, numbers);
    let sum = sum_asked(b.asked, &numbers[..]);
    share_out(b.asked, shares, numbers, smallest, sum);
}
