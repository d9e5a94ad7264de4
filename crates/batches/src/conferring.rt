// The questions put to a batch as a whole, and the call.
ghost use Rattle.std.specs.Prelude.{◌≡◌, ◌<◌, ◌≤◌, length, true};
ghost use Rattle.calendar.specs.ThermalYears.{is_thermal_year};
ghost use Rattle.parts.specs.Limits.{point_count};
ghost use Rattle.parts.specs.Registers.{state, state_in};
ghost use Rattle.parts.specs.Answers.{number_of_answer};
ghost use Rattle.shares.specs.Batches.{batch_in};
ghost use Rattle.shares.specs.ShareLines.{most_lines, shares_of, numbers_of};
ghost use Rattle.batches.specs.ConferBatch.{batch_number, booked_lines, batch_after, shares_after, numbers_after};
ghost use Rattle.batches.specs.Steps.{book_some};

use conferral::Grant;
use register::{Answered, Refusal, Register, View};
use shares::Batch;

// Questions 1, 2, 3 and 13; the lists for shares and numbers have so many places.
#[tactic(auto, unfolding(crate::specs::ConferBatch::batch_number))]
fn batch_answer(v: View, b: Batch, shares: usize, numbers: usize) -> Result<(), Refusal>
    ensures { number_of_answer result ≡ batch_number (state_in v.entry) (batch_in b.entry) shares numbers }
{
    if !register::in_order(v) {
        return Err(Refusal::NotInOrder);
    }
    if !(register::names_point(b.point) & b.lengths_fit(shares, numbers)) {
        return Err(Refusal::OutOfLimits);
    }
    let p = v.register.points[b.point as usize];
    if !p.is_open() {
        return Err(Refusal::PointClosed);
    }
    if !conferral::lines_left(v.register, b.users.len()) {
        return Err(Refusal::LedgerFull);
    }
    Ok(())
}

// Books each share above 0, in the order of the lines, and takes their sum from each day of the year. A share of 0 has no room in any
// register and is left out. Year and point are asked about before, by questions 1 and 2: a type for a number that was asked about
// would be taken apart at once. The register is altered in its place: one that went through a call for each share would be copied as
// often.
#[tactic(auto, using(crate::proofs::LoopLaws::none_booked), unfolding(calendar::specs::Answers::year_answer))]
fn book_shares(
    mut r: Register,
    free: &mut [u32],
    ledger: &mut [u32],
    b: Batch,
    shares: &[u32],
) -> Register
    requires { (is_thermal_year r.year ≡ true) × ((b.point < point_count) ×
        ((length shares.now ≡ length b.users.now) × (length b.users.now ≤ most_lines))) }
    ensures { state result free.new ledger.new ≡ book_some (state r free.old ledger.old)
        r.year b.entry.point b.entry.users.now shares.now (length b.entry.users.now) }
{
    let p = r.points[b.point as usize];
    let days = calendar::thermal_year(r.year).unwrap();
    let places = register::days_of_year(r.year);
    let mut sum: u32 = 0;
    for (user, share) in b.users.iter().zip(shares) {
        let g = Grant::annual(*user, b.point, days, *share);
        let place = g.user as usize % register::USERS;
        let mut lines = r.lines;
        sum += conferral::post(&mut lines, &mut r.accounts[place], p, ledger, g);
        r.lines = lines;
    }
    register::take_free(free, register::row_of(b.point), places, sum);
    r
}

// The lines of a batch that passed its questions: their numbers, their shares, and the bookings.
fn confer_lines(
    r: Register,
    free: &mut [u32],
    ledger: &mut [u32],
    b: Batch,
    shares: &mut [u32],
    numbers: &mut [u8],
) -> Register
    requires { batch_number (state r free.old ledger.old) (batch_in b) (length shares.old) (length numbers.old) ≡ 0 }
    ensures state { state result free.new ledger.new ≡ booked_lines (state r free.old ledger.old)
        (batch_in b.entry) (length b.entry.users.now) }
    ensures shares { shares.new ≡ shares_of (state r free.old ledger.old) (batch_in b.entry) }
    ensures numbers { numbers.new ≡ numbers_of (state r free.old ledger.old) (batch_in b.entry) }
{
    shares::share_lines(&r, &free[..], b, shares, numbers);
    book_shares(r, free, ledger, b, &shares[..])
}

// Confers a batch for the whole year: each line gets what it asked for, or where the sum is more than the smallest free amount of the
// year its part of that, rounded down. Shares and numbers go to the two last lists.
#[tactic(auto, unfolding(crate::specs::ConferBatch::batch_after))]
pub fn confer_batch(
    r: Register,
    free: &mut [u32],
    ledger: &mut [u32],
    b: Batch,
    shares: &mut [u32],
    numbers: &mut [u8],
) -> Answered<()>
    ensures number { number_of_answer result.answer ≡ batch_number (state r free.old ledger.old) (batch_in b.entry)
        (length shares.old) (length numbers.old) }
    ensures state { state result.register free.new ledger.new ≡ batch_after (state r free.old ledger.old)
        (batch_in b.entry) (length shares.old) (length numbers.old) }
    ensures shares { shares.new ≡ shares_after (state r free.old ledger.old) (batch_in b.entry) shares.old numbers.old }
    ensures numbers { numbers.new ≡ numbers_after (state r free.old ledger.old) (batch_in b.entry) shares.old numbers.old }
{
    let v = View {
        register: &r,
        free,
        ledger,
    };
    if let Err(why) = batch_answer(v, b, shares.len(), numbers.len()) {
        return Answered::refused(r, why);
    }
    let next = confer_lines(r, free, ledger, b, shares, numbers);
    Answered {
        register: next,
        answer: Ok(()),
    }
}
