// The lines of a batch: the questions put to each.
ghost use Rattle.std.specs.Prelude.{◌≡◌, true, ◌<◌, ◌≤◌, length};
ghost use Rattle.calendar.specs.ThermalYears.{is_thermal_year};
ghost use Rattle.parts.specs.Limits.{point_count, row_length};
ghost use Rattle.amounts.specs.Ranges.{replaced};
ghost use Rattle.parts.specs.Answers.{number_of_answer};
ghost use Rattle.shares.specs.Batches.{batch_in, line_fields, line_number};
ghost use Rattle.shares.specs.Steps.{number_for};

use crate::batches::Batch;
use register::{Account, Point, Refusal, Register, answer_number};

// Question 2 of a line.
fn line_within_limits(user: u8, asked: u64) -> bool
    ensures { result ≡ line_fields user asked }
{
    register::names_user(user) & register::is_amount(asked)
}

// Questions 2, 14, 5 and 11 of a line, in a year of so many days: whether an earlier line names its user is known, and so are the
// account that it names and the point: a struct of both would be made for the call alone.
#[tactic(auto, using(crate::proofs::LoopLaws::line_amount), unfolding(crate::specs::Steps::number_for))]
fn line_questions(
    days: u16,
    a: Account,
    p: Point,
    user: u8,
    asked: u64,
    named: bool,
) -> Result<(), Refusal>
    requires { days ≤ row_length }
    ensures { number_of_answer result ≡ number_for days a p user asked named }
{
    if !line_within_limits(user, asked) {
        return Err(Refusal::OutOfLimits);
    }
    if named {
        return Err(Refusal::UserRepeated);
    }
    if !a.is_on_file() {
        return Err(Refusal::NotOnFile);
    }
    if !conferral::covers_charge(a, register::charge_of(asked as u32, days, p.rate)) {
        return Err(Refusal::NotCovered);
    }
    Ok(())
}

// The number of each line by these questions. Users that lines have named are marked. Of a line whose user is not within limits any
// account will do. That the year is a thermal year and the point one of the 32 is asked before, by `can_share`: a type for a year or a
// point that was asked about would be taken apart at once.
#[tactic(auto, using(crate::proofs::LoopLaws::days_most))]
pub(crate) fn ask_lines(r: &Register, b: Batch, numbers: &mut [u8])
    requires { (is_thermal_year r.now.year ≡ true) × ((b.point < point_count) ×
        ((length b.asked.now ≡ length b.users.now) × (length numbers.old ≡ length b.users.now))) }
    ensures { numbers.new ≡ replaced numbers.old 0 (length b.entry.users.now) (line_number r.now (batch_in b.entry)) }
{
    let days = register::days_of_year(r.year) as u16;
    let p = r.points[b.point as usize];
    // Marks in an array: a set would need the heap.
    let mut named = [false; 256];
    // By place: of what is written through a `zip` of `iter_mut` nothing is known to a proof.
    for i in 0..b.users.len() {
        let user = b.users[i];
        let place = user as usize;
        let a = r.accounts[place % register::USERS];
        let answer = line_questions(days, a, p, user, b.asked[i], named[place]);
        numbers[i] = answer_number(&answer);
        named[place] = true;
    }
}
