// The report of a free amount.
ghost use Rattle.std.specs.Prelude.{◌≡◌};
ghost use Rattle.parts.specs.Registers.{state_in};
ghost use Rattle.parts.specs.Answers.{number_of_answer, amount_of_answer};
ghost use Rattle.register.specs.Reports.{report_number, report_amount};

use amounts::entry_in;
use order::in_order;
use parts::{Refusal, View, names_point};

// Questions 1, 2, 3 and 8.
#[tactic(auto, unfolding(crate::specs::Reports::report_number))]
fn report_answer(v: View, point: u8, day: u16) -> Result<(), Refusal>
    ensures { number_of_answer result ≡ report_number (state_in v.entry) point day }
{
    if !in_order(v) {
        return Err(Refusal::NotInOrder);
    }
    if !names_point(point) {
        return Err(Refusal::OutOfLimits);
    }
    if !v.register.points[point as usize].is_open() {
        return Err(Refusal::PointClosed);
    }
    if !calendar::in_thermal_year(v.register.year, day) {
        return Err(Refusal::OutsideYear);
    }
    Ok(())
}

// The free amount of a point and gas-day.
#[tactic(auto, using(crate::proofs::ReportLaws::report_exits))]
pub fn report_free(v: View, point: u8, day: u16) -> Result<u32, Refusal>
    ensures number { number_of_answer result ≡ report_number (state_in v.entry) point day }
    ensures amount { amount_of_answer result ≡ report_amount (state_in v.entry) point day }
{
    report_answer(v, point, day)?;
    Ok(v.free[entry_in(v.register.year, point, day)])
}
