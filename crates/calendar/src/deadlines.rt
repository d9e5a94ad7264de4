// The first of the next month, and arrivals in time.
ghost use Rattle.std.specs.Prelude.{◌≡◌};
ghost use Rattle.calendar.specs.Answers.{day_in, next_first_answer, preceding_day, timely, own_answer, preceding_answer};

use crate::thermal_years::calendar_month;
use days::{LAST_DAY, date_at, date_of};
use working_days::nth_working_day;

// Whether an arrival is in time.
#[derive(Clone, Copy, PartialEq, Eq)]
pub enum Timeliness {
    InTime,
    Late,
}

// The gas-day with a number, where the calendar has it. No `TryFrom`: that would let pass each number of 16 bits, and the calendar ends
// before the last of them.
#[tactic(auto, unfolding(crate::specs::Answers::day_in))]
fn in_calendar(number: u32) -> Option<u16>
    ensures { result ≡ day_in number }
{
    if number <= LAST_DAY as u32 {
        return Some(number as u16);
    }
    None
}

// The first of the month after a gas-day: it follows the days that are left of the gas-day's own month. By the start of the next month
// the months of its year would be gone over once more, and question 10 over month lines would take nearly twice as long.
#[tactic(auto, using(crate::proofs::DeadlineLaws::next_counted), unfolding(crate::specs::Answers::next_first_answer))]
pub fn next_first(day: u16) -> Option<u16>
    ensures { result ≡ next_first_answer day }
{
    let date = date_at(day);
    let left = date.month().length().saturating_sub(date.day);
    in_calendar(day as u32 + left as u32 + 1)
}

// Whether an arrival is in time for a deadline: the day itself is in time.
fn in_time_by(arrival: u16, deadline: u16) -> Timeliness
    ensures { result ≡ timely arrival deadline }
{
    if arrival <= deadline {
        Timeliness::InTime
    } else {
        Timeliness::Late
    }
}

// Whether an arrival is in time by the n-th working day of its own month, for n from 1 to 18.
#[tactic(auto, using(crate::proofs::AnswerLaws::own_answers), unfolding(days::specs::Answers::date_answer))]
pub fn in_time_own_month(arrival: u16, n: u8) -> Option<Timeliness>
    ensures { result ≡ own_answer arrival n }
{
    let deadline = nth_working_day(date_of(arrival)?.month(), n)?;
    Some(in_time_by(arrival, deadline))
}

// The n-th working day of the month before a month of a thermal year: before month 1, October, comes September.
#[tactic(auto, using(crate::proofs::AnswerLaws::preceding_days))]
fn preceding_deadline(year: u16, month: u8, n: u8) -> Option<u16>
    ensures { result ≡ preceding_day year month n }
{
    nth_working_day(calendar_month(year, month)?.previous(), n)
}

// Whether an arrival is in time by the n-th working day, for n from 1 to 18, of the month before a month of a thermal year.
#[tactic(auto, using(crate::proofs::AnswerLaws::preceding_answers))]
pub fn in_time_preceding_month(arrival: u16, year: u16, month: u8, n: u8) -> Option<Timeliness>
    ensures { result ≡ preceding_answer arrival year month n }
{
    if LAST_DAY < arrival {
        return None;
    }
    let deadline = preceding_deadline(year, month, n)?;
    Some(in_time_by(arrival, deadline))
}
