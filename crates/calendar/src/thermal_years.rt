// Thermal years, from 1 October to 30 September, and their months.
ghost use Rattle.std.specs.Prelude.{◌≡◌};
ghost use Rattle.calendar.specs.ThermalYears.{is_thermal_year, in_thermal_year, is_thermal_month};
ghost use Rattle.calendar.specs.Answers.{calendar_answer, span_of_month, year_answer, month_answer};

use days::{Date, Month, names_month};

// A span of gas-days, by its first and its last. Where the first is after the last, no day lies in it.
#[derive(Clone, Copy, PartialEq, Eq)]
pub struct Span {
    pub first: u16,
    pub last: u16,
}

impl Span {
    ghost use Rattle.std.specs.Prelude.{◌+◌, ◌-◌};
    ghost use Rattle.days.specs.Days.{between};

    // Whether a day lies in the span.
    pub fn contains(self, day: u16) -> bool
        ensures { result ≡ between self.first self.last day }
    {
        (self.first <= day) & (day <= self.last)
    }

    // How many days it has.
    pub fn days(self) -> usize
        ensures { result ≡ self.last + 1 - self.first }
    {
        (self.last as usize + 1).saturating_sub(self.first as usize)
    }
}

// Whether a year is that of a thermal year.
pub fn is_thermal_year(year: u16) -> bool
    ensures { result ≡ is_thermal_year year }
{
    (2000 <= year) & (year <= 2098)
}

fn is_thermal_month(year: u16, month: u8) -> bool
    ensures { result ≡ is_thermal_month year month }
{
    is_thermal_year(year) & names_month(month)
}

// A month of a thermal year as one of the calendar: month 1 is October. It stays two numbers, not a `Month`, since calls name its number
// alone, and its year is that of the register.
#[tactic(auto, using(crate::proofs::ThermalYearLaws::month_year), unfolding(crate::specs::Answers::calendar_answer, crate::specs::ThermalYears::calendar_year, crate::specs::ThermalYears::calendar_month))]
pub(crate) fn calendar_month(year: u16, month: u8) -> Option<Month>
    ensures { result ≡ calendar_answer year month }
{
    if !is_thermal_month(year, month) {
        return None;
    }
    if month <= 3 {
        return Some(Month {
            year,
            month: month + 9,
        });
    }
    Some(Month {
        year: year + 1,
        month: month - 3,
    })
}

// The first and the last day of a thermal year.
#[tactic(auto, using(crate::proofs::ThermalYearLaws::year_ends), unfolding(crate::specs::Answers::year_answer))]
pub fn thermal_year(year: u16) -> Option<Span>
    ensures { result ≡ year_answer year }
{
    if is_thermal_year(year) {
        let first = Month { year, month: 10 };
        let last = Month {
            year: year + 1,
            month: 9,
        };
        return Some(Span {
            first: first.date(1).number() as u16,
            last: last.date(30).number() as u16,
        });
    }
    None
}

// Whether a gas-day lies in a thermal year.
#[tactic(auto, using(crate::proofs::SpanLaws::day_tested), unfolding(crate::specs::Answers::year_answer))]
pub fn in_thermal_year(year: u16, day: u16) -> bool
    ensures { result ≡ in_thermal_year year day }
{
    thermal_year(year).is_some_and(|span| span.contains(day))
}

// The first and the last day of a month of the calendar.
#[tactic(auto, using(crate::proofs::SpanLaws::month_ends), unfolding(crate::specs::Answers::span_of_month))]
fn month_span(month: Month) -> Option<Span>
    ensures { result ≡ span_of_month month.year month.month }
{
    if !month.is_in_calendar() {
        return None;
    }
    // The months before it are gone over once: the number of its last date would do so again.
    let first = month.start();
    Some(Span {
        first: first as u16,
        last: (first + (month.length() as u32).saturating_sub(1)) as u16,
    })
}

// The first and the last day of a month of a thermal year: month 1 is October.
#[tactic(auto, using(crate::proofs::SpanLaws::month_answers))]
pub fn thermal_month(year: u16, month: u8) -> Option<Span>
    ensures { result ≡ month_answer year month }
{
    month_span(calendar_month(year, month)?)
}
