// When a call may arrive, and the span to the year's end. Where there is no such span the answer is `None`, also for days of the
// calendar that lie outside the year.
ghost use Rattle.std.specs.Prelude.{◌≡◌};
ghost use Rattle.spans.specs.Spans.{arrives, span_in_year, annual_answer, is_timely};

use calendar::{Span, Timeliness};

// September comes before a thermal year.
const DAYS_OF_SEPTEMBER: u16 = 30;

// Whether a day lies from 1 September Y to 30 September Y+1.
#[tactic(auto, using(crate::proofs::SpanLaws::arrives_by))]
pub fn is_arrival(year: u16, arrival: u16) -> bool
    ensures { result ≡ arrives year arrival }
{
    calendar::thermal_year(year).is_some_and(|days| (days.first - DAYS_OF_SEPTEMBER <= arrival)
        & (arrival <= days.last))
}

// From the first of the month after arrival to the year's end, where that is a span of the year.
#[tactic(auto, using(crate::proofs::SpanLaws::annual_by))]
pub fn annual_span(year: u16, arrival: u16) -> Option<Span>
    ensures { result ≡ annual_answer year arrival }
{
    let days = calendar::thermal_year(year)?;
    let first = calendar::next_first(arrival)?;
    if days.contains(first) {
        return Some(Span { first, ..days });
    }
    None
}

// Whether a span lies in a thermal year and has a day.
#[tactic(auto, using(crate::proofs::SpanLaws::fits_by))]
pub fn is_span(year: u16, days: Span) -> bool
    ensures { result ≡ span_in_year year days.first days.last }
{
    calendar::thermal_year(year).is_some_and(|whole| (whole.first <= days.first)
        & (days.first <= days.last)
        & (days.last <= whole.last))
}

// Whether the calendar says that an arrival is in time.
pub fn is_timely(t: Option<Timeliness>) -> bool
    ensures { result ≡ is_timely t }
{
    t == Some(Timeliness::InTime)
}
