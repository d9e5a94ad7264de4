// The last day of a ledger line, which its kind implies.
ghost use Rattle.std.specs.Prelude.{◌≡◌, ◌≤◌};
ghost use Rattle.days.specs.Days.{last_day};
ghost use Rattle.calendar.specs.Deadlines.{next_first};
ghost use Rattle.holdings.specs.Steps.{bounds_of, end_of};

use calendar::Span;
use register::Line;

// The span of a thermal year. Where there is none, its first day is after its last, and no day lies in it.
#[tactic(auto, unfolding(calendar::specs::Answers::year_answer))]
pub(crate) fn bounds_of(year: u16) -> Span
    ensures { result ≡ bounds_of year }
{
    calendar::thermal_year(year).unwrap_or(Span { first: 1, last: 0 })
}

// The last day of a line: annual lines (1) end with the year, month lines (2) with the month, day lines on that day. The kinds stand as
// numbers: those that have names are of 8 bits, as calls name them, and a line's has 32.
#[tactic(auto, using(crate::proofs::EndLaws::next_there, calendar::proofs::DeadlineLaws::before_next))]
pub(crate) fn line_end(l: Line, last: u16) -> u16
    requires { next_first l.first ≤ last_day }
    ensures { result ≡ end_of last l }
{
    match l.kind {
        1 => last,
        2 => calendar::next_first(l.first as u16).unwrap() - 1,
        _ => l.first as u16,
    }
}
