// A date lent by the host, moved on by one gas-day in the host's own record.
ghost use Rattle.std.specs.Prelude.{◌≡◌};
ghost use Rattle.days.specs.Answers.{next_date_answer, move_number, moved_date};

use days::Date;
use parts::Refusal;

// Moves a date on by one gas-day. The last one of the calendar, or one that does not exist there, is left.
pub fn ylgrandi_next_day(date: &mut Date) -> u8
    ensures { (result ≡ move_number (next_date_answer date.old)) ×
        (date.new ≡ moved_date date.old (next_date_answer date.old)) }
{
    match days::next_date(*date) {
        Some(later) => {
            *date = later;
            0
        }
        None => u8::from(Refusal::OutOfLimits),
    }
}
