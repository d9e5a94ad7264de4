// Easter, holidays and working days.
//
// No function that another crate can name has a `requires`. Input outside the calendar is answered with `None`. The meaning of each
// answer is in specs/, and proofs/ has the laws that callers cite.
#![tactic(auto)]

mod working_days;

pub use working_days::{DayType, day_type, easter, nth_working_day, working_days_of};
