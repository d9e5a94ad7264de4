// The gas-days of the calendar, from 1 January 2000, day 0, to 31 December 2099, day 36,524, and their dates.
//
// No function that another crate can name has a `requires`. `date_of`, `day_of` and `next_date` answer input outside the calendar
// with `None`; the others, on which the crates of working days and of thermal years rest, say what their
// definitions say of any number. The meaning of each answer is in specs/, and proofs/ has the laws that callers cite.
#![tactic(auto)]

mod dates;

pub use dates::{Date, LAST_DAY, Month, date_at, date_of, day_of, is_year, names_month, next_date};
