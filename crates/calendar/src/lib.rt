// The calendar of the register: thermal years and the deadlines that are working days. The types and functions of gas-days and of
// working days are passed on, so that a caller names one crate.
//
// No function that another crate can name has a `requires`. Input outside the calendar is answered with `None`; the methods of `Date`
// and `Month` say what their definitions say of any number. The meaning of each answer is in specs/, and proofs/ has the laws that
// callers cite.
#![tactic(auto)]

mod deadlines;
mod thermal_years;

pub use days::{Date, Month, date_of, day_of, names_month, next_date};
pub use deadlines::{Timeliness, in_time_own_month, in_time_preceding_month, next_first};
pub use thermal_years::{Span, in_thermal_year, is_thermal_year, thermal_month, thermal_year};
pub use working_days::{DayType, day_type, easter, nth_working_day, working_days_of};
