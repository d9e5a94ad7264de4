// What the calls that confer or move capacity share: charges, what a guarantee covers, and how a grant is booked; and, passed on from
// `spans`, when a call may arrive and the span to the year's end.
//
// No function that another crate can name has a `requires`. The meaning of each answer is in specs/.
#![tactic(auto)]

mod bookings;

pub use bookings::{Grant, book, charge_within, covers_charge, is_covered, lines_left, post};
pub use spans::{annual_span, is_arrival, is_timely};
