// When a call that confers or moves capacity may arrive, the span to the year's end, and whether the calendar says that it is in time.
//
// No function that another crate can name has a `requires`. The meaning of each answer is in specs/, and proofs/ has the laws that
// callers cite.
#![tactic(auto)]

mod spans;

pub use spans::{annual_span, is_arrival, is_span, is_timely};
