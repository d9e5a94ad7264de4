// What can be requested: the rest of the year, a month or a gas-day. The questions that a product decides, its span, and the kind of its
// ledger line.
//
// No function that another crate can name has a `requires`. The meaning of each answer is in specs/, and proofs/ has the laws that
// callers cite.
#![tactic(auto)]

mod products;

pub use products::{Product, Request, is_in_time, is_offered, span_of};
