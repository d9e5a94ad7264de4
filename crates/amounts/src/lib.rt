// The lent table of free amounts: where a gas-day of a point stands in it, and what can be free there. What the calls
// do to the table is in `tables`.
//
// No function that another crate can name has a `requires`. The meaning of each answer is in specs/, and proofs/ has the laws that
// callers cite.
#![tactic(auto)]

mod amounts;

pub use amounts::{capacity_on, days_of_year, entry_in, row_of};
