// What the calls do to the lent table of free amounts: the smallest of a run is read, an amount is taken from a run, a row
// or the whole table is freed, and a list is cleared. Where a gas-day of a point stands in it is in `amounts`.
//
// No function that another crate can name has a `requires`. The meaning of each answer is in the specs/ of `amounts`, and
// its proofs/ has the laws that callers cite.
#![tactic(auto)]

mod tables;

pub use tables::{clear, free_row, free_table, least_free, take_free};
