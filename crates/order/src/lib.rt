// Question 1: is the register in order, with the free amounts and the ledger that are lent?
//
// No function that another crate can name has a `requires`. The meaning of the answer is in specs/, and proofs/ has the laws that
// callers cite.
#![tactic(auto)]

mod order;

pub use order::in_order;
