// Open point: every gas-day of the year is free to the total.
//
// The call takes the register by value and gives it back with its answer; the free amounts and the ledger are lent. No function
// that another crate can name has a `requires`. The meaning of each answer is in specs/.
#![tactic(auto)]

mod opening;

pub use opening::{Opening, open_point};
