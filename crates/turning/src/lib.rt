// Turn the year: totals are free again, the ledger is empty and commitments are 0.
//
// The call takes the register by value and gives it back with its answer; the free amounts and the ledger are lent. No function
// that another crate can name has a `requires`. The meaning of each answer is in specs/.
#![tactic(auto)]

mod turning;

pub use turning::turn_year;
