// What a user holds at a point, gas-day by gas-day: the sum of his ledger lines there (question 10).
//
// No function that another crate can name has a `requires`. The meaning of each answer is in specs/.
#![tactic(auto)]

mod ends;
mod gathering;
mod holdings;

pub use holdings::{Holding, first_short_day};
