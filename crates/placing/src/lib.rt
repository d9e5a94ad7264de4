// Place guarantee: a user is put on file, or his guarantee is replaced.
//
// The call takes the register by value and gives it back with its answer; the free amounts and the ledger are lent. No function
// that another crate can name has a `requires`. The meaning of each answer is in specs/.
#![tactic(auto)]

mod placing;

pub use placing::{Guarantee, place_guarantee};
