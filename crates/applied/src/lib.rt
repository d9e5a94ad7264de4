// What a changing call gives back: the register, the number and the amount.
//
// No function that another crate can name has a `requires`. The meaning of each number and amount is in the specs/ of the calls.
#![tactic(auto)]

mod applied;

pub use applied::Applied;
