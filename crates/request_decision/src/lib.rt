// What is decided of a request for transport capacity: the questions put to it, in order, and the amount that is granted.
//
// No function that another crate can name has a `requires`. The meaning of each answer is in specs/, and proofs/ has the laws that
// callers cite.
#![tactic(auto)]

mod deciding;

pub use deciding::decide;
