// The questions put to a cession, in order, and what is decided: what an accepted one hands over, or why it is refused.
//
// Nothing is altered: the register, the free amounts and the ledger are lent to be read. No function that another crate can name has
// a `requires`. The meaning of each answer is in specs/, and proofs/ has the laws that callers cite.
#![tactic(auto)]

mod deciding;

pub use deciding::{Cession, Handover, LINES_WRITTEN, decide};
