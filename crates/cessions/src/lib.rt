// The cession of transport capacity from one user to another, for the rest of the year: what it does and is answered.
// The questions put to it are in `cession_decision`, and the type of a cession is passed on from there.
//
// The call takes the register by value and gives it back with its answer; the free amounts and the ledger are lent. No function
// that another crate can name has a `requires`. The meaning of each answer is in specs/.
#![tactic(auto)]

mod ceding;

pub use ceding::cede_capacity;
pub use cession_decision::Cession;
