// The lent ledger: its lines, read and written.
//
// No function that another crate can name has a `requires`. The meaning of each answer is in specs/, and proofs/ has the laws that
// callers cite.
#![tactic(auto)]

mod ledger;

pub use ledger::{Line, line_at, write_line};
