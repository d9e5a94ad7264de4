// What each line of a batch is answered and gets: the questions put to it, and its share, pro quota of the smallest
// free amount of the year.
//
// The register, the free amounts and the batch are lent to be read, and two lists to be written. No function that another crate can
// name has a `requires`. The meaning of each answer is in specs/, and proofs/ has the laws that callers cite.
#![tactic(auto)]

mod batches;
mod lines;
mod shares;
mod sharing;

pub use batches::{Batch, MOST_LINES, lengths_fit};
pub use shares::share_lines;
