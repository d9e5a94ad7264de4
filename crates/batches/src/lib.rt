// The batch at the year's start: transport capacity at a delivery point for the whole year, shared out pro quota.
// What each of its lines is answered and gets is in `shares`, from which `Batch` and `MOST_LINES` are passed on.
//
// The call takes the register by value and gives it back with its answer; the free amounts, the ledger, the batch and the lists for
// shares and numbers are lent. No function that another crate can name has a `requires`. The meaning of each answer is in specs/.
#![tactic(auto)]

mod conferring;

pub use conferring::confer_batch;
pub use shares::{Batch, MOST_LINES};
