// Every changing call as one function over an enum.
//
// `apply` is the code that the theorem of `reckoning` speaks of: its contract is `answer` and `after` of specs/Calls.antt there. No
// function that another crate can name has a `requires`.
#![tactic(auto)]

mod changes;

pub use applied::Applied;
pub use changes::{Change, apply};
pub use opening::Opening;
pub use placing::Guarantee;
