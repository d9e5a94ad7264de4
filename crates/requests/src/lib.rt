// The request for transport capacity at a delivery point: for the rest of the year, for a month or for a gas-day.
// What can be requested is in `products` and passed on from there, the questions put to a request are in `request_decision`.
//
// The call takes the register by value and gives it back with its answer; the free amounts and the ledger are lent. No function
// that another crate can name has a `requires`. The meaning of each answer is in specs/.
#![tactic(auto)]

mod requesting;

pub use products::{Product, Request};
pub use requesting::request_capacity;
