// The parts of the capacity register: points, accounts and charges, the register that goes by value, the limits and the answers of
// the calls. The free amounts are in `amounts`.
//
// No function that another crate can name has a `requires`. The meaning of each answer is in specs/, and proofs/ has the laws that
// callers cite.
#![tactic(auto)]

mod accounts;
mod answers;
mod charges;
mod limits;
mod points;
mod registers;

pub use accounts::Account;
pub use answers::{Answered, Refusal, answer_amount, answer_number};
pub use charges::charge_of;
pub use limits::{
    ANNUAL, DAY, LEAST_SIGNED, LEDGER, LINE, LINES, MONTH, MOST_AMOUNT, MOST_GUARANTEE, MOST_RATE,
    MOST_SIGNED, MOST_WORD, POINTS, ROW, TABLE, USERS, is_amount, names_point, names_user,
};
pub use points::{Point, can_open};
pub use registers::{Register, View, blank};
