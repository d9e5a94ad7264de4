// The capacity register: the fresh register and the report. The types, limits and functions of its parts, the lines of the lent
// ledger and question 1 ("is the register in order?") are passed on, so that a caller names one crate.
//
// The register goes in and comes back by value; the free amounts and the ledger are lent. No function that another crate can
// name has a `requires`. The meaning of each answer is in specs/, and proofs/ has the laws that callers cite.
#![tactic(auto)]

mod fresh;
mod reports;

pub use amounts::{days_of_year, entry_in, row_of};
pub use fresh::fresh_register;
pub use ledger::{Line, line_at, write_line};
pub use order::in_order;
pub use parts::{
    ANNUAL, Account, Answered, DAY, LEDGER, LINE, LINES, MONTH, MOST_AMOUNT, MOST_GUARANTEE,
    MOST_RATE, MOST_WORD, POINTS, Point, ROW, Refusal, Register, TABLE, USERS, View, answer_amount,
    answer_number, can_open, charge_of, is_amount, names_point, names_user,
};
pub use reports::report_free;
pub use tables::{clear, free_row, free_table, least_free, take_free};
