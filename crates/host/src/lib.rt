// The functions that C and Rust programs call, one file for each call. Each is a thin call of a proved function and has that
// function's contract. The crate `host_c` exports them, since a static library can stand below nothing, and laws of what a host holds
// name these; host/include/ylgrandi.h says the same in C.
//
// The register is passed by value and comes back in the answer; the free amounts, the ledger and the lists of a batch are slices,
// each a pointer and a length. No enum crosses: kinds and numbers do. The date is the one struct that is lent.
#![tactic(auto)]

mod ceding;
mod conferring;
mod dates;
mod guarantees;
mod points;
mod questions;
mod reporting;
mod requesting;
mod starting;
mod years;

pub use ceding::ylgrandi_cession;
pub use conferring::ylgrandi_batch;
pub use dates::ylgrandi_next_day;
pub use guarantees::ylgrandi_place_guarantee;
pub use points::ylgrandi_open_point;
pub use questions::{ylgrandi_first_short_day, ylgrandi_in_order};
pub use reporting::{Reported, ylgrandi_report};
pub use requesting::ylgrandi_request;
pub use starting::ylgrandi_fresh;
pub use years::ylgrandi_turn_year;
