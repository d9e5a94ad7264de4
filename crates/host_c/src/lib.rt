// The functions of `host`, exported to C and Rust programs, one file for each call. Each calls the function of its name in `host` and has
// that function's contract. host/include/ylgrandi.h says the same in C. The two crates have the same functions, since a static library
// can stand below nothing.
#![tactic(auto)]

mod ceding;
mod conferring;
mod dates;
mod guarantees;
mod points;
mod questions;
mod reporting;
mod requesting;
mod starting;
mod years;
