// The lines that the runner prints, written into a buffer that the caller lends.
#![tactic(auto)]

mod lines;

pub use lines::{LINE, put_line};
