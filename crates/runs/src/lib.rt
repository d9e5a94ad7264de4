// The runner's work: records in, answer lines out.
//
// `run` starts a fresh register of 2000, makes the call of each record and writes a line for each. It needs no check by its caller.
#![tactic(auto)]

mod running;

pub use running::{BUFFER, INPUT, run};
