// The records of 24 bytes in which the runner is given its calls.
//
// `decode` is the whole of it: it takes any bytes and needs no check by its caller.
#![tactic(auto)]

mod decoding;

pub use decoding::{RECORD, decode};
