// The runner: records of 24 bytes from standard input, a line for each to standard output.
//
// It reads to the end of the input or to 48,000 bytes, whichever comes first, and no byte after them, and prints when all calls are
// made. Where a read fails, no call is made and nothing is printed. What failed is said on standard error; the exit status does not
// tell. Only where nobody reads the output any more does the program end without a word.
#![tactic(auto)]

ghost use Rattle.std.specs.Prelude.{◌≡◌, ◌+◌, ◌≤◌, ◌<◌, length, take, drop, Some, IfSome, IfOk, IfErr, OnOk};
ghost use Rattle.std.specs.Io.KnownBytes.{Appends, Consumes, IsAtEnd, Keeps};
ghost use Rattle.runs.specs.Runs.{printed};
ghost use Rattle.runner.specs.Failures.{IfReading};

use std::io;
use std::io::{Eprint, ErrorKind, Read, Write};

// What failed before all lines were written.
#[derive(Drop)]
enum Failure {
    Reading(io::Error),
    Writing(io::Error),
}

// One read into the space from a place on, behind what stands there. No byte comes at the end of the input.
fn read_some<R: Read>(input: &mut R, space: &mut [u8], place: usize) -> io::Result<usize>
    requires { place ≤ length space.old }
    ensures within { IfOk result (λ count. place + count ≤ length space.old) }
    ensures before { take place space.new ≡ take place space.old }
    ensures bytes { IfOk result (λ count. Consumes (R.remaining input.old) (R.remaining input.new)
        (take count (drop place space.new))) }
    ensures end { IfOk result (λ count. count ≡ 0 → place < length space.old → IsAtEnd (R.remaining input.new)) }
{
    input.read(&mut space[place..])
}

// Fills the space from its start, read after read, however few bytes each of them brings: with the first bytes of the input, and no
// byte behind them is taken. std's `read_exact` refuses an input that ends before the space is full.
fn read_input<R: Read>(input: &mut R, space: &mut [u8]) -> io::Result<usize>
    ensures within { IfOk result (λ count. (count ≤ length space.new) × (count ≡ length (take count space.new))) }
    ensures first { IfOk result (λ count. IfSome (R.remaining input.old) (λ bytes.
        take count space.new ≡ take (length space.old) bytes)) }
    ensures behind { OnOk result (IfSome (R.remaining input.old) (λ bytes.
        R.remaining input.new ≡ Some (drop (length space.old) bytes))) }
{
    let mut count: usize = 0;
    while count < space.len() {
        let more = read_some(input, space, count)?;
        if more == 0 {
            return Ok(count);
        }
        count += more;
    }
    Ok(count)
}

// The system's words for what failed, without its number.
fn words_of(failure: &str) -> &str {
    match failure.split_once(" (os error ") {
        Some((words, _number)) => words,
        None => failure,
    }
}

// Says on standard error which stream failed, and why. That nobody reads any more is no failure.
fn say_failed<R: Eprint + Alloc>(rt: &R, stream: &str, failure: io::Error) -> io::Result<()> {
    if failure.kind() == ErrorKind::BrokenPipe {
        return Ok(());
    }
    match failure.to_string(rt.alloc()) {
        Ok(said) => eprintln!(rt; "runner: {stream}: {}", words_of(said.as_str())),
        // Out of memory.
        Err(_) => eprintln!(rt; "runner: {stream}: {failure}"),
    }
}

// Makes the calls of the records of an input, writes their lines into a buffer, and answers how many bytes these are.
fn lines_of(input: &[u8], lines: &mut [u8; runs::BUFFER]) -> usize
    ensures text { take result lines.new ≡ printed input.now }
    ensures within { (result ≤ length lines.new) × (result ≡ length (take result lines.new)) }
{
    let mut free = [0u32; parts::TABLE];
    let mut ledger = [0u32; parts::LEDGER];
    // The lists and the buffer are as long as a run asks, so that it is never refused.
    let ran = runs::run(input, &mut free, &mut ledger, lines);
    ran.answer.unwrap()
}

// Takes the records of an input, makes their calls and writes their lines when all are made. Where a read fails, nothing is written.
// Each list has a fixed length, with no heap, and beside it how much of it is used, as `read` answers it.
#[tactic(auto, using(crate::proofs::Sessions::printed_first))]
fn answer_records<R: Read, W: Write>(input: &mut R, output: &mut W) -> Result<(), Failure>
    ensures lines { OnOk result (IfSome (R.remaining input.old) (λ bytes.
        Appends (W.contents output.old) (W.contents output.new) (printed bytes))) }
    ensures behind { OnOk result (IfSome (R.remaining input.old) (λ bytes.
        R.remaining input.new ≡ Some (drop 48000 bytes))) }
    ensures unread { IfErr result (λ failure. IfReading failure (Keeps (W.contents output.old) (W.contents output.new))) }
{
    let mut space = [0u8; runs::INPUT];
    let count = read_input(input, &mut space).map_err(Failure::Reading)?;
    let mut lines = [0u8; runs::BUFFER];
    let written = lines_of(&space[..count], &mut lines);
    output
        .write_all(&lines[..written])
        .map_err(Failure::Writing)
}

fn main(rt: HostRuntime) {
    if let Err(failure) = answer_records(&mut rt.stdin(), &mut rt.stdout()) {
        let (stream, e) = match failure {
            Failure::Reading(e) => ("standard input", e),
            Failure::Writing(e) => ("standard output", e),
        };
        let _ = say_failed(&rt, stream, e);
    }
}
