// Records one after the other, each with its call and its line.
ghost use Rattle.std.specs.Prelude.{◌≡◌, ◌++◌, ◌+◌, ◌*◌, ◌≤◌, ◌<◌, length, take, drop};
ghost use Rattle.std.proofs.lemmas.List.Edits.{sets};
ghost use Rattle.parts.specs.Registers.{state};
ghost use Rattle.parts.specs.Answers.{number_of_answer, amount_of_answer};
ghost use Rattle.records.specs.Records.{decoded};
ghost use Rattle.runs.specs.Runs.{decoded_in, answer_to, left_by, answers_to, line_of, lines_from, run_number, run_leaves, run_bytes, run_length, Accounted};
ghost use Rattle.runs.specs.Steps.{count_in, left_by_all};

use history::{Applied, Change};
use parts::{Answered, Refusal, Register};

// The year of the register that a run starts from.
const FIRST_YEAR: u16 = 2000;

// A run takes no more records.
const MOST_RECORDS: usize = 2000;

// The bytes of that many records: no more of an input is looked at.
pub const INPUT: usize = MOST_RECORDS * records::RECORD;

// A buffer of this length has room for the lines of any input.
pub const BUFFER: usize = MOST_RECORDS * printing::LINE;

// The register and the next place in the buffer, which go from record to record. The buffer is lent whole and the place goes beside it,
// as `put_line` takes them.
#[derive(Drop)]
struct Progress {
    register: Register,
    place: usize,
}

// How many records so many bytes have, a short last one included, but at most 2,000.
fn record_count(bytes: usize) -> usize
    ensures { (result ≡ count_in bytes) × (result ≤ 2000) }
{
    bytes.div_ceil(records::RECORD).min(MOST_RECORDS)
}

// Makes the call of a record. What is no call is answered 2, as what is out of limits. No record holds a batch, so the lists of one are
// empty.
fn make_call(r: Register, free: &mut [u32], ledger: &mut [u32], d: Option<Change>) -> Applied
    ensures number { result.number ≡ (answer_to (state r free.old ledger.old) d).number }
    ensures amount { result.amount ≡ (answer_to (state r free.old ledger.old) d).amount }
    ensures state { state result.register free.new ledger.new ≡ left_by
        (state r free.old ledger.old) d }
{
    match d {
        Some(change) => history::apply(r, free, ledger, change, &[], &[], &mut [], &mut []),
        None => Applied::from(Answered::<()>::refused(r, Refusal::OutOfLimits)),
    }
}

// One record, the k-th from 0: its call is made, and its line is written from the next place on.
#[tactic(auto, using(crate::proofs::RunLaws::line_put))]
fn take_record(
    chunk: &[u8],
    k: usize,
    so_far: Progress,
    free: &mut [u32],
    ledger: &mut [u32],
    out: &mut [u8],
) -> Progress
    requires { (k < 2000) × (so_far.place + 33 ≤ length out.old) }
    ensures state { state result.register free.new ledger.new ≡ left_by
        (state so_far.register free.old ledger.old) (decoded chunk.now) }
    ensures place { result.place ≡ so_far.place + length (line_of (k + 1) (answer_to
        (state so_far.register free.old ledger.old) (decoded chunk.now))) }
    ensures bytes { out.new ≡ sets out.old so_far.place (line_of (k + 1) (answer_to
        (state so_far.register free.old ledger.old) (decoded chunk.now))) }
    ensures bound { result.place ≤ so_far.place + 33 }
{
    let d = records::decode(chunk);
    let made = make_call(so_far.register, free, ledger, d);
    let place = printing::put_line((k + 1) as u32, made.number, made.amount, out, so_far.place);
    Progress {
        register: made.register,
        place,
    }
}

// All records, in order.
fn take_records(
    input: &[u8],
    r: Register,
    free: &mut [u32],
    ledger: &mut [u32],
    out: &mut [u8],
) -> Progress
    requires { 33 * count_in (length input.now) ≤ length out.old }
    ensures state { state result.register free.new ledger.new ≡ left_by_all
        (state r free.old ledger.old) (decoded_in input.now) }
    ensures place { result.place ≡ length (lines_from 1 (answers_to (state r free.old ledger.old)
        (decoded_in input.now))) }
    ensures bytes { out.new ≡ lines_from 1 (answers_to (state r free.old ledger.old)
        (decoded_in input.now)) ++ drop result.place out.old }
    ensures bound { result.place ≤ length out.old }
{
    let mut so_far = Progress {
        register: r,
        place: 0,
    };
    for (k, chunk) in input.chunks(records::RECORD).take(MOST_RECORDS).enumerate() {
        so_far = take_record(chunk, k, so_far, free, ledger, out);
    }
    so_far
}

// Starts a fresh register of 2000 in the two lists, makes the calls of the input's records, at most 2,000, in order, and writes a line
// for each into the buffer. It answers how many bytes of the buffer were written. A table or a ledger of another length, or a buffer
// with fewer than 33 bytes for each record, is refused with 2 before anything is done, and leaves the register of a refused start, of
// year 0. `within` follows from the clauses before it, and is what a caller needs who lends on the part that was written.
pub fn run(input: &[u8], free: &mut [u32], ledger: &mut [u32], out: &mut [u8]) -> Answered<usize>
    ensures number { number_of_answer result.answer ≡ run_number input.now free.old ledger.old out.old }
    ensures state { state result.register free.new ledger.new ≡ run_leaves input.now free.old
        ledger.old out.old }
    ensures bytes { out.new ≡ run_bytes input.now free.old ledger.old out.old }
    ensures written { amount_of_answer result.answer ≡ run_length input.now free.old ledger.old out.old }
    ensures demand { number_of_answer result.answer ≡ 0 → Accounted input.now
        (state result.register free.new ledger.new) }
    ensures within { (amount_of_answer result.answer ≤ length out.new) ×
        (amount_of_answer result.answer ≡ length (take (amount_of_answer result.answer) out.new)) }
{
    let count = record_count(input.len());
    if out.len() < printing::LINE * count {
        return Answered::refused(parts::blank(0), Refusal::OutOfLimits);
    }
    let fresh = register::fresh_register(FIRST_YEAR, free, ledger);
    match fresh.answer {
        Ok(()) => {
            let after = take_records(input, fresh.register, free, ledger, out);
            Answered {
                register: after.register,
                answer: Ok(after.place),
            }
        }
        Err(why) => Answered::refused(fresh.register, why),
    }
}
