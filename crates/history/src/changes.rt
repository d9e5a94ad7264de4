// The changing calls as one enum, and the function that makes any of them.
ghost use Rattle.std.specs.Prelude.{◌≡◌, length};
ghost use Rattle.parts.specs.Registers.{state};
ghost use Rattle.reckoning.specs.Calls.{answer, after};
ghost use Rattle.history.specs.Changes.{call_of, shares_left, numbers_left};

use applied::Applied;
use cessions::Cession;
use opening::Opening;
use parts::Register;
use placing::Guarantee;
use requests::Request;
use shares::Batch;

// A changing call. A batch has its point here, and its lists are lent beside it. Each case is one call, told apart in `apply` alone.
#[derive(Clone, Copy)]
pub enum Change {
    OpenPoint(Opening),
    PlaceGuarantee(Guarantee),
    RequestCapacity(Request),
    ConferBatch(u8),
    CedeCapacity(Cession),
    TurnYear(u16),
}

// Makes a call. The lists of users and asked amounts are read, and those of shares and numbers written, by a batch alone; they stay
// four, since a caller without a batch lends empty ones, and the point of a batch is in the change.
#[tactic(auto, using(crate::proofs::ChangeLaws::batch_lists))]
pub fn apply(
    r: Register,
    free: &mut [u32],
    ledger: &mut [u32],
    change: Change,
    users: &[u8],
    asked: &[u64],
    shares: &mut [u32],
    numbers: &mut [u8],
) -> Applied
    ensures number { result.number ≡ (answer (state r free.old ledger.old)
        (call_of change users.now asked.now (length shares.old) (length numbers.old))).number }
    ensures amount { result.amount ≡ (answer (state r free.old ledger.old)
        (call_of change users.now asked.now (length shares.old) (length numbers.old))).amount }
    ensures state { state result.register free.new ledger.new ≡ after
        (state r free.old ledger.old) (call_of change users.now asked.now
        (length shares.old) (length numbers.old)) }
    ensures shares { shares.new ≡ shares_left (call_of change users.now asked.now
        (length shares.old) (length numbers.old))
        (answer (state r free.old ledger.old) (call_of change users.now asked.now
        (length shares.old) (length numbers.old))) shares.old }
    ensures numbers { numbers.new ≡ numbers_left (call_of change users.now asked.now
        (length shares.old) (length numbers.old))
        (answer (state r free.old ledger.old) (call_of change users.now asked.now
        (length shares.old) (length numbers.old))) numbers.old }
{
    match change {
        Change::OpenPoint(o) => Applied::from(opening::open_point(r, free, ledger, o)),
        Change::PlaceGuarantee(g) => Applied::from(placing::place_guarantee(r, free, ledger, g)),
        Change::RequestCapacity(q) => Applied::from(requests::request_capacity(r, free, ledger, q)),
        Change::ConferBatch(point) => {
            let b = Batch {
                point,
                users,
                asked,
            };
            Applied::from(batches::confer_batch(r, free, ledger, b, shares, numbers))
        }
        Change::CedeCapacity(c) => Applied::from(cessions::cede_capacity(r, &free[..], ledger, c)),
        Change::TurnYear(year) => Applied::from(turning::turn_year(r, free, ledger, year)),
    }
}
