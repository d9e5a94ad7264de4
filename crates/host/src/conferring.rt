// The batch.
ghost use Rattle.std.specs.Prelude.{◌≡◌, length};
ghost use Rattle.parts.specs.Registers.{state};
ghost use Rattle.shares.specs.Batches.{batch};
ghost use Rattle.batches.specs.ConferBatch.{batch_number, batch_after, shares_after, numbers_after};

use applied::Applied;
use register::Register;
use shares::Batch;

// Confers a batch at a point for the whole year. Shares and numbers of its lines go to the two last lists.
pub fn ylgrandi_batch(
    r: Register,
    free: &mut [u32],
    ledger: &mut [u32],
    point: u8,
    users: &[u8],
    asked: &[u64],
    shares: &mut [u32],
    numbers: &mut [u8],
) -> Applied
    ensures number { result.number ≡ batch_number (state r free.old ledger.old)
        (batch point users.now asked.now) (length shares.old) (length numbers.old) }
    ensures amount { result.amount ≡ 0 }
    ensures state { state result.register free.new ledger.new ≡ batch_after
        (state r free.old ledger.old) (batch point users.now asked.now)
        (length shares.old) (length numbers.old) }
    ensures shares { shares.new ≡ shares_after (state r free.old ledger.old)
        (batch point users.now asked.now) shares.old numbers.old }
    ensures numbers { numbers.new ≡ numbers_after (state r free.old ledger.old)
        (batch point users.now asked.now) shares.old numbers.old }
{
    let b = Batch {
        point,
        users,
        asked,
    };
    Applied::from(batches::confer_batch(r, free, ledger, b, shares, numbers))
}
