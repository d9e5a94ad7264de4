// Open point.
ghost use Rattle.std.specs.Prelude.{◌≡◌};
ghost use Rattle.parts.specs.Registers.{state};
ghost use Rattle.opening.specs.OpenPoint.{open_number, open_after};

use applied::Applied;
use opening::Opening;
use register::Register;

// Opens a point: every gas-day of the year is free to the total.
pub fn ylgrandi_open_point(
    r: Register,
    free: &mut [u32],
    ledger: &[u32],
    point: u8,
    kind: u8,
    total: u64,
    rate: u32,
) -> Applied
    ensures number { result.number ≡ open_number (state r free.old ledger.now) point kind total rate }
    ensures amount { result.amount ≡ 0 }
    ensures state { state result.register free.new ledger.now ≡ open_after
        (state r free.old ledger.now) point kind total rate }
{
    let o = Opening {
        point,
        kind,
        total,
        rate,
    };
    Applied::from(opening::open_point(r, free, ledger, o))
}
