// Place guarantee.
ghost use Rattle.std.specs.Prelude.{◌≡◌};
ghost use Rattle.parts.specs.Registers.{state};
ghost use Rattle.placing.specs.PlaceGuarantee.{place_number, place_after};

use applied::Applied;
use placing::Guarantee;
use register::Register;

// Puts a user on file, or replaces his guarantee.
pub fn ylgrandi_place_guarantee(
    r: Register,
    free: &[u32],
    ledger: &[u32],
    user: u8,
    guarantee: u64,
) -> Applied
    ensures number { result.number ≡ place_number (state r free.now ledger.now) user guarantee }
    ensures amount { result.amount ≡ 0 }
    ensures state { state result.register free.now ledger.now ≡ place_after
        (state r free.now ledger.now) user guarantee }
{
    let g = Guarantee { user, guarantee };
    Applied::from(placing::place_guarantee(r, free, ledger, g))
}
