// The cession.
ghost use Rattle.std.specs.Prelude.{◌≡◌};
ghost use Rattle.parts.specs.Registers.{state};
ghost use Rattle.cessions.specs.CedeCapacity.{cession_number, cession_amount, cession_after};
ghost use Rattle.host.specs.Cessions.{cession_of};

use applied::Applied;
use cessions::Cession;
use register::Register;

// Cedes an amount from giver to receiver, for the rest of the year.
pub fn ylgrandi_cession(
    r: Register,
    free: &mut [u32],
    ledger: &mut [u32],
    giver: u8,
    receiver: u8,
    point: u8,
    arrival: u16,
    amount: u64,
) -> Applied
    ensures number { result.number ≡ cession_number (state r free.old ledger.old)
        (cession_of giver receiver point arrival amount) }
    ensures amount { result.amount ≡ cession_amount (state r free.old ledger.old)
        (cession_of giver receiver point arrival amount) }
    ensures state { state result.register free.new ledger.new ≡ cession_after
        (state r free.old ledger.old) (cession_of giver receiver point arrival amount) }
{
    let c = Cession {
        giver,
        receiver,
        point,
        arrival,
        amount,
    };
    Applied::from(cessions::cede_capacity(r, &free[..], ledger, c))
}
