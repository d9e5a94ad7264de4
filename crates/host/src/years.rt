// Turn the year.
ghost use Rattle.std.specs.Prelude.{◌≡◌};
ghost use Rattle.parts.specs.Registers.{state};
ghost use Rattle.turning.specs.TurnYear.{turn_number, turn_after};

use applied::Applied;
use register::Register;

// Turns the register to a later year: totals are free again, the ledger is empty and commitments are 0.
pub fn ylgrandi_turn_year(r: Register, free: &mut [u32], ledger: &mut [u32], year: u16) -> Applied
    ensures number { result.number ≡ turn_number (state r free.old ledger.old) year }
    ensures amount { result.amount ≡ 0 }
    ensures state { state result.register free.new ledger.new ≡ turn_after
        (state r free.old ledger.old) year }
{
    Applied::from(turning::turn_year(r, free, ledger, year))
}
