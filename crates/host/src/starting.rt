// The fresh register.
ghost use Rattle.std.specs.Prelude.{◌≡◌};
ghost use Rattle.parts.specs.Registers.{state};
ghost use Rattle.register.specs.Fresh.{fresh_number, fresh_after};

use applied::Applied;

// A register of a year with no point open, no user on file, an empty ledger and nothing free.
pub fn ylgrandi_fresh(year: u16, free: &mut [u32], ledger: &mut [u32]) -> Applied
    ensures number { result.number ≡ fresh_number year free.old ledger.old }
    ensures amount { result.amount ≡ 0 }
    ensures state { state result.register free.new ledger.new ≡ fresh_after year free.old
        ledger.old }
{
    Applied::from(register::fresh_register(year, free, ledger))
}
