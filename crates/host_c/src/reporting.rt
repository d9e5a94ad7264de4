// The report of a free amount.
ghost use Rattle.std.specs.Prelude.{◌≡◌};
ghost use Rattle.parts.specs.Registers.{state};
ghost use Rattle.register.specs.Reports.{report_number, report_amount};

use host::Reported;
use register::Register;

// The free amount of a point and gas-day.
#[unsafe(no_mangle)]
pub extern "C" fn ylgrandi_report(
    r: Register,
    free: &[u32],
    ledger: &[u32],
    point: u8,
    day: u16,
) -> Reported
    ensures number { result.number ≡ report_number (state r free.now ledger.now) point day }
    ensures amount { result.amount ≡ report_amount (state r free.now ledger.now) point day }
{
    host::ylgrandi_report(r, free, ledger, point, day)
}
