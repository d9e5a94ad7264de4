// The request.
ghost use Rattle.std.specs.Prelude.{◌≡◌};
ghost use Rattle.parts.specs.Registers.{state};
ghost use Rattle.requests.specs.RequestCapacity.{request_number, request_amount, request_after};
ghost use Rattle.host.specs.Requests.{product_of, request_of};

use applied::Applied;
use register::Register;

// Requests an amount: for the rest of the year (kind 1), for a month (2) or for a gas-day (3). Month and day are read where the kind
// has them.
#[unsafe(no_mangle)]
pub extern "C" fn ylgrandi_request(
    r: Register,
    free: &mut [u32],
    ledger: &mut [u32],
    user: u8,
    point: u8,
    kind: u8,
    month: u8,
    day: u16,
    arrival: u16,
    amount: u64,
) -> Applied
    ensures number { result.number ≡ request_number (state r free.old ledger.old)
        (request_of user point (product_of kind month day) arrival amount) }
    ensures amount { result.amount ≡ request_amount (state r free.old ledger.old)
        (request_of user point (product_of kind month day) arrival amount) }
    ensures state { state result.register free.new ledger.new ≡ request_after
        (state r free.old ledger.old) (request_of user point (product_of kind month day) arrival amount) }
{
    host::ylgrandi_request(
        r, free, ledger, user, point, kind, month, day, arrival, amount,
    )
}
