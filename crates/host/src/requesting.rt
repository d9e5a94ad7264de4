// The request.
ghost use Rattle.std.specs.Prelude.{◌≡◌};
ghost use Rattle.parts.specs.Registers.{state};
ghost use Rattle.requests.specs.RequestCapacity.{request_number, request_amount, request_after};
ghost use Rattle.host.specs.Requests.{product_of, request_of};

use applied::Applied;
use register::{ANNUAL, DAY, MONTH, Register};
use requests::{Product, Request};

// What a kind names, with the month or the gas-day that it has. A kind that does not exist must reach the call too, since question 1 is
// asked before question 2: it is the month 0, which question 2 refuses.
#[tactic(auto, unfolding(crate::specs::Requests::product_of))]
fn product_of(kind: u8, month: u8, day: u16) -> Product
    ensures { result ≡ product_of kind month day }
{
    match kind {
        ANNUAL => Product::Annual,
        MONTH => Product::Month(month),
        DAY => Product::Day(day),
        _ => Product::Month(0),
    }
}

// Requests an amount: for the rest of the year (kind 1), for a month (2) or for a gas-day (3). Month and day are read where the kind
// has them.
pub fn ylgrandi_request(
    r: Register,
    free: &mut [u32],
    ledger: &mut [u32],
    user: u8,
    point: u8,
    kind: u8,
    month: u8,
    day: u16,
    arrival: u16,
    amount: u64,
) -> Applied
    ensures number { result.number ≡ request_number (state r free.old ledger.old)
        (request_of user point (product_of kind month day) arrival amount) }
    ensures amount { result.amount ≡ request_amount (state r free.old ledger.old)
        (request_of user point (product_of kind month day) arrival amount) }
    ensures state { state result.register free.new ledger.new ≡ request_after
        (state r free.old ledger.old) (request_of user point (product_of kind month day) arrival amount) }
{
    let product = product_of(kind, month, day);
    let q = Request {
        user,
        point,
        product,
        arrival,
        amount,
    };
    Applied::from(requests::request_capacity(r, free, ledger, q))
}
