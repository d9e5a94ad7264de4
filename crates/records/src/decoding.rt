// The call that a record of 24 bytes holds. Only the fields that its letter uses are read.
ghost use Rattle.std.specs.Prelude.{◌≡◌};
ghost use Rattle.records.specs.Records.{day_of, arrival_of, year_of, rate_of, amount_of, opening_in, guarantee_in, request_for, request_in, cession_in, turn_in, call_in, decoded};

use cessions::Cession;
use history::{Change, Guarantee, Opening};
use parts::{ANNUAL, DAY, MONTH};
use requests::{Product, Request};

// How many bytes a record has.
pub const RECORD: usize = 24;

// Each number of a record has a function of its name, which alone knows where it stands.
#[tactic(auto, unfolding(crate::specs::Records::number_at))]
fn day_of(s: &[u8; RECORD]) -> u16
    ensures { result ≡ day_of s.now }
{
    u16::from_le_bytes([s[6], s[7]])
}

#[tactic(auto, unfolding(crate::specs::Records::number_at))]
fn arrival_of(s: &[u8; RECORD]) -> u16
    ensures { result ≡ arrival_of s.now }
{
    u16::from_le_bytes([s[8], s[9]])
}

#[tactic(auto, unfolding(crate::specs::Records::number_at))]
fn year_of(s: &[u8; RECORD]) -> u16
    ensures { result ≡ year_of s.now }
{
    u16::from_le_bytes([s[10], s[11]])
}

#[tactic(auto, unfolding(crate::specs::Records::number_at))]
fn rate_of(s: &[u8; RECORD]) -> u32
    ensures { result ≡ rate_of s.now }
{
    u32::from_le_bytes([s[12], s[13], s[14], s[15]])
}

// The amount, total or guarantee.
#[tactic(auto, unfolding(crate::specs::Records::number_at))]
fn amount_of(s: &[u8; RECORD]) -> u64
    ensures { result ≡ amount_of s.now }
{
    u64::from_le_bytes([s[16], s[17], s[18], s[19], s[20], s[21], s[22], s[23]])
}

fn opening_in(s: &[u8; RECORD]) -> Change
    ensures { result ≡ opening_in s.now }
{
    Change::OpenPoint(Opening {
        point: s[2],
        kind: s[1],
        total: amount_of(s),
        rate: rate_of(s),
    })
}

fn guarantee_in(s: &[u8; RECORD]) -> Change
    ensures { result ≡ guarantee_in s.now }
{
    Change::PlaceGuarantee(Guarantee {
        user: s[3],
        guarantee: amount_of(s),
    })
}

fn request_for(s: &[u8; RECORD], product: Product) -> Change
    ensures { result ≡ request_for s.now product }
{
    Change::RequestCapacity(Request {
        user: s[3],
        point: s[2],
        product,
        arrival: arrival_of(s),
        amount: amount_of(s),
    })
}

// A request of a kind that there is not is no call. A `match` of its own, beside that of a host's request: only what its kind has is read.
#[tactic(auto, using(crate::proofs::CallLaws::kinds))]
fn request_in(s: &[u8; RECORD]) -> Option<Change>
    ensures { result ≡ request_in s.now }
{
    let kind = s[1];
    match kind {
        ANNUAL => Some(request_for(s, Product::Annual)),
        MONTH => Some(request_for(s, Product::Month(s[5]))),
        DAY => Some(request_for(s, Product::Day(day_of(s)))),
        _ => None,
    }
}

fn cession_in(s: &[u8; RECORD]) -> Change
    ensures { result ≡ cession_in s.now }
{
    Change::CedeCapacity(Cession {
        giver: s[3],
        receiver: s[4],
        point: s[2],
        arrival: arrival_of(s),
        amount: amount_of(s),
    })
}

fn turn_in(s: &[u8; RECORD]) -> Change
    ensures { result ≡ turn_in s.now }
{
    Change::TurnYear(year_of(s))
}

// Letter and kind are bytes of the record, told apart by `match` where they are read.
#[tactic(auto, using(crate::proofs::CallLaws::letters))]
fn call_in(s: &[u8; RECORD]) -> Option<Change>
    ensures { result ≡ call_in s.now }
{
    let letter = s[0];
    match letter {
        b'P' => Some(opening_in(s)),
        b'G' => Some(guarantee_in(s)),
        b'R' => request_in(s),
        b'C' => Some(cession_in(s)),
        b'Y' => Some(turn_in(s)),
        _ => None,
    }
}

// The call that a record holds, if it holds one; none holds a batch. Bytes behind the 24th are not looked at. Fewer than 24, an
// unknown letter or an R of another kind are no call.
#[tactic(auto, using(crate::proofs::CallLaws::cut, crate::proofs::CallLaws::short))]
pub fn decode(s: &[u8]) -> Option<Change>
    ensures { result ≡ decoded s.now }
{
    call_in(s.first_chunk::<RECORD>()?)
}
