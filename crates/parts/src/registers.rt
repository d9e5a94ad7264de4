// The register that goes into a call by value and comes back. The free amounts and the ledger are lent beside it.
ghost use Rattle.std.specs.Prelude.{◌≡◌};
ghost use Rattle.parts.specs.Registers.{blank_register};

use crate::accounts::Account;
use crate::limits::{POINTS, USERS};
use crate::points::Point;

// `lines` is how many lines of the ledger are used: the ledger is lent by the host and has its full length at all times.
#[repr(C)]
#[derive(Clone, Copy)]
pub struct Register {
    pub year: u16,
    pub points: [Point; POINTS],
    pub accounts: [Account; USERS],
    pub lines: u16,
}

// A register with no point open, no user on file and no line. Nowhere else is a register written as a literal.
#[tactic(auto, unfolding(crate::specs::Registers::blank_register))]
pub fn blank(year: u16) -> Register
    ensures { result ≡ blank_register year }
{
    Register {
        year,
        points: [Point::default(); POINTS],
        accounts: [Account::default(); USERS],
        lines: 0,
    }
}

// The register with the two lists that are lent beside it, all to be read: what the questions are put to.
#[derive(Clone, Copy)]
pub struct View<'a> {
    pub register: &'a Register,
    pub free: &'a [u32],
    pub ledger: &'a [u32],
}
