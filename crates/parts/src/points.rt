// Delivery points.
ghost use Rattle.std.specs.Prelude.{◌≡◌};
ghost use Rattle.parts.specs.Points.{is_open, is_direct, open_tests, point_ok};
ghost use Rattle.parts.specs.Tests.{every};
ghost use Rattle.parts.specs.Registers.{point};

use crate::limits::{MOST_RATE, is_amount};

// Kind 0 is closed, 1 direct, 2 thermoelectric: a number, since a host in C passes the register by value, and question 1 is what
// finds another one. The total is in Sm3 a day; the rate is for each Sm3/day and gas-day, in millionths
// of a euro.
#[repr(C)]
#[derive(Clone, Copy, Default, PartialEq, Eq)]
pub struct Point {
    pub kind: u8,
    pub total: u32,
    pub rate: u32,
}

// Whether a point can be open with a kind, a total and a rate.
pub fn can_open(kind: u8, total: u64, rate: u32) -> bool
    ensures { result ≡ every (open_tests (point kind total rate)) }
{
    ((1 <= kind) & (kind <= 2)) & is_amount(total) & (rate <= MOST_RATE)
}

impl Point {
    pub fn is_open(self) -> bool
        ensures { result ≡ is_open self }
    {
        0 < self.kind
    }

    // A direct point is of kind 1, a thermoelectric one of kind 2.
    pub fn is_direct(self) -> bool
        ensures { result ≡ is_direct self }
    {
        self.kind == 1
    }

    // Closed with nothing set, or open within the limits.
    pub fn is_in_order(self) -> bool
        ensures { result ≡ point_ok self }
    {
        (self == Point::default()) | can_open(self.kind, self.total as u64, self.rate)
    }
}
