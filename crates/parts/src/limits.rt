// The limits of document 01, and how long the two lent lists are.
ghost use Rattle.std.specs.Prelude.{◌≡◌, ltb};
ghost use Rattle.days.specs.Days.{between};
ghost use Rattle.parts.specs.Limits.{point_count, user_count, most_amount};

// Points, users and ledger lines.
pub const POINTS: usize = 32;

pub const USERS: usize = 64;

pub const LINES: usize = 2_048;

// The kinds of a request and of its ledger line.
pub const ANNUAL: u8 = 1;

pub const MONTH: u8 = 2;

pub const DAY: u8 = 3;

// Free amounts of one point and of all points, numbers of one ledger line and of all lines.
pub const ROW: usize = 366;

pub const TABLE: usize = POINTS * ROW;

pub const LINE: usize = 5;

pub const LEDGER: usize = LINES * LINE;

// The largest amount or total, and the limits of the signed amount of a ledger line.
pub const MOST_AMOUNT: u32 = 9_999_999;

pub const LEAST_SIGNED: i32 = -MOST_SIGNED;

pub const MOST_SIGNED: i32 = MOST_AMOUNT as i32;

// The largest rate and the largest guarantee.
pub const MOST_RATE: u32 = 999_999;

pub const MOST_GUARANTEE: u64 = 1_000_000_000_000_000;

// The largest number that 64 bits hold.
pub const MOST_WORD: u64 = u64::MAX;

// Whether a number names a point, and whether one names a user: two, each with the name of what it asks, since one for both would be
// given its limit by every caller.
pub fn names_point(point: u8) -> bool
    ensures { result ≡ ltb point point_count }
{
    (point as usize) < POINTS
}

pub fn names_user(user: u8) -> bool
    ensures { result ≡ ltb user user_count }
{
    (user as usize) < USERS
}

// Whether an amount or a total is within limits.
pub fn is_amount(amount: u64) -> bool
    ensures { result ≡ between 1 most_amount amount }
{
    (1 <= amount) & (amount <= MOST_AMOUNT as u64)
}
