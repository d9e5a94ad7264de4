// Grants: their charge, what a guarantee covers, and how they are booked.
ghost use Rattle.std.specs.Prelude.{◌≡◌};
ghost use Rattle.parts.specs.Registers.{state};
ghost use Rattle.conferral.specs.Bookings.{covers, lines_left, charge_within, is_covered, book_after};
ghost use Rattle.conferral.specs.Postings.{room_for, posting, post_after};

use calendar::Span;
use register::{ANNUAL, Account, DAY, Line, Point, Register};
use spans::is_span;

// An amount granted to a user at a point, on each day of a span. The kind is that of its ledger line. It stays a number: a narrower type
// would ask more of callers, who learn of any kind whether it is within limits.
#[derive(Clone, Copy)]
pub struct Grant {
    pub user: u8,
    pub point: u8,
    pub kind: u8,
    pub days: Span,
    pub amount: u32,
}

impl Grant {
    ghost use Rattle.std.specs.Prelude.{◌≤◌};
    ghost use Rattle.days.specs.Days.{last_day};
    ghost use Rattle.parts.specs.Limits.{row_length, most_amount};
    ghost use Rattle.parts.specs.Tests.{every};
    ghost use Rattle.conferral.specs.Bookings.{days_of, charge_at, line_of, annual_of, field_tests, within_limits};
    ghost use Rattle.conferral.specs.Postings.{days_ordered};

    // The annual grant of an amount on each day of a span.
    pub fn annual(user: u8, point: u8, days: Span, amount: u32) -> Grant
        ensures { result ≡ annual_of user point days amount }
    {
        Grant {
            user,
            point,
            kind: ANNUAL,
            days,
            amount,
        }
    }

    // Whether user, point, kind and amount are within limits.
    fn has_fields_within_limits(self) -> bool
        ensures { result ≡ every (field_tests self) }
    {
        register::names_user(self.user)
            & register::names_point(self.point)
            & ((ANNUAL <= self.kind) & (self.kind <= DAY))
            & register::is_amount(self.amount as u64)
    }

    // Whether all fields are within limits, the span among them.
    #[tactic(auto, unfolding(crate::specs::Bookings::within_limits))]
    fn is_within_limits(self, year: u16) -> bool
        ensures { result ≡ within_limits year self }
    {
        is_span(year, self.days) & self.has_fields_within_limits()
    }

    // Whether the days follow each other and are no more than a year has.
    fn is_ordered(self) -> bool
        ensures { result ≡ days_ordered self }
    {
        (self.days.first <= self.days.last)
            & ((self.days.last <= days::LAST_DAY)
                & (self.days.last as usize + 1 <= self.days.first as usize + register::ROW))
    }

    // The charge at a point.
    fn charge_at(self, p: Point) -> u64
        requires days { days_of self ≤ row_length }
        requires amount { self.amount ≤ most_amount }
        ensures { result ≡ charge_at p self }
    {
        register::charge_of(self.amount, self.days.days() as u16, p.rate)
    }

    // The ledger line. No `From`: only an amount within limits is one of a line, which is signed.
    fn line(self) -> Line
        requires { self.amount ≤ most_amount }
        ensures { result ≡ line_of self }
    {
        Line {
            user: self.user as u32,
            point: self.point as u32,
            kind: self.kind as u32,
            first: self.days.first as u32,
            amount: self.amount as i32,
        }
    }
}

// The charge of a grant within limits; of any other the largest number, which no guarantee covers. It asks about the limits for itself,
// as `is_covered` does: one `Option` under both is no plainer, and takes a definition and five laws.
#[tactic(auto, using(crate::proofs::RoomLaws::limits, crate::proofs::RoomLaws::charge_bounds), unfolding(crate::specs::Bookings::charge_within))]
pub fn charge_within(r: &Register, g: Grant) -> u64
    ensures { result ≡ charge_within r.now g }
{
    if !g.is_within_limits(r.year) {
        return register::MOST_WORD;
    }
    g.charge_at(r.points[g.point as usize])
}

// Whether a guarantee covers the commitment and a charge more.
pub fn covers_charge(a: Account, charge: u64) -> bool
    ensures { result ≡ covers a charge }
{
    a.commitment
        .checked_add(charge)
        .is_some_and(|sum| sum <= a.guarantee)
}

// Question 13: whether so many lines are left in the ledger.
pub fn lines_left(r: &Register, n: usize) -> bool
    ensures { result ≡ lines_left r.now n }
{
    n.checked_add(r.lines as usize)
        .is_some_and(|lines| lines <= register::LINES)
}

// Whether a grant is within limits and its user's guarantee covers its charge.
#[tactic(auto, using(crate::proofs::RoomLaws::limits, crate::proofs::RoomLaws::charge_bounds), unfolding(crate::specs::Bookings::is_covered))]
pub fn is_covered(r: &Register, g: Grant) -> bool
    ensures { result ≡ is_covered r.now g }
{
    if !g.is_within_limits(r.year) {
        return false;
    }
    let charge = g.charge_at(r.points[g.point as usize]);
    covers_charge(r.accounts[g.user as usize], charge)
}

// Whether the fields of a grant are within limits and its days in order, an account covers it at a point, and a line is left for it.
// Whether the days lie in the year, the point is open, the user on file and the amount free is asked before. Only of days in order is
// the charge found.
#[tactic(auto, using(crate::proofs::PostingLaws::ordered_bounds), unfolding(crate::specs::Postings::room_for))]
fn has_room(lines: u16, a: Account, p: Point, g: Grant) -> bool
    ensures { result ≡ room_for lines a p g }
{
    (g.has_fields_within_limits() & g.is_ordered())
        && (covers_charge(a, g.charge_at(p)) & ((lines as usize) < register::LINES))
}

// Books a grant to the account of its user, at the point that it names: its charge joins the commitment and its line is written.
// Where there is no room for it, everything is left. What is answered is the amount that is booked, that of the grant or 0: it is what
// is then taken from the days. A batch books its shares so, one after another, and carries no register along. An account and a point,
// found by what a grant names: a struct of both would be made for the call alone. Callers lend it a copy of the register's number of
// lines: of a call that is lent two parts of one register, the borrow checker of the proofs covers nothing.
#[tactic(auto, using(crate::proofs::PostingLaws::room_facts, crate::proofs::RoomLaws::charged_exact), unfolding(crate::specs::Postings::post_after))]
pub fn post(lines: &mut u16, a: &mut Account, p: Point, ledger: &mut [u32], g: Grant) -> u32
    ensures { posting a.new lines.new result ledger.new ≡ post_after lines.old a.old p g ledger.old }
{
    if !has_room(*lines, *a, p, g) {
        return 0;
    }
    register::write_line(ledger, *lines as usize, g.line());
    *a = a.charged(g.charge_at(p));
    *lines += 1;
    g.amount
}

// Books a grant: takes it from each of its days, adds its charge to the commitment and writes its line. Where the register has no
// room for it, everything is left. Of a grant whose user or point is not within limits any account or point will do.
#[tactic(auto, using(crate::proofs::PostingLaws::span_out))]
pub fn book(mut r: Register, free: &mut [u32], ledger: &mut [u32], g: Grant) -> Register
    ensures { state result free.new ledger.new ≡ book_after (state r free.old ledger.old) g }
{
    if !is_span(r.year, g.days) {
        return r;
    }
    let user = g.user as usize % register::USERS;
    let p = r.points[g.point as usize % register::POINTS];
    let mut lines = r.lines;
    let amount = post(&mut lines, &mut r.accounts[user], p, ledger, g);
    r.lines = lines;
    let place = register::entry_in(r.year, g.point, g.days.first);
    register::take_free(free, place, g.days.days(), amount);
    r
}
