// Question 1: is the register in order?
//
// It reads 11,712 free amounts and every used line on every call, so its loops decide the speed. The loop over the amounts of a
// point has no early exit and is vectorised. The loop over the lines is left at the first that is not in order.
ghost use Rattle.std.specs.Prelude.{◌≡◌, true, ◌&&◌, ◌≤◌, length};
ghost use Rattle.calendar.specs.ThermalYears.{YearSpan, thermal_month_first, is_thermal_month};
ghost use Rattle.parts.specs.Limits.{table_length};
ghost use Rattle.parts.specs.Tests.{all_below, every};
ghost use Rattle.parts.specs.Registers.{state_in};
ghost use Rattle.order.specs.Order.{amount_ok, names_ok, lengths_ok, points_ok, accounts_ok, table_ok, lines_ok, in_order};
ghost use Rattle.order.specs.Steps.{at_most, Marked, field_tests, named_tests};

use amounts::{capacity_on, row_of};
use calendar::Span;
use ledger::{Line, line_at};
use parts::{
    ANNUAL, Account, DAY, LEAST_SIGNED, LEDGER, LINE, LINES, MONTH, MOST_SIGNED, POINTS, Point,
    ROW, Register, TABLE, USERS, View,
};

// The entry of a row that a year of 365 days has none for.
const LAST: usize = ROW - 1;

// Each point is in order. The accounts have a function of their own: one for both needs a trait for the test, longer than the two.
fn points_in_order(points: &[Point; POINTS]) -> bool
    ensures { result ≡ points_ok points.now }
{
    points.iter().all(|p| p.is_in_order())
}

// Each account is in order.
fn accounts_in_order(accounts: &[Account; USERS]) -> bool
    ensures { result ≡ accounts_ok accounts.now }
{
    accounts.iter().all(|a| a.is_in_order())
}

// Each of some amounts is at most the total. A loop that is never left: with `all`, which may leave at any amount, it is not vectorised,
// and question 1, timed at more than twice as much where the ledger is empty, misses its bar of speed.
#[tactic(auto, using(crate::proofs::LoopLaws::all_tested))]
fn all_within(row: &[u32], total: u32) -> bool
    ensures { result ≡ all_below (length row.now) (at_most row.now total) }
{
    let mut ok = true;
    for amount in row.iter() {
        ok &= *amount <= total;
    }
    ok
}

// Each free amount is at most what can be free: for the 366th that depends on the year. A loop that is never left, as in `all_within`.
#[tactic(auto, using(crate::proofs::LoopLaws::all_tested), unfolding(crate::specs::Order::table_ok))]
fn table_in_order(points: &[Point; POINTS], days: usize, free: &[u32]) -> bool
    requires { (length free.now ≡ table_length) × (365 ≤ days) }
    ensures { result ≡ table_ok days free.now points.now }
{
    let mut ok = true;
    for (i, p) in points.iter().enumerate() {
        let at = row_of(i as u8);
        let row = all_within(&free[at..at + LAST], p.total);
        let last = free[at + LAST] <= capacity_on(days, *p, LAST);
        ok &= row & last;
    }
    ok
}

// The first day of a month of a thermal year.
#[tactic(auto, unfolding(calendar::specs::Answers::month_answer))]
fn month_first(year: u16, month: u8) -> u16
    requires { is_thermal_month year month ≡ true }
    ensures { result ≡ thermal_month_first year month }
{
    calendar::thermal_month(year, month).unwrap().first
}

// Marks of the months' firsts, by the days from 1 October, found once for all lines. An array of marks, since a set would need the heap.
fn month_marks(year: u16, span: Span) -> [bool; ROW]
    requires { YearSpan year span.first span.last }
    ensures { Marked year 12 result }
{
    let mut marks = [false; ROW];
    for n in 0..12 {
        let opens = month_first(year, n + 1);
        marks[(opens - span.first) as usize] = true;
    }
    marks
}

// Other than 0 and within the limit. Tested against two signed limits: with `unsigned_abs` question 1 took 1.45 times the tuned version on
// lines of mixed kinds, past its bar of speed.
fn amount_in_order(a: i32) -> bool
    ensures { result ≡ amount_ok a }
{
    (LEAST_SIGNED <= a) & (a <= -1) | (1 <= a) & (a <= MOST_SIGNED)
}

// What a line says by itself: its user and its point are there, its kind, its first day in the year, its amount. User, point and first
// day are numbers of the lent ledger, of 32 bits, where `names_user`, `names_point` and `contains` ask for narrower ones.
fn fields_in_order(l: Line, span: Span) -> bool
    ensures { result ≡ names_ok l && every (field_tests span.first span.last l) }
{
    let amount = amount_in_order(l.amount);
    ((l.user < USERS as u32) & (l.point < POINTS as u32))
        & (((ANNUAL as u32 <= l.kind) & (l.kind <= DAY as u32))
            & ((span.first as u32 <= l.first) & (l.first <= span.last as u32))
            & amount)
}

// What a line names: its user is on file, its point is open, and the first day of a month line opens a month.
fn named_in_order(l: Line, a: Account, p: Point, opens: bool) -> bool
    ensures { result ≡ every (named_tests a p opens l) }
{
    a.is_on_file() & p.is_open() & ((l.kind != MONTH as u32) | opens)
}

// Each used line, by index: the ledger is one lent list with five numbers for each line, and `line_at` reads those of the i-th. A line is
// left at its first part that is not in order: two branches that nearly always go the same way cost less than one long test.
#[tactic(auto, using(crate::proofs::LoopLaws::all_tested), unfolding(crate::specs::Order::lines_ok))]
fn lines_in_order(r: &Register, ledger: &[u32], span: Span) -> bool
    requires { YearSpan r.now.year span.first span.last }
    ensures { result ≡ lines_ok r.now ledger.now }
{
    let n = r.lines as usize;
    let marks = month_marks(r.year, span);
    // The lengths were asked before. Because of this question the compiler takes that of `line_at` out of the loop.
    if ledger.len() / LINE < n {
        return false;
    }
    for i in 0..n {
        let l = line_at(ledger, i);
        if !fields_in_order(l, span) {
            return false;
        }
        let a = r.accounts[l.user as usize];
        let p = r.points[l.point as usize];
        let opens = marks[(l.first - span.first as u32) as usize];
        if !named_in_order(l, a, p, opens) {
            return false;
        }
    }
    true
}

// The lengths of the two lent lists, and the number of used lines.
fn lengths_in_order(lines: u16, free: &[u32], ledger: &[u32]) -> bool
    ensures { result ≡ lengths_ok lines free.now ledger.now }
{
    (free.len() == TABLE) & (ledger.len() == LEDGER) & (lines as usize <= LINES)
}

// Is the register in order, with the free amounts and the ledger that are lent? What costs least is asked first.
#[tactic(auto, using(crate::proofs::OrderLaws::order_exits))]
pub fn in_order(v: View) -> bool
    ensures { result ≡ in_order (state_in v.entry) }
{
    let r = v.register;
    let Some(span) = calendar::thermal_year(r.year) else {
        return false;
    };
    if !lengths_in_order(r.lines, v.free, v.ledger) {
        return false;
    }
    if !(points_in_order(&r.points) & accounts_in_order(&r.accounts)) {
        return false;
    }
    if !table_in_order(&r.points, span.days(), v.free) {
        return false;
    }
    lines_in_order(r, v.ledger, span)
}
