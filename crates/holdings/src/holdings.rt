// Whether a user holds an amount on every day of a span, and else the first gas-day with too little.
ghost use Rattle.std.specs.Prelude.{◌≡◌, ◌*◌, ◌≤◌, min};
ghost use Rattle.std.specs.Int.Signed.{mag};
ghost use Rattle.parts.specs.Limits.{line_count};
ghost use Rattle.amounts.specs.Amounts.{span_days};
ghost use Rattle.holdings.specs.Holdings.{first_short, held_answer};
ghost use Rattle.holdings.specs.Steps.{Sized, gathered_short};

use crate::gathering::{Gathered, gather};
use register::LINES;

// An amount that a user is to hold at a point, on each day from first to last. The two days stand by themselves, since the struct is
// one of the C interface.
#[repr(C)]
#[derive(Clone, Copy)]
pub struct Holding {
    pub user: u8,
    pub point: u8,
    pub first: u16,
    pub last: u16,
    pub amount: u32,
}

// The first gas-day of the span on which the lines gathered sum to less than the amount. Document 01 names the form: a loop
// over the days around a loop over the ledger lines, left by label with the short day. So both are plain loops, and the test stands
// inside the inner one, so that one `break` leaves both. What is gathered is passed on by value: lent, it would stand on the stack once
// more, 16 KiB, and a cession would take more of it than README says.
fn short_day(gathered: Gathered, h: Holding) -> Option<u16>
    requires few { gathered.count ≤ line_count }
    requires sized { Sized gathered }
    requires small { mag gathered.base ≤ 2147483648 * line_count }
    ensures { result ≡ first_short (gathered_short gathered h.amount) (span_days h.first h.last) h.first }
{
    let mut day = h.first as u32;
    let short = 'days: loop {
        if (h.last as u32) < day {
            break 'days None;
        }
        let mut sum = gathered.base;
        let mut k: usize = 0;
        'lines: loop {
            if gathered.count <= k {
                if sum < h.amount as i64 {
                    break 'days Some(day as u16);
                }
                break 'lines;
            }
            sum += gathered.line(k).part_on(day as u16);
            k += 1;
        }
        day += 1;
    };
    short
}

// How many lines are looked at: the ledger has no more.
fn used_lines(lines: u16) -> usize
    ensures { result ≡ min lines line_count }
{
    LINES.min(lines as usize)
}

// Question 10: the first gas-day of the span on which the user holds less than the amount, by the ledger's first `lines` lines in a
// thermal year; `None` where he holds it on every day. Year and lines stand by themselves, since the C function of this question is given
// no register.
#[tactic(auto, using(crate::proofs::HeldLaws::gathered_answer))]
pub fn first_short_day(year: u16, lines: u16, ledger: &[u32], h: Holding) -> Option<u16>
    ensures { result ≡ held_answer year lines ledger.now h }
{
    let gathered = gather(year, used_lines(lines), ledger, h);
    short_day(gathered, h)
}
