// A user's ledger lines at a point, gathered with the last day of each, so that the days of a span go around these lines only. What
// counts on every day of the span is summed once.
ghost use Rattle.std.specs.Prelude.{◌≡◌, ◌≤◌};
ghost use Rattle.std.specs.Int.Signed.{mag};
ghost use Rattle.days.specs.Days.{last_day};
ghost use Rattle.calendar.specs.Deadlines.{next_first};
ghost use Rattle.parts.specs.Limits.{line_count};
ghost use Rattle.holdings.specs.Steps.{is_gathered, gathered_line, Gathers};

use crate::ends::{bounds_of, line_end};
use crate::holdings::Holding;
use calendar::Span;
use register::Line;

// What a line adds, on each day of its span.
#[derive(Clone, Copy)]
pub(crate) struct GatheredLine {
    pub span: Span,
    pub amount: i32,
}

// The lines that count on some days of the span, how many they are, and what all lines add that count on every day of it. A list for
// each field of a line, so that the compiler takes several lines at once: an array of structs was tried, and a cession with all lines
// the giver's was then slower than everyday Rust, its bar. Their length is fixed and the count stands beside them, since there is no
// heap.
#[derive(Drop)]
pub(crate) struct Gathered {
    pub firsts: [u16; register::LINES],
    pub lasts: [u16; register::LINES],
    pub amounts: [i32; register::LINES],
    pub count: usize,
    pub base: i64,
}

// Whether a line is the user's at the point. One that begins outside the year is left out: question 1 lets none pass. The line's numbers
// are those of the lent ledger, of 32 bits, so that neither `==` of a part nor `contains` asks for them.
fn is_gathered(l: Line, h: Holding, year: Span) -> bool
    ensures { result ≡ is_gathered h year l }
{
    ((l.user == h.user as u32) & (l.point == h.point as u32))
        & ((year.first as u32 <= l.first) & (l.first <= year.last as u32))
}

// What is kept of a line. No `From`, since the last day of the year comes with it.
#[tactic(auto, using(calendar::proofs::DeadlineLaws::before_next))]
fn gathered_line(l: Line, last: u16) -> GatheredLine
    requires { next_first l.first ≤ last_day }
    ensures { result ≡ gathered_line last l }
{
    GatheredLine {
        span: Span {
            first: l.first as u16,
            last: line_end(l, last),
        },
        amount: l.amount,
    }
}

impl GatheredLine {
    ghost use Rattle.std.specs.Prelude.{◌<◌};
    ghost use Rattle.holdings.specs.Steps.{counts_throughout, part_throughout, places, part_on};

    // Whether it counts on every day of the span.
    fn counts_throughout(self, h: Holding) -> bool
        ensures { result ≡ counts_throughout h self }
    {
        (self.span.first <= h.first) & (h.last <= self.span.last)
    }

    // What it adds on every day of the span.
    fn part_throughout(self, h: Holding) -> i64
        ensures value { result ≡ part_throughout h self }
        ensures small { mag result < 2147483648 }
    {
        if self.counts_throughout(h) {
            self.amount as i64
        } else {
            0
        }
    }

    // How many places it takes among those gathered: one where it counts on some days of the span but not on every one, else none.
    fn places(self, h: Holding) -> usize
        ensures value { result ≡ places h self }
        ensures most { result ≤ 1 }
    {
        let some = (self.span.first <= h.last) & (h.first <= self.span.last);
        (some & !self.counts_throughout(h)) as usize
    }

    // What it adds on a day.
    pub fn part_on(self, day: u16) -> i64
        ensures value { result ≡ part_on day self }
        ensures small { mag result < 2147483648 }
    {
        if self.span.contains(day) {
            self.amount as i64
        } else {
            0
        }
    }
}

impl Gathered {
    ghost use Rattle.std.specs.Prelude.{◌<◌};
    ghost use Rattle.holdings.specs.Steps.{Sized, line_in};

    // Line k of those gathered.
    pub(crate) fn line(&self, k: usize) -> GatheredLine
        requires sized { Sized self.now }
        requires in_lists { k < line_count }
        ensures { result ≡ line_in self.now.firsts self.now.lasts self.now.amounts k }
    {
        GatheredLine {
            span: Span {
                first: self.firsts[k],
                last: self.lasts[k],
            },
            amount: self.amounts[k],
        }
    }
}

// Gathers the lines among the first n of the ledger.
#[tactic(auto, using(crate::proofs::GatherLaws::gathered_inside))]
pub(crate) fn gather(year: u16, n: usize, ledger: &[u32], h: Holding) -> Gathered
    requires { n ≤ line_count }
    ensures { Gathers year n ledger.now h result }
{
    let bounds = bounds_of(year);
    let mut gathered = Gathered {
        firsts: [0; register::LINES],
        lasts: [0; register::LINES],
        amounts: [0; register::LINES],
        count: 0,
        base: 0,
    };
    // Count and base stand in locals till the end: in the struct they would go to memory and back for each line.
    let mut count: usize = 0;
    let mut base: i64 = 0;
    // A line that the ledger does not have is one of zeros, and day 0 lies in no thermal year. So the loop goes over those that it has, and
    // the compiler leaves out what `line_at` asks at each.
    let there = n.min(ledger.len() / register::LINE);
    // By index: the ledger is a list of numbers that is lent, and `line_at` reads a line of it wherever it stands.
    for i in 0..there {
        let l = register::line_at(ledger, i);
        if is_gathered(l, h, bounds) {
            let c = gathered_line(l, bounds.last);
            // Written in any case, and counted where it takes the place: the loop has no second branch.
            gathered.firsts[count] = c.span.first;
            gathered.lasts[count] = c.span.last;
            gathered.amounts[count] = c.amount;
            count += c.places(h);
            base += c.part_throughout(h);
        }
    }
    gathered.count = count;
    gathered.base = base;
    gathered
}
