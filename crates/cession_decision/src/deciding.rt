// The questions put to a cession, in order, and what is decided.
ghost use Rattle.std.specs.Prelude.{◌≡◌, true};
ghost use Rattle.parts.specs.Registers.{state_in};
ghost use Rattle.cession_decision.specs.CessionQuestions.{cession_fields, both_on_file, charge_of, charge_questions, held_questions, span_questions, cession_questions};
ghost use Rattle.cession_decision.specs.Decisions.{handover_of, Decides};
ghost use Rattle.cession_decision.specs.Steps.{span_answer, Spanned, Lined};

use calendar::Span;
use conferral::Grant;
use holdings::Holding;
use register::{Refusal, Register, View};

// A cession at a point, which arrives on a gas-day: an amount from giver to receiver, on each day from the first of the month after
// arrival to the year's end.
#[derive(Clone, Copy)]
pub struct Cession {
    pub giver: u8,
    pub receiver: u8,
    pub point: u8,
    pub arrival: u16,
    pub amount: u64,
}

impl Cession {
    // Question 2.
    fn is_within_limits(self) -> bool
        ensures { result ≡ cession_fields self }
    {
        register::names_point(self.point)
            & (register::names_user(self.giver) & register::names_user(self.receiver))
            & (self.giver != self.receiver)
            & register::is_amount(self.amount)
    }
}

// A cession arrives by this working day of a month.
const DEADLINE: u8 = 16;

// It writes so many ledger lines.
pub const LINES_WRITTEN: usize = 2;

// What an accepted cession needs: the first day of its lines and the charge that moves.
#[derive(Clone, Copy)]
pub struct Handover {
    pub first: u16,
    pub charge: u64,
}

// Question 5. This step and those that follow each ask that question 2 was answered yes. A type of its own for such a cession would
// repeat its five fields, or hide them one name deeper in every step.
fn are_on_file(r: &Register, c: Cession) -> bool
    requires { cession_fields c ≡ true }
    ensures { result ≡ both_on_file r.now c }
{
    let giver = r.accounts[c.giver as usize];
    let receiver = r.accounts[c.receiver as usize];
    giver.is_on_file() & receiver.is_on_file()
}

// Question 8: from the first of the month after arrival to the year's end, where that is answered yes.
#[tactic(auto, using(crate::proofs::CessionLaws::no_arrival, crate::proofs::CessionLaws::arrived_span))]
fn span_of(year: u16, arrival: u16) -> Option<Span>
    ensures { result ≡ span_answer year arrival }
{
    if !conferral::is_arrival(year, arrival) {
        return None;
    }
    conferral::annual_span(year, arrival)
}

// The charge of a cession on the days of the span: that of an annual grant to the receiver. The span is that of the call: it is found
// once and passed on, here and to `decide_held`, and a struct of both would hold the call's two days twice.
#[tactic(auto, using(crate::proofs::CessionLaws::charge_annual))]
fn cession_charge(r: &Register, c: Cession, days: Span) -> u64
    requires fields { cession_fields c ≡ true }
    requires span { Spanned r.now c days }
    ensures { result ≡ charge_of r.now c }
{
    let g = Grant::annual(c.receiver, c.point, days, c.amount as u32);
    conferral::charge_within(r, g)
}

// Question 1 again, 11 and 13.
fn decide_charge(r: &Register, c: Cession, h: Handover) -> Result<Handover, Refusal>
    requires fields { cession_fields c ≡ true }
    requires handover { h ≡ handover_of r.now c }
    ensures { Decides (charge_questions r.now c) r.now c result }
{
    let giver = r.accounts[c.giver as usize];
    // What a giver holds was charged to him: a commitment below its charge is not in order.
    if giver.commitment < h.charge {
        return Err(Refusal::NotInOrder);
    }
    let receiver = r.accounts[c.receiver as usize];
    if !conferral::covers_charge(receiver, h.charge) {
        return Err(Refusal::NotCovered);
    }
    if !conferral::lines_left(r, LINES_WRITTEN) {
        return Err(Refusal::LedgerFull);
    }
    Ok(h)
}

// Question 10 of the days of the span, and those that follow.
#[tactic(auto, using(crate::proofs::SpanTests::handed))]
fn decide_held(v: View, c: Cession, days: Span) -> Result<Handover, Refusal>
    requires fields { cession_fields c ≡ true }
    requires span { Spanned (state_in v).register c days }
    requires lines { Lined (state_in v) }
    ensures { Decides (held_questions (state_in v.entry) c) (state_in v.entry).register c result }
{
    let given = Holding {
        user: c.giver,
        point: c.point,
        first: days.first,
        last: days.last,
        amount: c.amount as u32,
    };
    let r = v.register;
    if holdings::first_short_day(r.year, r.lines, v.ledger, given).is_some() {
        return Err(Refusal::NotHeld);
    }
    let charge = cession_charge(r, c, days);
    decide_charge(
        r,
        c,
        Handover {
            first: days.first,
            charge,
        },
    )
}

// Questions 8 and 9, and those that follow.
#[tactic(auto, using(crate::proofs::CessionLaws::no_span))]
fn decide_span(v: View, c: Cession) -> Result<Handover, Refusal>
    requires fields { cession_fields c ≡ true }
    requires lines { Lined (state_in v) }
    ensures { Decides (span_questions (state_in v.entry) c) (state_in v.entry).register c result }
{
    let Some(days) = span_of(v.register.year, c.arrival) else {
        return Err(Refusal::OutsideYear);
    };
    if !conferral::is_timely(calendar::in_time_own_month(c.arrival, DEADLINE)) {
        return Err(Refusal::Late);
    }
    decide_held(v, c, days)
}

// Questions 1, 2, 3 and 5, and those that follow: the whole decision, what is handed over or why nothing is.
#[tactic(auto, using(holdings::proofs::HeldLaws::lines_in))]
pub fn decide(v: View, c: Cession) -> Result<Handover, Refusal>
    ensures { Decides (cession_questions (state_in v.entry) c) (state_in v.entry).register c result }
{
    if !register::in_order(v) {
        return Err(Refusal::NotInOrder);
    }
    if !c.is_within_limits() {
        return Err(Refusal::OutOfLimits);
    }
    let p = v.register.points[c.point as usize];
    if !p.is_open() {
        return Err(Refusal::PointClosed);
    }
    if !are_on_file(v.register, c) {
        return Err(Refusal::NotOnFile);
    }
    decide_span(v, c)
}
