// The questions put to a request, in order.
ghost use Rattle.std.specs.Prelude.{◌≡◌, true};
ghost use Rattle.parts.specs.Registers.{state_in};
ghost use Rattle.request_decision.specs.RequestQuestions.{request_fields, grant_from, amount_questions, span_questions, request_questions};
ghost use Rattle.request_decision.specs.Decisions.{Decides};
ghost use Rattle.request_decision.specs.Steps.{Spanned};

use calendar::Span;
use conferral::Grant;
use products::Request;
use register::{Refusal, View};

// Question 2.
fn fields_within_limits(q: Request) -> bool
    ensures { result ≡ request_fields q }
{
    register::names_point(q.point)
        & register::names_user(q.user)
        & register::is_amount(q.amount)
        & q.product.is_month_within_limits()
}

// The grant of an amount on each day of a span. A literal: its fields come from a request and a span, and no other grant's do.
fn grant_from(q: Request, days: Span, amount: u32) -> Grant
    ensures { result ≡ grant_from q days amount }
{
    Grant {
        user: q.user,
        point: q.point,
        kind: q.product.kind(),
        days,
        amount,
    }
}

// Questions 11, 12 and 13 of the days of the span. The span is that of the call: it is found once and passed on, and a struct of both
// would hold the call's two days twice.
#[tactic(auto, using(crate::proofs::AmountTests::amount_tests))]
fn decide_amount(v: View, q: Request, days: Span) -> Result<Grant, Refusal>
    requires { (request_fields q ≡ true) × Spanned (state_in v).register q days }
    ensures { Decides (amount_questions (state_in v.entry) q) (state_in v.entry) q result }
{
    let r = v.register;
    let asked = grant_from(q, days, q.amount as u32);
    let place = register::entry_in(r.year, q.point, days.first);
    let amount = register::least_free(v.free, place, days.days(), asked.amount);
    let granted = grant_from(q, days, amount);
    // The guarantee has to cover what is asked, not only what is granted.
    if !conferral::is_covered(r, asked) {
        return Err(Refusal::NotCovered);
    }
    if amount == 0 {
        return Err(Refusal::NothingFree);
    }
    if !conferral::lines_left(r, 1) {
        return Err(Refusal::LedgerFull);
    }
    Ok(granted)
}

// Questions 8 and 9, and those that follow.
#[tactic(auto, using(crate::proofs::AmountTests::year_is_not))]
fn decide_span(v: View, q: Request) -> Result<Grant, Refusal>
    requires { request_fields q ≡ true }
    ensures { Decides (span_questions (state_in v.entry) q) (state_in v.entry) q result }
{
    let year = v.register.year;
    let Some(days) = products::span_of(year, q.arrival, q.product) else {
        return Err(Refusal::OutsideYear);
    };
    if !products::is_in_time(year, q.arrival, q.product) {
        return Err(Refusal::Late);
    }
    decide_amount(v, q, days)
}

// Questions 1, 2, 3, 5 and 7, and those that follow: what is granted, or why nothing is.
pub fn decide(v: View, q: Request) -> Result<Grant, Refusal>
    ensures { Decides (request_questions (state_in v.entry) q) (state_in v.entry) q result }
{
    if !register::in_order(v) {
        return Err(Refusal::NotInOrder);
    }
    if !fields_within_limits(q) {
        return Err(Refusal::OutOfLimits);
    }
    let p = v.register.points[q.point as usize];
    if !p.is_open() {
        return Err(Refusal::PointClosed);
    }
    if !v.register.accounts[q.user as usize].is_on_file() {
        return Err(Refusal::NotOnFile);
    }
    if !products::is_offered(p, q.product) {
        return Err(Refusal::NotOffered);
    }
    decide_span(v, q)
}
