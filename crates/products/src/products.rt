// What can be requested, and for when.
ghost use Rattle.std.specs.Prelude.{◌≡◌};
ghost use Rattle.products.specs.Products.{kind_of, month_ok, is_offered, span_answer, time_answer};

use calendar::Span;
use parts::Point;

// The rest of the year, a month of it (1 is October) or a gas-day. What a product asks is told apart by `match`, the three of them in one
// place: with a closure for each the same would stand in three.
#[derive(Clone, Copy)]
pub enum Product {
    Annual,
    Month(u8),
    Day(u16),
}

// A request of a user at a point, which arrives on a gas-day: an amount on each day of the product.
#[derive(Clone, Copy)]
pub struct Request {
    pub user: u8,
    pub point: u8,
    pub product: Product,
    pub arrival: u16,
    pub amount: u64,
}

// Annual and monthly requests arrive by this working day of a month.
const DEADLINE: u8 = 11;

impl Product {
    // The kind of the ledger line. It is no conversion of the product by `From`, since the number leaves out which month or gas-day it is.
    pub fn kind(self) -> u8
        ensures { result ≡ kind_of self }
    {
        match self {
            Product::Annual => parts::ANNUAL,
            Product::Month(_) => parts::MONTH,
            Product::Day(_) => parts::DAY,
        }
    }

    // Question 2 of the product.
    pub fn is_month_within_limits(self) -> bool
        ensures { result ≡ month_ok self }
    {
        match self {
            Product::Month(month) => calendar::names_month(month),
            Product::Annual | Product::Day(_) => true,
        }
    }
}

// Question 7: direct points take annual requests only.
pub fn is_offered(p: Point, product: Product) -> bool
    ensures { result ≡ is_offered p product }
{
    match product {
        Product::Annual => true,
        Product::Month(_) | Product::Day(_) => !p.is_direct(),
    }
}

// Question 8: the span of a product that arrives on a day, where that is answered yes and a month is one of the year's.
#[tactic(auto, using(crate::proofs::ProductLaws::spans_by))]
pub fn span_of(year: u16, arrival: u16, product: Product) -> Option<Span>
    ensures { result ≡ span_answer year arrival product }
{
    if !spans::is_arrival(year, arrival) {
        return None;
    }
    match product {
        Product::Annual => spans::annual_span(year, arrival),
        Product::Month(month) => calendar::thermal_month(year, month),
        Product::Day(day) => calendar::in_thermal_year(year, day).then_some(Span {
            first: day,
            last: day,
        }),
    }
}

// Question 9. Where the calendar has no deadline, as for a month 13, the answer is no.
pub fn is_in_time(year: u16, arrival: u16, product: Product) -> bool
    ensures { result ≡ time_answer year arrival product }
{
    match product {
        Product::Annual => spans::is_timely(calendar::in_time_own_month(arrival, DEADLINE)),
        Product::Month(month) => spans::is_timely(calendar::in_time_preceding_month(
            arrival, year, month, DEADLINE,
        )),
        Product::Day(day) => arrival < day,
    }
}
