// Open point.
ghost use Rattle.std.specs.Prelude.{◌≡◌, true, ◌<◌};
ghost use Rattle.calendar.specs.ThermalYears.{is_thermal_year};
ghost use Rattle.parts.specs.Limits.{point_count};
ghost use Rattle.parts.specs.Registers.{state, state_in, with_point};
ghost use Rattle.amounts.specs.Amounts.{year_days, freed_row};
ghost use Rattle.parts.specs.Answers.{number_of_answer};
ghost use Rattle.opening.specs.OpenPoint.{open_fields, open_number, open_after};

use register::{Answered, Point, Refusal, Register, View};

// A point to be opened. Its kind and its total are what the caller gives, of any size, and question 2 answers: an enum or a smaller
// number would ask more of callers.
#[derive(Clone, Copy)]
pub struct Opening {
    pub point: u8,
    pub kind: u8,
    pub total: u64,
    pub rate: u32,
}

impl Opening {
    // Question 2.
    fn is_within_limits(self) -> bool
        ensures { result ≡ open_fields self.point self.kind self.total self.rate }
    {
        register::names_point(self.point) & register::can_open(self.kind, self.total, self.rate)
    }
}

// Questions 1, 2 and 4.
#[tactic(auto, unfolding(crate::specs::OpenPoint::open_number))]
fn open_answer(v: View, o: Opening) -> Result<(), Refusal>
    ensures { number_of_answer result ≡ open_number (state_in v.entry) o.point o.kind o.total o.rate }
{
    if !register::in_order(v) {
        return Err(Refusal::NotInOrder);
    }
    if !o.is_within_limits() {
        return Err(Refusal::OutOfLimits);
    }
    if v.register.points[o.point as usize].is_open() {
        return Err(Refusal::PointOpen);
    }
    Ok(())
}

// The point written, and every gas-day of the year free to its total. Questions 2 and 1 ask about point and year before: a type for a
// number that was asked about would be taken apart at once.
#[tactic(auto, using(amounts::proofs::AmountLaws::days_of_lem))]
fn with_free_point(mut r: Register, free: &mut [u32], point: u8, p: Point) -> Register
    requires { (point < point_count) × (is_thermal_year r.year ≡ true) }
    ensures register { result ≡ with_point r point p }
    ensures free { free.new ≡ freed_row free.old point (year_days r.year) p }
{
    register::free_row(free, point, register::days_of_year(r.year), p);
    r.points[point as usize] = p;
    r
}

// Opens a point: every gas-day of the year is free to the total.
#[tactic(auto, using(crate::proofs::OpenLaws::open_exits))]
pub fn open_point(r: Register, free: &mut [u32], ledger: &[u32], o: Opening) -> Answered<()>
    ensures number { number_of_answer result.answer ≡ open_number
        (state r free.old ledger.now) o.point o.kind o.total o.rate }
    ensures state { state result.register free.new ledger.now ≡ open_after
        (state r free.old ledger.now) o.point o.kind o.total o.rate }
{
    let v = View {
        register: &r,
        free,
        ledger,
    };
    if let Err(why) = open_answer(v, o) {
        return Answered::refused(r, why);
    }
    let p = Point {
        kind: o.kind,
        total: o.total as u32,
        rate: o.rate,
    };
    Answered {
        register: with_free_point(r, free, o.point, p),
        answer: Ok(()),
    }
}
