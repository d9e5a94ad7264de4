// Easter, holidays and working days.
ghost use Rattle.std.specs.Prelude.{◌≡◌, ◌≤◌, ◌<◌, ◌^◌};
ghost use Rattle.days.specs.Days.{day_of};
ghost use Rattle.working_days.specs.WorkingDays.{week_earlier, easter_offset, easter_sunday, easter_monday, fixed_holiday, working, working_count, nth_of_month};
ghost use Rattle.working_days.specs.Answers.{easter_answer, type_answer, count_answer, nth_answer};

use days::{Date, Month, is_year};

// Whether a gas-day is a working day.
#[derive(Clone, Copy, PartialEq, Eq)]
pub enum DayType {
    Working,
    NonWorking,
}

// The two exceptions of Gauss's rule, in which Easter is a week earlier.
fn is_week_earlier(a: u32, d: u32, e: u32) -> bool
    ensures { result ≡ week_earlier a d e }
{
    (d == 29) & (e == 6) | (d == 28) & ((e == 6) & (10 < a))
}

// How many days after 22 March Easter Sunday is, by Gauss's rule.
#[tactic(auto, using(crate::proofs::WorkingDayLaws::week_fits), unfolding(crate::specs::WorkingDays::easter_offset, crate::specs::WorkingDays::gauss_a, crate::specs::WorkingDays::gauss_b, crate::specs::WorkingDays::gauss_c, crate::specs::WorkingDays::gauss_d, crate::specs::WorkingDays::gauss_e))]
fn easter_offset(year: u16) -> u8
    ensures { result ≡ easter_offset year }
{
    let y = year as u32;
    let a = y % 19;
    let d = (19 * a + 24) % 30;
    let e = (2 * (y % 4) + 4 * (y % 7) + 6 * d + 5) % 7;
    if is_week_earlier(a, d, e) {
        return (d + e - 7) as u8;
    }
    (d + e) as u8
}

fn easter_sunday(year: u16) -> u32
    ensures value { result ≡ easter_sunday year }
    ensures upper_bound { result < 2 ^ 28 }
{
    let date = Date {
        year,
        month: 3,
        day: 22,
    };
    date.number() + easter_offset(year) as u32
}

fn easter_monday(year: u16) -> u32
    ensures { result ≡ easter_monday year }
{
    easter_sunday(year) + 1
}

// Whether a date is one of the holidays that have the same date every year.
#[tactic(auto, unfolding(crate::specs::WorkingDays::fixed_holiday))]
fn is_fixed_holiday(month: u8, day: u8) -> bool
    ensures { result ≡ fixed_holiday month day }
{
    match month {
        1 => (day == 1) | (day == 6),
        4 => day == 25,
        5 => day == 1,
        6 => day == 2,
        8 => day == 15,
        11 => day == 1,
        12 => (day == 8) | (day == 25) | (day == 26),
        _ => false,
    }
}

// Whether a date is a working day. The caller gives the date's number and the year's Easter Monday, so that a walk through a month finds
// the month's first day and Easter once.
fn is_working(date: Date, number: u32, monday: u32) -> bool
    requires { (number ≡ day_of date) × (number < 2 ^ 28) × (monday ≡ easter_monday date.year) }
    ensures { result ≡ working date.year date.month date.day }
{
    let holiday = is_fixed_holiday(date.month, date.day) | (number == monday);
    ((number + 5) % 7 < 5) & !holiday
}

// Easter Sunday of a year.
#[tactic(auto, using(crate::proofs::WorkingDayLaws::easter_fits), unfolding(crate::specs::Answers::easter_answer))]
pub fn easter(year: u16) -> Option<u16>
    ensures { result ≡ easter_answer year }
{
    if is_year(year) {
        return Some(easter_sunday(year) as u16);
    }
    None
}

// Whether a gas-day is a working day.
#[tactic(auto, using(days::proofs::DateLaws::day_date), unfolding(crate::specs::Answers::type_answer, days::specs::Answers::date_answer))]
pub fn day_type(day: u16) -> Option<DayType>
    ensures { result ≡ type_answer day }
{
    let d = days::date_of(day)?;
    if is_working(d, day as u32, easter_monday(d.year)) {
        return Some(DayType::Working);
    }
    Some(DayType::NonWorking)
}

// The number of working days of a month, also of one outside the calendar. Each day adds 1 or 0: counted behind a `filter`, with a branch
// for each day, they take three times as long.
#[tactic(auto, using(days::proofs::DateLaws::month_most))]
fn count_of_month(month: Month) -> u8
    ensures { result ≡ working_count month.year month.month }
{
    let first = month.start();
    let monday = easter_monday(month.year);
    (1..month.length() + 1)
        .map(|day| is_working(month.date(day), first + (day as u32 - 1), monday) as u8)
        .sum()
}

// How many working days a month has.
#[tactic(auto, unfolding(crate::specs::Answers::count_answer))]
pub fn working_days_of(month: Month) -> Option<u8>
    ensures { result ≡ count_answer month.year month.month }
{
    if month.is_in_calendar() {
        return Some(count_of_month(month));
    }
    None
}

// The n-th working day of a month that has so many, by its day of the month. No `for`: that would test for the month's end, and
// that each month has at least 18 working days is shown, not tested for at run time.
#[tactic(auto, using(crate::proofs::WorkingDayLaws::sought_turns))]
fn nth_of_month(month: Month, n: u8) -> u8
    requires some { 1 ≤ n }
    requires few { n ≤ working_count month.year month.month }
    ensures { result ≡ nth_of_month month.year month.month n }
{
    let first = month.start();
    let monday = easter_monday(month.year);
    let mut day: u8 = 1;
    let mut left = n;
    loop {
        if is_working(month.date(day), first + (day as u32 - 1), monday) {
            if left == 1 {
                return day;
            }
            left -= 1;
        }
        day += 1;
    }
}

// The n-th working day of a month, for n from 1 to 18.
#[tactic(auto, using(crate::proofs::WorkingDayLaws::asked), unfolding(crate::specs::Answers::nth_answer))]
pub fn nth_working_day(month: Month, n: u8) -> Option<u16>
    ensures { result ≡ nth_answer month.year month.month n }
{
    if month.is_in_calendar() & ((1 <= n) & (n <= 18)) {
        let day = nth_of_month(month, n);
        return Some(month.date(day).number() as u16);
    }
    None
}
