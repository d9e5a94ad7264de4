// Days, months, years and dates.
ghost use Rattle.std.specs.Prelude.{◌≡◌, ◌<◌, ◌^◌};
ghost use Rattle.days.specs.Days.{between, leap, month_length, year_start, days_before, month_start, date_of, is_year, is_month, is_date, moves_on};
ghost use Rattle.days.specs.Answers.{date_answer, day_answer, next_date_answer};

use std::fmt;

// The last gas-day of the calendar, 31 December 2099.
pub const LAST_DAY: u16 = 36524;

// A date: the year, the month of the calendar and the day of the month. It need not exist.
#[repr(C)]
#[derive(Clone, Copy, PartialEq, Eq)]
pub struct Date {
    pub year: u16,
    pub month: u8,
    pub day: u8,
}

// The last date of the calendar.
const LAST_DATE: Date = Date {
    year: 2099,
    month: 12,
    day: 31,
};

// As 2024-03-31.
impl fmt::Display for Date {
    ghost use Rattle.std.specs.Prelude.{Some};
    ghost use Rattle.days.specs.Texts.{date_text};

    ghost output = { λ d. Some (date_text d) };

    fn fmt<W: fmt::Write>(&self, f: &mut fmt::Formatter<W>) -> fmt::Result {
        write!(f, "{}-{:02}-{:02}", self.year, self.month, self.day)
    }
}

// A month by its year and its number in the year, 1 for January. It need not exist.
#[derive(Clone, Copy, PartialEq, Eq)]
pub struct Month {
    pub year: u16,
    pub month: u8,
}

fn is_leap(year: u16) -> bool
    ensures { result ≡ leap year }
{
    year % 4 == 0
}

// Whether a year is one of the calendar. The last one is another than that of the thermal years, which are asked about in `calendar`: the
// test is a line in both, and one for any last year would say no more.
pub fn is_year(year: u16) -> bool
    ensures { result ≡ is_year year }
{
    (2000 <= year) & (year <= 2099)
}

// Whether a number names a month, of a calendar year or of a thermal year. What is asked of a number has a name for each: a test of any
// two limits would have them repeated by every caller.
pub fn names_month(month: u8) -> bool
    ensures { result ≡ between 1 12 month }
{
    (1 <= month) & (month <= 12)
}

fn year_start(year: u16) -> u32
    ensures value { result ≡ year_start year }
    ensures upper_bound { result < 2 ^ 25 }
{
    let y = year as u32;
    365 * y.saturating_sub(2000) + y.saturating_sub(1997) / 4
}

impl Month {
    ghost use Rattle.std.specs.Prelude.{min, ◌-◌};
    ghost use Rattle.days.specs.Days.{date, year_after, month_after, year_before, month_before};

    pub fn is_in_calendar(self) -> bool
        ensures { result ≡ is_month self.year self.month }
    {
        is_year(self.year) & names_month(self.month)
    }

    #[tactic(auto, unfolding(crate::specs::Days::month_length))]
    pub fn length(self) -> u8
        ensures { result ≡ month_length self.year self.month }
    {
        match self.month {
            2 => { if is_leap(self.year) { 29 } else { 28 } }
            4 | 6 | 9 | 11 => 30,
            _ => 31,
        }
    }

    // The days of the months of the year before it. The months are counted from 0: from 1 on, the compiler makes a branch for each, and the
    // day of a date takes a quarter longer.
    #[tactic(auto, using(crate::proofs::DateLaws::days_with), unfolding(crate::specs::Days::days_before))]
    fn days_before(self) -> u32
        ensures value { result ≡ days_before self.year (self.month - 1) }
        ensures upper_bound { result < 2 ^ 16 }
    {
        let mut sum: u32 = 0;
        for before in 0..self.month.saturating_sub(1) {
            let month = before + 1;
            sum += Month { month, ..self }.length() as u32;
        }
        sum
    }

    // The number of its first day.
    #[tactic(auto, unfolding(crate::specs::Days::month_start))]
    pub fn start(self) -> u32
        ensures value { result ≡ month_start self.year self.month }
        ensures upper_bound { result < 2 ^ 26 }
    {
        year_start(self.year) + self.days_before()
    }

    // A day of it, by its number in the month.
    pub fn date(self, day: u8) -> Date
        ensures { result ≡ date self.year self.month day }
    {
        let Month { year, month } = self;
        Date { year, month, day }
    }

    // The month after it. No year comes after the last of its type.
    pub fn next(self) -> Month
        ensures year { result.year ≡ min (year_after self.year self.month) 65535 }
        ensures month { result.month ≡ month_after self.month }
    {
        if self.month < 12 {
            let month = self.month + 1;
            return Month { month, ..self };
        }
        Month {
            year: self.year.saturating_add(1),
            month: 1,
        }
    }

    // The month before it.
    pub fn previous(self) -> Month
        ensures year { result.year ≡ year_before self.year self.month }
        ensures month { result.month ≡ month_before self.month }
    {
        if 1 < self.month {
            let month = self.month - 1;
            return Month { month, ..self };
        }
        Month {
            year: self.year.saturating_sub(1),
            month: 12,
        }
    }
}

impl Date {
    ghost use Rattle.days.specs.Days.{day_of};

    // The month that the date is in.
    pub fn month(self) -> Month
        ensures year { result.year ≡ self.year }
        ensures month { result.month ≡ self.month }
    {
        Month {
            year: self.year,
            month: self.month,
        }
    }

    // The number of the day, also of a date that lies outside the calendar or does not exist.
    pub fn number(self) -> u32
        ensures value { result ≡ day_of self }
        ensures upper_bound { result < 2 ^ 27 }
    {
        self.month().start() + (self.day as u32).saturating_sub(1)
    }

    fn exists(self) -> bool
        ensures { result ≡ is_date self }
    {
        self.month().is_in_calendar() & ((1 <= self.day) & (self.day <= self.month().length()))
    }

    // Whether it exists in the calendar and is not its last.
    fn moves_on(self) -> bool
        ensures { result ≡ moves_on self }
    {
        self.exists() & (self != LAST_DATE)
    }
}

// The date of any day number, also of one past the calendar's end.
#[tactic(auto, using(crate::proofs::DateLaws::date_turns), unfolding(crate::specs::Days::date_of, crate::specs::Days::year_of, crate::specs::Days::date_from))]
pub fn date_at(day: u16) -> Date
    ensures { result ≡ date_of day }
{
    let n = day as u32;
    let year = (2000 + 4 * n / 1461) as u16;
    let mut rest = n - year_start(year);
    for month in 1..12 {
        let len = Month { year, month }.length() as u32;
        if rest < len {
            return Date {
                year,
                month,
                day: (rest + 1) as u8,
            };
        }
        rest -= len;
    }
    Date {
        year,
        month: 12,
        day: (rest + 1) as u8,
    }
}

// The date of a gas-day.
#[tactic(auto, unfolding(crate::specs::Answers::date_answer))]
pub fn date_of(day: u16) -> Option<Date>
    ensures { result ≡ date_answer day }
{
    if LAST_DAY < day {
        return None;
    }
    Some(date_at(day))
}

// The gas-day of a date.
#[tactic(auto, using(crate::proofs::AnswerLaws::day_of_date), unfolding(crate::specs::Answers::day_answer))]
pub fn day_of(date: Date) -> Option<u16>
    ensures { result ≡ day_answer date }
{
    if date.exists() {
        return Some(date.number() as u16);
    }
    None
}

// The date one gas-day later.
#[tactic(auto, using(crate::proofs::AnswerLaws::year_moved_on), unfolding(crate::specs::Answers::next_date_answer, crate::specs::Days::day_after))]
pub fn next_date(date: Date) -> Option<Date>
    ensures { result ≡ next_date_answer date }
{
    if !date.moves_on() {
        return None;
    }
    if date.day < date.month().length() {
        let day = date.day + 1;
        return Some(Date { day, ..date });
    }
    Some(date.month().next().date(1))
}
