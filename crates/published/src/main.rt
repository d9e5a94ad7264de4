// Prints what the calendar answers for all of its years, months and thermal years. What it must print, `stdout`, is written by
// another implementation (reference/), which shares no code with the calendar.
//
// - 100 lines: Easter Sunday of a year, as `Easter 2000-04-23`;
// - 1,200 lines: a month, the number of its working days, and the day of the month of its 10th, 11th, 14th and 16th;
// - 99 lines: a thermal year, and the numbers of its first and its last day and of those of each of its months;
// - 1,200 lines: a month, then how many of its days 1 to 31, each asked alone, exist (the date of the day's number is the date), are
//   working days, are in time by the 11th working day of their month, are late by it, are in time for the month after it (none where
//   that is no month of a thermal year), and are followed by the date of the next number; and the number of the first of the next
//   month, which its last day is asked for (0 in December 2099).
//
// A write that fails ends the program with an error, but where nobody reads the output any more it ends without a word.
//
// Closures that only call a function of the calendar stand where its name could: that name of another crate's function, passed as an
// argument, was tried and its proof did not close.
#![tactic(auto)]

ghost use Rattle.std.specs.Prelude.{◌≤◌};

use calendar::{Date, DayType, Month, Span, Timeliness};
use std::io::{BufWriter, ErrorKind, Write};
use std::{fmt, io};

// An answer after a space. What is printed in place of one outside the calendar `stdout` has nowhere.
#[derive(Drop)]
struct Field<T>(Option<T>);

impl<T: fmt::Display> fmt::Display for Field<T> {
    fn fmt<W: fmt::Write>(&self, f: &mut fmt::Formatter<W>) -> fmt::Result {
        match &self.0 {
            Some(x) => write!(f, " {x}"),
            None => write!(f, " outside the calendar"),
        }
    }
}

// The numbers of the first and the last day.
#[derive(Drop)]
struct Ends(Span);

impl fmt::Display for Ends {
    fn fmt<W: fmt::Write>(&self, f: &mut fmt::Formatter<W>) -> fmt::Result {
        write!(f, "{} {}", self.0.first, self.0.last)
    }
}

fn print_easter<W: Write>(out: &mut W, year: u16) -> io::Result<()> {
    let date = calendar::easter(year).and_then(|day| calendar::date_of(day));
    writeln!(out, "Easter{}", Field(date))
}

fn print_month<W: Write>(out: &mut W, month: Month) -> io::Result<()> {
    let count = calendar::working_days_of(month);
    write!(out, "{}-{:02}{}", month.year, month.month, Field(count))?;
    for n in [10, 11, 14, 16] {
        let date = calendar::nth_working_day(month, n).and_then(|day| calendar::date_of(day));
        write!(out, "{}", Field(date.map(|d| d.day)))?;
    }
    writeln!(out)
}

fn print_thermal_year<W: Write>(out: &mut W, year: u16) -> io::Result<()> {
    let days = calendar::thermal_year(year);
    write!(out, "thermal {year}{}", Field(days.map(Ends)))?;
    for month in 1..13 {
        let days = calendar::thermal_month(year, month);
        write!(out, "{}", Field(days.map(Ends)))?;
    }
    writeln!(out)
}

// A day that exists: its number, its date, and whether an arrival on it is in time by the 11th working day of its month.
#[derive(Clone, Copy)]
struct Day {
    number: u16,
    date: Date,
    timeliness: Option<Timeliness>,
}

// The day of a date, where it exists.
fn day_found(date: Date) -> Option<Day> {
    let number = calendar::day_of(date)?;
    let timeliness = calendar::in_time_own_month(number, 11);
    Some(Day {
        number,
        date,
        timeliness,
    })
}

// The days 1 to 31 of a month, each asked alone and once. What is counted goes over them: asked anew for each count, the program takes
// 1.4 times as long.
fn days_of(month: Month) -> [Option<Day>; 31] {
    let mut days = [None; 31];
    for (place, day) in days.iter_mut().zip(1..32) {
        *place = day_found(month.date(day));
    }
    days
}

// How many days are such.
fn how_many<F: Fn(Day) -> bool>(days: &[Option<Day>; 31], is_such: F) -> usize
    requires { F.IsAlwaysCallable is_such }
{
    days.iter().flatten().filter(|day| is_such(**day)).count()
}

// Whether an arrival is in time for the month after a month of the calendar, which is one of a thermal year. The calendar goes the
// other way, from a month of a thermal year to one of its own.
fn is_in_time_for_next(arrival: u16, month: Month) -> bool
    requires { (1 ≤ month.year) × (1 ≤ month.month) × (month.month ≤ 12) }
{
    let timeliness = if month.month < 9 {
        calendar::in_time_preceding_month(arrival, month.year - 1, month.month + 4, 11)
    } else {
        calendar::in_time_preceding_month(arrival, month.year, month.month - 8, 11)
    };
    timeliness == Some(Timeliness::InTime)
}

// Whether the date after a day is that of the next number.
fn is_followed(day: Day) -> bool {
    calendar::next_date(day.date)
        .and_then(|next| calendar::day_of(next))
        .is_some_and(|next| day.number as u32 + 1 == next as u32)
}

// The first of the next month, asked for the last of the days; 0 where there is none.
fn first_after(days: &[Option<Day>; 31]) -> u16 {
    days.iter()
        .flatten()
        .last()
        .and_then(|day| calendar::next_first(day.number))
        .unwrap_or(0)
}

fn print_findings<W: Write>(out: &mut W, month: Month) -> io::Result<()>
    requires { (1 ≤ month.year) × (1 ≤ month.month) × (month.month ≤ 12) }
{
    let days = days_of(month);
    let exist = how_many(&days, |day| calendar::date_of(day.number) == Some(day.date));
    let working = how_many(&days, |day| {
        calendar::day_type(day.number) == Some(DayType::Working)
    });
    let in_time = how_many(&days, |day| day.timeliness == Some(Timeliness::InTime));
    let late = how_many(&days, |day| day.timeliness == Some(Timeliness::Late));
    let in_time_for_next = how_many(&days, |day| is_in_time_for_next(day.number, month));
    let followed = how_many(&days, is_followed);
    let first = first_after(&days);
    writeln!(
        out,
        "days {}-{:02} {exist} {working} {in_time} {late} {in_time_for_next} {followed} {first}",
        month.year, month.month
    )
}

// The lines in their order.
fn print_lines<W: Write>(out: &mut W) -> io::Result<()> {
    for year in 2000..2100 {
        print_easter(out, year)?;
    }
    for year in 2000..2100 {
        for month in 1..13 {
            print_month(out, Month { year, month })?;
        }
    }
    for year in 2000..2099 {
        print_thermal_year(out, year)?;
    }
    for year in 2000..2100 {
        for month in 1..13 {
            print_findings(out, Month { year, month })?;
        }
    }
    out.flush()
}

fn main(rt: HostRuntime) -> io::Result<()> {
    let mut out = BufWriter::new(rt.alloc(), rt.stdout())?;
    match print_lines(&mut out) {
        Err(e) if e.kind() == ErrorKind::BrokenPipe => Ok(()),
        printed => printed,
    }
}
