// From days to dates and back, and the lengths of months.
ghost use Rattle.std.specs.Prelude.{◌≡◌, ◌++◌, if◌then◌else◌, Some, None, nat_le, codes, decimal};
ghost use Rattle.calendar.specs.Conversions.{GivesDate, GivesDay};
ghost use Rattle.calendar.specs.Dates.{last_day, has_month};
ghost use Rattle.calendar.specs.Due.{month_day};
ghost use Rattle.calendar.specs.Gregorian.{days_in};
ghost use Rattle.calendar.specs.Text.{any_date_text};

use crate::date::Date;
use crate::month::Month;
use quantities::time::Day;
use std::error::Error;
use std::fmt;

// The last day of the calendar, 31 December 2100.
const LAST_DAY: Day = Day(36_889);

// A day past the calendar's last one.
#[derive(Clone, Copy, PartialEq, Eq, Debug)]
pub struct PastCalendar(pub Day);

impl fmt::Display for PastCalendar {
    ghost output = { λ e. Some (codes "day " ++ (decimal e.0.0 ++ codes " is past the calendar")) };

    fn fmt<W: fmt::Write>(&self, f: &mut fmt::Formatter<W>) -> fmt::Result {
        // by its number, since it has no date
        write!(f, "day {} is past the calendar", self.0.0)
    }
}

impl Error for PastCalendar {}

// A date that the calendar doesn't have.
#[derive(Clone, Copy, PartialEq, Eq, Debug)]
pub struct NoSuchDate(pub Date);

impl fmt::Display for NoSuchDate {
    ghost output = { λ e. Some (any_date_text e.0 ++ codes " is no date of the calendar") };

    fn fmt<W: fmt::Write>(&self, f: &mut fmt::Formatter<W>) -> fmt::Result {
        write!(f, "{} is no date of the calendar", self.0)
    }
}

impl Error for NoSuchDate {}

// The date of a day, for the days 0 to 36,889.
impl TryFrom<Day> for Date {
    type Error = PastCalendar;

    ghost try_from_gives = { GivesDate };

    fn try_from(day: Day) -> Result<Date, PastCalendar> {
        if day > LAST_DAY {
            return Err(PastCalendar(day));
        }
        let month = Month::of_day(day);
        Ok(Date {
            year: month.year(),
            month: month.in_year(),
            day: month.number_of(day),
        })
    }
}

// The day of a date, if the date exists in the years 2000 to 2100.
impl TryFrom<Date> for Day {
    type Error = NoSuchDate;

    ghost try_from_gives = { GivesDay };

    fn try_from(date: Date) -> Result<Day, NoSuchDate> {
        match Month::of_year(date.year, date.month) {
            Some(month) if (1..=month.length()).contains(&date.day) => Ok(month.day(date.day)),
            _ => Err(NoSuchDate(date)),
        }
    }
}

// How many days a month (1 to 12) of a year has, for the years 2000 to 2100.
pub fn month_length(year: u16, month: u8) -> Option<u8>
    ensures value { result ≡ (if has_month year month then Some (days_in year month) else None) }
{
    let month = Month::of_year(year, month)?;
    Some(month.length())
}

// The day of the month, 1 to 31, on which a day of the calendar lies.
pub fn day_of_month(day: Day) -> Option<u8>
    ensures value { result ≡ (if nat_le day.0 last_day then Some (month_day day.0) else None) }
{
    let date = Date::try_from(day).ok()?;
    Some(date.day)
}
