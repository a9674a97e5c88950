// The months of the calendar.
ghost use Rattle.std.specs.Prelude.{◌≡◌, ◌+◌, ◌-◌, ◌<◌, ◌≤◌, IfSome, is_some};
ghost use Rattle.calendar.specs.Dates.{last_day, has_month, months};
ghost use Rattle.calendar.specs.Due.{month_of};
ghost use Rattle.calendar.specs.Gregorian.{first, month_length, year_of, month_of_year};

use crate::table::{first_day, months_begun};
use quantities::time::Day;

// The first year of the calendar.
const FIRST_YEAR: u16 = 2000;

// The last year of the calendar.
const LAST_YEAR: u16 = 2100;

// A month of the calendar, counted from January 2000, which is month 0.
#[derive(Clone, Copy)]
pub(crate) struct Month {
    pub(crate) number: usize,
    ghost inside: { number < months },
}

impl Month {
    // The month in which a day of the calendar lies.
    pub(crate) fn of_day(day: Day) -> Month
        requires { day.0 ≤ last_day }
        ensures value { result.number ≡ month_of day.0 }
        ensures begun { first result.number ≤ day.0 }
        ensures during { day.0 < first result.number + month_length result.number }
    {
        Month {
            number: months_begun(day) - 1,
        }
    }

    // A month (1 to 12) of a year, if the calendar has it.
    pub(crate) fn of_year(year: u16, month: u8) -> Option<Month>
        ensures known { is_some result ≡ has_month year month }
        ensures year { IfSome result (λ found. year_of found.number ≡ year) }
        ensures month { IfSome result (λ found. month_of_year found.number ≡ month) }
    {
        if !(FIRST_YEAR..=LAST_YEAR).contains(&year) || !(1..=12).contains(&month) {
            return None;
        }
        Some(Month {
            number: usize::from(year - FIRST_YEAR) * 12 + usize::from(month - 1),
        })
    }

    // The month after this one.
    pub(crate) fn next(self) -> Month
        requires { self.number + 1 < months }
        ensures { result.number ≡ self.number + 1 }
    {
        Month {
            number: self.number + 1,
        }
    }

    // The year in which the month lies.
    pub(crate) fn year(self) -> u16
        ensures { result ≡ year_of self.number }
    {
        FIRST_YEAR + (self.number / 12) as u16
    }

    // The month's number in its year, 1 to 12.
    pub(crate) fn in_year(self) -> u8
        ensures { result ≡ month_of_year self.number }
    {
        (self.number % 12) as u8 + 1
    }

    // How many days the month has: from its first day to that of the next month.
    pub(crate) fn length(self) -> u8
        ensures { result ≡ month_length self.number }
    {
        (first_day(self.number + 1) - first_day(self.number)) as u8
    }

    // The day on which a day of the month, 1 to its length, lies.
    pub(crate) fn day(self, number: u8) -> Day
        requires least { 1 ≤ number }
        requires most { number ≤ month_length self.number }
        ensures { result.0 ≡ first self.number + (number - 1) }
    {
        Day(first_day(self.number) + u32::from(number - 1))
    }

    // The day of the month, 1 to its length, on which a day lies.
    pub(crate) fn number_of(self, day: Day) -> u8
        requires begun { first self.number ≤ day.0 }
        requires during { day.0 < first self.number + month_length self.number }
        ensures { result ≡ day.0 - first self.number + 1 }
    {
        (day.0 - first_day(self.number)) as u8 + 1
    }
}
