// A date: year, month and day of the month.
ghost use Rattle.std.specs.Prelude.{Some};
ghost use Rattle.calendar.specs.Text.{any_date_text};

use std::fmt;

// Any three numbers make a `Date`; `Day::try_from` says whether the calendar has it.
#[derive(Clone, Copy, PartialEq, Eq, Debug)]
pub struct Date {
    pub year: u16,
    pub month: u8,
    pub day: u8,
}

// A date is shown as YYYY-MM-DD.
impl fmt::Display for Date {
    ghost output = { λ date. Some (any_date_text date) };

    fn fmt<W: fmt::Write>(&self, f: &mut fmt::Formatter<W>) -> fmt::Result {
        write!(f, "{:04}-{:02}-{:02}", self.year, self.month, self.day)
    }
}
