// A date as text of ten letters.
ghost use Rattle.std.specs.Prelude.{Some};
ghost use Rattle.calendar.specs.Text.{date_text};

use calendar::date::Date;
use std::fmt;

// A date, shown as YYYY-MM-DD: four digits of the year and two of the month and the day, the last ones where there are more,
// which no date of the calendar has.
#[derive(Clone, Copy)]
pub struct WrittenDate {
    pub date: Date,
}

impl fmt::Display for WrittenDate {
    ghost output = { λ x. Some (date_text x.date) };

    fn fmt<W: fmt::Write>(&self, f: &mut fmt::Formatter<W>) -> fmt::Result {
        let shown = Date {
            year: self.date.year % 10_000,
            month: self.date.month % 100,
            day: self.date.day % 100,
        };
        write!(f, "{shown}")
    }
}
