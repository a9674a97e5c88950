// The anchor of an account, and the due day that it gives.
ghost use Rattle.std.specs.Prelude.{◌≡◌, if◌then◌else◌, Some, None};
ghost use Rattle.calendar.specs.Due.{due_after, has_due_day};

use crate::month::Month;
use quantities::time::Day;

// The last day whose next month the calendar has, 30 November 2100.
const LAST_FEE_DAY: Day = Day(36_858);

// The longest months have this many days.
const LAST_ANCHOR: u8 = 31;

// The day of the month, 1 to 31, on which fees fall due. In a month with fewer days the fee falls due on its last day;
// the anchor stays, so that the month after has it again.
#[derive(Clone, Copy, PartialEq, Eq, Debug)]
pub struct Anchor(pub u8);

// The due day after a fee on a day: in the next month, on the anchor or on that month's last day, whichever comes first.
// None for a day without a next month in the calendar, and for an anchor that is the day of no month.
pub fn due_day(day: Day, anchor: Anchor) -> Option<Day>
    ensures value { result ≡ (if has_due_day day.0 anchor.0 then Some (record { 0 = due_after day.0 anchor.0 }) else None) }
{
    if day > LAST_FEE_DAY || !(1..=LAST_ANCHOR).contains(&anchor.0) {
        return None;
    }
    let next = Month::of_day(day).next();
    Some(next.day(anchor.0.min(next.length())))
}
