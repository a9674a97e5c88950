// Due days and days of the month for the days on which calls can be dated.
ghost use Rattle.std.specs.Prelude.{◌≡◌, ◌≤◌};
ghost use Rattle.rules.specs.State.{anchor_day};
ghost use Rattle.rules.specs.Calls.{new_due};
ghost use Rattle.rules.specs.Gregorian.{gregorian};

use calendar::anchor::{Anchor, due_day};
use calendar::days::day_of_month;
use quantities::time::{CallDay, Day};

// The due day after a fee on the day; the calendar reaches past every such due day.
pub(crate) fn next_due(day: CallDay, anchor: Option<Anchor>) -> Day
    requires { (1 ≤ anchor_day anchor) × (anchor_day anchor ≤ 31) }
    ensures { result.0 ≡ gregorian.due_after day.day.0 (anchor_day anchor) }
{
    let anchor = anchor.unwrap_or(Anchor(1));
    let Some(due) = due_day(day.day, anchor) else {
        unreachable()
    };
    due
}

// The day of the month, as an anchor.
pub(crate) fn anchor_on(day: CallDay) -> Anchor
    ensures value { result.0 ≡ gregorian.month_day day.day.0 }
    ensures least { 1 ≤ result.0 }
    ensures most { result.0 ≤ 31 }
{
    let Some(number) = day_of_month(day.day) else {
        unreachable()
    };
    Anchor(number)
}

// The due day after a fee on the day with the day's own day of the month as the anchor.
pub fn new_due(day: CallDay) -> Day
    ensures value { result.0 ≡ new_due gregorian day.day.0 }
{
    next_due(day, Some(anchor_on(day)))
}
