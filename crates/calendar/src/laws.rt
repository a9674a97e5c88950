// The laws of days, dates, months and due days.
ghost use Rattle.calendar.specs.Agreement.{DaysHaveDates, DatesHaveDays};
ghost use Rattle.calendar.specs.Text.{DatesWritten};
ghost use Rattle.calendar.specs.Due.{DueLater, DueWithin, DueNextMonth, DueDated, MonthOfMonotone, MonthOfBefore, MonthDayLeast, MonthDayMost};

// Day to date and date to day agree on all days: a crate with this function has the proof.
pub fn dates_stand()
    ensures days { DaysHaveDates }
    ensures dates { DatesHaveDays }
    ensures written { DatesWritten }
{}

// The laws of due days, over all days and anchors: a crate with this function has the proofs.
pub fn due_laws_stand()
    ensures later { DueLater }
    ensures within { DueWithin }
    ensures month { DueNextMonth }
    ensures dated { DueDated }
    ensures monotone { MonthOfMonotone }
    ensures before { MonthOfBefore }
    ensures least { MonthDayLeast }
    ensures most { MonthDayMost }
{}
