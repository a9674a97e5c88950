// What became of a record, as a row of numbers.
ghost use Rattle.std.specs.Prelude.{◌≡◌, ◌+◌, ◌≤◌, length};
ghost use Rattle.event_run.specs.Coded.{posting_of, file_outcome_of};
ghost use Rattle.charging.specs.Rows.{overlaid, unit_number, reason_number, outcome_row, posting_row};
ghost use Rattle.charging.specs.Answers.{posting_columns};
ghost use Rattle.charging.specs.Posting.{Takes};

use crate::place::put;
use crate::row::receipt_row;
use crate::rows::Rows;
use book::fault::BookFault;
use event_file::file_fault::FileFault;
use event_run::journal::Journal;
use event_run::posted::Posted;
use fault::account::Fault;
use quantities::unit::UnitKind;

// How many numbers a row of a posting has.
pub(crate) const POSTING_COLUMNS: usize = 30;

// A number, since a host in C reads it in a row of numbers.
fn unit_number(unit: UnitKind) -> u64
    ensures { result ≡ unit_number unit }
{
    match unit {
        UnitKind::Minutes => 1,
        UnitKind::Megabytes => 2,
        UnitKind::Messages => 3,
    }
}

// A number, since a host in C reads it in a row of numbers.
fn reason_number(fault: BookFault) -> u64
    ensures { result ≡ reason_number fault }
{
    match fault {
        BookFault::NotEmpty => 1,
        BookFault::TooLarge => 2,
        BookFault::TooManyLots => 3,
        BookFault::TooManyUnits => 4,
    }
}

// Numbers, since a host in C reads a row of them.
fn outcome_row(outcome: Result<(), FileFault>) -> [u64; 3]
    ensures { result ≡ outcome_row (file_outcome_of outcome) }
{
    let Err(fault) = outcome else {
        return [0, 0, 0];
    };
    let (unit, reason) = match fault {
        FileFault::Account(Fault::Book(refused), _) => {
            (unit_number(refused.unit), reason_number(refused.fault))
        }
        _ => (0, 0),
    };
    [u64::from(fault.number()), unit, reason]
}

fn put_posting(out: &mut [u64], at: usize, posted: Posted)
    requires { at + posting_columns ≤ length out.old }
    ensures { out.new ≡ overlaid at (posting_row (posting_of posted)) out.old }
{
    let place = posted.place;
    put(out, at, &[place.index as u64, place.offset as u64]);
    put(out, at + 2, &outcome_row(posted.outcome));
    put(out, at + 5, &receipt_row(posted.receipt));
    put(out, at + 29, &[posted.balance.0]);
}

impl<'a> Journal for Rows<'a> {
    ghost takes = { Takes };

    fn post(&mut self, posted: Posted) {
        if self.rows.len().saturating_sub(self.used) >= POSTING_COLUMNS {
            put_posting(self.rows, self.used, posted);
            self.used += POSTING_COLUMNS;
        }
    }
}
