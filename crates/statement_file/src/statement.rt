// The statement of a whole file.
ghost use Rattle.std.specs.Prelude.{◌≡◌, IfOk, IfErr, Some, string_bytes};
ghost use Rattle.account.specs.Meaning.{world};
ghost use Rattle.event_run.specs.FileLaw.{ObeysLaw};
ghost use Rattle.statement_file.specs.Statement.{text_of_statement};
ghost use Rattle.statement_file.specs.Untold.{Untold};
ghost use Rattle.statement_file.specs.Reason.{reason_text};
ghost use Rattle.statement_file.specs.declared.statement.NoStatement.TheVariants as no_statement;

use crate::lines::posting_lines;
use account::provision::Provision;
use book::meaning::Book;
use event_run::run::run_file;
use event_run::stopped::Stopped;
use statement_text::line::{last_line, refused_line};
use std::alloc::{AllocError, Global};
use std::error::Error;
use std::fmt;
use tariff::line::Line;

// Why there is no statement to hand out.
#[derive(Clone, Copy, Debug)]
pub enum NoStatement {
    // the due day has no date; no account is due on such a day
    PastCalendar,
    NoMemory,
}

impl fmt::Display for NoStatement {
    ghost output = { λ n. Some (reason_text n) };

    fn fmt<W: fmt::Write>(&self, f: &mut fmt::Formatter<W>) -> fmt::Result {
        match self {
            NoStatement::PastCalendar => write!(f, "the due day is past the calendar"),
            NoStatement::NoMemory => write!(f, "no memory"),
        }
    }
}

impl Error for NoStatement {}

impl From<AllocError> for NoStatement {
    ghost from_gives = { λ _ n. n ≡ no_statement.NoMemory };

    fn from(_error: AllocError) -> NoStatement {
        NoStatement::NoMemory
    }
}

// Apart from `statement`, so that the law is owed at one place, and not at each way out.
fn written<L: Line + Drop, B: Book + Drop>(
    heap: Global,
    file: &[u8],
    provision: Provision<L, B>,
) -> Result<String, NoStatement>
    ensures text { IfOk result (λ s. text_of_statement (world (L.Line.tariff provision.line) B.Book.CAPACITY) file.now ≡ Some (string_bytes s)) }
    ensures untold { IfErr result (Untold (world (L.Line.tariff provision.line) B.Book.CAPACITY) file.now) }
{
    match run_file(heap, file, provision) {
        Ok(run) => {
            let mut text = posting_lines(heap, &run.posted)?;
            let last = last_line(heap, run.account.status())?.ok_or(NoStatement::PastCalendar)?;
            text.push_str(&last)?;
            Ok(text)
        }
        Err(Stopped::Refused(fault)) => Ok(refused_line(heap, fault.number())?),
        Err(Stopped::NoMemory) => Err(NoStatement::NoMemory),
    }
}

// The statement of a file that is run on the line, with the books. What it tells of obeys the law over a whole life.
pub fn statement<L: Line + Drop, B: Book + Drop>(
    heap: Global,
    file: &[u8],
    provision: Provision<L, B>,
) -> Result<String, NoStatement>
    ensures text { IfOk result (λ s. text_of_statement (world (L.Line.tariff provision.line) B.Book.CAPACITY) file.now ≡ Some (string_bytes s)) }
    ensures untold { IfErr result (Untold (world (L.Line.tariff provision.line) B.Book.CAPACITY) file.now) }
    ensures law { ObeysLaw (world (L.Line.tariff provision.line) B.Book.CAPACITY) file.now }
{
    written(heap, file, provision)
}
