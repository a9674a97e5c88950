// The lines of a file's records.
ghost use Rattle.std.specs.Prelude.{◌≡◌, map, IfOk, string_bytes};
ghost use Rattle.event_run.specs.Coded.{posting_of, file_outcome_of};
ghost use Rattle.statement_file.specs.Statement.{outcome_number, posting_text, postings_text};

use event_file::file_fault::FileFault;
use event_run::posted::Posted;
use statement_text::line::record_line;
use std::alloc::{AllocError, Global};

// A number, since the line of a record has one in its place, 0 where the call was accepted.
fn number_of(outcome: Result<(), FileFault>) -> u8
    ensures value { result ≡ outcome_number (file_outcome_of outcome) }
{
    outcome.err().map_or(0, FileFault::number)
}

fn posting_line(heap: Global, posted: Posted) -> Result<String, AllocError>
    ensures text { IfOk result (λ s. string_bytes s ≡ posting_text (posting_of posted)) }
{
    record_line(
        heap,
        posted.place.index,
        number_of(posted.outcome),
        posted.receipt,
        posted.balance,
    )
}

// The lines of all records, one after another.
pub(crate) fn posting_lines(heap: Global, list: &[Posted]) -> Result<String, AllocError>
    ensures text { IfOk result (λ s. string_bytes s ≡ postings_text (map posting_of list.now)) }
{
    let mut text = String::new(heap);
    for posted in list {
        let line = posting_line(heap, *posted)?;
        text.push_str(&line)?;
    }
    Ok(text)
}
