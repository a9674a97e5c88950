// Postings for a host.
ghost use Rattle.std.specs.Prelude.{◌≡◌, ◌*◌, ◌≤◌, true, length, is_ok, if◌then◌else◌};
ghost use Rattle.event_file.specs.Layout.{count, file_right};
ghost use Rattle.event_run.specs.Postings.{refused_file, file_postings};
ghost use Rattle.carrier.specs.World.{three_lines};
ghost use Rattle.charging.specs.Rows.{overlaid, posting_rows};
ghost use Rattle.charging.specs.Answers.{answer_of, file_number, posting_columns, postings_answer};

use crate::host_fault::HostFault;
use crate::posting::POSTING_COLUMNS;
use crate::rows::Rows;
use account::provision::Provision;
use book::meaning::Book;
use event_file::trailer::Trailer;
use event_run::journal_run::post_file;
use plans::three_lines::three_lines;
use quantities::unit::PerUnit;

// Runs the file, and puts a row for each posting at the front of the rows, which have room for them.
fn run_onto<B: Book + Drop>(
    file: &[u8],
    books: PerUnit<B>,
    rows: &mut Rows<'_>,
) -> Result<(), HostFault>
    requires empty { rows.old.used ≡ 0 }
    requires room { file_right file.now ≡ true → posting_columns * count file.now ≤ length rows.old.rows.now }
    ensures answer { answer_of result ≡ file_number (refused_file (three_lines B.Book.CAPACITY) file.now) }
    ensures lent { rows.new.rows.ghost_name ≡ rows.old.rows.ghost_name }
    ensures long { length rows.new.rows.now ≡ length rows.old.rows.now }
    ensures rows { rows.new.rows.now ≡ (if is_ok result then overlaid 0 (posting_rows (file_postings (three_lines B.Book.CAPACITY) file.now)) rows.old.rows.now else rows.old.rows.now) }
{
    let provision = Provision {
        line: three_lines(),
        books,
    };
    let _ = post_file(file, provision, rows)?;
    Ok(())
}

pub(crate) fn write_postings<B: Book + Drop>(
    file: &[u8],
    books: PerUnit<B>,
    out: &mut [u64],
) -> Result<(), HostFault>
    ensures answer { answer_of result ≡ postings_answer (three_lines B.Book.CAPACITY) file.now (length out.old) }
    ensures out { out.new ≡ (if is_ok result then overlaid 0 (posting_rows (file_postings (three_lines B.Book.CAPACITY) file.now)) out.old else out.old) }
{
    let trailer = Trailer::of(file)?;
    if out.len() < POSTING_COLUMNS * trailer.records() as usize {
        return Err(HostFault::TooShort);
    }
    let mut rows = Rows { rows: out, used: 0 };
    run_onto(file, books, &mut rows)
}
