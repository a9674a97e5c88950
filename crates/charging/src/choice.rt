// The kind of books is picked by the old lots that each has room for: 31 or 1, a number since a host in C picks it. The
// choice is written out for each question: a closure that is passed in takes books of one type, and the choice is the type.
// Apart from the exports, so that the law is owed at one place.
ghost use Rattle.std.specs.Prelude.{◌≡◌, length, if◌then◌else◌, nat_eq};
ghost use Rattle.event_run.specs.Postings.{file_postings, file_closing};
ghost use Rattle.event_run.specs.FileLaw.{total};
ghost use Rattle.carrier.specs.World.{three_lines};
ghost use Rattle.charging.specs.Rows.{overlaid, posting_rows};
ghost use Rattle.charging.specs.Answers.{with_books, totals_answer, life_row, postings_answer};

use crate::answer::answer;
use crate::host_fault::HostFault;
use crate::life::write_totals;
use crate::postings::write_postings;
use carrier::books::{small_books, table_books};

pub(crate) fn totals(file: &[u8], lots: u32, out: &mut [u64]) -> u32
    ensures answer { result ≡ with_books lots (totals_answer (three_lines lots) file.now (length out.old)) }
    ensures out { out.new ≡ (if nat_eq result 0 then overlaid 0 (life_row (total (file_postings (three_lines lots) file.now)) (file_closing (three_lines lots) file.now)) out.old else out.old) }
{
    match lots {
        31 => answer(write_totals(file, table_books(), out)),
        1 => answer(write_totals(file, small_books(), out)),
        _ => HostFault::NoSuchBooks.number(),
    }
}

pub(crate) fn postings(file: &[u8], lots: u32, out: &mut [u64]) -> u32
    ensures answer { result ≡ with_books lots (postings_answer (three_lines lots) file.now (length out.old)) }
    ensures out { out.new ≡ (if nat_eq result 0 then overlaid 0 (posting_rows (file_postings (three_lines lots) file.now)) out.old else out.old) }
{
    match lots {
        31 => answer(write_postings(file, table_books(), out)),
        1 => answer(write_postings(file, small_books(), out)),
        _ => HostFault::NoSuchBooks.number(),
    }
}
