// The functions that a host in C calls. `lots` picks the kind of books: 31 or 1, the old lots that each has room for.
ghost use Rattle.std.specs.Prelude.{◌≡◌, length, if◌then◌else◌, nat_eq};
ghost use Rattle.event_run.specs.Postings.{file_postings, file_closing};
ghost use Rattle.event_run.specs.FileLaw.{total, ObeysLaw};
ghost use Rattle.carrier.specs.World.{three_lines};
ghost use Rattle.charging.specs.Rows.{overlaid, posting_rows};
ghost use Rattle.charging.specs.Answers.{with_books, totals_answer, life_row, postings_answer};

use crate::choice::{postings, totals};

// Runs an event file, and puts one row of 30 numbers at the front of `out`: the columns of all receipts added up, and
// how the account stands at the end.
#[unsafe(no_mangle)]
pub extern "C" fn charging_totals(file: &[u8], lots: u32, out: &mut [u64]) -> u32
    ensures answer { result ≡ with_books lots (totals_answer (three_lines lots) file.now (length out.old)) }
    ensures out { out.new ≡ (if nat_eq result 0 then overlaid 0 (life_row (total (file_postings (three_lines lots) file.now)) (file_closing (three_lines lots) file.now)) out.old else out.old) }
    ensures law { ObeysLaw (three_lines lots) file.now }
{
    totals(file, lots, out)
}

// Runs an event file, and puts a row of 30 numbers for each record at the front of `out`: its place, its outcome, its
// receipt and the balance after it.
#[unsafe(no_mangle)]
pub extern "C" fn charging_postings(file: &[u8], lots: u32, out: &mut [u64]) -> u32
    ensures answer { result ≡ with_books lots (postings_answer (three_lines lots) file.now (length out.old)) }
    ensures out { out.new ≡ (if nat_eq result 0 then overlaid 0 (posting_rows (file_postings (three_lines lots) file.now)) out.old else out.old) }
    ensures law { ObeysLaw (three_lines lots) file.now }
{
    postings(file, lots, out)
}
