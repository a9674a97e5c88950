// Totals for a host.
ghost use Rattle.std.specs.Prelude.{◌≡◌, ◌≤◌, ◌++◌, length, is_ok, if◌then◌else◌};
ghost use Rattle.receipt.specs.Columns.{receipt_of};
ghost use Rattle.account.specs.Meaning.{account_of};
ghost use Rattle.event_run.specs.Postings.{file_postings, file_closing};
ghost use Rattle.event_run.specs.FileLaw.{total};
ghost use Rattle.carrier.specs.World.{three_lines};
ghost use Rattle.charging.specs.Rows.{overlaid, receipt_row, state_row};
ghost use Rattle.charging.specs.Answers.{answer_of, life_columns, totals_answer, life_row};

use crate::host_fault::HostFault;
use crate::place::put;
use crate::row::{receipt_row, state_row};
use account::provision::Provision;
use book::meaning::Book;
use plans::three_lines::{ThreeLines, three_lines};
use quantities::unit::PerUnit;
use totals::life::{Life, life_of_file};

// How many numbers a row of totals has.
const LIFE_COLUMNS: usize = 30;

// The columns of all receipts added up, and then how the account stands.
fn put_life<B: Book>(life: &Life<ThreeLines, B>, out: &mut [u64])
    requires { life_columns ≤ length out.old }
    ensures { out.new ≡ overlaid 0 (receipt_row (receipt_of life.now.total) ++ state_row (account_of B.Book.means life.now.account).state) out.old }
{
    put(out, 0, &receipt_row(life.total));
    put(out, 24, &state_row(&life.account));
}

pub(crate) fn write_totals<B: Book + Drop>(
    file: &[u8],
    books: PerUnit<B>,
    out: &mut [u64],
) -> Result<(), HostFault>
    ensures answer { answer_of result ≡ totals_answer (three_lines B.Book.CAPACITY) file.now (length out.old) }
    ensures out { out.new ≡ (if is_ok result then overlaid 0 (life_row (total (file_postings (three_lines B.Book.CAPACITY) file.now)) (file_closing (three_lines B.Book.CAPACITY) file.now)) out.old else out.old) }
{
    if out.len() < LIFE_COLUMNS {
        return Err(HostFault::TooShort);
    }
    let provision = Provision {
        line: three_lines(),
        books,
    };
    let life = life_of_file(file, provision)?;
    put_life(&life, out);
    Ok(())
}
