// A whole life of an account: its end, and the total of its receipts.
ghost use Rattle.std.specs.Prelude.{◌≡◌, IfOk, Some};
ghost use Rattle.receipt.specs.Columns.{receipt_of};
ghost use Rattle.account.specs.Meaning.{account_of, world};
ghost use Rattle.event_run.specs.Postings.{refused_file, file_postings, file_closing};
ghost use Rattle.event_run.specs.Coded.{file_outcome_of};
ghost use Rattle.event_run.specs.FileLaw.{total, LawOfFile};

use crate::totals::Totals;
use account::account::Account;
use account::provision::Provision;
use book::meaning::Book;
use event_file::file_fault::FileFault;
use event_run::journal_run::post_file;
use receipt::receipt::Receipt;
use tariff::line::Line;

// The account at the end, and all receipts added up.
#[derive(Drop)]
pub struct Life<L, B> {
    pub account: Account<L, B>,
    pub total: Receipt,
}

// The life that an event file tells, on the line and with the books. The clauses are those of `post_file`, said of a life: one
// record over both would take the shape of the answer as a parameter.
pub fn life_of_file<L: Line + Drop, B: Book + Drop>(
    file: &[u8],
    provision: Provision<L, B>,
) -> Result<Life<L, B>, FileFault>
    ensures refused { file_outcome_of result ≡ refused_file (world (L.Line.tariff provision.line) B.Book.CAPACITY) file.now }
    ensures account { IfOk result (λ x. Some (account_of B.Book.means x.account) ≡ file_closing (world (L.Line.tariff provision.line) B.Book.CAPACITY) file.now) }
    ensures total { IfOk result (λ x. receipt_of x.total ≡ total (file_postings (world (L.Line.tariff provision.line) B.Book.CAPACITY) file.now)) }
    ensures line { IfOk result (λ x. x.account.line ≡ provision.line) }
    ensures law { IfOk result (λ x. LawOfFile (world (L.Line.tariff provision.line) B.Book.CAPACITY) file.now (file_postings (world (L.Line.tariff provision.line) B.Book.CAPACITY) file.now) (account_of B.Book.means x.account)) }
{
    let mut totals = Totals::nothing();
    let account = post_file(file, provision, &mut totals)?;
    Ok(Life {
        account,
        total: totals.receipt,
    })
}
