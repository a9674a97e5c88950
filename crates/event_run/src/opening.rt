// The account and the records that a file names.
ghost use Rattle.std.specs.Prelude.{◌≡◌, IfOk, Some};
ghost use Rattle.account.specs.Meaning.{account_of, world};
ghost use Rattle.event_file.specs.Parts.{parts};
ghost use Rattle.event_file.specs.Reader.{coming};
ghost use Rattle.event_run.specs.Postings.{refused_file, opened_by};
ghost use Rattle.event_run.specs.Coded.{file_outcome_of};

use account::account::Account;
use account::provision::Provision;
use book::meaning::Book;
use event_file::file_fault::{FileFault, Place};
use event_file::records::Records;
use event_file::trailer::Trailer;
use tariff::line::Line;

// Opens the account that a file names, and the reader of its records. A refused opening lets the line and the books go. File
// and provision are two parameters: one is lent, and the other used up.
pub(crate) fn open_file<L: Line + Drop, B: Book + Drop>(
    file: &[u8],
    provision: Provision<L, B>,
) -> Result<(Account<L, B>, Records<'_>), FileFault>
    ensures refused { file_outcome_of result ≡ refused_file (world (L.Line.tariff provision.line) B.Book.CAPACITY) file.now }
    ensures account { IfOk result (λ x. Some (account_of B.Book.means x.0) ≡ opened_by (world (L.Line.tariff provision.line) B.Book.CAPACITY) file.now) }
    ensures line { IfOk result (λ x. x.0.line ≡ provision.line) }
    ensures records { IfOk result (λ x. coming x.1 ≡ parts file.now) }
{
    let trailer = Trailer::of(file)?;
    let account = Account::open(provision, trailer.plan, trailer.moment).map_err(
        |refused| FileFault::Account(refused.fault, Place::NO_RECORD),
    )?;
    Ok((account, Records::over(file, trailer)))
}
