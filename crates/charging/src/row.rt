// Receipts, postings and accounts as rows of numbers.
ghost use Rattle.std.specs.Prelude.{◌≡◌};
ghost use Rattle.quantities.specs.Units.{of};
ghost use Rattle.receipt.specs.Columns.{tally_of, receipt_of};
ghost use Rattle.account.specs.Meaning.{account_of};
ghost use Rattle.charging.specs.Rows.{tally_row, receipt_row, status_row, state_row};

use crate::place::put;
use account::account::Account;
use book::meaning::Book;
use quantities::unit::UnitKind;
use receipt::receipt::Receipt;
use receipt::tally::Tally;
use rules::call::Status;

fn tally_row<K>(tally: Tally<K>) -> [u64; 7]
    ensures { result ≡ tally_row (tally_of tally) }
{
    [
        tally.granted.number,
        tally.within.number,
        tally.beyond.number,
        tally.ended.number,
        tally.late.number,
        tally.wiped_by_restart.number,
        tally.wiped_by_switch.number,
    ]
}

// Fees, use charges and switch charges, and seven columns for each unit, one after another: each tally has a type of its own.
pub(crate) fn receipt_row(receipt: Receipt) -> [u64; 24]
    ensures { result ≡ receipt_row (receipt_of receipt) }
{
    let mut row = [0; 24];
    put(
        &mut row,
        0,
        &[
            receipt.fees.0,
            receipt.use_charges.0,
            receipt.switch_charges.0,
        ],
    );
    put(&mut row, 3, &tally_row(receipt.minutes));
    put(&mut row, 10, &tally_row(receipt.megabytes));
    put(&mut row, 17, &tally_row(receipt.messages));
    row
}

// Numbers, since a host in C reads a row of them.
fn status_row(status: Status) -> [u64; 2]
    ensures { result ≡ status_row status }
{
    match status {
        Status::Blocked => [0, 0],
        Status::Active(due) => [1, u64::from(due.0)],
    }
}

// The balance, the status, and what is left of each unit, in the order of the row.
pub(crate) fn state_row<L, B: Book>(account: &Account<L, B>) -> [u64; 6]
    ensures { result ≡ state_row (account_of B.Book.means account.now).state }
{
    let [active, due] = status_row(account.status());
    [
        account.balance().0,
        active,
        due,
        u64::from(account.units_left(UnitKind::Minutes)),
        u64::from(account.units_left(UnitKind::Megabytes)),
        u64::from(account.units_left(UnitKind::Messages)),
    ]
}
