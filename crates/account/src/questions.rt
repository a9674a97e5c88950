// Questions on an account as it stands: they bring nothing up and change nothing.
ghost use Rattle.std.specs.Prelude.{◌≡◌, pos, negsuc, ◌-ℤ◌, ◌≤ℤ◌};
ghost use Rattle.quantities.specs.Units.{of};
ghost use Rattle.book.specs.Allowance.{left as all_left};
ghost use Rattle.rules.specs.State.{awaited_fee};
ghost use Rattle.account.specs.Meaning.{account_of, due_day_of};

use crate::account::Account;
use book::meaning::Book;
use quantities::margin::Margin;
use quantities::money::Sums;
use quantities::time::Day;
use quantities::unit::UnitKind;
use rules::call::Status;

impl<L, B: Book> Account<L, B> {
    pub fn balance(&self) -> Sums
        ensures value { result.0 ≡ (account_of B.Book.means self.now).state.balance }
    {
        self.ledger.balance.sums
    }

    pub fn status(&self) -> Status
        ensures value { result ≡ (account_of B.Book.means self.now).state.status }
    {
        self.ledger.status
    }

    // The next day on which a fee falls due; none while blocked.
    pub fn due_day(&self) -> Option<Day>
        ensures value { result ≡ due_day_of (account_of B.Book.means self.now).state.status }
    {
        match self.ledger.status {
            Status::Blocked => None,
            Status::Active(due) => Some(due),
        }
    }

    // The balance less the fee.
    pub fn margin(&self) -> Margin
        ensures value { result.0 ≡ pos (account_of B.Book.means self.now).state.balance -ℤ pos (awaited_fee (account_of B.Book.means self.now).state) }
        ensures low { negsuc 9999999 ≤ℤ result.0 }
        ensures high { result.0 ≤ℤ pos 999999999 }
    {
        Margin::between(self.ledger.balance, self.ledger.terms.fee)
    }

    // What is left of a unit: the fresh amount and all old lots of its book.
    pub fn units_left(&self, unit: UnitKind) -> u32
        ensures value { result ≡ all_left (of unit (account_of B.Book.means self.now).state.books) }
    {
        self.ledger.books.get(unit).left()
    }
}
