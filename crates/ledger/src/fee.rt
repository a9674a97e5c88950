// Taking the fee.
ghost use Rattle.std.specs.Prelude.{◌≡◌, ◌^◌};
ghost use Rattle.rules.specs.DueDays.{take_fee, start_on};
ghost use Rattle.rules.specs.Gregorian.{gregorian};
ghost use Rattle.receipt.specs.Columns.{receipt_of, AllBelow};
ghost use Rattle.ledger.specs.Meaning.{FollowsRule};

use crate::books::fill_book;
use crate::dates::{anchor_on, next_due};
use crate::ledger::Ledger;
use book::meaning::Book;
use quantities::time::CallDay;
use receipt::receipt::Receipt;
use rules::call::Status;

impl<B: Book> Ledger<B> {
    // The balance falls by the fee, the status is active until the next due day, the option goes off, the books are filled,
    // unit by unit: each tally has a type of its own.
    pub fn take_fee(&mut self, day: CallDay) -> Receipt
        ensures does { FollowsRule B.Book.means (take_fee gregorian day.day.0) self.old self.new result }
        ensures small { AllBelow (2 ^ 34) (receipt_of result) }
    {
        let terms = self.terms;
        self.balance = self.balance.less(terms.fee.sums);
        self.status = Status::Active(next_due(day, self.anchor));
        self.last_fee = Some(day.day);
        self.option = false;
        let minutes = fill_book(&mut self.books.minutes, terms.minutes.amount);
        let megabytes = fill_book(&mut self.books.megabytes, terms.megabytes.amount);
        let messages = fill_book(&mut self.books.messages, terms.messages.amount);
        Receipt {
            fees: terms.fee.sums,
            ..Receipt::of_units(minutes, megabytes, messages)
        }
    }

    // The day of the month becomes the anchor, and the fee is taken on the day.
    pub fn start_on(&mut self, day: CallDay) -> Receipt
        ensures does { FollowsRule B.Book.means (start_on gregorian day.day.0) self.old self.new result }
        ensures small { AllBelow (2 ^ 34) (receipt_of result) }
    {
        self.anchor = Some(anchor_on(day));
        self.take_fee(day)
    }
}
