// Handling one due day: a renewal or a block.
ghost use Rattle.std.specs.Prelude.{◌≡◌, ◌^◌};
ghost use Rattle.rules.specs.DueDays.{close_month, block as blocked_out, handle as handled};
ghost use Rattle.rules.specs.Gregorian.{gregorian};
ghost use Rattle.receipt.specs.Columns.{receipt_of, AllBelow};
ghost use Rattle.ledger.specs.Meaning.{FollowsRule};

use crate::books::{close_book, forfeit_book};
use crate::dates::next_due;
use crate::ledger::Ledger;
use book::meaning::Book;
use quantities::time::{CallDay, Day};
use receipt::receipt::Receipt;
use rules::call::Status;

impl<B: Book> Ledger<B> {
    // Unit by unit: each tally has a type of its own.
    pub(crate) fn close_month(&mut self, end: Day) -> Receipt
        ensures does { FollowsRule B.Book.means (close_month end.0) self.old self.new result }
        ensures small { AllBelow (2 ^ 34) (receipt_of result) }
    {
        let carries = self.terms.carries;
        let minutes = close_book(&mut self.books.minutes, carries, end);
        let megabytes = close_book(&mut self.books.megabytes, carries, end);
        let messages = close_book(&mut self.books.messages, carries, end);
        Receipt::of_units(minutes, megabytes, messages)
    }

    // Unit by unit, as above.
    pub(crate) fn block(&mut self) -> Receipt
        ensures does { FollowsRule B.Book.means blocked_out self.old self.new result }
        ensures small { AllBelow (2 ^ 34) (receipt_of result) }
    {
        let minutes = forfeit_book(&mut self.books.minutes);
        let megabytes = forfeit_book(&mut self.books.megabytes);
        let messages = forfeit_book(&mut self.books.messages);
        self.status = Status::Blocked;
        Receipt::of_units(minutes, megabytes, messages)
    }

    pub(crate) fn handle(&mut self, day: CallDay) -> Receipt
        ensures does { FollowsRule B.Book.means (handled gregorian day.day.0) self.old self.new result }
        ensures small { AllBelow (2 ^ 35) (receipt_of result) }
    {
        if self.balance.covers(self.terms.fee.sums) {
            let end = next_due(day, self.anchor);
            let closed = self.close_month(end);
            let fee = self.take_fee(day);
            closed.plus(fee)
        } else {
            self.block()
        }
    }
}
