// What a call took and did.
ghost use Rattle.std.specs.Prelude.{◌≡◌, ◌^◌};
ghost use Rattle.rules.specs.Receipt.{nothing as nothing_told, units_only, ◌⊕◌};
ghost use Rattle.receipt.specs.Columns.{tally_of, receipt_of, capped, AllBelow};

use crate::tally::Tally;
use quantities::money::Sums;
use quantities::unit::{Megabyte, Message, Minute};

// Money in sums, and a tally for each unit. How large a column may be is said by each function that makes a receipt, and not
// by the type: the total of a life passes what one call can tell.
#[derive(Clone, Copy)]
pub struct Receipt {
    pub fees: Sums,
    pub use_charges: Sums,
    pub switch_charges: Sums,
    pub minutes: Tally<Minute>,
    pub megabytes: Tally<Megabyte>,
    pub messages: Tally<Message>,
}

impl Receipt {
    // All zeros.
    pub fn nothing() -> Receipt
        ensures { receipt_of result ≡ nothing_told }
    {
        Receipt {
            fees: Sums(0),
            use_charges: Sums(0),
            switch_charges: Sums(0),
            minutes: Tally::none(),
            megabytes: Tally::none(),
            messages: Tally::none(),
        }
    }

    // Of units alone.
    pub fn of_units(
        minutes: Tally<Minute>,
        megabytes: Tally<Megabyte>,
        messages: Tally<Message>,
    ) -> Receipt
        ensures { receipt_of result ≡ units_only (record { minutes = tally_of minutes; megabytes = tally_of megabytes; messages = tally_of messages }) }
    {
        Receipt {
            minutes,
            megabytes,
            messages,
            ..Receipt::nothing()
        }
    }

    // Column by column; exact wherever the sums fit, as those of an account always do.
    pub fn plus(self, other: Receipt) -> Receipt
        ensures value { receipt_of result ≡ capped (receipt_of self ⊕ receipt_of other) }
        ensures exact { AllBelow (2 ^ 63) (receipt_of self) → AllBelow (2 ^ 63) (receipt_of other) → receipt_of result ≡ receipt_of self ⊕ receipt_of other }
    {
        Receipt {
            fees: self.fees.plus(other.fees),
            use_charges: self.use_charges.plus(other.use_charges),
            switch_charges: self.switch_charges.plus(other.switch_charges),
            minutes: self.minutes.plus(other.minutes),
            megabytes: self.megabytes.plus(other.megabytes),
            messages: self.messages.plus(other.messages),
        }
    }
}
