// What a plan grants and costs.
ghost use Rattle.std.specs.Prelude.{◌≤◌};
ghost use Rattle.quantities.specs.Limits.{most_grant, most_price, most_entry_price};

use quantities::money::{Fee, Sums};
use quantities::price::Price;
use quantities::unit::{Count, InternationalMessage, Megabyte, Message, Minute};

// The code by which a plan is known; 0 names none.
#[derive(Clone, Copy, PartialEq, Eq, Debug)]
pub struct PlanCode(pub u8);

// A plan's terms for one unit.
#[derive(Clone, Copy)]
pub struct UnitTerms<K> {
    // whether the service is to be had at all; a flag beside the amount and the price, since a fee fills the book and a
    // Restart wipes it whether it is or not
    pub offered: bool,
    // what each fee grants
    pub amount: Count<K>,
    // what one unit beyond the allowance costs
    pub beyond: Price<K>,
    // whether a Restart wipes what is left
    pub wiped_by_restart: bool,
}

// A plan's terms for messages abroad, which no allowance covers.
#[derive(Clone, Copy)]
pub struct InternationalTerms {
    // a flag beside the price, which a line tells, and the table of plans prints, whether it is offered or not
    pub offered: bool,
    pub price: Price<InternationalMessage>,
}

// The terms of a plan, within the limits of the subject. The limits stand here, unit by unit: in `UnitTerms` they would
// bind whoever makes one that never becomes part of a plan.
#[derive(Clone, Copy)]
pub struct Terms {
    pub fee: Fee,
    pub minutes: UnitTerms<Minute>,
    pub megabytes: UnitTerms<Megabyte>,
    pub messages: UnitTerms<Message>,
    pub international: InternationalTerms,
    // whether what is left at a paid due day is carried into the next month
    pub carries: bool,
    ghost few_minutes: { minutes.amount.number ≤ most_grant },
    ghost few_megabytes: { megabytes.amount.number ≤ most_grant },
    ghost few_messages: { messages.amount.number ≤ most_grant },
    ghost cheap_minutes: { minutes.beyond.sums ≤ most_price },
    ghost cheap_megabytes: { megabytes.beyond.sums ≤ most_price },
    ghost cheap_messages: { messages.beyond.sums ≤ most_price },
    ghost cheap_abroad: { international.price.sums ≤ most_price },
}

// What becomes of units left when a plan is entered from another.
#[derive(Clone, Copy, PartialEq, Eq, Debug)]
pub enum Fate {
    Kept,
    Wiped,
}

// What it takes to enter a plan from another.
#[derive(Clone, Copy)]
pub struct Entry {
    pub price: Sums,
    pub fate: Fate,
    ghost limit: { price.0 ≤ most_entry_price },
}
