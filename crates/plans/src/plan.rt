// How a plan's terms, and what entry takes, are put together from a row of numbers.
ghost use Rattle.std.specs.Prelude.{◌≡◌, ◌*◌, ◌≤◌};
ghost use Rattle.quantities.specs.Limits.{most_grant, most_price, most_entry_price};
ghost use Rattle.tariff.specs.Terms.{terms_of, unit_terms_of, entry_of};
ghost use Rattle.plans.specs.Plans.{offered_unit, missing_unit, full_plan, internet_plan};

use quantities::money::{Fee, Sums};
use quantities::price::Price;
use quantities::unit::Count;
use tariff::terms::{Entry, Fate, InternationalTerms, Terms, UnitTerms};

// The grant of minutes that counts as unlimited.
pub(crate) const UNLIMITED: u32 = 45_000;

// The sums that an international message costs.
const ABROAD: u32 = 1_000;

// A Restart wipes minutes and megabytes, and keeps messages.
const WIPED_BY_RESTART: bool = true;

const KEPT_BY_RESTART: bool = false;

// The sums that entry costs where it is free, and where it isn't.
pub(crate) const FREE: u64 = 0;

pub(crate) const CHARGE: u64 = 2_105;

// The fee of a plan by the number in its name. That number keeps to its range by a premise here and in the two below: a type
// for it would have to be made, with its proof, in each row of a table.
fn named(name: u32) -> Fee
    requires { (1 ≤ name) × (name ≤ 10_000) }
    ensures value { result.sums.0 ≡ name * 1_000 }
{
    Fee {
        sums: Sums(u64::from(name) * 1_000),
    }
}

// A service that is offered.
fn offered<K>(amount: u32, beyond: u32, wiped_by_restart: bool) -> UnitTerms<K>
    ensures value { unit_terms_of result ≡ offered_unit amount beyond wiped_by_restart }
{
    UnitTerms {
        offered: true,
        amount: Count::new(amount),
        beyond: Price::new(beyond),
        wiped_by_restart,
    }
}

// A service that isn't offered.
fn missing<K>(wiped_by_restart: bool) -> UnitTerms<K>
    ensures value { unit_terms_of result ≡ missing_unit wiped_by_restart }
{
    UnitTerms {
        offered: false,
        ..offered(0, 0, wiped_by_restart)
    }
}

// A plan of all services: the number in its name, what each fee grants, the price of each unit beyond, and whether it carries.
pub(crate) fn full_plan(
    name: u32,
    minutes: u32,
    megabytes: u32,
    messages: u32,
    beyond: u32,
    carries: bool,
) -> Terms
    requires named { (1 ≤ name) × (name ≤ 10_000) }
    requires granted { (minutes ≤ most_grant) × ((megabytes ≤ most_grant) × (messages ≤ most_grant)) }
    requires priced { beyond ≤ most_price }
    ensures value { terms_of result ≡ full_plan name minutes megabytes messages beyond carries }
{
    Terms {
        fee: named(name),
        minutes: offered(minutes, beyond, WIPED_BY_RESTART),
        megabytes: offered(megabytes, beyond, WIPED_BY_RESTART),
        messages: offered(messages, beyond, KEPT_BY_RESTART),
        international: InternationalTerms {
            offered: true,
            price: Price::new(ABROAD),
        },
        carries,
    }
}

// A plan of megabytes alone, with which what is left at a due day ends.
pub(crate) fn internet_plan(name: u32, megabytes: u32, beyond: u32) -> Terms
    requires named { (1 ≤ name) × (name ≤ 10_000) }
    requires granted { megabytes ≤ most_grant }
    requires priced { beyond ≤ most_price }
    ensures value { terms_of result ≡ internet_plan name megabytes beyond }
{
    Terms {
        fee: named(name),
        minutes: missing(WIPED_BY_RESTART),
        megabytes: offered(megabytes, beyond, WIPED_BY_RESTART),
        messages: missing(KEPT_BY_RESTART),
        international: InternationalTerms {
            offered: false,
            price: Price::new(0),
        },
        carries: false,
    }
}

// What it takes to enter a plan, with the price that it names.
pub(crate) fn entry(sums: u64, fate: Fate) -> Entry
    requires { sums ≤ most_entry_price }
    ensures value { entry_of result ≡ record { price = sums; fate = fate } }
{
    Entry {
        price: Sums(sums),
        fate,
    }
}
