// Which units a Restart or a switch wipes.
ghost use Rattle.std.specs.Prelude.{◌≡◌};
ghost use Rattle.tariff.specs.Terms.{terms_of, entry_of, restart_wipes_unit};
ghost use Rattle.rules.specs.Calls.{switch_wipes_unit};
ghost use Rattle.account.specs.Leaving.{by_unit};

use quantities::unit::PerUnit;
use tariff::terms::{Entry, Fate, Terms};

// Unit by unit: the terms of each have a type of their own.
pub(crate) fn wiped_by_restart(terms: Terms) -> PerUnit<bool>
    ensures { result ≡ by_unit (λ k. restart_wipes_unit k (terms_of terms)) }
{
    PerUnit {
        minutes: terms.minutes.wiped_by_restart,
        megabytes: terms.megabytes.wiped_by_restart,
        messages: terms.messages.wiped_by_restart,
    }
}

// By an entry, of a plan with these terms that is left.
pub(crate) fn wiped_by_switch(entry: Entry, terms: Terms) -> PerUnit<bool>
    ensures { result ≡ by_unit (switch_wipes_unit (entry_of entry) (terms_of terms)) }
{
    // three times, since a walk over the units would be longer
    let wiped = matches!(entry.fate, Fate::Wiped);
    PerUnit {
        minutes: wiped,
        megabytes: wiped,
        messages: wiped,
    }
}
