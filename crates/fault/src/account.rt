// Why an account refuses, with a number for each refusal.
ghost use Rattle.std.specs.Prelude.{◌≡◌};
ghost use Rattle.fault.specs.Faults.{number_of, layer_of};
ghost use Rattle.fault.specs.declared.account.Fault.TheVariants as account_fault;

use book::fault::BookFault;
use quantities::unit::UnitKind;

// The part of the engine that a refusal comes from.
#[derive(Clone, Copy, PartialEq, Eq, Debug)]
pub enum Layer {
    File,
    Account,
    Book,
}

// A book's refusal, with the unit that the book holds.
#[derive(Clone, Copy, PartialEq, Eq, Debug)]
pub struct UnitFault {
    pub unit: UnitKind,
    pub fault: BookFault,
}

#[derive(Clone, Copy, PartialEq, Eq, Debug)]
pub enum Fault {
    // past 31 December 2099, 23:59
    PastLastMoment,
    BeforeLatestMoment,
    AmountOutOfRange,
    NoTerms,
    NoEntry,
    Blocked,
    NotOffered,
    FeeTakenThatDay,
    MegabytesPastAllowance,
    BalanceTooLow,
    BalanceTooHigh,
    Book(UnitFault),
}

impl Fault {
    // The number by which it is told; code goes by the enum.
    pub fn number(self) -> u8
        ensures value { result ≡ number_of self }
    {
        match self {
            Fault::PastLastMoment => 1,
            Fault::BeforeLatestMoment => 2,
            Fault::AmountOutOfRange => 3,
            Fault::NoTerms => 4,
            Fault::NoEntry => 5,
            Fault::Blocked => 6,
            Fault::NotOffered => 7,
            Fault::FeeTakenThatDay => 8,
            Fault::MegabytesPastAllowance => 9,
            Fault::BalanceTooLow => 10,
            Fault::BalanceTooHigh => 11,
            Fault::Book(_) => 12,
        }
    }

    pub fn layer(self) -> Layer
        ensures value { result ≡ layer_of self }
    {
        match self {
            Fault::Book(_) => Layer::Book,
            _ => Layer::Account,
        }
    }
}

impl From<UnitFault> for Fault {
    ghost from_gives = { λ u f. f ≡ account_fault.Book u };

    fn from(fault: UnitFault) -> Fault {
        Fault::Book(fault)
    }
}
