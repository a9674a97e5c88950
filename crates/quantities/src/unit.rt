// The three units that allowances are counted in.
ghost use Rattle.std.specs.Prelude.{◌≡◌, ◌+◌, ◌-◌, ◌^◌, min};
ghost use Rattle.std.specs.Fn.{FnReturnsAt};
ghost use Rattle.quantities.specs.Units.{of};

use std::fmt;
use std::marker::PhantomData;

// One of the three units.
#[derive(Clone, Copy, PartialEq, Eq, Debug)]
pub enum UnitKind {
    Minutes,
    Megabytes,
    Messages,
}

// A thing for each unit.
#[derive(Clone, Copy, Default, Drop)]
pub struct PerUnit<T> {
    pub minutes: T,
    pub megabytes: T,
    pub messages: T,
}

impl<T> PerUnit<T> {
    // The thing for one unit.
    pub fn get(&self, unit: UnitKind) -> &T
        ensures { result.now ≡ of unit self.now }
    {
        match unit {
            UnitKind::Minutes => &self.minutes,
            UnitKind::Megabytes => &self.megabytes,
            UnitKind::Messages => &self.messages,
        }
    }

    // For each unit what `f` makes of its thing.
    pub fn map<U, F: Fn(&T) -> U>(&self, f: F) -> PerUnit<U>
        requires { F.IsAlwaysCallable f }
        ensures minutes { FnReturnsAt F.Fn f self.now.minutes result.minutes }
        ensures megabytes { FnReturnsAt F.Fn f self.now.megabytes result.megabytes }
        ensures messages { FnReturnsAt F.Fn f self.now.messages result.messages }
    {
        PerUnit {
            minutes: f(&self.minutes),
            megabytes: f(&self.megabytes),
            messages: f(&self.messages),
        }
    }
}

// What a count is of: a type each, so that counts of different things never meet.
#[derive(Clone, Copy, PartialEq, Eq, Debug)]
pub struct Minute;

#[derive(Clone, Copy, PartialEq, Eq, Debug)]
pub struct Megabyte;

#[derive(Clone, Copy, PartialEq, Eq, Debug)]
pub struct Message;

#[derive(Clone, Copy, PartialEq, Eq, Debug)]
pub struct InternationalMessage;

// So many of one thing, in numbers of the type `N`.
#[derive(Clone, Copy, PartialEq, Eq, Debug)]
pub struct Amount<N, K> {
    pub number: N,
    pub of: PhantomData<K>,
}

// What one call can speak of.
pub type Count<K> = Amount<u32, K>;

// A sum of many counts.
pub type Total<K> = Amount<u64, K>;

pub type Minutes = Count<Minute>;

pub type Megabytes = Count<Megabyte>;

pub type Messages = Count<Message>;

pub type InternationalMessages = Count<InternationalMessage>;

impl<N, K> Amount<N, K> {
    pub const fn new(number: N) -> Self
        ensures { result.number ≡ number }
    {
        Amount {
            number,
            of: PhantomData,
        }
    }
}

impl<K> Total<K> {
    // The sum of two totals, or the largest number that a total can be, whichever is less.
    pub fn plus(self, other: Total<K>) -> Self
        ensures { result.number ≡ min (self.number + other.number) (2 ^ 64 - 1) }
    {
        Total::new(self.number.saturating_add(other.number))
    }
}

// The number alone, without the name of what is counted.
impl<N: fmt::Display, K> fmt::Display for Amount<N, K> {
    ghost output = { λ a. N.output a.number };

    fn fmt<W: fmt::Write>(&self, f: &mut fmt::Formatter<W>) -> fmt::Result {
        write!(f, "{}", self.number)
    }
}
