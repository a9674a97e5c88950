// What one of a thing costs, and the only way from units to sums.
ghost use Rattle.std.specs.Prelude.{◌≡◌, ◌*◌};

use crate::money::Sums;
use crate::unit::Count;
use std::marker::PhantomData;

// The sums that one of a thing costs.
#[derive(Clone, Copy, PartialEq, Eq, Debug)]
pub struct Price<K> {
    pub sums: u32,
    pub of: PhantomData<K>,
}

impl<K> Price<K> {
    pub const fn new(sums: u32) -> Self
        ensures { result.sums ≡ sums }
    {
        Price {
            sums,
            of: PhantomData,
        }
    }

    // What so many cost: the one function that turns a count and a price into sums.
    pub fn cost(self, count: Count<K>) -> Sums
        ensures { result.0 ≡ count.number * self.sums }
    {
        Sums(u64::from(count.number) * u64::from(self.sums))
    }
}
