// Old lots.
ghost use Rattle.std.specs.Prelude.{◌≡◌, ◌-◌, min, nat_le};

use quantities::time::Day;

// An old lot: units left of an earlier month, and the day on which they end.
#[derive(Clone, Copy, PartialEq, Eq, Default, Debug)]
pub struct Lot {
    pub amount: u32,
    pub end: Day,
}

impl Lot {
    // Takes the smaller of `n` and all that is left from the lot, and answers it.
    pub fn lower(&mut self, n: u32) -> u32
        ensures answer { result ≡ min n self.old.amount }
        ensures left { self.new ≡ record { amount = self.old.amount - n; end = self.old.end } }
    {
        let taken = n.min(self.amount);
        self.amount -= taken;
        taken
    }

    // Whether the lot ends at or before the day.
    pub fn ended_by(self, day: Day) -> bool
        ensures value { result ≡ nat_le self.end.0 day.0 }
    {
        self.end <= day
    }

    // The lot with its end lowered to the cap where it is past it.
    pub fn capped(self, cap: Day) -> Lot
        ensures value { result ≡ record { amount = self.amount; end = record { 0 = min cap.0 self.end.0 } } }
    {
        Lot {
            amount: self.amount,
            end: cap.min(self.end),
        }
    }
}
