// The written part of the steps, by the rule that it shows.
use crate::steps::Step;
use quantities::time::Day;

// Fills, carries and lapses, then set aside until the small book has no room, and what comes after its refusal.
pub const MONTHS: [Step; 24] = [
    Step::Fill(500),
    Step::Fill(1),
    Step::Draw(120),
    Step::Carry(Day(30)),
    Step::Fill(1_000_000),
    Step::Draw(400),
    Step::Carry(Day(60)),
    Step::Fill(1_000_001),
    Step::Fill(0),
    Step::Draw(0),
    Step::Lapse(Day(59)),
    Step::Lapse(Day(60)),
    Step::Draw(1),
    Step::Fill(700),
    Step::SetAside(Day(45), Day(90)),
    Step::Fill(300),
    Step::SetAside(Day(45), Day(45)),
    Step::Fill(200),
    Step::SetAside(Day(60), Day(50)),
    Step::Draw(1_100),
    Step::Lapse(Day(49)),
    Step::SetAside(Day(90), Day(90)),
    Step::Carry(Day(31)),
    Step::Clear,
];

// Caps that lower and join, a lot that ends on day 0, and set aside without a fresh amount.
pub const CAPS: [Step; 19] = [
    Step::Fill(50),
    Step::SetAside(Day(90), Day(20)),
    Step::Fill(60),
    Step::SetAside(Day(70), Day(10)),
    Step::Lapse(Day(9)),
    Step::Lapse(Day(10)),
    Step::SetAside(Day(5), Day(5)),
    Step::Fill(10),
    Step::Carry(Day(0)),
    Step::Lapse(Day(0)),
    Step::Fill(25),
    Step::Carry(Day(31)),
    Step::SetAside(Day(99), Day(7)),
    Step::Draw(5),
    Step::Fill(9),
    Step::SetAside(Day(7), Day(100)),
    Step::Lapse(Day(6)),
    Step::Draw(4_294_967_295),
    Step::Clear,
];

// On a full table: what joins is accepted, what needs one more lot is refused, and a draw goes over several lots.
pub const FULL: [Step; 9] = [
    Step::SetAside(Day(98), Day(400)),
    Step::SetAside(Day(110), Day(400)),
    Step::Fill(3),
    Step::SetAside(Day(98), Day(104)),
    Step::Draw(5),
    Step::Lapse(Day(102)),
    Step::Fill(4),
    Step::Draw(4),
    Step::Clear,
];

// On books that hold as many old units as a book may.
pub const HOARD: [Step; 8] = [
    Step::Fill(1),
    Step::SetAside(Day(70), Day(70)),
    Step::Draw(1),
    Step::SetAside(Day(70), Day(70)),
    Step::Draw(1_000_000),
    Step::Lapse(Day(69)),
    Step::Lapse(Day(70)),
    Step::Clear,
];
