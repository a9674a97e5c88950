// An operation on a book as a value, what a book answers to it, and what it holds when asked.
use book::answers::Cleared;
use book::fault::BookFault;
use quantities::time::Day;

// A value and no closure, since it is printed, and taken on books of two types.
#[derive(Clone, Copy)]
pub enum Step {
    Fill(u32),
    Draw(u32),
    Lapse(Day),
    Carry(Day),
    Clear,
    // the end and the cap
    SetAside(Day, Day),
}

// What a book tells of a step that it accepts.
#[derive(Clone, Copy, PartialEq, Eq)]
pub enum Told {
    Accepted,
    Units(u32),
    Emptied(Cleared),
}

pub type Answer = Result<Told, BookFault>;

// What a book holds as its questions tell it: the fresh amount, and the old units after a lapse on each of three days.
#[derive(Clone, Copy, PartialEq, Eq)]
pub struct Look {
    pub fresh: u32,
    pub old: u32,
    pub old_later: u32,
    pub old_last: u32,
}

// What a book answered to a step, and after it: what it holds, and what set aside would answer after a lapse.
#[derive(Clone, Copy)]
pub struct Side {
    pub answer: Answer,
    pub look: Look,
    pub aside: Answer,
}
