// What a draw and a clear answer.

// What a draw took. A struct of its own, so that a draw can tell more of what it took without a change of its callers.
#[derive(Clone, Copy, PartialEq, Eq, Debug)]
pub struct Drawn {
    pub taken: u32,
}

// What a clear removed: the sum of the old lots, and the fresh amount.
#[derive(Clone, Copy, PartialEq, Eq, Debug)]
pub struct Cleared {
    pub old: u32,
    pub fresh: u32,
}
