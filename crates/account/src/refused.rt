// A refused opening.
use crate::provision::Provision;
use fault::account::Fault;

// Why no account was opened; line and books are handed back as they were.
#[derive(Drop)]
pub struct RefusedOpening<L, B> {
    pub fault: Fault,
    pub provision: Provision<L, B>,
}
