// What an account is opened with.
use quantities::unit::PerUnit;

// The tariff line that an account stands on, and a book for each unit.
#[derive(Drop)]
pub struct Provision<L, B> {
    pub line: L,
    pub books: PerUnit<B>,
}
