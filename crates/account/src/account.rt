// What an account is.
use ledger::ledger::Ledger;
use quantities::time::Moment;

// A subscriber's account on a tariff line. Only an opening makes one, and only calls change it. Clauses see its fields and no
// model: a refused call leaves it exactly as found, and a model by what its books mean would count more accounts as equal.
#[derive(Drop)]
pub struct Account<L, B> {
    pub(crate) line: L,
    // the moment of the latest accepted call, or of the opening
    pub(crate) latest: Moment,
    pub(crate) ledger: Ledger<B>,
}
