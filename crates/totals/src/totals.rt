// A journal that adds receipts up.
ghost use Rattle.std.specs.Prelude.{◌≡◌};
ghost use Rattle.rules.specs.Receipt.{nothing as nothing_told};
ghost use Rattle.receipt.specs.Columns.{receipt_of};

use receipt::receipt::Receipt;

// The sum of the receipts so far.
#[derive(Clone, Copy)]
pub struct Totals {
    pub receipt: Receipt,
}

impl Totals {
    pub fn nothing() -> Totals
        ensures { receipt_of result.receipt ≡ nothing_told }
    {
        Totals {
            receipt: Receipt::nothing(),
        }
    }
}
