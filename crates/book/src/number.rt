// The number by which a book's refusal is told.
ghost use Rattle.std.specs.Prelude.{◌≡◌};
ghost use Rattle.book.specs.Fault.{fault_number};

use crate::fault::BookFault;

impl BookFault {
    // Every refusal by a book is told by the one number, whatever its reason; code goes by the enum.
    pub fn number(self) -> u8
        ensures value { result ≡ fault_number self }
    {
        12
    }
}
