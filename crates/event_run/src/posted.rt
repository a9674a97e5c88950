// What is told of one record of a file.
use event_file::file_fault::{FileFault, Place};
use quantities::money::Sums;
use receipt::receipt::Receipt;

// A record's place, how its call came out, its receipt, and the balance after it.
#[derive(Clone, Copy)]
pub struct Posted {
    pub place: Place,
    pub outcome: Result<(), FileFault>,
    pub receipt: Receipt,
    pub balance: Sums,
}
