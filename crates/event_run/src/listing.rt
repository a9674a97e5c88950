// A list that takes the postings of a run.
ghost use Rattle.event_run.specs.Listing.{Lists};

use crate::journal::Journal;
use crate::posted::Posted;

// Whoever runs a file sets room aside for all of its postings first.
#[derive(Drop)]
pub(crate) struct Listing {
    pub(crate) list: Vec<Posted>,
}

impl Journal for Listing {
    ghost takes = { Lists };

    fn post(&mut self, posted: Posted) {
        let _ = self.list.push(posted);
    }
}
