// Where the postings of a run go, one after another.
ghost use Rattle.event_run.specs.Postings.{Posting};
ghost use Rattle.event_run.specs.Coded.{posting_of};

use crate::posted::Posted;

pub trait Journal {
    // what a posting makes of a journal: the one before it, the posting, and the one after it
    ghost takes: { Self → Posting → Self → Type 0 };

    // Takes one posting more.
    fn post(&mut self, posted: Posted)
        ensures taken { takes self.old (posting_of posted) self.new };
}
