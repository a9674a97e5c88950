// Why a run over a file comes to no end.
ghost use Rattle.std.specs.Prelude.{◌≡◌};
ghost use Rattle.event_run.specs.declared.stopped.Stopped.TheVariants as stopped;

use event_file::file_fault::FileFault;
use std::alloc::AllocError;

#[derive(Clone, Copy)]
pub enum Stopped {
    // the file or the opening is refused
    Refused(FileFault),
    // want of memory, which has no fault number
    NoMemory,
}

impl From<FileFault> for Stopped {
    ghost from_gives = { λ f s. s ≡ stopped.Refused f };

    fn from(fault: FileFault) -> Stopped {
        Stopped::Refused(fault)
    }
}

impl From<AllocError> for Stopped {
    ghost from_gives = { λ _ s. s ≡ stopped.NoMemory };

    fn from(_error: AllocError) -> Stopped {
        Stopped::NoMemory
    }
}
