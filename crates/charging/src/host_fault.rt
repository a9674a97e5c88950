// Why a host's call is refused.
ghost use Rattle.std.specs.Prelude.{◌≡◌};
ghost use Rattle.charging.specs.declared.host_fault.HostFault.TheVariants as host_fault;

use event_file::file_fault::FileFault;
use fault::account::Fault;

#[derive(Clone, Copy)]
pub enum HostFault {
    // the memory that is lent is too short for the answer
    TooShort,
    // no books have room for so many old lots
    NoSuchBooks,
    File(FileFault),
    Opening(Fault),
}

impl From<FileFault> for HostFault {
    ghost from_gives = { λ f h. h ≡ host_fault.File f };

    fn from(fault: FileFault) -> HostFault {
        HostFault::File(fault)
    }
}

impl From<Fault> for HostFault {
    ghost from_gives = { λ f h. h ≡ host_fault.Opening f };

    fn from(fault: Fault) -> HostFault {
        HostFault::Opening(fault)
    }
}
