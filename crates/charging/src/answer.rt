// The number that a host is answered, since a host in C takes a number.
ghost use Rattle.std.specs.Prelude.{◌≡◌};
ghost use Rattle.charging.specs.Answers.{host_number, answer_of};

use crate::host_fault::HostFault;

impl HostFault {
    pub fn number(self) -> u32
        ensures value { result ≡ host_number self }
    {
        match self {
            HostFault::TooShort => 100,
            HostFault::NoSuchBooks => 101,
            HostFault::File(fault) => u32::from(fault.number()),
            HostFault::Opening(fault) => u32::from(fault.number()),
        }
    }
}

// 0 where the call was made.
pub(crate) fn answer(res: Result<(), HostFault>) -> u32
    ensures value { result ≡ answer_of res }
{
    res.err().map_or(0, HostFault::number)
}
