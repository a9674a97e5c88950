// Why a file, or a record of it, is refused, with a number for each refusal.
ghost use Rattle.std.specs.Prelude.{◌≡◌};
ghost use Rattle.event_file.specs.FileFaults.{number_of, layer_of, place_of};
ghost use Rattle.event_file.specs.declared.file_fault.FileFault.TheVariants as file_fault;

use fault::account::{Fault, Layer};

// Where a record stands: its index, counted from 0, and the offset of its first byte.
#[derive(Clone, Copy, PartialEq, Eq, Debug)]
pub struct Place {
    pub index: u32,
    pub offset: u32,
}

impl Place {
    // The place that is told where no record is refused: of a wrong file, and of a refused opening. No `Option<Place>`, since
    // index 0 and offset 0 are told there.
    pub const NO_RECORD: Place = Place {
        index: 0,
        offset: 0,
    };
}

// An account's refusal, with the place of the record that asked for the call.
#[derive(Clone, Copy)]
pub struct PlacedFault {
    pub fault: Fault,
    pub place: Place,
}

// An opening that the account refuses is told at index 0 and offset 0.
#[derive(Clone, Copy, PartialEq, Eq, Debug)]
pub enum FileFault {
    WrongFile,
    WrongRecord(Place),
    Account(Fault, Place),
}

impl FileFault {
    // The number by which it is told; code goes by the enum.
    pub fn number(self) -> u8
        ensures value { result ≡ number_of self }
    {
        match self {
            FileFault::WrongFile => 13,
            FileFault::WrongRecord(_) => 14,
            FileFault::Account(fault, _) => fault.number(),
        }
    }

    pub fn layer(self) -> Layer
        ensures value { result ≡ layer_of self }
    {
        match self {
            FileFault::WrongFile | FileFault::WrongRecord(_) => Layer::File,
            FileFault::Account(fault, _) => fault.layer(),
        }
    }

    pub fn place(self) -> Place
        ensures value { result ≡ place_of self }
    {
        match self {
            FileFault::WrongFile => Place::NO_RECORD,
            FileFault::WrongRecord(place) => place,
            FileFault::Account(_, place) => place,
        }
    }
}

impl From<PlacedFault> for FileFault {
    ghost from_gives = { λ p f. f ≡ file_fault.Account p.fault p.place };

    fn from(refused: PlacedFault) -> FileFault {
        FileFault::Account(refused.fault, refused.place)
    }
}
