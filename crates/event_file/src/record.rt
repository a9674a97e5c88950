// What a record's 16 bytes say: a call with its moment, or nothing where the record is wrong.
ghost use Rattle.std.specs.Prelude.{◌≡◌, is_some};
ghost use Rattle.event_file.specs.Records.{NamesKind, service_of, record_right, decoded};

use quantities::money::Sums;
use quantities::time::Moment;
use quantities::unit::UnitKind;
use rules::call::{Call, Event, Service};
use tariff::terms::PlanCode;

// The kinds of records, one for each call.
#[derive(Clone, Copy)]
pub enum Kind {
    TopUp,
    Use,
    Restart,
    Switch,
    MegabyteOption,
    DayMark,
}

// A byte that names no kind of record.
#[derive(Clone, Copy, PartialEq, Eq, Debug)]
pub struct UnknownKind(pub u8);

impl TryFrom<u8> for Kind {
    type Error = UnknownKind;

    ghost try_from_gives = { NamesKind };

    // The kind that a record's first byte names, if it names one.
    fn try_from(byte: u8) -> Result<Kind, UnknownKind> {
        match byte {
            1 => Ok(Kind::TopUp),
            2 => Ok(Kind::Use),
            3 => Ok(Kind::Restart),
            4 => Ok(Kind::Switch),
            5 => Ok(Kind::MegabyteOption),
            6 => Ok(Kind::DayMark),
            _ => Err(UnknownKind(byte)),
        }
    }
}

// The service that a record's second byte names, if it names one.
// No `TryFrom`: `Service` is another crate's, and a use of no service is a call too, which wants the `Option` as it is.
fn service_of(byte: u8) -> Option<Service>
    ensures value { result ≡ service_of byte }
{
    match byte {
        1 => Some(Service::Counted(UnitKind::Minutes)),
        2 => Some(Service::Counted(UnitKind::Megabytes)),
        3 => Some(Service::Counted(UnitKind::Messages)),
        4 => Some(Service::International),
        _ => None,
    }
}

// The call with its moment that a record asks for; none where the record is wrong.
pub fn event_of(bytes: &[u8; 16]) -> Option<Event>
    ensures value { result ≡ decoded bytes.now }
    ensures test { is_some result ≡ record_right bytes.now }
{
    let [kind, code, 0, 0, a, b, c, d, e, f, g, h, 0, 0, 0, 0] = *bytes else {
        return None;
    };
    let kind = Kind::try_from(kind).ok()?;
    let amount = u32::from_le_bytes([a, b, c, d]);
    // an arm for each call: each kind has bytes of its own that must be zero
    let call = match kind {
        Kind::TopUp if code == 0 => Call::TopUp(Sums(u64::from(amount))),
        Kind::Use => Call::Use(service_of(code), amount),
        Kind::Restart if code == 0 && amount == 0 => Call::Restart,
        Kind::Switch if amount == 0 => Call::Switch(PlanCode(code)),
        Kind::MegabyteOption if code == 0 && amount == 0 => Call::MegabyteOption,
        Kind::DayMark if code == 0 && amount == 0 => Call::DayMark,
        _ => return None,
    };
    Some(Event {
        moment: Moment(u32::from_le_bytes([e, f, g, h])),
        call,
    })
}
