// The trailer: the last 16 bytes, which tell where the records stand and how the account is opened.
ghost use Rattle.std.specs.Prelude.{◌≡◌, ◌+◌, ◌*◌, ◌≤◌, true, false, IfOk, MatchResult};
ghost use Rattle.event_file.specs.Layout.{most_bytes, file_right, first_offset, count, opening_plan, opening_moment};
ghost use Rattle.event_file.specs.declared.file_fault.FileFault.TheVariants as file_fault;

use crate::file_fault::FileFault;
use quantities::time::Moment;
use tariff::terms::PlanCode;

// A file has at most this many bytes.
const MOST_BYTES: usize = 65_536;

// What the trailer of a right file tells.
#[derive(Clone, Copy)]
pub struct Trailer {
    // the offset of the first record
    pub(crate) first: u32,
    // how many records there are
    pub(crate) count: u32,
    // the plan that the account is opened on
    pub plan: PlanCode,
    // when it is opened
    pub moment: Moment,
    ghost small: { first + 16 * count + 16 ≤ most_bytes },
}

impl Trailer {
    // The trailer of a file, or the refusal of a wrong file.
    pub fn of(file: &[u8]) -> Result<Trailer, FileFault>
        ensures right { MatchResult result (λ _. file_right file.now ≡ true) (λ e. (file_right file.now ≡ false) × (e ≡ file_fault.WrongFile)) }
        ensures value { IfOk result (λ t. (t.first ≡ first_offset file.now) × (t.count ≡ count file.now) × (t.plan.0 ≡ opening_plan file.now) × (t.moment.0 ≡ opening_moment file.now)) }
    {
        if file.len() > MOST_BYTES {
            return Err(FileFault::WrongFile);
        }
        let Some((body, last)) = file.split_last_chunk::<16>() else {
            return Err(FileFault::WrongFile);
        };
        let [a, b, c, d, e, f, g, h, plan, 0, 0, 0, i, j, k, l] = *last else {
            return Err(FileFault::WrongFile);
        };
        let first = u32::from_le_bytes([a, b, c, d]);
        let count = u32::from_le_bytes([e, f, g, h]);
        if u64::from(first) + 16 * u64::from(count) != body.len() as u64 {
            return Err(FileFault::WrongFile);
        }
        Ok(Trailer {
            first,
            count,
            plan: PlanCode(plan),
            moment: Moment(u32::from_le_bytes([i, j, k, l])),
        })
    }

    // How many records the file has.
    pub fn records(self) -> u32
        ensures { result ≡ self.count }
    {
        self.count
    }
}
