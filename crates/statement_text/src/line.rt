// The lines of a statement. Want of memory is no refusal and has no number: it is the `Err` of each of these.
ghost use Rattle.std.specs.Prelude.{◌≡◌, IfOk, Some, None, string_bytes, MatchOption};
ghost use Rattle.statement_text.specs.Text.{record_text, refused_text, last_text};

use calendar::date::Date;
use quantities::money::Sums;
use receipt::receipt::Receipt;
use rules::call::Status;
use std::alloc::{AllocError, Global};

// The line of a record: its index, its refusal's number or 0, what its call took by its receipt, and the balance after it.
// A refusal comes as its number, which is all that a line tells of it.
pub fn record_line(
    heap: Global,
    index: u32,
    number: u8,
    receipt: Receipt,
    balance: Sums,
) -> Result<String, AllocError>
    ensures text { IfOk result (λ s. string_bytes s ≡ record_text index number receipt.fees.0 receipt.use_charges.0 receipt.switch_charges.0 balance.0) }
{
    format!(in heap;
        "{index} {number} {} {} {} {balance}\n",
        receipt.fees, receipt.use_charges, receipt.switch_charges
    )
}

// The last line: whether the account is blocked, and otherwise the date when it is due. No line for a day past the calendar,
// which no account is due on.
pub fn last_line(heap: Global, status: Status) -> Result<Option<String>, AllocError>
    ensures text { IfOk result (λ line. MatchOption line (last_text status ≡ None) (λ s. last_text status ≡ Some (string_bytes s))) }
{
    match status {
        Status::Blocked => Ok(Some(format!(in heap; "blocked\n")?)),
        Status::Active(day) => {
            let Ok(date) = Date::try_from(day) else {
                return Ok(None);
            };
            Ok(Some(format!(in heap; "due {date}\n")?))
        }
    }
}

// The one line of a refused file or opening. It comes as its number, which is all that the line tells of it.
pub fn refused_line(heap: Global, number: u8) -> Result<String, AllocError>
    ensures text { IfOk result (λ s. string_bytes s ≡ refused_text number) }
{
    format!(in heap; "refused {number}\n")
}
