//! Causes of aborts, by the code and the detail that a line tells.
ghost use Rattle.std.specs.Prelude.{◌≡◌, ◌<◌, ◌/◌, true, false, IfSome, Some};
ghost use Rattle.z_regs.specs.Prefix.{storage_size};
ghost use Rattle.tx_control.specs.declared.causes.Why.{Why};
ghost use Rattle.tx_journal.specs.Lines.{says_exception};
ghost use Rattle.tx_journal.specs.Sound.{IsCause};
ghost use Rattle.tx_journal.specs.declared.entries.Entry.TheVariants.{Abort as AbortOf};
ghost use Rattle.tx_flat.specs.Machine.{state_of};
ghost use Rattle.history_laws.specs.Fitting.{Fits};
ghost use Rattle.tx_replay.specs.Told.{Tells, is_exception};

use tx_control::Why;
use tx_control::abort_codes::{
    EXTERNAL_INTERRUPTION, FETCH_CONFLICT, FETCH_OVERFLOW, FILTERED_EXCEPTION, NESTING_DEPTH,
    PROGRAM_INTERRUPTION, RESTRICTED_INSTRUCTION, STARVED, STORE_CONFLICT, STORE_OVERFLOW,
};
use tx_flat::Flat;
use tx_journal::EntryText;
use z_regs::STORAGE_SIZE;

/// The bytes of a line of storage.
const LINE_SIZE: u64 = 256;

/// The number of the line of storage at an address; None exactly behind the end of storage.
fn line_at(address: u64) -> Option<u32>
    ensures some { IfSome result (λ line. (line ≡ address / 256) × (line < 4096)) }
    ensures there { address < storage_size → result ≡ Some (address / 256) }
{
    if address >= STORAGE_SIZE {
        return None;
    }
    Some((address / LINE_SIZE) as u32)
}

/// The cause that a code and a detail tell; an exception is none of these.
fn plain_cause(code: u64, detail: u64) -> Option<Why>
    ensures sound { IfSome result IsCause }
    ensures only { (why : Why) → IsCause why → Tells why code detail → is_exception why ≡ false
        → result ≡ Some why }
{
    match code {
        EXTERNAL_INTERRUPTION => Some(Why::External),
        FETCH_OVERFLOW => Some(Why::FetchOverflow),
        STORE_OVERFLOW => Some(Why::StoreOverflow),
        FETCH_CONFLICT => Some(Why::FetchConflict(line_at(detail)?)),
        STORE_CONFLICT => Some(Why::StoreConflict(line_at(detail)?)),
        RESTRICTED_INSTRUCTION => Some(Why::Restricted),
        NESTING_DEPTH => Some(Why::Depth),
        STARVED => Some(Why::Starved),
        _ => {
            if code <= STARVED {
                return None;
            }
            Some(Why::Tabort(code))
        }
    }
}

/// The cause by which an attempt ends by itself, where it is an exception that a code and a detail tell.
fn told_exception(own: Option<Why>, code: u64, detail: u64) -> Option<Why>
    ensures sound { IfSome result IsCause }
    ensures only { (why : Why) → own ≡ Some why → is_exception why ≡ true → Tells why code detail
        → result ≡ Some why }
{
    match own {
        Some(Why::Program(e)) => {
            if code != PROGRAM_INTERRUPTION || detail != u64::from(e.code) {
                return None;
            }
            Some(Why::Program(e))
        }
        Some(Why::Filtered(e)) => {
            if code != FILTERED_EXCEPTION || detail != u64::from(e.code) {
                return None;
            }
            Some(Why::Filtered(e))
        }
        _ => None,
    }
}

/// Whether aborts of this code name an exception.
fn says_exception(code: u64) -> bool
    ensures { result ≡ says_exception code }
{
    matches!(code, PROGRAM_INTERRUPTION | FILTERED_EXCEPTION)
}

/// The exception that a line tells, by its numbers, where the attempt ends by itself in it. No other fits
/// that has such a line. The machine stays as it is.
fn exception_of(flat: &mut Flat, text: EntryText) -> Option<Why>
    requires { says_exception text.code ≡ true }
    ensures sound { IfSome result IsCause }
    ensures only { (why : Why) → IsCause why → Tells why text.code text.detail
        → Fits (state_of flat.old) (AbortOf text.cpu text.count why) → result ≡ Some why }
    ensures unchanged { flat.new ≡ flat.old }
{
    if text.cpu >= flat.cpu_count() {
        return None;
    }
    let own = flat.own_cause(text.cpu, text.count);
    told_exception(own, text.code, text.detail)
}

/// The cause of an abort, by the numbers of its line. No other cause fits that has such a line. The machine
/// stays as it is.
pub(crate) fn cause_of(flat: &mut Flat, text: EntryText) -> Option<Why>
    ensures sound { IfSome result IsCause }
    ensures only { (why : Why) → IsCause why → Tells why text.code text.detail
        → Fits (state_of flat.old) (AbortOf text.cpu text.count why) → result ≡ Some why }
    ensures unchanged { flat.new ≡ flat.old }
{
    if says_exception(text.code) {
        return exception_of(flat, text);
    }
    plain_cause(text.code, text.detail)
}
