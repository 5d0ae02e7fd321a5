//! What the causes of aborts set, and what of them is written down.
ghost use Rattle.std.specs.Prelude.{◌≡◌};
ghost use Rattle.tx_abort.specs.Causes.{cause_of};

use tx_control::{Exception, Why};

/// The bytes of a line of storage.
const LINE_SIZE: u64 = 256;

/// The abort code of a cause: 2 to 13 and 255 for what the machine finds, and for TABORT the code that it
/// gives.
pub fn code_of(why: Why) -> u64
    ensures { result ≡ (cause_of why).code }
{
    why.code()
}

/// The condition code that an abort of this cause sets: 2 where another attempt may well go through, 3 where
/// it would probably end in the same way. TABORT chooses by the last bit of its abort code.
pub fn condition_of(why: Why) -> u8
    ensures { result ≡ (cause_of why).condition }
{
    match why {
        Why::External => 2,
        Why::Program(_) => 3,
        Why::FetchConflict(_) => 2,
        Why::StoreConflict(_) => 2,
        Why::FetchOverflow => 3,
        Why::StoreOverflow => 3,
        Why::Restricted => 3,
        Why::Filtered(_) => 3,
        Why::Depth => 3,
        Why::Starved => 2,
        Why::Tabort(code) => 2 + (code & 1) as u8,
    }
}

/// The first address of the line that another CPU wanted, an absolute one; None where the cause is no
/// conflict.
pub fn conflict_of(why: Why) -> Option<u64>
    ensures { result ≡ (cause_of why).conflict }
{
    match why {
        Why::FetchConflict(line) => Some(u64::from(line) * LINE_SIZE),
        Why::StoreConflict(line) => Some(u64::from(line) * LINE_SIZE),
        _ => None,
    }
}

/// The program exception that was met; None where the cause is none.
pub fn exception_of(why: Why) -> Option<Exception>
    ensures { result ≡ (cause_of why).exception }
{
    match why {
        Why::Program(exception) => Some(exception),
        Why::Filtered(exception) => Some(exception),
        _ => None,
    }
}
