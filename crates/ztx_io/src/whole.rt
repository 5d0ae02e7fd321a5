//! Whole transfers over sources and sinks that give and take pieces.
ghost use Rattle.std.specs.Prelude.{◌≤◌, IfOk, OnOk, IfErr, OnErr, IsErrOf};
ghost use Rattle.std.specs.Io.KnownBytes.{Appends};
ghost use Rattle.ztx_io.specs.Faults.{Rose};
ghost use Rattle.ztx_io.specs.Reads.{ReadsWhole, GivesUp};
ghost use Rattle.ztx_io.specs.Writes.{AppendsPrefix};

use crate::{Read, Sink, Source, Write};
use std::alloc::Global;
use thiserror::Error;

/// Bytes that one call of the source may fill.
const PIECE: usize = 4096;

/// Why a whole input did not come.
#[derive(Clone, Copy, Debug, PartialEq, Eq, Error)]
pub enum InFault {
    /// There was no memory for the bytes.
    #[error("no memory for the input")]
    Memory,
    /// The source failed.
    #[error("the input could not be read")]
    Read,
    /// More bytes came than the limit allows.
    #[error("the input is too long")]
    TooLong,
}

/// Why a text was not written whole.
#[derive(Clone, Copy, Debug, PartialEq, Eq, Error)]
pub enum OutFault {
    /// The sink had no memory for the bytes.
    #[error("no memory for the output")]
    Memory,
    /// The sink failed.
    #[error("the output could not be written")]
    Write,
}

/// Reads to the end of the source and gives all the bytes, at most `limit`.
///
/// `TooLong` comes exactly where more than `limit` bytes came, `Read` only where the source's count of faults
/// rose, and `Memory` for want of memory. After each of them the source has lost what came.
pub fn read_all<S: Source>(alloc: Global, source: &mut S, limit: usize) -> Result<Vec<u8>, InFault>
    ensures ok { IfOk result (λ bytes. ReadsWhole limit (S.left source.old) (S.left source.new) bytes.items) }
    ensures err { IfErr result (λ fault. GivesUp limit (S.left source.old) (S.left source.new) fault) }
    ensures count { S.faults source.old ≤ S.faults source.new }
    ensures fault { IsErrOf result InFault.Read → Rose (S.faults source.old) (S.faults source.new) }
{
    let mut bytes = Vec::new(alloc);
    let mut piece = [0u8; PIECE];
    loop {
        match source.read(&mut piece) {
            Read::Got(n) => {
                if n > limit - bytes.len() {
                    return Err(InFault::TooLong);
                }
                if bytes.extend_from_slice(&piece[..n]).is_err() {
                    return Err(InFault::Memory);
                }
            }
            Read::End => return Ok(bytes),
            Read::Failed => return Err(InFault::Read),
        }
    }
}

/// Writes all the bytes; each call of the sink is handed the whole rest.
///
/// After an error a beginning of the bytes was appended. `Write` comes only where the sink's count of faults
/// rose, and `Memory` for want of memory.
pub fn write_all<K: Sink>(sink: &mut K, bytes: &[u8]) -> Result<(), OutFault>
    ensures ok { OnOk result (Appends (K.held sink.old) (K.held sink.new) bytes.now) }
    ensures err { OnErr result (AppendsPrefix (K.held sink.old) (K.held sink.new) bytes.now) }
    ensures count { K.faults sink.old ≤ K.faults sink.new }
    ensures fault { IsErrOf result OutFault.Write → Rose (K.faults sink.old) (K.faults sink.new) }
{
    let mut sent = 0;
    while sent < bytes.len() {
        match sink.write(&bytes[sent..]) {
            Write::Took(n) => sent += n,
            Write::Failed => return Err(OutFault::Write),
            Write::NoMemory => return Err(OutFault::Memory),
        }
    }
    Ok(())
}
