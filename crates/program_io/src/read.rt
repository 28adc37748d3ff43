//! Reading to the end.

ghost use Rattle.std.specs.Prelude.{◌≡◌, ◌≤◌, true, IfOk, IfErr, OnOk, vec_len};
ghost use Rattle.std.specs.Io.KnownBytes.{Consumes, IsAtEnd};
ghost use Rattle.program_io.specs.Ends.{watched_end, watched_notes, watched_resets};
ghost use Rattle.program_io.specs.Faults.{ReadStops, ReadsOn};
ghost use Rattle.program_io.specs.Notes.{Cleared};

use crate::fault::RunFault;
use crate::watched::{PATIENCE, Watched};
use std::alloc::Global;
use std::io::Read;

/// The number of bytes that one read asks for, as in std's buffered readers. They are on the stack and are cleared first, which costs time
/// even for a short text.
const CHUNK: usize = 8_192;

/// All bytes that a reader has left, at most `limit`.
///
/// The notes of the reader are cleared first. Fails with `Read` if a read failed, if `PATIENCE` reads in a row were interrupted, or if more
/// than `limit` bytes came. Fails with `Memory` if memory for bytes that came was refused. After a failure the bytes read so far are lost.
// The chunk is on the stack while the text is read, and not while it is rendered.
#[inline(never)]
pub fn read_all<R: Read>(
    alloc: Global,
    reader: &mut Watched<R>,
    limit: u64,
) -> Result<Vec<u8>, RunFault>
    ensures all { IfOk result
        (λ bytes. Consumes (R.remaining (watched_end reader.old))
        (R.remaining (watched_end reader.new)) bytes.items) }
    ensures at_end { OnOk result (IsAtEnd (R.remaining (watched_end reader.new))) }
    ensures within { IfOk result (λ bytes. vec_len bytes ≤ limit) }
    ensures notes { OnOk result
        (((watched_notes reader.new).ended ≡ true) × ReadsOn limit (watched_notes reader.new)) }
    ensures fault { IfErr result (ReadStops limit (watched_notes reader.new)) }
    ensures fresh { Cleared (watched_resets reader.old) (watched_resets reader.new) }
{
    reader.reset();
    let mut bytes = Vec::new(alloc);
    let mut chunk = [0u8; CHUNK];
    loop {
        match reader.read(&mut chunk) {
            Ok(0) => return Ok(bytes),
            Ok(count) => {
                if count as u64 > limit - bytes.len() as u64 {
                    return Err(RunFault::Read);
                }
                bytes.extend_from_slice(&chunk[..count])?;
            }
            Err(_) => {
                if reader.notes().failed || reader.notes().interrupted >= PATIENCE {
                    return Err(RunFault::Read);
                }
            }
        }
    }
}
