//! Writing to the end.

ghost use Rattle.std.specs.Prelude.{◌≡◌, true, IfErr, OnOk, OnErr};
ghost use Rattle.std.specs.Io.KnownBytes.{Appends};
ghost use Rattle.program_io.specs.Ends.{watched_end, watched_notes, watched_resets};
ghost use Rattle.program_io.specs.Faults.{WriteStops};
ghost use Rattle.program_io.specs.Notes.{Cleared};
ghost use Rattle.program_io.specs.Runs.{AppendsFrontOf};

use crate::fault::RunFault;
use crate::watched::{PATIENCE, Watched};
use std::io::Write;

/// Writes all of a text, and flushes.
///
/// The notes of the writer are cleared first. Fails with `Write` if a write or the flush failed, if a write took no byte, or if `PATIENCE`
/// writes in a row were interrupted. A beginning of the text was then written.
pub fn write_text<W: Write>(writer: &mut Watched<W>, text: &[u8]) -> Result<(), RunFault>
    ensures all { OnOk result
        (Appends (W.contents (watched_end writer.old)) (W.contents (watched_end writer.new))
        text.now) }
    ensures front { OnErr result
        (AppendsFrontOf (W.contents (watched_end writer.old)) (W.contents (watched_end writer.new))
        text.now) }
    ensures flushed { OnOk result ((watched_notes writer.new).ended ≡ true) }
    ensures fault { IfErr result (WriteStops (watched_notes writer.new)) }
    ensures fresh { Cleared (watched_resets writer.old) (watched_resets writer.new) }
{
    writer.reset();
    let mut at = 0;
    while at < text.len() {
        match writer.write(&text[at..]) {
            Ok(0) => return Err(RunFault::Write),
            Ok(count) => at += count,
            Err(_) => {
                if writer.notes().failed || writer.notes().interrupted >= PATIENCE {
                    return Err(RunFault::Write);
                }
            }
        }
    }
    match writer.flush() {
        Ok(()) => Ok(()),
        Err(_) => Err(RunFault::Write),
    }
}
