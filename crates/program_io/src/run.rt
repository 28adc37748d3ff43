//! From a reader's Markdown to a writer's output.

ghost use Rattle.program_io.specs.Ends.{watched_resets};
ghost use Rattle.program_io.specs.Notes.{Cleared};
ghost use Rattle.program_io.specs.Runs.{RunsBetween};

use crate::fault::RunFault;
use crate::read::read_all;
use crate::render::Render;
use crate::watched::Watched;
use crate::write::write_text;
use simdutf8::basic::from_utf8;
use std::alloc::Global;
use std::io::{Read, Write};

/// The most bytes of input that are read.
pub const INPUT_LIMIT: u64 = 2_147_483_648;

/// Reads all of a reader's text, writes the output for it and flushes.
///
/// The notes of both ends are cleared first. Nothing is written before all was read, was found to be UTF-8, and was rendered. So after
/// `Write` a beginning of the output was written, and after any other fault nothing. [`RunFault`] lists the causes of each fault; more than
/// [`INPUT_LIMIT`] bytes of input are a `Read`.
pub fn run<R: Read, W: Write, P: Render>(
    alloc: Global,
    reader: &mut Watched<R>,
    writer: &mut Watched<W>,
    renderer: &P,
) -> Result<(), RunFault>
    ensures run { RunsBetween R.remaining W.contents (P.renders renderer.now)
        (P.refuses renderer.now) reader.old reader.new writer.old writer.new result }
    ensures fresh_reader { Cleared (watched_resets reader.old) (watched_resets reader.new) }
    ensures fresh_writer { Cleared (watched_resets writer.old) (watched_resets writer.new) }
{
    writer.reset();
    let bytes = read_all(alloc, reader, INPUT_LIMIT)?;
    let Ok(text) = from_utf8(bytes.as_slice()) else {
        return Err(RunFault::NotUtf8);
    };
    let output = renderer.render(alloc, text)?;
    write_text(writer, output.as_bytes())
}
