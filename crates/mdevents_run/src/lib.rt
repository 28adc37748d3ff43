//! From a text to a line of JSON for each of its events, and from a reader's Markdown to a writer's lines.
#![tactic(auto)]

ghost use Rattle.std.specs.Prelude.{⊤};
ghost use Rattle.cmark_values.specs.Shown.{shown_options};
ghost use Rattle.mdevents_run.specs.Renders.{AreLinesOf};
ghost use Rattle.program_io.specs.Ends.{watched_resets};
ghost use Rattle.program_io.specs.Notes.{Cleared};
ghost use Rattle.program_io.specs.Runs.{RunsBetween};

mod lines;

use cmark_values::{EntityLookup, Options};
pub use lines::to_json_lines;
use program_io::{Render, RunFault, Watched};
use std::alloc::{AllocError, Global};
use std::io::{Read, Write};

/// Renders a text as one line of JSON for each of its events.
#[derive(Drop)]
pub struct EventLines<'a, E> {
    /// The options with which the text is read.
    pub options: Options,
    /// The texts of entity names.
    pub entities: &'a E,
}

impl<'a, E: EntityLookup> Render for EventLines<'a, E> {
    ghost renders = { λ lines text output. AreLinesOf text (shown_options lines.options) (E.replacement lines.entities.now) output };

    fn render(&self, alloc: Global, text: &str) -> Result<String, AllocError> {
        to_json_lines(alloc, text, self.options, self.entities)
    }
}

/// Reads all Markdown from a reader, writes a line of JSON for each of its events with these options, and flushes. `entities` gives the
/// texts of entity names.
///
/// After `Write` a beginning of the lines was written, and after any other fault nothing. `program_io::run::run` lists the causes of each
/// fault.
pub fn run<R: Read, W: Write, E: EntityLookup>(
    alloc: Global,
    reader: &mut Watched<R>,
    writer: &mut Watched<W>,
    options: Options,
    entities: &E,
) -> Result<(), RunFault>
    ensures run { RunsBetween R.remaining W.contents
        (λ text output. AreLinesOf text (shown_options options) (E.replacement entities.now) output)
        (λ text. ⊤)
        reader.old reader.new writer.old writer.new result }
    ensures fresh_reader { Cleared (watched_resets reader.old) (watched_resets reader.new) }
    ensures fresh_writer { Cleared (watched_resets writer.old) (watched_resets writer.new) }
{
    program_io::run::run(alloc, reader, writer, &EventLines { options, entities })
}
