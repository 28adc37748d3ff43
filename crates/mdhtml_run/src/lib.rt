//! From a reader's Markdown to a writer's HTML.
#![tactic(auto)]

ghost use Rattle.std.specs.Prelude.{◌≡◌, ⊤, [], false, true};
ghost use Rattle.cmark_values.specs.Shown.{shown_options};
ghost use Rattle.program_io.specs.Ends.{watched_resets};
ghost use Rattle.program_io.specs.Notes.{Cleared};
ghost use Rattle.program_io.specs.Runs.{RunsBetween};
ghost use Rattle.cmark_grammar.specs.Headline.{IsHtmlOf};
ghost use Rattle.mdhtml_run.specs.Safe.{IsSafeAnswer};

use cmark_parser::{to_html, to_safe_html};
use cmark_values::{EntityLookup, Options};
use program_io::{Render, RunFault, Watched};
use std::alloc::{AllocError, Global};
use std::io::{Read, Write};

/// Renders a text as HTML.
#[derive(Drop)]
pub struct Html<'a, E> {
    /// The options with which the text is read.
    pub options: Options,
    /// Maps entity names to their characters.
    pub entities: &'a E,
}

impl<'a, E: EntityLookup> Render for Html<'a, E> {
    ghost renders = { λ html text output. IsHtmlOf text (shown_options html.options) (E.replacement html.entities.now) output };

    fn render(&self, alloc: Global, text: &str) -> Result<String, AllocError> {
        to_html(alloc, text, self.options, self.entities)
    }
}

/// Renders a stranger's text as safe HTML, in which no script runs.
#[derive(Drop)]
pub struct SafeHtml<'a, E> {
    /// The options with which the text is read.
    pub options: Options,
    /// Maps entity names to their characters.
    pub entities: &'a E,
    /// Further schemes that addresses may have, separated by white space.
    pub further: &'a str,
}

impl<'a, E: EntityLookup> Render for SafeHtml<'a, E> {
    ghost renders = { λ html text output. IsSafeAnswer text (shown_options html.options) (E.replacement html.entities.now) html.further.now output };

    fn render(&self, alloc: Global, text: &str) -> Result<String, AllocError> {
        to_safe_html(alloc, text, self.options, self.entities, self.further)
    }
}

/// Reads all of a reader's Markdown, writes its HTML with these options, and flushes the writer. `entities` maps entity names to their
/// characters.
///
/// `program_io::run::run` says when each fault is returned. After `RunFault::Write` a beginning of the HTML was written, and after any
/// other fault nothing.
pub fn run<R: Read, W: Write, E: EntityLookup>(
    alloc: Global,
    reader: &mut Watched<R>,
    writer: &mut Watched<W>,
    options: Options,
    entities: &E,
) -> Result<(), RunFault>
    ensures run { RunsBetween R.remaining W.contents
        (λ text output. IsHtmlOf text (shown_options options) (E.replacement entities.now) output)
        (λ text. ⊤)
        reader.old reader.new writer.old writer.new result }
    ensures fresh_reader { Cleared (watched_resets reader.old) (watched_resets reader.new) }
    ensures fresh_writer { Cleared (watched_resets writer.old) (watched_resets writer.new) }
{
    program_io::run::run(alloc, reader, writer, &Html { options, entities })
}

/// Does what [`run`] does, but writes safe HTML if `safe` is true. No script runs in it, whoever wrote the Markdown. An address in it is
/// relative, has the scheme `http`, `https` or `mailto`, or is empty.
///
/// The faults and their effects are those of [`run`].
pub fn run_filtered<R: Read, W: Write, E: EntityLookup>(
    alloc: Global,
    reader: &mut Watched<R>,
    writer: &mut Watched<W>,
    options: Options,
    entities: &E,
    safe: bool,
) -> Result<(), RunFault>
    ensures plain { safe ≡ false → RunsBetween R.remaining W.contents
        (λ text output. IsHtmlOf text (shown_options options) (E.replacement entities.now) output)
        (λ text. ⊤)
        reader.old reader.new writer.old writer.new result }
    ensures safe { safe ≡ true → RunsBetween R.remaining W.contents
        (λ text output.
        IsSafeAnswer text (shown_options options) (E.replacement entities.now) [] output)
        (λ text. ⊤)
        reader.old reader.new writer.old writer.new result }
    ensures fresh_reader { Cleared (watched_resets reader.old) (watched_resets reader.new) }
    ensures fresh_writer { Cleared (watched_resets writer.old) (watched_resets writer.new) }
{
    if safe {
        return run_safe(alloc, reader, writer, options, entities);
    }
    run(alloc, reader, writer, options, entities)
}

/// Does what [`run_filtered`] does if `safe` is true.
fn run_safe<R: Read, W: Write, E: EntityLookup>(
    alloc: Global,
    reader: &mut Watched<R>,
    writer: &mut Watched<W>,
    options: Options,
    entities: &E,
) -> Result<(), RunFault>
    ensures run { RunsBetween R.remaining W.contents
        (λ text output.
        IsSafeAnswer text (shown_options options) (E.replacement entities.now) [] output)
        (λ text. ⊤)
        reader.old reader.new writer.old writer.new result }
    ensures fresh_reader { Cleared (watched_resets reader.old) (watched_resets reader.new) }
    ensures fresh_writer { Cleared (watched_resets writer.old) (watched_resets writer.new) }
{
    let renderer = SafeHtml {
        options,
        entities,
        further: "",
    };
    program_io::run::run(alloc, reader, writer, &renderer)
}
