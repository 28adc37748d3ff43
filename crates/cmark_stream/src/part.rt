//! The HTML of the events that a parser has left.

ghost use Rattle.std.specs.Prelude.{◌≡◌, IfOk, IsTrue};
ghost use Rattle.cmark_grammar.specs.Html.{at_line_start};
ghost use Rattle.cmark_html.specs.Writer.{writing};
ghost use Rattle.cmark_parser.specs.Filters.{filtered_by};
ghost use Rattle.cmark_parser.specs.Parsing.{CanGo, IsReady};
ghost use Rattle.cmark_stream.specs.Rests.{WritesPart};

use cmark_html::Writer;
use cmark_inline::BrokenLinkCallback;
use cmark_parser::{Filtering, Parser, write_rest};
use cmark_text::EntityLookup;
use std::alloc::{AllocError, Global};

/// The HTML of some events.
#[derive(Drop)]
pub struct Part {
    pub html: String,
    /// Whether a writer that goes on after this HTML is as at the beginning of a text.
    pub ends_at_beginning: bool,
}

/// The HTML of the events that the parser has left, each replaced by the filter.
pub fn write_part<'a, E: EntityLookup, F: BrokenLinkCallback<'a> + Drop>(
    alloc: Global,
    parser: &mut Parser<'a, E, F>,
    filter: &Filtering<'_>,
) -> Result<Part, AllocError>
    requires goes { CanGo E.replacement parser.old }
    requires ready { IsReady F.ready parser.old }
    ensures { IfOk result (WritesPart F.answers E.replacement (filtered_by filter.now)
        parser.old parser.new) }
{
    let mut writer: Writer<'a> = Writer::new(alloc);
    let mut html = String::new(alloc);
    write_rest(&mut html, &mut writer, parser, filter)?;
    let ends_at_beginning = is_at_beginning(writer);
    Ok(Part {
        html,
        ends_at_beginning,
    })
}

/// Whether a writer is as at the beginning of a text.
fn is_at_beginning(writer: Writer<'_>) -> bool
    ensures { IsTrue result → writing writer.entry ≡ at_line_start }
{
    match writer.pause() {
        Some(pause) => pause.is_at_beginning(),
        None => false,
    }
}
