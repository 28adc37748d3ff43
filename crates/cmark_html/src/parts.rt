//! The parts of which the HTML of an event is composed.

ghost use Rattle.std.specs.Prelude.{◌≡◌, ◌++◌};
ghost use Rattle.cmark_grammar.specs.Html.{fresh_line};
ghost use Rattle.cmark_text.specs.Appended.{Writes};
ghost use Rattle.cmark_html.specs.Parts.{part_bytes, joined};

use cmark_text::escape::{escape_href, escape_html, escape_html_body_text};
use std::alloc::AllocError;

/// A part of the HTML of an event.
#[derive(Clone, Copy)]
pub enum Part<'a> {
    /// A text as it is.
    Raw(&'a str),
    /// A text escaped as body text.
    BodyText(&'a str),
    /// A text escaped as the value of an attribute.
    Value(&'a str),
    /// A URL escaped as the value of an attribute.
    Href(&'a str),
}

/// A line feed, unless the writer is at a line start.
pub fn new_line(line_start: bool) -> &'static str
    ensures { result.now ≡ fresh_line line_start }
{
    if line_start { "" } else { "\n" }
}

/// Appends a part.
fn append_part(out: &mut String, part: Part<'_>) -> Result<(), AllocError>
    ensures { Writes out.old out.new result (part_bytes part.entry) }
{
    match part {
        Part::Raw(text) => append(out, text),
        Part::BodyText(text) => escape_html_body_text(out, text),
        Part::Value(text) => escape_html(out, text),
        Part::Href(url) => escape_href(out, url),
    }
}

/// Appends a text as it is.
#[inline(always)]
pub fn append(out: &mut String, text: &str) -> Result<(), AllocError>
    ensures { Writes out.old out.new result text.now }
{
    out.push_str(text)
}

/// Appends a text on a line of its own: after a line feed, unless the writer is at a line start.
#[inline(never)]
pub fn append_on_line(out: &mut String, line_start: bool, text: &str) -> Result<(), AllocError>
    ensures { Writes out.old out.new result (fresh_line line_start ++ text.now) }
{
    if line_start {
        return append(out, text);
    }
    append(out, "\n")?;
    append(out, text)
}

/// Appends parts, one after the other.
pub fn append_parts(out: &mut String, parts: &[Part<'_>]) -> Result<(), AllocError>
    ensures { Writes out.old out.new result (joined parts.now) }
{
    for part in parts {
        append_part(out, *part)?;
    }
    Ok(())
}

/// Appends a part between two texts.
#[inline(never)]
pub fn append_around<'x>(
    out: &mut String,
    before: &'x str,
    part: Part<'x>,
    following: &'x str,
) -> Result<(), AllocError>
    ensures { Writes out.old out.new result
        (before.now ++ (part_bytes part.entry ++ following.now)) }
{
    append_parts(out, &[Part::Raw(before), part, Part::Raw(following)])
}
