//! The HTML of what is written without an `Event`: events that own nothing, and the start of a link.

ghost use Rattle.std.specs.Prelude.{◌≡◌, true, OnOk, None};
ghost use Rattle.cmark_grammar.specs.Event.{Code, End, Html, Start, Text};
ghost use Rattle.cmark_grammar.specs.Html.{piece_outside, moved_outside};
ghost use Rattle.cmark_grammar.specs.Tag as grammar_tag;
ghost use Rattle.cmark_text.specs.Appended.{Writes};
ghost use Rattle.cmark_text.specs.Excerpt.{excerpt_bytes};
ghost use Rattle.cmark_text.specs.Short.{shown_plain, shown_short};
ghost use Rattle.cmark_text.specs.Shown.{shown_end};
ghost use Rattle.cmark_values.specs.Shown.{shown_link_type};
ghost use Rattle.cmark_html.specs.Parts.{linked};
ghost use Rattle.cmark_html.specs.Writer.{at_start, writing};

use crate::end::{append_end, line_start_after_end};
use crate::parts::{append, append_on_line};
use crate::start::{append_link, append_plain_start, line_start_after_plain};
use crate::state::Writer;
use crate::writer::{ends_in_line_feed, line_start_after_html};
use cmark_text::escape::{escape_excerpt, escape_html_body_text};
use cmark_text::{Excerpt, LinkType, PlainTag, Short, TagEnd};
use std::alloc::AllocError;

/// Appends the HTML of an event that owns nothing. The event has to be outside images: [`write_event`](crate::write_event) writes those
/// inside an image.
#[inline(always)]
pub fn write_short<'a>(
    out: &mut String,
    writer: &mut Writer<'a>,
    short: Short<'a>,
) -> Result<(), AllocError>
    requires outside { writer.old.image ≡ None }
    ensures writes { Writes out.old out.new result
        (piece_outside (writing writer.old) (shown_short short.entry)) }
    ensures state { OnOk result
        (writing writer.new ≡ moved_outside (writing writer.old) (shown_short short.entry)) }
{
    match short {
        Short::Text(text) => write_text(out, writer, text),
        Short::Start(tag) => write_start(out, writer, tag),
        Short::End(tag) => write_end(out, writer, tag),
        Short::Code(text) => write_code(out, writer, text),
        Short::Html(text) => write_html(out, writer, text),
        Short::InlineHtml(text) => write_html(out, writer, text),
        Short::SoftBreak => write_line(out, writer, "\n"),
        Short::HardBreak => write_line(out, writer, "<br />\n"),
        Short::Rule => {
            append_on_line(out, writer.line_start, "<hr />\n")?;
            writer.line_start = true;
            Ok(())
        }
    }
}

/// Appends the HTML of the start of a link with this type, destination and title; it does not depend on the link's label. The link has to
/// be outside images: [`write_event`](crate::write_event) writes those inside an image.
///
/// If memory is refused, a beginning of the HTML was appended.
#[inline(always)]
pub fn write_link(
    out: &mut String,
    writer: &mut Writer<'_>,
    link_type: LinkType,
    dest_url: &str,
    title: &str,
) -> Result<(), AllocError>
    requires outside { writer.old.image ≡ None }
    ensures writes { let link = linked (shown_link_type link_type) dest_url.now title.now in
        Writes out.old out.new result
        (piece_outside (writing writer.old) (Start (grammar_tag.Link link))) }
    ensures state { let link = linked (shown_link_type link_type) dest_url.now title.now in
        OnOk result
        (writing writer.new ≡ moved_outside (writing writer.old) (Start (grammar_tag.Link link))) }
{
    append_link(out, link_type, dest_url, title)?;
    writer.line_start = false;
    Ok(())
}

/// Appends the HTML of a text.
#[inline(always)]
fn write_text(
    out: &mut String,
    writer: &mut Writer<'_>,
    text: Excerpt<'_>,
) -> Result<(), AllocError>
    requires { writer.old.image ≡ None }
    ensures writes { Writes out.old out.new result
        (piece_outside (writing writer.old) (Text (excerpt_bytes text.entry))) }
    ensures state { OnOk result
        (writing writer.new ≡ moved_outside (writing writer.old) (Text (excerpt_bytes text.entry))) }
{
    if writer.in_metadata {
        return Ok(());
    }
    escape_excerpt(out, text)?;
    writer.line_start = ends_in_line_feed(text.as_str());
    Ok(())
}

/// Appends the HTML of a code span.
#[inline(always)]
fn write_code(out: &mut String, writer: &mut Writer<'_>, text: &str) -> Result<(), AllocError>
    requires { writer.old.image ≡ None }
    ensures writes { Writes out.old out.new result
        (piece_outside (writing writer.old) (Code text.now)) }
    ensures state { OnOk result
        (writing writer.new ≡ moved_outside (writing writer.old) (Code text.now)) }
{
    append(out, "<code>")?;
    escape_html_body_text(out, text)?;
    append(out, "</code>")?;
    writer.line_start = false;
    Ok(())
}

/// Appends the HTML of inline HTML or of an HTML block.
#[inline(always)]
fn write_html(out: &mut String, writer: &mut Writer<'_>, text: &str) -> Result<(), AllocError>
    requires { writer.old.image ≡ None }
    ensures writes { Writes out.old out.new result
        (piece_outside (writing writer.old) (Html text.now)) }
    ensures state { OnOk result
        (writing writer.new ≡ moved_outside (writing writer.old) (Html text.now)) }
{
    append(out, text)?;
    writer.line_start = line_start_after_html(writer.line_start, text);
    Ok(())
}

/// Appends a text that ends a line.
#[inline(always)]
fn write_line(out: &mut String, writer: &mut Writer<'_>, text: &str) -> Result<(), AllocError>
    ensures writes { Writes out.old out.new result text.now }
    ensures state { OnOk result (writing writer.new ≡ at_start true (writing writer.old)) }
{
    append(out, text)?;
    writer.line_start = true;
    Ok(())
}

/// Appends the HTML of the start of an element that has no text of its own.
#[inline(always)]
fn write_start(out: &mut String, writer: &mut Writer<'_>, tag: PlainTag) -> Result<(), AllocError>
    requires { writer.old.image ≡ None }
    ensures writes { Writes out.old out.new result
        (piece_outside (writing writer.old) (Start (shown_plain tag))) }
    ensures state { OnOk result
        (writing writer.new ≡ moved_outside (writing writer.old) (Start (shown_plain tag))) }
{
    append_plain_start(out, writer, tag)?;
    writer.line_start = line_start_after_plain(writer.line_start, tag);
    match tag {
        PlainTag::TableHead => {
            writer.table.in_head = true;
            writer.table.column = 0;
        }
        PlainTag::TableRow => writer.table.column = 0,
        PlainTag::MetadataBlock(_) => writer.in_metadata = true,
        _ => {}
    }
    Ok(())
}

/// Appends the HTML of an end.
#[inline(always)]
fn write_end(out: &mut String, writer: &mut Writer<'_>, tag: TagEnd) -> Result<(), AllocError>
    requires { writer.old.image ≡ None }
    ensures writes { Writes out.old out.new result
        (piece_outside (writing writer.old) (End (shown_end tag))) }
    ensures state { OnOk result
        (writing writer.new ≡ moved_outside (writing writer.old) (End (shown_end tag))) }
{
    append_end(out, writer.table.in_head, tag)?;
    writer.line_start = line_start_after_end(writer.line_start, tag);
    match tag {
        TagEnd::MetadataBlock(_) => writer.in_metadata = false,
        TagEnd::Table | TagEnd::TableHead | TagEnd::TableCell => return writer.table.end(tag),
        _ => {}
    }
    Ok(())
}
