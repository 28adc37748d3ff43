//! The HTML of events.

ghost use Rattle.std.specs.Prelude.{◌≡◌, true, IfOk, OnOk, None, is_err, is_some, option_map};
ghost use Rattle.cmark_grammar.specs.Event.{End, SoftBreak, Start, Text};
ghost use Rattle.cmark_grammar.specs.Html.{piece, piece_outside, moved, moved_outside, metadata_after, table_after, table_after_start, names_after, names_after_start, names_after_inside, opened_by, opened_image, last_piece, line_start_after, line_start_after_html, ends_in_line_feed, task_list_marker};
ghost use Rattle.cmark_text.specs.Appended.{Writes};
ghost use Rattle.cmark_text.specs.Shown.{shown, shown_tag};
ghost use Rattle.cmark_html.specs.Writer.{shown_image, shown_names, shown_table, with_names, writing};

use crate::end::{append_end, line_start_after_end};
use crate::footnote::append_numbered_reference;
use crate::image::{append_image_end, write_inside};
use crate::names::FootnoteNames;
use crate::parts::{Part, append, append_around, append_on_line};
use crate::start::{append_link, append_start, line_start_after_start};
use crate::state::{OpenImage, Writer};
use crate::table::TableState;
use cmark_text::escape::escape_html_body_text;
use cmark_text::{CowStr, Event, Tag, TagEnd};
use std::alloc::AllocError;

/// Appends the HTML of an event.
#[inline(always)]
pub fn write_event<'a>(
    out: &mut String,
    writer: &mut Writer<'a>,
    event: Event<'a>,
) -> Result<(), AllocError>
    ensures writes { Writes out.old out.new result
        (piece (writing writer.old) (shown event.entry)) }
    ensures state { OnOk result
        (writing writer.new ≡ moved (writing writer.old) (shown event.entry)) }
{
    if writer.image.is_none() {
        write_outside(out, writer, event)
    } else {
        write_event_inside(out, writer, event)
    }
}

/// Appends the HTML of an event inside an image. The event is passed on in a function of its own, so that its room in the frame is cleared
/// only for events inside images.
#[inline(always)]
fn write_event_inside<'a>(
    out: &mut String,
    writer: &mut Writer<'a>,
    event: Event<'a>,
) -> Result<(), AllocError>
    requires { is_some writer.old.image ≡ true }
    ensures writes { Writes out.old out.new result
        (piece (writing writer.old) (shown event.entry)) }
    ensures state { OnOk result
        (writing writer.new ≡ moved (writing writer.old) (shown event.entry)) }
{
    write_in_image(out, writer, event)
}

/// Appends the HTML of an event outside images.
#[inline(always)]
fn write_outside<'a>(
    out: &mut String,
    writer: &mut Writer<'a>,
    event: Event<'a>,
) -> Result<(), AllocError>
    requires { writer.old.image ≡ None }
    ensures writes { Writes out.old out.new result
        (piece_outside (writing writer.old) (shown event.entry)) }
    ensures state { OnOk result
        (writing writer.new ≡ moved_outside (writing writer.old) (shown event.entry)) }
{
    match append_outside(out, writer, &event) {
        Ok(()) => {
            if let Some(image) = keep_event(&mut writer.table, &mut writer.names, event)? {
                writer.image = Some(image);
            }
            Ok(())
        }
        Err(error) => refuse(event, error),
    }
}

/// Drops an event that was not written whole. This is a function of its own, so that only here the room of the event is cleared.
#[inline(always)]
fn refuse(event: Event<'_>, error: AllocError) -> Result<(), AllocError>
    ensures { is_err result ≡ true }
{
    drop(event);
    Err(error)
}

/// Appends the HTML of this event, and updates the state except for tables, footnotes and images.
#[inline(always)]
fn append_outside<'a>(
    out: &mut String,
    writer: &mut Writer<'a>,
    event: &Event<'a>,
) -> Result<(), AllocError>
    ensures writes { Writes out.old out.new result
        (piece_outside (writing writer.old) (shown event.now)) }
    ensures line_start { OnOk result
        (writer.new.line_start ≡ line_start_after (writing writer.old) (shown event.now)) }
    ensures in_metadata { OnOk result
        (writer.new.in_metadata ≡ metadata_after writer.old.in_metadata (shown event.now)) }
    ensures image { writer.new.image ≡ writer.old.image }
    ensures table { writer.new.table ≡ writer.old.table }
    ensures names { writer.new.names ≡ writer.old.names }
{
    if let Event::Start(tag) = event {
        if let Tag::Link {
            link_type,
            dest_url,
            title,
            id: _,
        } = tag
        {
            append_link(out, *link_type, dest_url.as_str(), title.as_str())?;
            writer.line_start = false;
            return Ok(());
        }
    }
    append_piece(out, writer, event)?;
    writer.line_start = line_start_after(writer, event);
    writer.in_metadata = metadata_after(writer.in_metadata, event);
    Ok(())
}

/// Appends the HTML of an event inside an image.
pub fn write_in_image<'a>(
    out: &mut String,
    writer: &mut Writer<'a>,
    event: Event<'a>,
) -> Result<(), AllocError>
    requires { is_some writer.old.image ≡ true }
    ensures writes { Writes out.old out.new result
        (piece (writing writer.old) (shown event.entry)) }
    ensures state { OnOk result
        (writing writer.new ≡ moved (writing writer.old) (shown event.entry)) }
{
    match append_inside(out, writer, &event) {
        Ok(()) => keep_inside(&mut writer.names, event),
        Err(error) => {
            drop(event);
            Err(error)
        }
    }
}

/// Appends the HTML of this event, and updates the state except for footnotes.
fn append_inside<'a>(
    out: &mut String,
    writer: &mut Writer<'a>,
    event: &Event<'a>,
) -> Result<(), AllocError>
    requires { is_some writer.old.image ≡ true }
    ensures writes { Writes out.old out.new result (piece (writing writer.old) (shown event.now)) }
    ensures state { let after = moved (writing writer.old) (shown event.now) in
        OnOk result (writing writer.new ≡ with_names (writing writer.old).names after) }
    ensures names { writer.new.names ≡ writer.old.names }
{
    let Some(image) = writer.image.take() else {
        return Ok(());
    };
    writer.image = write_inside(out, image, &writer.names, event)?;
    writer.line_start = false;
    Ok(())
}

/// Updates the names of footnotes after an event inside an image.
fn keep_inside<'a>(names: &mut FootnoteNames<'a>, event: Event<'a>) -> Result<(), AllocError>
    ensures { OnOk result
        (shown_names names.new ≡ names_after_inside (shown_names names.old) (shown event.entry)) }
{
    match event {
        Event::FootnoteReference(name) => names.add(name),
        other => {
            drop(other);
            Ok(())
        }
    }
}

/// Updates the table and the names of footnotes after an event, and returns the image that it opens, if it does.
#[inline(always)]
fn keep_event<'a>(
    table: &mut TableState,
    names: &mut FootnoteNames<'a>,
    event: Event<'a>,
) -> Result<Option<OpenImage<'a>>, AllocError>
    ensures table { OnOk result
        (shown_table table.new ≡ table_after (shown_table table.old) (shown event.entry)) }
    ensures names { OnOk result
        (shown_names names.new ≡ names_after (shown_names names.old) (shown event.entry)) }
    ensures image { IfOk result
        (λ image. option_map shown_image image ≡ opened_image (shown event.entry)) }
{
    match event {
        Event::Start(
            Tag::Link {
                link_type: _,
                dest_url,
                title,
                id,
            },
        ) => {
            drop(dest_url);
            drop(title);
            drop(id);
            Ok(None)
        }
        Event::Start(tag) => keep_start(table, names, tag),
        Event::End(tag) => {
            table.end(tag)?;
            Ok(None)
        }
        Event::FootnoteReference(name) => {
            names.add(name)?;
            Ok(None)
        }
        // Most events are texts, and a text is dropped faster than an event of any kind.
        Event::Text(text) => {
            drop(text);
            Ok(None)
        }
        other => {
            drop(other);
            Ok(None)
        }
    }
}

/// Updates the table and the names of footnotes after a start, and returns the image that it opens, if it does.
fn keep_start<'a>(
    table: &mut TableState,
    names: &mut FootnoteNames<'a>,
    tag: Tag<'a>,
) -> Result<Option<OpenImage<'a>>, AllocError>
    ensures table { OnOk result
        (shown_table table.new ≡ table_after_start (shown_table table.old) (shown_tag tag.entry)) }
    ensures names { OnOk result
        (shown_names names.new ≡ names_after_start (shown_names names.old) (shown_tag tag.entry)) }
    ensures image { IfOk result
        (λ image. option_map shown_image image ≡ opened_by (shown_tag tag.entry)) }
{
    match tag {
        Tag::Image {
            link_type: _,
            dest_url,
            title,
            id,
        } => {
            drop(dest_url);
            drop(id);
            Ok(Some(OpenImage { depth: 0, title }))
        }
        Tag::FootnoteDefinition(name) => {
            names.add(name)?;
            Ok(None)
        }
        Tag::Table(alignments) => {
            table.alignments = alignments;
            Ok(None)
        }
        Tag::TableHead => {
            table.in_head = true;
            table.column = 0;
            Ok(None)
        }
        Tag::TableRow => {
            table.column = 0;
            Ok(None)
        }
        other => {
            drop(other);
            Ok(None)
        }
    }
}

/// Whether a metadata block is open after an event.
fn metadata_after(in_metadata: bool, event: &Event<'_>) -> bool
    ensures { result ≡ metadata_after in_metadata (shown event.now) }
{
    match event {
        Event::Start(tag) => match tag {
            Tag::MetadataBlock(_) => true,
            _ => in_metadata,
        },
        Event::End(tag) => match tag {
            TagEnd::MetadataBlock(_) => false,
            _ => in_metadata,
        },
        _ => in_metadata,
    }
}

/// Appends the HTML that closes an image which is open after the last event.
pub fn finish(out: &mut String, writer: &Writer<'_>) -> Result<(), AllocError>
    ensures { Writes out.old out.new result (last_piece (writing writer.now).image) }
{
    match &writer.image {
        None => Ok(()),
        Some(image) => append_image_end(out, image.title.as_str()),
    }
}

/// Appends the HTML of this event, which is outside images.
fn append_piece<'a>(
    out: &mut String,
    writer: &Writer<'a>,
    event: &Event<'a>,
) -> Result<(), AllocError>
    ensures { Writes out.old out.new result (piece_outside (writing writer.now) (shown event.now)) }
{
    match event {
        Event::Start(tag) => append_start(out, writer, tag),
        Event::End(tag) => append_end(out, writer.table.in_head, *tag),
        Event::Text(_) if writer.in_metadata => Ok(()),
        Event::Text(text) => escape_html_body_text(out, text.as_str()),
        Event::Code(text) => append_around(out, "<code>", Part::BodyText(text.as_str()), "</code>"),
        Event::InlineMath(text) => append_around(
            out,
            "<span class=\"math math-inline\">",
            Part::Value(text.as_str()),
            "</span>",
        ),
        Event::DisplayMath(text) => append_around(
            out,
            "<span class=\"math math-display\">",
            Part::Value(text.as_str()),
            "</span>",
        ),
        Event::Html(text) | Event::InlineHtml(text) => append(out, text.as_str()),
        Event::FootnoteReference(name) => append_numbered_reference(out, &writer.names, name),
        Event::SoftBreak => append(out, "\n"),
        Event::HardBreak => append(out, "<br />\n"),
        Event::Rule => append_on_line(out, writer.line_start, "<hr />\n"),
        Event::TaskListMarker(is_checked) => append(out, task_list_marker_text(*is_checked)),
    }
}

/// Whether the writer is at a line start after an event outside images.
fn line_start_after(writer: &Writer<'_>, event: &Event<'_>) -> bool
    ensures { result ≡ line_start_after (writing writer.now) (shown event.now) }
{
    match event {
        Event::Start(tag) => line_start_after_start(writer.line_start, tag),
        Event::End(tag) => line_start_after_end(writer.line_start, *tag),
        Event::Text(_) if writer.in_metadata => writer.line_start,
        Event::Text(text) => ends_in_line_feed(text.as_str()),
        Event::Html(text) | Event::InlineHtml(text) => {
            line_start_after_html(writer.line_start, text.as_str())
        }
        Event::Code(_)
        | Event::InlineMath(_)
        | Event::DisplayMath(_)
        | Event::FootnoteReference(_) => false,
        Event::SoftBreak | Event::HardBreak | Event::Rule | Event::TaskListMarker(_) => true,
    }
}

/// Whether the last byte is a line feed.
pub fn ends_in_line_feed(text: &str) -> bool
    ensures { result ≡ ends_in_line_feed text.now }
{
    text.as_bytes().ends_with(b"\n")
}

/// Whether the writer is at a line start after HTML that is written as it is.
pub fn line_start_after_html(line_start: bool, text: &str) -> bool
    ensures { result ≡ line_start_after_html line_start text.now }
{
    if text.is_empty() {
        return line_start;
    }
    ends_in_line_feed(text)
}

/// The box of a task.
fn task_list_marker_text(is_checked: bool) -> &'static str
    ensures { result.now ≡ task_list_marker is_checked }
{
    if is_checked {
        "<input disabled=\"\" type=\"checkbox\" checked=\"\"/>\n"
    } else {
        "<input disabled=\"\" type=\"checkbox\"/>\n"
    }
}
