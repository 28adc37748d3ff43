//! The records of events.

ghost use Rattle.std.specs.Prelude.{◌≡◌, ◌++◌, length, map, option_map};
ghost use Rattle.std.specs.List.{flat_map};
ghost use Rattle.cmark_flat.specs.Appended.{AppendsOnOk};
ghost use Rattle.cmark_flat.specs.Flat.{alignment_number, attribute_parts, class_part, event_record, event_text, first_part, id_part, info_text, part, records, tag_parts, tag_text};
ghost use Rattle.cmark_flat.specs.Numbers.{label_part, title_part};
ghost use Rattle.cmark_flat.specs.Records.{record_bytes, spelled};
ghost use Rattle.cmark_text.specs.Shown.{shown, shown_tag};
ghost use Rattle.cmark_values.specs.Shown.{shown_alignment, shown_attribute, shown_code_block_kind, text_bytes};

use crate::codes;
use crate::numbers::*;
use crate::record::{Mark, Record, put, put_head};
use cmark_text::{Alignment, CodeBlockKind, CowStr, Event, Tag};
use std::alloc::AllocError;
use std::ops::Range;

/// Appends the records of an event with its range.
pub fn append_event(
    out: &mut Vec<u8>,
    event: &Event<'_>,
    range: &Range<usize>,
) -> Result<(), AllocError>
    ensures { AppendsOnOk out.old out.new result (spelled (records
        (record { event = shown event.now; start = range.now.start; end = range.now.end }))) }
{
    put_record(out, event, range)?;
    match event {
        Event::Start(tag) => put_parts(out, tag),
        _ => Ok(()),
    }
}

/// Appends the records of an event with its range, which is let go then. Where memory is refused, a beginning of them
/// may have been appended.
pub fn append_given(
    out: &mut Vec<u8>,
    event: Event<'_>,
    range: Range<usize>,
) -> Result<(), AllocError>
    ensures { AppendsOnOk out.old out.new result (spelled (records
        (record { event = shown event.entry; start = range.start; end = range.end }))) }
{
    let written = append_event(out, &event, &range);
    drop(event);
    written
}

/// Appends the record of an event without its further records.
fn put_record(out: &mut Vec<u8>, event: &Event<'_>, range: &Range<usize>) -> Result<(), AllocError>
    ensures { AppendsOnOk out.old out.new result (record_bytes (event_record
        (record { event = shown event.now; start = range.now.start; end = range.now.end }))) }
{
    let mark = Mark {
        kind: codes::kind_number(event),
        tag: codes::event_tag(event),
        datum: codes::event_datum(event),
    };
    let size = text_size(event);
    put_head(out, mark, range.start as u64, range.end as u64, size)?;
    put_text(out, event)
}

/// The number of bytes of an event's text.
fn text_size(event: &Event<'_>) -> usize
    ensures { result ≡ length (event_text (shown event.now)) }
{
    match event {
        Event::Start(tag) => tag_text_size(tag),
        Event::Text(text)
        | Event::Code(text)
        | Event::InlineMath(text)
        | Event::DisplayMath(text)
        | Event::Html(text)
        | Event::InlineHtml(text)
        | Event::FootnoteReference(text) => text.as_str().len(),
        _ => 0,
    }
}

/// The number of bytes of a tag's text.
fn tag_text_size(tag: &Tag<'_>) -> usize
    ensures { result ≡ length (tag_text (shown_tag tag.now)) }
{
    match tag {
        Tag::CodeBlock(kind) => info_size(kind),
        Tag::FootnoteDefinition(label) => label.as_str().len(),
        Tag::Table(alignments) => alignments.len(),
        Tag::Link { dest_url, .. } => dest_url.as_str().len(),
        Tag::Image { dest_url, .. } => dest_url.as_str().len(),
        _ => 0,
    }
}

/// The number of bytes of an info string.
fn info_size(kind: &CodeBlockKind<'_>) -> usize
    ensures { result ≡ length (info_text (shown_code_block_kind kind.now)) }
{
    match kind {
        CodeBlockKind::Indented => 0,
        CodeBlockKind::Fenced(info) => info.as_str().len(),
    }
}

/// Appends the text of an event.
fn put_text(out: &mut Vec<u8>, event: &Event<'_>) -> Result<(), AllocError>
    ensures { AppendsOnOk out.old out.new result (event_text (shown event.now)) }
{
    match event {
        Event::Start(tag) => put_tag_text(out, tag),
        Event::Text(text)
        | Event::Code(text)
        | Event::InlineMath(text)
        | Event::DisplayMath(text)
        | Event::Html(text)
        | Event::InlineHtml(text)
        | Event::FootnoteReference(text) => out.extend_from_slice(text.as_str().as_bytes()),
        _ => Ok(()),
    }
}

/// Appends the text of a tag.
fn put_tag_text(out: &mut Vec<u8>, tag: &Tag<'_>) -> Result<(), AllocError>
    ensures { AppendsOnOk out.old out.new result (tag_text (shown_tag tag.now)) }
{
    match tag {
        Tag::CodeBlock(kind) => put_info(out, kind),
        Tag::FootnoteDefinition(label) => out.extend_from_slice(label.as_str().as_bytes()),
        Tag::Table(alignments) => put_alignments(out, alignments.as_slice()),
        Tag::Link { dest_url, .. } => out.extend_from_slice(dest_url.as_str().as_bytes()),
        Tag::Image { dest_url, .. } => out.extend_from_slice(dest_url.as_str().as_bytes()),
        _ => Ok(()),
    }
}

/// Appends an info string.
fn put_info(out: &mut Vec<u8>, kind: &CodeBlockKind<'_>) -> Result<(), AllocError>
    ensures { AppendsOnOk out.old out.new result (info_text (shown_code_block_kind kind.now)) }
{
    match kind {
        CodeBlockKind::Indented => Ok(()),
        CodeBlockKind::Fenced(info) => out.extend_from_slice(info.as_str().as_bytes()),
    }
}

/// Appends a byte for each column of a table.
fn put_alignments(out: &mut Vec<u8>, alignments: &[Alignment]) -> Result<(), AllocError>
    ensures { AppendsOnOk out.old out.new result
        (map alignment_number (map shown_alignment alignments.now)) }
{
    for alignment in alignments {
        out.push(codes::alignment_number(*alignment))?;
    }
    Ok(())
}

/// Appends a further record with a text.
pub fn put_part(out: &mut Vec<u8>, tag: u8, text: &str) -> Result<(), AllocError>
    ensures { AppendsOnOk out.old out.new result (record_bytes (part tag text.now)) }
{
    let record = Record {
        kind: FURTHER_KIND,
        tag,
        datum: NO_DATA,
        start: 0,
        end: 0,
        text,
    };
    put(out, record)
}

/// Appends the further records of a start.
pub fn put_parts(out: &mut Vec<u8>, tag: &Tag<'_>) -> Result<(), AllocError>
    ensures { AppendsOnOk out.old out.new result (spelled (tag_parts (shown_tag tag.now))) }
{
    match tag {
        Tag::Heading {
            id,
            classes,
            attrs,
            ..
        } => {
            put_id(out, id)?;
            put_classes(out, classes.as_slice())?;
            put_attributes(out, attrs.as_slice())
        }
        Tag::List(first) => put_first(out, *first),
        Tag::Link { title, id, .. } => put_linked(out, title, id),
        Tag::Image { title, id, .. } => put_linked(out, title, id),
        _ => Ok(()),
    }
}

/// Appends the title and the label of a link or an image.
fn put_linked(out: &mut Vec<u8>, title: &CowStr<'_>, id: &CowStr<'_>) -> Result<(), AllocError>
    ensures { AppendsOnOk out.old out.new result
        (record_bytes (part title_part (text_bytes title.now))
        ++ record_bytes (part label_part (text_bytes id.now))) }
{
    put_part(out, TITLE_PART, title.as_str())?;
    put_part(out, LABEL_PART, id.as_str())
}

/// Appends the first number of an ordered list.
pub fn put_first(out: &mut Vec<u8>, first: Option<u64>) -> Result<(), AllocError>
    ensures { AppendsOnOk out.old out.new result (spelled (first_part first)) }
{
    let Some(first) = first else {
        return Ok(());
    };
    let record = Record {
        kind: FURTHER_KIND,
        tag: FIRST_NUMBER_PART,
        datum: NO_DATA,
        start: first,
        end: 0,
        text: "",
    };
    put(out, record)
}

/// Appends the id of a heading, if it has one.
fn put_id(out: &mut Vec<u8>, id: &Option<CowStr<'_>>) -> Result<(), AllocError>
    ensures { AppendsOnOk out.old out.new result
        (spelled (id_part (option_map text_bytes id.now))) }
{
    match id {
        None => Ok(()),
        Some(id) => put_part(out, HEADING_ID_PART, id.as_str()),
    }
}

/// Appends the classes of a heading.
fn put_classes(out: &mut Vec<u8>, classes: &[CowStr<'_>]) -> Result<(), AllocError>
    ensures { AppendsOnOk out.old out.new result
        (spelled (map class_part (map text_bytes classes.now))) }
{
    for class in classes {
        put_part(out, CLASS_PART, class.as_str())?;
    }
    Ok(())
}

/// Appends the attributes of a heading.
fn put_attributes(
    out: &mut Vec<u8>,
    attributes: &[(CowStr<'_>, Option<CowStr<'_>>)],
) -> Result<(), AllocError>
    ensures { AppendsOnOk out.old out.new result
        (spelled (flat_map attribute_parts (map shown_attribute attributes.now))) }
{
    for attribute in attributes {
        put_attribute(out, attribute)?;
    }
    Ok(())
}

/// Appends an attribute of a heading.
fn put_attribute(
    out: &mut Vec<u8>,
    attribute: &(CowStr<'_>, Option<CowStr<'_>>),
) -> Result<(), AllocError>
    ensures { AppendsOnOk out.old out.new result
        (spelled (attribute_parts (shown_attribute attribute.now))) }
{
    put_part(out, ATTRIBUTE_PART, attribute.0.as_str())?;
    match &attribute.1 {
        None => put_part(out, NO_VALUE_PART, ""),
        Some(value) => put_part(out, VALUE_PART, value.as_str()),
    }
}
