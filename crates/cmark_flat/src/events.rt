//! Events from records.

ghost use Rattle.std.specs.Prelude.{◌≡◌, ◌==◌, ◌≤◌, length, map};
ghost use Rattle.std.specs.List.{prefix_len};
ghost use Rattle.cmark_flat.specs.Decode.{bare_tag, block_of, code_of, decode, each, alignment_of, end_of, event_of, groups, heading_of, image_tag_of, is_further, link_tag_of, list_of, lone_event, lone_tag, mark_of, plain_event, ranged_at, ranged_of, some_if, table_of, tag_of, text_of, untagged};
ghost use Rattle.cmark_flat.specs.Numbers.{no_data};
ghost use Rattle.cmark_flat.specs.Gives.{Gives, Reads};
ghost use Rattle.cmark_flat.specs.Records.{shown_record};
ghost use Rattle.cmark_grammar.specs.Tag.{FootnoteDefinition};
ghost use Rattle.cmark_text.specs.Ranged.{shown_ranged};
ghost use Rattle.cmark_text.specs.Shown.{shown, shown_end, shown_tag};
ghost use Rattle.cmark_values.specs.Shown.{shown_alignment, shown_code_block_kind};

use crate::decode_numbers::{
    alignment_of, flag_of, level_of, metadata_of, plain_end, plain_tag, quote_of,
};
use crate::error::DecodeError;
use crate::numbers::*;
use crate::parts::{first_of, heading_parts_of, linked_of};
use crate::read::records_of;
use crate::record::{Record, front_of, rest_from};
use cmark_text::{Alignment, CodeBlockKind, CowStr, Event, Ranged, Tag, TagEnd};
use std::alloc::Global;

/// The events that bytes stand for, with their ranges. The texts are borrowed from the bytes.
///
/// Fails with [`DecodeError::Malformed`] if the bytes are not the records of events, and with
/// [`DecodeError::NoMemory`] if memory is refused.
pub fn decode(alloc: Global, bytes: &[u8]) -> Result<Vec<Ranged<'_>>, DecodeError>
    ensures { Gives (λ v. map shown_ranged v.items) result (decode bytes.now) }
{
    let records = records_of(alloc, bytes)?;
    events_of(alloc, records.as_slice())
}

/// The events that records stand for.
fn events_of<'a>(alloc: Global, records: &[Record<'a>]) -> Result<Vec<Ranged<'a>>, DecodeError>
    ensures { Gives (λ v. map shown_ranged v.items) result
        (each ranged_of (groups (map shown_record records.now))) }
{
    let mut events = Vec::new(alloc);
    let mut at = 0;
    while at < records.len() {
        let ranged = ranged_at(alloc, rest_from(records, at))?;
        events.push(ranged)?;
        at += 1 + parts_len(rest_from(records, at + 1));
    }
    Ok(events)
}

/// The event of the record that comes first and its further records, with its range.
fn ranged_at<'a>(alloc: Global, records: &[Record<'a>]) -> Result<Ranged<'a>, DecodeError>
    ensures { Gives shown_ranged result (ranged_at (map shown_record records.now)) }
{
    let Some((own, after)) = records.split_first() else {
        return Err(DecodeError::Malformed);
    };
    let count = parts_len(after);
    ranged_of(alloc, own, front_of(after, count))
}

/// The number of further records that come first.
pub fn parts_len(records: &[Record<'_>]) -> usize
    ensures value { result ≡ prefix_len (λ r. is_further (shown_record r)) records.now }
    ensures within { result ≤ length records.now }
{
    records
        .iter()
        .take_while(|record| record.kind == FURTHER_KIND)
        .count()
}

/// The event of a record and its further records, with its range.
fn ranged_of<'a>(
    alloc: Global,
    own: &Record<'a>,
    parts: &[Record<'a>],
) -> Result<Ranged<'a>, DecodeError>
    ensures { Gives shown_ranged result
        (ranged_of (record { own = shown_record own.now; parts = map shown_record parts.now })) }
{
    let event = event_of(alloc, own, parts)?;
    Ok(Ranged {
        event,
        range: own.start as usize..own.end as usize,
    })
}

/// The event of a record and its further records.
fn event_of<'a>(
    alloc: Global,
    own: &Record<'a>,
    parts: &[Record<'a>],
) -> Result<Event<'a>, DecodeError>
    ensures { Gives shown result (event_of (shown_record own.now) (map shown_record parts.now)) }
{
    if own.kind == START_KIND {
        let tag = tag_of(alloc, own, parts)?;
        return Ok(Event::Start(tag));
    }
    plain_event(own, parts).ok_or(DecodeError::Malformed)
}

/// An event that is no start.
fn plain_event<'a>(own: &Record<'a>, parts: &[Record<'a>]) -> Option<Event<'a>>
    ensures { Reads shown result (plain_event (shown_record own.now) (map shown_record parts.now)) }
{
    if parts.is_empty() {
        lone_event(own)
    } else {
        None
    }
}

/// An event without further records that is no start.
fn lone_event<'a>(own: &Record<'a>) -> Option<Event<'a>>
    ensures { Reads shown result (lone_event (shown_record own.now)) }
{
    if own.kind == END_KIND {
        let end = end_of(own)?;
        Some(Event::End(end))
    } else if own.tag == NO_TAG {
        untagged(own)
    } else {
        None
    }
}

/// An event without a tag.
fn untagged<'a>(own: &Record<'a>) -> Option<Event<'a>>
    ensures { Reads shown result (untagged (shown_record own.now)) }
{
    if own.kind == TASK_LIST_MARKER_KIND {
        if !own.text.is_empty() {
            return None;
        }
        let is_checked = flag_of(own.datum)?;
        return Some(Event::TaskListMarker(is_checked));
    }
    if own.datum == NO_DATA {
        text_of(own)
    } else {
        None
    }
}

/// An event that has no data.
fn text_of<'a>(own: &Record<'a>) -> Option<Event<'a>>
    ensures { Reads shown result (text_of (shown_record own.now)) }
{
    let text = CowStr::Borrowed(own.text);
    match own.kind {
        TEXT_KIND => Some(Event::Text(text)),
        CODE_KIND => Some(Event::Code(text)),
        INLINE_MATH_KIND => Some(Event::InlineMath(text)),
        DISPLAY_MATH_KIND => Some(Event::DisplayMath(text)),
        HTML_KIND => Some(Event::Html(text)),
        INLINE_HTML_KIND => Some(Event::InlineHtml(text)),
        FOOTNOTE_REFERENCE_KIND => Some(Event::FootnoteReference(text)),
        _ if own.text.is_empty() => mark_of(own.kind),
        _ => None,
    }
}

/// An event that has nothing but its kind.
fn mark_of<'a>(kind: u8) -> Option<Event<'a>>
    ensures { Reads shown result (mark_of kind) }
{
    match kind {
        SOFT_BREAK_KIND => Some(Event::SoftBreak),
        HARD_BREAK_KIND => Some(Event::HardBreak),
        RULE_KIND => Some(Event::Rule),
        _ => None,
    }
}

/// The end of an element.
fn end_of(own: &Record<'_>) -> Option<TagEnd>
    ensures { Reads shown_end result (end_of (shown_record own.now)) }
{
    if !own.text.is_empty() {
        return None;
    }
    match own.tag {
        HEADING_TAG => Some(TagEnd::Heading(level_of(own.datum)?)),
        BLOCK_QUOTE_TAG => Some(TagEnd::BlockQuote(quote_of(own.datum)?)),
        LIST_TAG => Some(TagEnd::List(flag_of(own.datum)?)),
        METADATA_BLOCK_TAG => Some(TagEnd::MetadataBlock(metadata_of(own.datum)?)),
        _ if own.datum == NO_DATA => plain_end(own.tag),
        _ => None,
    }
}

/// The element of a start.
fn tag_of<'a>(alloc: Global, own: &Record<'a>, parts: &[Record<'a>]) -> Result<Tag<'a>, DecodeError>
    ensures { Gives shown_tag result (tag_of (shown_record own.now) (map shown_record parts.now)) }
{
    match own.tag {
        HEADING_TAG => heading_of(alloc, own, parts),
        LIST_TAG => list_of(own, parts).ok_or(DecodeError::Malformed),
        LINK_TAG => link_of(own, parts).ok_or(DecodeError::Malformed),
        IMAGE_TAG => image_of(own, parts).ok_or(DecodeError::Malformed),
        _ if parts.is_empty() => lone_tag(alloc, own),
        _ => Err(DecodeError::Malformed),
    }
}

/// A heading with its attributes.
fn heading_of<'a>(
    alloc: Global,
    own: &Record<'a>,
    parts: &[Record<'a>],
) -> Result<Tag<'a>, DecodeError>
    ensures { Gives shown_tag result
        (heading_of (shown_record own.now) (map shown_record parts.now)) }
{
    if !own.text.is_empty() {
        return Err(DecodeError::Malformed);
    }
    let Some(level) = level_of(own.datum) else {
        return Err(DecodeError::Malformed);
    };
    let parts = heading_parts_of(alloc, parts)?;
    Ok(Tag::Heading {
        level,
        id: parts.id,
        classes: parts.classes,
        attrs: parts.attrs,
    })
}

/// A list, with its first number if it is ordered.
fn list_of<'a>(own: &Record<'a>, parts: &[Record<'a>]) -> Option<Tag<'a>>
    ensures { Reads shown_tag result (list_of (shown_record own.now) (map shown_record parts.now)) }
{
    if !own.text.is_empty() {
        return None;
    }
    match parts {
        [] if own.datum == NO => Some(Tag::List(None)),
        [first] if own.datum == YES => {
            let first = first_of(first)?;
            Some(Tag::List(Some(first)))
        }
        _ => None,
    }
}

/// A link.
fn link_of<'a>(own: &Record<'a>, parts: &[Record<'a>]) -> Option<Tag<'a>>
    ensures { Reads shown_tag result
        (link_tag_of (shown_record own.now) (map shown_record parts.now)) }
{
    let linked = linked_of(own, parts)?;
    Some(Tag::Link {
        link_type: linked.link_type,
        dest_url: linked.dest_url,
        title: linked.title,
        id: linked.id,
    })
}

/// An image.
fn image_of<'a>(own: &Record<'a>, parts: &[Record<'a>]) -> Option<Tag<'a>>
    ensures { Reads shown_tag result
        (image_tag_of (shown_record own.now) (map shown_record parts.now)) }
{
    let linked = linked_of(own, parts)?;
    Some(Tag::Image {
        link_type: linked.link_type,
        dest_url: linked.dest_url,
        title: linked.title,
        id: linked.id,
    })
}

/// An element without further records.
fn lone_tag<'a>(alloc: Global, own: &Record<'a>) -> Result<Tag<'a>, DecodeError>
    ensures { Gives shown_tag result (lone_tag (shown_record own.now)) }
{
    if own.tag == TABLE_TAG {
        table_of(alloc, own)
    } else {
        block_of(own).ok_or(DecodeError::Malformed)
    }
}

/// A table.
fn table_of<'a>(alloc: Global, own: &Record<'a>) -> Result<Tag<'a>, DecodeError>
    ensures { Gives shown_tag result (table_of (shown_record own.now)) }
{
    if own.datum != NO_DATA {
        return Err(DecodeError::Malformed);
    }
    let alignments = alignments_of(alloc, own.text.as_bytes())?;
    Ok(Tag::Table(alignments))
}

/// The alignments of a table's columns.
fn alignments_of(alloc: Global, numbers: &[u8]) -> Result<Vec<Alignment>, DecodeError>
    ensures { Gives (λ v. map shown_alignment v.items) result (each alignment_of numbers.now) }
{
    let mut alignments = Vec::new(alloc);
    for number in numbers {
        let Some(alignment) = alignment_of(*number) else {
            return Err(DecodeError::Malformed);
        };
        alignments.push(alignment)?;
    }
    Ok(alignments)
}

/// An element without further records that is no table.
fn block_of<'a>(own: &Record<'a>) -> Option<Tag<'a>>
    ensures { Reads shown_tag result (block_of (shown_record own.now)) }
{
    if own.tag == CODE_BLOCK_TAG {
        let kind = code_of(own)?;
        return Some(Tag::CodeBlock(kind));
    }
    if own.tag == FOOTNOTE_DEFINITION_TAG {
        return footnote_of(own);
    }
    if own.text.is_empty() {
        bare_tag(own)
    } else {
        None
    }
}

/// A footnote definition.
fn footnote_of<'a>(own: &Record<'a>) -> Option<Tag<'a>>
    ensures { Reads shown_tag result
        (some_if (own.now.datum == no_data) (FootnoteDefinition own.now.text.now)) }
{
    if own.datum == NO_DATA {
        Some(Tag::FootnoteDefinition(CowStr::Borrowed(own.text)))
    } else {
        None
    }
}

/// The kind of a code block.
fn code_of<'a>(own: &Record<'a>) -> Option<CodeBlockKind<'a>>
    ensures { Reads shown_code_block_kind result (code_of (shown_record own.now)) }
{
    match own.datum {
        FENCED_BLOCK => Some(CodeBlockKind::Fenced(CowStr::Borrowed(own.text))),
        INDENTED_BLOCK if own.text.is_empty() => Some(CodeBlockKind::Indented),
        _ => None,
    }
}

/// An element without a text.
fn bare_tag<'a>(own: &Record<'a>) -> Option<Tag<'a>>
    ensures { Reads shown_tag result (bare_tag (shown_record own.now)) }
{
    match own.tag {
        BLOCK_QUOTE_TAG => {
            let kind = quote_of(own.datum)?;
            Some(Tag::BlockQuote(kind))
        }
        METADATA_BLOCK_TAG => {
            let kind = metadata_of(own.datum)?;
            Some(Tag::MetadataBlock(kind))
        }
        _ if own.datum == NO_DATA => plain_tag(own.tag),
        _ => None,
    }
}
