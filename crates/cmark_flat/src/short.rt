//! The records of events that own nothing, without an `Event`.

ghost use Rattle.std.specs.Prelude.{◌≡◌};
ghost use Rattle.cmark_flat.specs.Appended.{AppendsOnOk};
ghost use Rattle.cmark_flat.specs.Flat.{event_datum, event_record, event_tag, event_text, kind_number, records, tag_parts};
ghost use Rattle.cmark_flat.specs.Records.{record_bytes, spelled};
ghost use Rattle.cmark_text.specs.Short.{ranged_short, shown_plain, shown_short};

use crate::codes;
use crate::numbers::*;
use crate::put::put_first;
use crate::record::{Mark, put_head};
use cmark_text::{PlainTag, Short};
use std::alloc::AllocError;

/// Appends the records of an event that owns nothing, and whose range starts and ends at these byte offsets. If memory is refused, a part of
/// them may have been appended.
#[inline(always)]
pub fn append_short(
    out: &mut Vec<u8>,
    short: Short<'_>,
    start: usize,
    end: usize,
) -> Result<(), AllocError>
    ensures { AppendsOnOk out.old out.new result
        (spelled (records (ranged_short short.entry start end))) }
{
    put_short(out, short, start, end)?;
    match short {
        Short::Start(tag) => put_plain_parts(out, tag),
        _ => Ok(()),
    }
}

/// Appends the record of an event without its further records.
#[inline(always)]
fn put_short(
    out: &mut Vec<u8>,
    short: Short<'_>,
    start: usize,
    end: usize,
) -> Result<(), AllocError>
    ensures { AppendsOnOk out.old out.new result
        (record_bytes (event_record (ranged_short short.entry start end))) }
{
    let text = text_of(short);
    put_head(out, mark_of(short), start as u64, end as u64, text.len())?;
    out.extend_from_slice(text.as_bytes())
}

/// Appends the further records of a start.
fn put_plain_parts(out: &mut Vec<u8>, tag: PlainTag) -> Result<(), AllocError>
    ensures { AppendsOnOk out.old out.new result (spelled (tag_parts (shown_plain tag))) }
{
    match tag {
        PlainTag::List(first) => put_first(out, first),
        _ => Ok(()),
    }
}

/// The first bytes of an event's record.
#[inline(always)]
fn mark_of(short: Short<'_>) -> Mark
    ensures kind { result.kind ≡ kind_number (shown_short short.entry) }
    ensures tag { result.tag ≡ event_tag (shown_short short.entry) }
    ensures datum { result.datum ≡ event_datum (shown_short short.entry) }
{
    match short {
        Short::Start(tag) => Mark {
            kind: START_KIND,
            tag: codes::plain_number(tag),
            datum: codes::plain_datum(tag),
        },
        Short::End(end) => Mark {
            kind: END_KIND,
            tag: codes::end_number(end),
            datum: codes::end_datum(end),
        },
        Short::Text(_) => untagged(TEXT_KIND),
        Short::Code(_) => untagged(CODE_KIND),
        Short::Html(_) => untagged(HTML_KIND),
        Short::InlineHtml(_) => untagged(INLINE_HTML_KIND),
        Short::SoftBreak => untagged(SOFT_BREAK_KIND),
        Short::HardBreak => untagged(HARD_BREAK_KIND),
        Short::Rule => untagged(RULE_KIND),
    }
}

/// The first bytes of the record of an event of this kind, which has no tag and no data.
fn untagged(kind: u8) -> Mark
    ensures { result ≡ record { kind = kind; tag = 0; datum = 0 } }
{
    Mark {
        kind,
        tag: NO_TAG,
        datum: NO_DATA,
    }
}

/// The text of an event.
#[inline(always)]
fn text_of<'a>(short: Short<'a>) -> &'a str
    ensures { result.now ≡ event_text (shown_short short.entry) }
{
    match short {
        Short::Text(text) => text.as_str(),
        Short::Code(text) => text,
        Short::Html(text) => text,
        Short::InlineHtml(text) => text,
        _ => "",
    }
}
