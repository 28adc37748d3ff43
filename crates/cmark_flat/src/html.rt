//! HTML from flat records.

ghost use Rattle.std.specs.Prelude.{◌≡◌, ◌++◌, map, IfOk, OnOk, string_bytes};
ghost use Rattle.cmark_flat.specs.Gives.{Gives};
ghost use Rattle.cmark_flat.specs.Render.{bare, rendered, safely_rendered};
ghost use Rattle.cmark_grammar.specs.Html.{at_line_start, html};
ghost use Rattle.cmark_html.specs.Writer.{writing};
ghost use Rattle.cmark_safe.specs.SafeEvents.{safe};
ghost use Rattle.cmark_safe.specs.SafeHtml.{IsSafe};
ghost use Rattle.cmark_text.specs.Ranged.{shown_ranged};

use crate::error::DecodeError;
use crate::events::decode;
use cmark_html::{Writer, finish, write_event};
use cmark_safe::safe_event;
use cmark_text::Ranged;
use std::alloc::{AllocError, Global};

/// The HTML of the events that flat records stand for.
///
/// Fails with [`DecodeError::Malformed`] if the bytes are not the records of events, and with
/// [`DecodeError::NoMemory`] if memory is refused.
pub fn render(alloc: Global, bytes: &[u8]) -> Result<String, DecodeError>
    ensures { Gives string_bytes result (rendered bytes.now) }
{
    let events = decode(alloc, bytes)?;
    let mut out = String::new(alloc);
    let mut writer = Writer::new(alloc);
    write_all(&mut out, &mut writer, events)?;
    Ok(out)
}

/// Appends the HTML of events by a writer that has written nothing yet.
fn write_all<'a>(
    out: &mut String,
    writer: &mut Writer<'a>,
    events: Vec<Ranged<'a>>,
) -> Result<(), AllocError>
    requires { writing writer.old ≡ at_line_start }
    ensures { OnOk result (string_bytes out.new
        ≡ string_bytes out.old ++ html (bare (map shown_ranged events.entry.items))) }
{
    for ranged in events {
        write_event(out, writer, ranged.event)?;
    }
    finish(out, writer)
}

/// The safe HTML of the events that flat records stand for, whoever made the records: that of their safe forms, as
/// `safe_event` of `cmark_safe` makes them. `further` names further schemes that addresses may have, separated by white
/// space.
///
/// Fails as [`render`] does.
pub fn render_safe(alloc: Global, bytes: &[u8], further: &str) -> Result<String, DecodeError>
    ensures html { Gives string_bytes result (safely_rendered further.now bytes.now) }
    ensures safe { IfOk result (λ html. IsSafe further.now (string_bytes html)) }
{
    let given = decode(alloc, bytes)?;
    let mut out = String::new(alloc);
    let mut writer = Writer::new(alloc);
    write_all_safe(alloc, &mut out, &mut writer, given, further)?;
    Ok(out)
}

/// Appends the HTML of the safe forms of events by a writer that has written nothing yet.
fn write_all_safe<'a>(
    alloc: Global,
    out: &mut String,
    writer: &mut Writer<'a>,
    events: Vec<Ranged<'a>>,
    further: &str,
) -> Result<(), AllocError>
    requires { writing writer.old ≡ at_line_start }
    ensures { OnOk result (string_bytes out.new ≡ string_bytes out.old
        ++ html (map (safe further.now) (bare (map shown_ranged events.entry.items)))) }
{
    for ranged in events {
        let event = safe_event(alloc, further, ranged.event)?;
        write_event(out, writer, event)?;
    }
    finish(out, writer)
}
