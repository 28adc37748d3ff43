//! An event that owns nothing, as an `Event`.

ghost use Rattle.std.specs.Prelude.{◌≡◌, ℕ, List};
ghost use Rattle.cmark_text.specs.Ranged.{shown_ranged};
ghost use Rattle.cmark_text.specs.Short.{IsShortZeroCopy, ranged_short, shown_short};
ghost use Rattle.cmark_text.specs.Shown.{shown};
ghost use Rattle.cmark_text.specs.ZeroCopy.{IsZeroCopy};

use cmark_text::{CowStr, Event, Ranged, Short};
use std::alloc::Global;

/// The event of a short one, with its range in byte offsets of the text.
#[inline(always)]
pub(crate) fn ranged_event<'a>(
    alloc: Global,
    short: Short<'a>,
    start: usize,
    end: usize,
) -> Ranged<'a>
    ensures value { shown_ranged result ≡ ranged_short short.entry start end }
    ensures lent { (text : List ℕ) → IsShortZeroCopy text short.entry start end
        → IsZeroCopy text result.event start end }
{
    Ranged {
        event: event_of(alloc, short),
        range: start..end,
    }
}

// An event that owns nothing, as an `Event`.
#[inline(always)]
fn event_of<'a>(alloc: Global, short: Short<'a>) -> Event<'a>
    ensures value { shown result ≡ shown_short short.entry }
    ensures lent { (text : List ℕ) (start end : ℕ) → IsShortZeroCopy text short.entry start end
        → IsZeroCopy text result start end }
{
    match short {
        Short::Text(text) => Event::Text(CowStr::Borrowed(text.as_str())),
        Short::Code(text) => Event::Code(CowStr::Borrowed(text)),
        Short::Html(text) => Event::Html(CowStr::Borrowed(text)),
        Short::InlineHtml(text) => Event::InlineHtml(CowStr::Borrowed(text)),
        Short::Start(tag) => Event::Start(tag.tag(alloc)),
        Short::End(tag) => Event::End(tag),
        Short::SoftBreak => Event::SoftBreak,
        Short::HardBreak => Event::HardBreak,
        Short::Rule => Event::Rule,
    }
}
