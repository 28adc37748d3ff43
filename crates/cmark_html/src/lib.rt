//! Writes events as HTML.
#![tactic(auto)]

ghost use Rattle.std.specs.Prelude.{◌≡◌, List, ◌++◌, OnOk, OnErr, string_bytes, map, Ok, None};
ghost use Rattle.std.specs.Iterator.{IsFinite, Drains, YieldsThen};
ghost use Rattle.cmark_grammar.specs.Html.{at_line_start, html};
ghost use Rattle.cmark_text.specs.declared.event.Event.{Event};
ghost use Rattle.cmark_text.specs.Shown.{shown};
ghost use Rattle.cmark_html.specs.Pushed.{Stops, StopsAt};
ghost use Rattle.cmark_html.specs.Writer.{writing};

mod end;
mod footnote;
mod heading;
mod image;
mod names;
mod parts;
mod pause;
mod short;
mod start;
mod state;
mod table;
mod writer;

pub use crate::names::FootnoteNames;
pub use crate::pause::Pause;
pub use crate::short::{write_link, write_short};
pub use crate::state::Writer;
pub use crate::writer::{finish, write_event};
use cmark_text::Event;
use std::alloc::AllocError;

/// Appends the HTML of all events that the iterator gives. The iterator has to end. An image that the events leave open is closed.
///
/// An error item, or refused memory, ends the call with that error. The string then holds its old text and a beginning of the HTML of the
/// events given so far. The iterator is not called again after its `None` or after an error item.
///
/// A block gets a line feed before it unless this call last wrote one; the string's old text does not count. The error for refused memory
/// is also returned if more than `u64::MAX` elements are open in an image, or more than `usize::MAX` cells are in a row.
///
/// ```text
/// let mut html = String::new(alloc);
/// push_html(&mut html, Parser::new(alloc, "# a", &BasicEntities)?)?;    // <h1>a</h1> and a line feed
/// ```
pub fn push_html<'a, I: Iterator<Item = Result<Event<'a>, AllocError>>>(
    out: &mut String,
    iter: I,
) -> Result<(), AllocError>
    requires can { I.can_next iter }
    requires ends { IsFinite (I.remaining iter) }
    ensures ok { OnOk result ((events : List Event) × Drains I.next_gives iter (map Ok events)
        × (string_bytes out.new ≡ string_bytes out.old ++ html (map shown events))) }
    ensures err { OnErr result
        (Stops I.next_gives iter (string_bytes out.old) (string_bytes out.new)) }
{
    let mut iter = iter;
    push_lent(out, &mut iter)
}

/// Like `push_html`, for an iterator by reference. The iterator is left right after its `None`, its error item, or the event at which
/// memory was refused.
fn push_lent<'a, I: Iterator<Item = Result<Event<'a>, AllocError>>>(
    out: &mut String,
    iter: &mut I,
) -> Result<(), AllocError>
    requires can { I.can_next iter.old }
    requires ends { IsFinite (I.remaining iter.old) }
    ensures ok { OnOk result ((events : List Event)
        × YieldsThen I.next_gives iter.old (map Ok events) None iter.new
        × (string_bytes out.new ≡ string_bytes out.old ++ html (map shown events))) }
    ensures err { OnErr result
        (StopsAt I.next_gives iter.old iter.new (string_bytes out.old) (string_bytes out.new)) }
{
    let mut writer = Writer::new(*out.allocator());
    push_from(out, &mut writer, iter)
}

/// Like `push_lent`, with a writer that has written nothing yet. The writer is passed by reference, so that no exit of the loop drops it.
#[inline(always)]
fn push_from<'a, I: Iterator<Item = Result<Event<'a>, AllocError>>>(
    out: &mut String,
    writer: &mut Writer<'a>,
    iter: &mut I,
) -> Result<(), AllocError>
    requires begins { writing writer.old ≡ at_line_start }
    requires can { I.can_next iter.old }
    requires ends { IsFinite (I.remaining iter.old) }
    ensures ok { OnOk result ((events : List Event)
        × YieldsThen I.next_gives iter.old (map Ok events) None iter.new
        × (string_bytes out.new ≡ string_bytes out.old ++ html (map shown events))) }
    ensures err { OnErr result
        (StopsAt I.next_gives iter.old iter.new (string_bytes out.old) (string_bytes out.new)) }
{
    while let Some(event) = iter.next() {
        write_event(out, writer, event?)?;
    }
    finish(out, writer)
}
