//! The next event of a walk, without an `Event`.

use cmark_text::Short;

/// The next event of a walk, without an `Event`. Spans and blocks have variants of their own, because different elements begin and end
/// there. A writer is faster with separate code for each.
#[derive(Clone, Copy)]
pub enum WalkStep<'a> {
    /// An event of a leaf's spans that owns nothing, and its range in byte offsets of the text.
    Span(Short<'a>, usize, usize),
    /// An event of a block that owns nothing, and its range in byte offsets of the text.
    Block(Short<'a>, usize, usize),
    /// The events of a leaf of several plain lines: the text of each line, with a soft break between two lines. The lines are given as one
    /// text, joined by line feeds, with their range.
    // It has the same fields as the variants above. With other fields `to_html` took a tenth more instructions on texts with markup.
    Lines(Short<'a>, usize, usize),
    /// The next event is of another kind. The walk has not returned it yet: `take_long` does.
    Long,
    /// No event is left.
    Over,
}

/// The loop that writes HTML, as a caller of [`step`](crate::SpanWalk::step).
pub struct ForHtml;

/// An iterator of events, as a caller of [`step`](crate::SpanWalk::step).
pub struct ForItems;

/// A caller that takes short events without an `Event`, as a caller of [`step`](crate::SpanWalk::step).
pub struct ForShorts;
