//! The HTML of a growing text from a cut on, for a caller that keeps nothing but the text and the cut.

ghost use Rattle.std.specs.Prelude.{◌≡◌, ◌<◌, IfOk, IfSome, IsCharBoundary, ℕ, false, string_bytes, take};
ghost use Rattle.cmark_grammar.specs.Headline.{profile_within};
ghost use Rattle.cmark_parser.specs.Filters.{filtered_by};
ghost use Rattle.cmark_parser.specs.Parsing.{CanGo, IsReady};
ghost use Rattle.cmark_stream_model.specs.Settled.{IsSettledAt};
ghost use Rattle.cmark_values.specs.Shown.{shown_options};
ghost use Rattle.cmark_stream.specs.Rests.{IsPieceHtml, IsRestFrom, WritesPiece, WritesTail};

use crate::part::{Part, write_part};
use cmark_blocks::last_cut;
use cmark_inline::BrokenLinkCallback;
use cmark_parser::{Filtering, Parser, parse_undefined, to_filtered_html};
use cmark_text::{EntityLookup, Options};
use std::alloc::{AllocError, Global};

/// The HTML of a text from a cut on.
#[derive(Drop)]
pub struct Rest {
    /// The HTML of the blocks between the cut that was passed and the new one.
    pub settled: String,
    /// The HTML of the blocks after the new cut. If this is 0, the HTML of the whole text.
    pub tail: String,
    /// The cut for the next call, a byte offset.
    pub cut: usize,
}

/// The HTML of `text` from the byte offset `from` on, which is 0 or the cut that an earlier call returned for a beginning of this text.
/// `filter` replaces each event. `limit` is the reference expansion limit, in bytes. Fails only if memory is refused.
///
/// The HTML of the blocks before the new cut does not change if the text grows, as long as the text defines neither a link nor a footnote.
/// If it defines one, the whole text is read, and the new cut is 0.
pub fn read_from<E: EntityLookup>(
    alloc: Global,
    text: &str,
    from: usize,
    options: Options,
    entities: &E,
    filter: &Filtering<'_>,
    limit: usize,
) -> Result<Rest, AllocError>
    requires begins { IsCharBoundary text.now from }
    ensures { IfOk result (λ rest. IsRestFrom (filtered_by filter.now) limit text.now
        (shown_options options) (E.replacement entities.now)
        from (string_bytes rest.settled) (string_bytes rest.tail) rest.cut) }
{
    let found = parse_undefined(alloc, text, from, options, entities, limit)?;
    let Some(mut parser) = found else {
        return read_whole(alloc, text, options, entities, filter, limit);
    };
    let cut = last_cut(alloc, text, from, options)?;
    let settled = settled_html(alloc, text, from, cut, options, entities, filter, limit)?;
    match settled {
        Some(html) => read_after(alloc, text, html, cut, options, entities, filter, limit),
        None => with_tail(alloc, String::new(alloc), from, &mut parser, filter),
    }
}

/// Reads the whole text. No block is settled.
fn read_whole<E: EntityLookup>(
    alloc: Global,
    text: &str,
    options: Options,
    entities: &E,
    filter: &Filtering<'_>,
    limit: usize,
) -> Result<Rest, AllocError>
    ensures { IfOk result (λ rest. (from : ℕ) → IsRestFrom (filtered_by filter.now) limit text.now
        (shown_options options) (E.replacement entities.now)
        from (string_bytes rest.settled) (string_bytes rest.tail) rest.cut) }
{
    let tail = to_filtered_html(alloc, text, options, entities, limit, filter)?;
    Ok(Rest {
        settled: String::new(alloc),
        tail,
        cut: 0,
    })
}

/// The HTML of the blocks between the cut `from` and a later one. `None` if `cut` is no later one, if the blocks define a link or a footnote,
/// or if the writer is not at the beginning again after them.
fn settled_html<E: EntityLookup>(
    alloc: Global,
    text: &str,
    from: usize,
    cut: usize,
    options: Options,
    entities: &E,
    filter: &Filtering<'_>,
    limit: usize,
) -> Result<Option<String>, AllocError>
    requires begins { IsCharBoundary text.now from }
    requires ends { IsCharBoundary text.now cut }
    ensures { IfOk result (λ found. IfSome found (λ piece. (from < cut) × IsPieceHtml
        (profile_within limit (shown_options options) (E.replacement entities.now) false)
        (filtered_by filter.now) (take cut text.now) from (string_bytes piece))) }
{
    if cut <= from {
        return Ok(None);
    }
    let front = &text[..cut];
    let found = parse_undefined(alloc, front, from, options, entities, limit)?;
    match found {
        Some(mut parser) => settled_part(alloc, &mut parser, filter),
        None => Ok(None),
    }
}

/// The HTML of the events that the parser has left. `None` if the writer is not at the beginning again after them.
fn settled_part<'a, E: EntityLookup, F: BrokenLinkCallback<'a> + Drop>(
    alloc: Global,
    parser: &mut Parser<'a, E, F>,
    filter: &Filtering<'_>,
) -> Result<Option<String>, AllocError>
    requires goes { CanGo E.replacement parser.old }
    requires ready { IsReady F.ready parser.old }
    ensures { IfOk result (λ found. IfSome found (λ piece. WritesPiece F.answers E.replacement
        (filtered_by filter.now) parser.old parser.new (string_bytes piece))) }
{
    let Part {
        html,
        ends_at_beginning,
    } = write_part(alloc, parser, filter)?;
    if ends_at_beginning {
        Ok(Some(html))
    } else {
        Ok(None)
    }
}

/// Reads the blocks after a new cut. `settled` is the HTML of the blocks before it.
fn read_after<E: EntityLookup>(
    alloc: Global,
    text: &str,
    settled: String,
    cut: usize,
    options: Options,
    entities: &E,
    filter: &Filtering<'_>,
    limit: usize,
) -> Result<Rest, AllocError>
    requires begins { IsCharBoundary text.now cut }
    ensures { IfOk result (λ rest. (from : ℕ) → from < cut
        → (IsSettledAt (shown_options options) text.now from
        → IsSettledAt (shown_options options) text.now cut)
        → IsPieceHtml
        (profile_within limit (shown_options options) (E.replacement entities.now) false)
        (filtered_by filter.now) (take cut text.now) from (string_bytes settled)
        → IsRestFrom (filtered_by filter.now) limit text.now
        (shown_options options) (E.replacement entities.now)
        from (string_bytes rest.settled) (string_bytes rest.tail) rest.cut) }
{
    let found = parse_undefined(alloc, text, cut, options, entities, limit)?;
    match found {
        Some(mut parser) => with_tail(alloc, settled, cut, &mut parser, filter),
        None => read_whole(alloc, text, options, entities, filter, limit),
    }
}

/// The HTML of the settled blocks before the cut, and of the events that the parser has left.
fn with_tail<'a, E: EntityLookup, F: BrokenLinkCallback<'a> + Drop>(
    alloc: Global,
    settled: String,
    cut: usize,
    parser: &mut Parser<'a, E, F>,
    filter: &Filtering<'_>,
) -> Result<Rest, AllocError>
    requires goes { CanGo E.replacement parser.old }
    requires ready { IsReady F.ready parser.old }
    ensures { IfOk result (λ rest. (rest.cut ≡ cut) × (rest.settled ≡ settled)
        × WritesTail F.answers E.replacement (filtered_by filter.now)
        parser.old parser.new (string_bytes rest.tail)) }
{
    let Part { html: tail, .. } = write_part(alloc, parser, filter)?;
    Ok(Rest { settled, tail, cut })
}
