//! Line endings in a text: a line feed, a carriage return, and both in this order.

ghost use Rattle.std.specs.Prelude.{◌≡◌, ◌≤◌, length, take, string_bytes, IfOk, MatchOption};
ghost use Rattle.cmark_grammar.specs.CodeSpans.{with_line_ends};
ghost use Rattle.cmark_grammar.specs.InlineHtml.{takes_lines};
ghost use Rattle.cmark_span_scan.specs.Ends.{HasNoEnd, EndsLine};

use cmark_scan_bytes::bytes::ending_len;
use cmark_search::{find_line_end, find_line_end_within};
use std::alloc::{AllocError, Global};

/// Whether the text has a line ending.
pub fn has_line_ending(text: &str) -> bool
    ensures { result ≡ takes_lines text.now }
{
    find_line_end(text.as_bytes()).is_some()
}

/// Whether the first `len` bytes of the text have a line ending. The search may read bytes after them, and so takes fewer steps.
#[inline(always)]
pub(crate) fn has_line_ending_within(text: &str, len: usize) -> bool
    requires { len ≤ length text.now }
    ensures { result ≡ takes_lines (take len text.now) }
{
    find_line_end_within(text.as_bytes(), len).is_some()
}

/// The offsets of a line ending.
#[derive(Clone, Copy)]
struct LineEnding {
    /// Its start.
    start: usize,
    /// Its end, exclusive.
    end: usize,
}

/// The first line ending.
fn find_line_ending(text: &str) -> Option<LineEnding>
    ensures { MatchOption result (HasNoEnd text.now)
        (λ found. EndsLine text.now found.start found.end) }
{
    let bytes = text.as_bytes();
    let start = find_line_end(bytes)?;
    let end = start + ending_len(&bytes[start..]);
    Some(LineEnding { start, end })
}

/// The text with each line ending replaced by `mark`.
pub fn with_line_ends(alloc: Global, text: &str, mark: &str) -> Result<String, AllocError>
    ensures { IfOk result (λ made. string_bytes made ≡ with_line_ends mark.now text.now) }
{
    let mut out = String::new(alloc);
    let mut rest = text;
    while let Some(found) = find_line_ending(rest) {
        out.push_str(&rest[..found.start])?;
        out.push_str(mark)?;
        rest = &rest[found.end..];
    }
    out.push_str(rest)?;
    Ok(out)
}
