//! Code spans (CommonMark 6.1).

ghost use Rattle.std.specs.Prelude.{◌≡◌, ◌≤◌, ◌<◌, ◌+◌, ◌-◌, ◌^◌, MatchOption, not, count_by, None, false, true, length, drop, take, IfOk, IsOk, IfSome, option_map};
ghost use Rattle.std.specs.Str.{IsCharBoundary};
ghost use Rattle.cmark_grammar.specs.CodeSpans.{backticks, up_to_run, code_in, is_space, is_padded, without_padding, code_text};
ghost use Rattle.cmark_grammar.specs.InlineHtml.{takes_lines};
ghost use Rattle.cmark_values.specs.Shown.{text_bytes};
ghost use Rattle.cmark_values.specs.Lending.{IsBorrowed, IsPartIfBorrowed, IsPartOf};
ghost use Rattle.cmark_span_scan.specs.Backticks.{runs_in};
ghost use Rattle.cmark_span_scan.specs.Shown.{shown_code, IsCodeAt, ClosesFirst};

use crate::line_end::{has_line_ending_within, with_line_ends};
use cmark_search::find_backtick;
use cmark_values::CowStr;
use std::alloc::{AllocError, Global};

/// The offsets of a code span in its text.
#[derive(Clone, Copy)]
pub struct CodeSpan {
    /// The end of the opening run of backticks, exclusive.
    pub content_start: usize,
    /// The offset of the closing run.
    pub content_end: usize,
    /// The end of the closing run, exclusive.
    pub end: usize,
}

/// The number of backticks at the start.
pub(crate) fn backticks(bytes: &[u8]) -> usize
    ensures value { result ≡ backticks bytes.now }
    ensures within { result ≤ length bytes.now }
{
    bytes.iter().take_while(|byte| **byte == b'`').count()
}

/// The offset of the first run of exactly `size` backticks. `visited` counts the runs that are looked at, including this one.
fn find_run(bytes: &[u8], size: usize, visited: &mut u128) -> Option<usize>
    requires { visited.old + length bytes.now < 2 ^ 128 }
    ensures counts { MatchOption result (visited.new ≡ visited.old + runs_in false bytes.now)
        (λ at. visited.new + runs_in false (drop at bytes.now)
        ≡ visited.old + runs_in false bytes.now + 1) }
    ensures least { IfSome result (λ at. visited.old < visited.new) }
    ensures grows { visited.old ≤ visited.new }
    ensures value { option_map
        (λ at. record { bytes = take at bytes.now; following = drop at bytes.now }) result
        ≡ up_to_run size false bytes.now }
    ensures within { IfSome result (λ at. at ≤ length bytes.now) }
    ensures run { IfSome result (λ at. backticks (drop at bytes.now) ≡ size) }
{
    let mut rest = bytes;
    while let Some(at) = find_backtick(rest) {
        let run = &rest[at..];
        let count = backticks(run);
        *visited += 1;
        if count == size {
            return Some(bytes.len() - run.len());
        }
        rest = &run[count..];
    }
    None
}

/// The code span whose opening run of backticks is at the offset `at` of the text (CommonMark 6.1). It is closed by the first later run of
/// the same length. `None` if no backtick is at this offset, or if no such run follows. `visited` counts the runs that are looked at.
pub fn code_span(text: &str, at: usize, visited: &mut u128) -> Option<CodeSpan>
    requires place { IsCharBoundary text.now at }
    requires room { visited.old + length text.now < 2 ^ 128 }
    ensures few { visited.new ≤ visited.old + (length text.now - at) }
    ensures found { IfSome result (λ span. visited.new < visited.old + (span.end - at)) }
    ensures least { IfSome result (λ span. visited.old < visited.new) }
    ensures grows { visited.old ≤ visited.new }
    ensures value { option_map (shown_code text.now) result ≡ code_in (drop at text.now) }
    ensures places { IfSome result (IsCodeAt text.now at) }
    ensures first { IfSome result (ClosesFirst text.now at) }
{
    let run = &text.as_bytes()[at..];
    let size = backticks(run);
    if size == 0 {
        return None;
    }
    let content = find_run(&run[size..], size, visited)?;
    let content_start = at + size;
    let content_end = content_start + content;
    Some(CodeSpan {
        content_start,
        content_end,
        end: content_end + size,
    })
}

/// The number of bytes that are not spaces.
fn others(bytes: &[u8]) -> usize
    ensures { result ≡ count_by (λ b. not (is_space b)) bytes.now }
{
    bytes.iter().filter(|byte| **byte != b' ').count()
}

/// Whether there is a space at both ends, and not all bytes are spaces.
fn is_padded(bytes: &[u8]) -> bool
    ensures { result ≡ is_padded bytes.now }
{
    let size = bytes.len();
    0 < size && bytes[0] == b' ' && bytes[size - 1] == b' ' && 0 < others(bytes)
}

/// The text without a space at each end, if it is padded.
fn without_padding(text: &str) -> &str
    ensures value { result.now ≡ without_padding text.entry.now }
    ensures part { IsPartOf text.entry.now result.now }
{
    if is_padded(text.as_bytes()) {
        &text[1..text.len() - 1]
    } else {
        text
    }
}

/// The text of a code span whose content is the first `len` bytes of `ahead`, if the content has no line ending (CommonMark 6.1): a part of
/// the content. `len` has to be a character boundary.
#[inline(always)]
pub fn code_part<'t>(ahead: &'t str, len: usize) -> Option<&'t str>
    requires { IsCharBoundary ahead.now len }
    ensures value { IfSome result (λ made. made.now ≡ code_text (take len ahead.entry.now)) }
    ensures part { IfSome result (λ made. IsPartOf (take len ahead.entry.now) made.now) }
    ensures none { result ≡ None → takes_lines (take len ahead.entry.now) ≡ true }
{
    if has_line_ending_within(ahead, len) {
        return None;
    }
    let content = &ahead[..len];
    Some(without_padding(content))
}

/// The text of a code span with this content (CommonMark 6.1). Each line ending becomes a space. Then one space is removed at each end, if
/// both ends are spaces and not all bytes are. The text is borrowed if the content has no line ending. Fails only if memory is refused.
pub fn code_text<'t>(alloc: Global, content: &'t str) -> Result<CowStr<'t>, AllocError>
    ensures value { IfOk result (λ made. text_bytes made ≡ code_text content.entry.now) }
    ensures lent { takes_lines content.entry.now ≡ false → IfOk result IsBorrowed }
    ensures part { IfOk result (IsPartIfBorrowed content.entry.now) }
    ensures succeeds { takes_lines content.entry.now ≡ false → IsOk result }
{
    if let Some(part) = code_part(content, content.len()) {
        return Ok(CowStr::Borrowed(part));
    }
    let text = with_line_ends(alloc, content, " ")?;
    CowStr::Borrowed(without_padding(text.as_str())).into_static(alloc)
}
