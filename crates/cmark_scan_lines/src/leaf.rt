//! Scanners of leaf blocks of one line (CommonMark 4.1 to 4.5). Each gets a line without its indent and its ending.

ghost use Rattle.std.specs.Prelude.{◌≡◌, ℕ, IfSome, option_map};
ghost use Rattle.std.specs.List.{position};
ghost use Rattle.cmark_grammar.specs.Leaves.{run, is_break_of, is_thematic_break, is_run_of, underline_of, fence_of};
ghost use Rattle.cmark_values.specs.Shown.{level_number};
ghost use Rattle.cmark_scan_lines.specs.LeafLines.{is_break_character, stops_break, level_at, atx_level, shown_fence, HasPlace, long_fence, backtick_fence, closes_with};

use crate::bytes::{are_blank, count_leading, is_parted, trimmed};
use cmark_scan_bytes::bytes::{count_blanks, is_blank};
use cmark_values::HeadingLevel;
use memchr::memchr;

/// A code fence that opens a block (CommonMark 4.5).
#[derive(Clone, Copy)]
pub struct CodeFence {
    /// The fence's character, a backtick or a tilde.
    pub delimiter: u8,
    /// The length of the fence, at least three.
    pub run_length: usize,
    /// The byte offset in the passed line at which the info string begins, without the blanks around it.
    pub info_start: usize,
    /// The byte offset at which it ends.
    pub info_end: usize,
}

/// Whether the line is a thematic break (CommonMark 4.1): three or more of `*`, `-` or `_`, all equal, with blanks between and after
/// them.
#[inline]
pub fn scan_hrule(line: &[u8]) -> bool
    ensures { result ≡ is_thematic_break line.now }
{
    let rest = &line[count_blanks(line)..];
    match rest {
        [character, ..] => is_break_character(*character) && is_break_of(rest, *character),
        [] => false,
    }
}

/// Whether a thematic break may consist of this byte.
#[inline]
pub(crate) fn is_break_character(byte: u8) -> bool
    ensures { result ≡ is_break_character byte }
{
    byte == b'*' || byte == b'-' || byte == b'_'
}

/// The place of the first byte that is neither this one nor a blank.
#[inline]
pub(crate) fn break_stop(line: &[u8], character: u8) -> Option<usize>
    ensures { result ≡ position (stops_break character) line.now }
{
    line.iter()
        .position(|byte| *byte != character && !is_blank(*byte))
}

/// Whether the byte occurs at least three times, and all other bytes are blanks.
pub(crate) fn is_break_of(line: &[u8], character: u8) -> bool
    ensures { result ≡ is_break_of character line.now }
{
    let mut count: usize = 0;
    for byte in line {
        if *byte == character {
            count += 1;
        } else if !is_blank(*byte) {
            return false;
        }
    }
    count >= 3
}

/// The level of the ATX heading that the line is, if it is one (CommonMark 4.2): one to six `#`, then a blank or the end.
#[inline]
pub fn scan_atx_heading(line: &[u8]) -> Option<HeadingLevel>
    ensures { option_map level_number result ≡ atx_level line.now }
{
    let hashes = count_leading(line, b'#');
    if !is_parted(&line[hashes..]) {
        return None;
    }
    heading_level(hashes)
}

/// The level of the heading that `#` repeated this many times opens, if it opens one.
#[inline]
fn heading_level(hashes: usize) -> Option<HeadingLevel>
    ensures { option_map level_number result ≡ level_at hashes }
{
    match hashes {
        1 => Some(HeadingLevel::H1),
        2 => Some(HeadingLevel::H2),
        3 => Some(HeadingLevel::H3),
        4 => Some(HeadingLevel::H4),
        5 => Some(HeadingLevel::H5),
        6 => Some(HeadingLevel::H6),
        _ => None,
    }
}

/// The level of the heading that the line makes of the paragraph before it, if it is a setext heading underline (CommonMark 4.3). An
/// underline is one run of `=` or of `-`, then only blanks.
#[inline]
pub fn scan_setext_heading(line: &[u8]) -> Option<HeadingLevel>
    ensures { option_map level_number result ≡ underline_of line.now }
{
    if is_run_of(line, b'=') {
        Some(HeadingLevel::H1)
    } else if is_run_of(line, b'-') {
        Some(HeadingLevel::H2)
    } else {
        None
    }
}

/// Whether the line is one run of this byte, and then only blanks.
#[inline]
fn is_run_of(line: &[u8], character: u8) -> bool
    ensures { result ≡ is_run_of character line.now }
{
    let run_length = count_leading(line, character);
    run_length > 0 && are_blank(&line[run_length..])
}

/// The code fence that the line is, if it opens a code block (CommonMark 4.5): three or more backticks without backticks after them, or
/// three or more tildes.
#[inline]
pub fn scan_code_fence(line: &[u8]) -> Option<CodeFence>
    ensures fence { (indent : ℕ)
        → option_map (shown_fence indent line.now) result ≡ fence_of indent line.now }
    ensures place { IfSome result (HasPlace line.now) }
{
    match line {
        [b'`', ..] => backtick_fence(line),
        [b'~', ..] => fence_of(line, b'~'),
        _ => None,
    }
}

/// A fence of three or more backticks, without backticks after them.
#[inline]
fn backtick_fence(line: &[u8]) -> Option<CodeFence>
    ensures fence { (indent : ℕ)
        → option_map (shown_fence indent line.now) result ≡ backtick_fence indent line.now }
    ensures place { IfSome result (HasPlace line.now) }
{
    let fence = fence_of(line, b'`')?;
    if memchr(b'`', &line[fence.run_length..]).is_some() {
        return None;
    }
    Some(fence)
}

/// A fence of three or more of this byte, whatever follows.
#[inline]
fn fence_of(line: &[u8], delimiter: u8) -> Option<CodeFence>
    ensures fence { (indent : ℕ)
        → option_map (shown_fence indent line.now) result ≡ long_fence indent delimiter line.now }
    ensures place { IfSome result (HasPlace line.now) }
    ensures run_length { IfSome result (λ fence. fence.run_length ≡ run delimiter line.now) }
{
    let run_length = count_leading(line, delimiter);
    if run_length < 3 {
        return None;
    }
    let following = &line[run_length..];
    let info_start = run_length + count_blanks(following);
    Some(CodeFence {
        delimiter,
        run_length,
        info_start,
        info_end: info_start + trimmed(following).len(),
    })
}

/// Whether the line closes a code block whose fence has `run_length` of this byte (CommonMark 4.5): at least as long a run of it, then only
/// blanks.
#[inline]
pub fn scan_closing_code_fence(line: &[u8], delimiter: u8, run_length: usize) -> bool
    ensures { result ≡ closes_with delimiter run_length line.now }
{
    let run = count_leading(line, delimiter);
    run >= run_length && are_blank(&line[run..])
}
