//! Literal pipes in table cells (GFM 4.10).

ghost use Rattle.std.specs.Prelude.{◌≡◌, ◌⊎◌, ◌<◌, ◌≤◌, ◌++◌, length, Ok, string_bytes, IfOk, IsTrue, OnOk, MatchOption};
ghost use Rattle.cmark_grammar.specs.InlineTokens.{without_pipe_escapes};
ghost use Rattle.cmark_grammar.specs.LabelsOverLines.{with_literal_pipes};
ghost use Rattle.cmark_grammar.specs.Letters.{starts};
ghost use Rattle.cmark_values.specs.Shown.{IsBoxed, text_bytes};
ghost use Rattle.cmark_scan_bytes.specs.Pipes.{Drops, LeavesOut};

use cmark_values::CowStr;
use memchr::memmem;
use std::alloc::{AllocError, Global};

/// The backslashes of a literal pipe.
#[derive(Clone, Copy)]
struct Backslashes {
    /// The byte offset at which they begin.
    start: usize,
    /// The byte offset of the pipe.
    end: usize,
}

/// Whether the bytes begin with this prefix.
fn starts(bytes: &[u8], prefix: &[u8]) -> bool
    ensures value { result ≡ starts prefix.now bytes.now }
    ensures within { IsTrue result → length prefix.now ≤ length bytes.now }
{
    bytes.starts_with(prefix)
}

/// The one or two backslashes that the first literal pipe loses. Backslashes are read from the left, in pairs.
fn find_backslashes(text: &str) -> Option<Backslashes>
    ensures { MatchOption result (with_literal_pipes text.now ≡ text.now)
        (λ found. Drops text.now found.start found.end) }
{
    let bytes = text.as_bytes();
    let mut start = 0;
    // Whether the byte is the second of a pair that stays.
    let mut is_second = false;
    while start < bytes.len() {
        if is_second {
            is_second = false;
            start += 1;
            continue;
        }
        let rest = &bytes[start..];
        if starts(rest, b"\\|") {
            let end = start + 1;
            return Some(Backslashes { start, end });
        }
        if starts(rest, b"\\\\|") {
            let end = start + 2;
            return Some(Backslashes { start, end });
        }
        is_second = starts(rest, b"\\\\");
        start += 1;
    }
    None
}

/// Appends the text without the backslashes of its literal pipes.
fn push_with_literal_pipes(out: &mut String, text: &str) -> Result<(), AllocError>
    ensures { OnOk result
        (string_bytes out.new ≡ string_bytes out.old ++ with_literal_pipes text.now) }
{
    let mut rest = text;
    while let Some(found) = find_backslashes(rest) {
        out.push_str(&rest[..found.start])?;
        rest = &rest[found.end..];
    }
    out.push_str(rest)?;
    Ok(())
}

/// The text with `|` in place of each `\|` and `\\|`, with backslashes read from the left in pairs; this value if there is none. Fails
/// only if memory is refused.
pub fn with_literal_pipes<'a>(alloc: Global, text: CowStr<'a>) -> Result<CowStr<'a>, AllocError>
    ensures value { IfOk result
        (λ made. text_bytes made ≡ with_literal_pipes (text_bytes text.entry)) }
    ensures kept { with_literal_pipes (text_bytes text.entry) ≡ text_bytes text.entry
        → result ≡ Ok text.entry }
{
    if find_backslashes(text.as_str()).is_none() {
        return Ok(text);
    }
    let mut out = String::new(alloc);
    push_with_literal_pipes(&mut out, text.as_str())?;
    CowStr::from_string(out)
}

/// The byte offset of the first backslash directly before a pipe.
fn find_pipe_escape(text: &str) -> Option<usize>
    ensures { MatchOption result (without_pipe_escapes text.now ≡ text.now) (LeavesOut text.now) }
{
    memmem::find(text.as_bytes(), b"\\|")
}

/// Appends the text without each backslash directly before a pipe.
fn push_without_pipe_escapes(out: &mut String, text: &str) -> Result<(), AllocError>
    ensures { OnOk result
        (string_bytes out.new ≡ string_bytes out.old ++ without_pipe_escapes text.now) }
{
    let mut rest = text;
    while let Some(backslash) = find_pipe_escape(rest) {
        out.push_str(&rest[..backslash])?;
        rest = &rest[backslash + 1..];
    }
    out.push_str(rest)?;
    Ok(())
}

/// The content of code and formulas in a table cell (GFM 4.10): an owned text with `|` in place of each `\|`. If there is none, the same
/// value is returned. Of `\\|` one backslash remains. Fails only if memory is refused.
pub fn without_pipe_escapes<'a>(alloc: Global, text: CowStr<'a>) -> Result<CowStr<'a>, AllocError>
    ensures value { IfOk result
        (λ made. text_bytes made ≡ without_pipe_escapes (text_bytes text.entry)) }
    ensures kept { without_pipe_escapes (text_bytes text.entry) ≡ text_bytes text.entry
        → result ≡ Ok text.entry }
    ensures own { (result ≡ Ok text.entry) ⊎ IfOk result IsBoxed }
{
    if find_pipe_escape(text.as_str()).is_none() {
        return Ok(text);
    }
    let mut out = String::new(alloc);
    push_without_pipe_escapes(&mut out, text.as_str())?;
    Ok(CowStr::Boxed(out.into_boxed_str()))
}
