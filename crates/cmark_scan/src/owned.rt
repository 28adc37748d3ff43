//! The text of a tag that spans several lines.

ghost use Rattle.std.specs.Prelude.{◌≡◌, ◌<◌, ◌≤◌, ◌-◌, ◌++◌, length, drop, IfOk, OnOk, IfSome, option_map};
ghost use Rattle.std.specs.Str.{IsUtf8, IsCharBoundary};
ghost use Rattle.cmark_grammar.specs.Lines.{ends_line};
ghost use Rattle.cmark_grammar.specs.InlineHtml.{takes_lines, without_prefixes, owned_tag, owned_tag_in};
ghost use Rattle.cmark_grammar.specs.Tags.{prefix_after};
ghost use Rattle.cmark_scan_bytes.specs.Handled.{AnswersWithin, ForAnswers};
ghost use Rattle.cmark_scan.specs.Handled.{CutsNoCharacter};
ghost use Rattle.cmark_scan.specs.Shown.{shown_tag};

use cmark_scan_bytes::{after_tag, without_prefix};
use memchr::memchr2;
use std::alloc::{AllocError, Global};

/// An open or a closing tag.
#[derive(Drop)]
pub struct HtmlTag {
    /// The number of bytes from its `<` to the end of its `>`.
    pub end: usize,
    /// Its bytes without the prefixes of its later lines; empty if it is on one line.
    pub buffer: Vec<u8>,
}

/// Whether a line ends after this byte, if `rest` follows it: a line feed, or a carriage return without a line feed after it.
pub fn ends_line(byte: u8, rest: &[u8]) -> bool
    ensures { result ≡ ends_line byte rest.now }
{
    match byte {
        b'\n' => true,
        b'\r' => !matches!(rest, [b'\n', ..]),
        _ => false,
    }
}

/// The bytes after this one, without the prefix at their beginning if a line ends here.
fn after_prefix<'a, H: Fn(&[u8]) -> usize>(byte: u8, rest: &'a [u8], handler: &H) -> &'a [u8]
    requires callable { H.IsAlwaysCallable handler.now }
    requires within { AnswersWithin H.Fn handler.now }
    ensures value { ForAnswers H.Fn handler.now
        (λ prefix. result.now ≡ drop (prefix_after prefix byte rest.now) rest.now) }
    ensures within { length result.now ≤ length rest.now }
{
    if ends_line(byte, rest) {
        without_prefix(rest, handler)
    } else {
        rest
    }
}

/// Appends the bytes, except the last `following` ones and those of prefixes.
fn push_without_prefixes<H: Fn(&[u8]) -> usize>(
    buffer: &mut Vec<u8>,
    bytes: &[u8],
    following: usize,
    handler: &H,
) -> Result<(), AllocError>
    requires callable { H.IsAlwaysCallable handler.now }
    requires within { AnswersWithin H.Fn handler.now }
    ensures { ForAnswers H.Fn handler.now
        (λ prefix. OnOk result
        (buffer.new.items
        ≡ buffer.old.items ++ without_prefixes prefix (length bytes.now - following) 0 bytes.now)) }
{
    let mut rest = bytes;
    while let Some((first, others)) = rest.split_first() {
        if rest.len() <= following {
            break;
        }
        buffer.push(*first)?;
        rest = after_prefix(*first, others, handler);
    }
    Ok(())
}

/// Whether a line ends within these bytes.
fn takes_lines(bytes: &[u8]) -> bool
    ensures { result ≡ takes_lines bytes.now }
{
    memchr2(b'\n', b'\r', bytes).is_some()
}

/// The text that a tag owns: all bytes except the last `following` ones, without prefixes; empty if they are on one line.
fn own_text<H: Fn(&[u8]) -> usize>(
    alloc: Global,
    bytes: &[u8],
    following: usize,
    handler: &H,
) -> Result<Vec<u8>, AllocError>
    requires callable { H.IsAlwaysCallable handler.now }
    requires within { AnswersWithin H.Fn handler.now }
    requires following { following ≤ length bytes.now }
    ensures { ForAnswers H.Fn handler.now
        (λ prefix. IfOk result
        (λ text. text.items ≡ (owned_tag prefix (length bytes.now - following) bytes.now).buffer)) }
{
    let mut buffer = Vec::new(alloc);
    if !takes_lines(&bytes[..bytes.len() - following]) {
        return Ok(buffer);
    }
    push_without_prefixes(&mut buffer, bytes, following, handler)?;
    Ok(buffer)
}

/// The open or closing tag at the beginning, if there is one (CommonMark 6.6). White space in it has at most one line ending.
/// `newline_handler` gets the bytes after each line ending in the tag and returns the number of them that are prefixes of containers. It
/// must return equal results for equal bytes. If the bytes are UTF-8, `end` is a character boundary; if the handler's results are
/// boundaries too, `buffer` is UTF-8.
pub fn scan_html_block_inner<H: Fn(&[u8]) -> usize>(
    alloc: Global,
    bytes: &[u8],
    newline_handler: &H,
) -> Result<Option<HtmlTag>, AllocError>
    requires callable { H.IsAlwaysCallable newline_handler.now }
    requires within { AnswersWithin H.Fn newline_handler.now }
    ensures value { ForAnswers H.Fn newline_handler.now
        (λ prefix. IfOk result
        (λ found. option_map shown_tag found ≡ owned_tag_in prefix bytes.now)) }
    ensures within { IfOk result (λ found. IfSome found (λ tag. tag.end ≤ length bytes.now)) }
    ensures boundary { IsUtf8 bytes.now
        → ForAnswers H.Fn newline_handler.now
        (λ prefix. IfOk result (λ found. IfSome found (λ tag. IsCharBoundary bytes.now tag.end))) }
    ensures utf8 { IsUtf8 bytes.now
        → ForAnswers H.Fn newline_handler.now
        (λ prefix. CutsNoCharacter prefix
        → IfOk result (λ found. IfSome found (λ tag. IsUtf8 tag.buffer.items))) }
{
    let Some(rest) = after_tag(bytes, newline_handler) else {
        return Ok(None);
    };
    let buffer = own_text(alloc, bytes, rest.len(), newline_handler)?;
    let end = bytes.len() - rest.len();
    Ok(Some(HtmlTag { end, buffer }))
}
