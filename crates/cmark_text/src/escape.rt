//! Escapes of texts in HTML. Stretches of bytes that need no escape are copied whole.

ghost use Rattle.std.specs.Prelude.{◌≡◌, ◌+◌, ◌<◌, ◌≤◌, ℕ, true, false, not, ◌++◌, length, position, take, slice_range, slice_index, OnOk, OnErr, string_bytes};
ghost use Rattle.memchr.specs.Find.{IsFirstByte};
ghost use Rattle.cmark_grammar.specs.Escapes.{body_text_byte, escaped_body_text, html_byte, escaped_html, href_byte, escaped_href, hexadecimal_digit, percent_encoded};
ghost use Rattle.cmark_text.specs.Appended.{Writes};
ghost use Rattle.cmark_text.specs.Excerpt.{excerpt_bytes};
ghost use Rattle.cmark_text.specs.Marks.{is_body_text_mark, is_html_mark, is_href_mark};

use crate::excerpt::Excerpt;
use cmark_search::{find_first, find_first_within};
use std::alloc::AllocError;

/// Appends the text as body text of HTML: `&`, `<` and `>` are written as entities.
///
/// If memory is refused, the string holds its old text and a beginning of the escaped text.
#[inline(always)]
pub fn escape_html_body_text(out: &mut String, text: &str) -> Result<(), AllocError>
    ensures { Writes out.old out.new result (escaped_body_text text.now) }
{
    match find_body_text_mark(text) {
        None => out.push_str(text),
        Some(at) => escape_from(out, text, at),
    }
}

/// Appends the excerpt as body text of HTML, as `escape_html_body_text` does for a text. A short excerpt is searched together with the
/// bytes after it.
///
/// If memory is refused, the string holds its old text and a beginning of the escaped text.
#[inline(always)]
pub fn escape_excerpt(out: &mut String, excerpt: Excerpt<'_>) -> Result<(), AllocError>
    ensures { Writes out.old out.new result (escaped_body_text (excerpt_bytes excerpt.entry)) }
{
    match find_mark_within(excerpt.ahead, excerpt.len) {
        None => append_excerpt(out, excerpt),
        Some(at) => escape_from(out, excerpt.as_str(), at),
    }
}

/// Appends the excerpt as it is. If memory is refused, the string keeps its old text.
///
/// An excerpt of up to sixteen bytes is copied together with the bytes after it, if these are sixteen in all, and the excess is cut off. A
/// copy of a fixed length has no branch on the length.
#[inline(always)]
pub fn append_excerpt(out: &mut String, excerpt: Excerpt<'_>) -> Result<(), AllocError>
    ensures ok { OnOk result
        (string_bytes out.new ≡ string_bytes out.old ++ excerpt_bytes excerpt.entry) }
    ensures err { OnErr result (string_bytes out.new ≡ string_bytes out.old) }
{
    let ahead = excerpt.ahead;
    if excerpt.len <= 16 && ahead.len() >= 16 && ahead.is_char_boundary(16) {
        let len = out.len() + excerpt.len;
        out.push_str(&ahead[..16])?;
        out.truncate(len);
        return Ok(());
    }
    out.push_str(excerpt.as_str())
}

/// Appends a text as body text of HTML. `at` is the offset of the first byte that needs an escape. This is a function of its own so that
/// most texts, which need no escape, are appended by the caller itself.
#[inline(never)]
fn escape_from(out: &mut String, text: &str, first: usize) -> Result<(), AllocError>
    requires { IsFirstByte is_body_text_mark text.now (Some first) }
    ensures { Writes out.old out.new result (escaped_body_text text.now) }
{
    let mut rest = text;
    let mut found = Some(first);
    while let Some(at) = found {
        out.push_str(&rest[..at])?;
        out.push_str(body_text_entity(rest.as_bytes()[at]))?;
        rest = &rest[at + 1..];
        found = find_body_text_mark(rest);
    }
    out.push_str(rest)
}

/// The keys of the set of `&`, `<` and `>`. The key 1 at index 0 matches nothing, since the low digit of the byte 1 is not 0.
const BODY_TEXT_MARKS: &[u8; 16] = &[1, 0, 0, 0, 0, 0, 38, 0, 0, 0, 0, 0, 60, 0, 62, 0];

/// The offset of the first byte that `escape_html_body_text` escapes.
#[inline]
fn find_body_text_mark(text: &str) -> Option<usize>
    ensures { IsFirstByte is_body_text_mark text.now result }
{
    find_first(BODY_TEXT_MARKS, text.as_bytes())
}

/// The offset of the first byte that `escape_html_body_text` escapes, among the first `len` bytes of a text.
#[inline(always)]
fn find_mark_within(ahead: &str, len: usize) -> Option<usize>
    requires { len ≤ length ahead.now }
    ensures { IsFirstByte is_body_text_mark (take len ahead.now) result }
{
    find_first_within(BODY_TEXT_MARKS, ahead.as_bytes(), len)
}

/// The entity of a byte that `escape_html_body_text` escapes.
fn body_text_entity(byte: u8) -> &'static str
    requires { is_body_text_mark byte ≡ true }
    ensures { result.now ≡ body_text_byte byte }
{
    match byte {
        b'&' => "&amp;",
        b'<' => "&lt;",
        _ => "&gt;",
    }
}

/// 1 at each byte that `escape_html` escapes.
const HTML_MARKS: &[u8; 256] = &[
    0, 0, 0, 0, 0, 0, 0, 0, 0, 0, 0, 0, 0, 0, 0, 0, 0, 0, 0, 0, 0, 0, 0, 0, 0, 0, 0, 0, 0, 0, 0, 0,
    0, 0, 1, 0, 0, 0, 1, 1, 0, 0, 0, 0, 0, 0, 0, 0, 0, 0, 0, 0, 0, 0, 0, 0, 0, 0, 0, 0, 1, 0, 1, 0,
    0, 0, 0, 0, 0, 0, 0, 0, 0, 0, 0, 0, 0, 0, 0, 0, 0, 0, 0, 0, 0, 0, 0, 0, 0, 0, 0, 0, 0, 0, 0, 0,
    0, 0, 0, 0, 0, 0, 0, 0, 0, 0, 0, 0, 0, 0, 0, 0, 0, 0, 0, 0, 0, 0, 0, 0, 0, 0, 0, 0, 0, 0, 0, 0,
    0, 0, 0, 0, 0, 0, 0, 0, 0, 0, 0, 0, 0, 0, 0, 0, 0, 0, 0, 0, 0, 0, 0, 0, 0, 0, 0, 0, 0, 0, 0, 0,
    0, 0, 0, 0, 0, 0, 0, 0, 0, 0, 0, 0, 0, 0, 0, 0, 0, 0, 0, 0, 0, 0, 0, 0, 0, 0, 0, 0, 0, 0, 0, 0,
    0, 0, 0, 0, 0, 0, 0, 0, 0, 0, 0, 0, 0, 0, 0, 0, 0, 0, 0, 0, 0, 0, 0, 0, 0, 0, 0, 0, 0, 0, 0, 0,
    0, 0, 0, 0, 0, 0, 0, 0, 0, 0, 0, 0, 0, 0, 0, 0, 0, 0, 0, 0, 0, 0, 0, 0, 0, 0, 0, 0, 0, 0, 0, 0,
];

/// Appends the text as the value of an attribute of HTML: `&`, `<`, `>`, `"` and `'` are written as entities.
///
/// If memory is refused, the string holds its old text and a beginning of the escaped text.
pub fn escape_html(out: &mut String, text: &str) -> Result<(), AllocError>
    ensures { Writes out.old out.new result (escaped_html text.now) }
{
    let mut rest = text;
    while let Some(at) = find_html_mark(rest) {
        out.push_str(&rest[..at])?;
        out.push_str(html_entity(rest.as_bytes()[at]))?;
        rest = &rest[at + 1..];
    }
    out.push_str(rest)
}

/// The offset of the first byte that `escape_html` escapes.
#[inline]
fn find_html_mark(text: &str) -> Option<usize>
    ensures { result ≡ position is_html_mark text.now }
{
    text.as_bytes().iter().position(|byte| is_html_mark(*byte))
}

#[inline]
fn is_html_mark(byte: u8) -> bool
    ensures { result ≡ is_html_mark byte }
{
    HTML_MARKS[byte as usize] != 0
}

/// The entity of a byte that `escape_html` escapes.
fn html_entity(byte: u8) -> &'static str
    requires { is_html_mark byte ≡ true }
    ensures { result.now ≡ html_byte byte }
{
    match byte {
        b'&' => "&amp;",
        b'<' => "&lt;",
        b'>' => "&gt;",
        b'"' => "&quot;",
        _ => "&#x27;",
    }
}

/// 1 at each byte that `escape_href` escapes.
const HREF_MARKS: &[u8; 256] = &[
    1, 1, 1, 1, 1, 1, 1, 1, 1, 1, 1, 1, 1, 1, 1, 1, 1, 1, 1, 1, 1, 1, 1, 1, 1, 1, 1, 1, 1, 1, 1, 1,
    1, 0, 1, 0, 0, 0, 1, 1, 0, 0, 0, 0, 0, 0, 0, 0, 0, 0, 0, 0, 0, 0, 0, 0, 0, 0, 0, 0, 1, 0, 1, 0,
    0, 0, 0, 0, 0, 0, 0, 0, 0, 0, 0, 0, 0, 0, 0, 0, 0, 0, 0, 0, 0, 0, 0, 0, 0, 0, 0, 1, 1, 1, 1, 0,
    1, 0, 0, 0, 0, 0, 0, 0, 0, 0, 0, 0, 0, 0, 0, 0, 0, 0, 0, 0, 0, 0, 0, 0, 0, 0, 0, 1, 1, 1, 0, 1,
    1, 1, 1, 1, 1, 1, 1, 1, 1, 1, 1, 1, 1, 1, 1, 1, 1, 1, 1, 1, 1, 1, 1, 1, 1, 1, 1, 1, 1, 1, 1, 1,
    1, 1, 1, 1, 1, 1, 1, 1, 1, 1, 1, 1, 1, 1, 1, 1, 1, 1, 1, 1, 1, 1, 1, 1, 1, 1, 1, 1, 1, 1, 1, 1,
    1, 1, 1, 1, 1, 1, 1, 1, 1, 1, 1, 1, 1, 1, 1, 1, 1, 1, 1, 1, 1, 1, 1, 1, 1, 1, 1, 1, 1, 1, 1, 1,
    1, 1, 1, 1, 1, 1, 1, 1, 1, 1, 1, 1, 1, 1, 1, 1, 1, 1, 1, 1, 1, 1, 1, 1, 1, 1, 1, 1, 1, 1, 1, 1,
];

/// The digits of percent-encoding.
static HEXADECIMAL_DIGITS: [char; 16] = [
    '0', '1', '2', '3', '4', '5', '6', '7', '8', '9', 'A', 'B', 'C', 'D', 'E', 'F',
];

/// Appends a URL as the value of an attribute of HTML. `&` and `'` are written as entities. ASCII letters, digits and
/// ``!#$%()*+,-./:;=?@_~`` are kept. Each other byte is written as `%` with two upper-case hexadecimal digits.
///
/// If memory is refused, the string holds its old text and a beginning of the escaped URL.
#[inline(always)]
pub fn escape_href(out: &mut String, url: &str) -> Result<(), AllocError>
    ensures { Writes out.old out.new result (escaped_href url.now) }
{
    let mut from = 0;
    while from < url.len() {
        let at = find_href_mark(url, from);
        push_kept(out, url, from, at)?;
        if at == url.len() {
            break;
        }
        push_href_byte(out, url.as_bytes()[at])?;
        from = at + 1;
    }
    Ok(())
}

/// The offset of the first byte from `from` on that `escape_href` escapes, or the length.
#[inline]
fn find_href_mark(url: &str, from: usize) -> usize
    requires { from ≤ length url.now }
    ensures past { from ≤ result }
    ensures in_bounds { result ≤ length url.now }
    ensures kept { (k : ℕ) → from ≤ k → k < result → is_href_mark (slice_index url.now k) ≡ false }
    ensures stops { result < length url.now → is_href_mark (slice_index url.now result) ≡ true }
{
    let bytes = url.as_bytes();
    for at in from..bytes.len() {
        if is_href_mark(bytes[at]) {
            return at;
        }
    }
    bytes.len()
}

#[inline]
fn is_href_mark(byte: u8) -> bool
    ensures { result ≡ is_href_mark byte }
{
    HREF_MARKS[byte as usize] != 0
}

/// Appends the bytes of the URL from `from` up to `to`. None of them needs an escape, so they are ASCII.
fn push_kept(out: &mut String, url: &str, from: usize, to: usize) -> Result<(), AllocError>
    requires ordered { from ≤ to }
    requires in_bounds { to ≤ length url.now }
    requires kept { (k : ℕ) → from ≤ k → k < to → is_href_mark (slice_index url.now k) ≡ false }
    ensures ok { OnOk result
        (string_bytes out.new ≡ string_bytes out.old ++ slice_range url.now from to) }
    ensures err { OnErr result (string_bytes out.new ≡ string_bytes out.old) }
{
    if from == to {
        return Ok(());
    }
    out.push_str(&url[from..to])
}

/// Appends the escape of a byte that `escape_href` does not keep.
fn push_href_byte(out: &mut String, byte: u8) -> Result<(), AllocError>
    requires { is_href_mark byte ≡ true }
    ensures { Writes out.old out.new result (href_byte byte) }
{
    match byte {
        b'&' => out.push_str("&amp;"),
        b'\'' => out.push_str("&#x27;"),
        _ => push_percent_encoded(out, byte),
    }
}

fn push_percent_encoded(out: &mut String, byte: u8) -> Result<(), AllocError>
    ensures { Writes out.old out.new result (percent_encoded byte) }
{
    out.push('%')?;
    out.push(hexadecimal_digit(byte / 16))?;
    out.push(hexadecimal_digit(byte % 16))
}

/// The upper-case digit of a number below 16.
fn hexadecimal_digit(number: u8) -> char
    requires { number < 16 }
    ensures { result ≡ hexadecimal_digit number }
{
    HEXADECIMAL_DIGITS[number as usize]
}
