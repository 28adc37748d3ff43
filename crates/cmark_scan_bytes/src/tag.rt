//! Open and closing tags (CommonMark 6.6).
//!
//! A tag may span several lines. After each line ending come the prefixes of the containers around it. A handler gets the bytes after a
//! line ending and returns the number of them that are prefixes.

ghost use Rattle.std.specs.Prelude.{◌≡◌, ◌-◌, ◌<◌, ◌≤◌, length, true, option_copied, IfSome};
ghost use Rattle.std.specs.Str.{IsUtf8, IsCharBoundary};
ghost use Rattle.cmark_grammar.specs.Lines.{is_content};
ghost use Rattle.cmark_grammar.specs.Tags.{without_prefix, after_space, after_tag_name, after_attribute_name, after_bare_value, after_open_end, after_closing_tag, after_quotation_mark, after_value, after_assigned, after_attribute, after_attributes, after_open_tag, after_tag_start, after_tag, no_prefix};
ghost use Rattle.cmark_scan_bytes.specs.Handled.{AnswersWithin, ForAnswers};

use crate::bytes::{Class, after_ending, is_attribute_start, is_letter, is_space};
use crate::find::{after_byte, at_first3};

/// The bytes after a tag's name, if they begin with one: a letter, then letters, digits and `-`.
fn after_tag_name(bytes: &[u8]) -> Option<&[u8]>
    ensures value { option_copied result ≡ after_tag_name bytes.now }
    ensures within { IfSome result (λ rest. length rest.now ≤ length bytes.now) }
{
    match bytes {
        [first, rest @ ..] if is_letter(*first) => Some(Class::TagName.following(rest)),
        _ => None,
    }
}

/// The bytes after an attribute's name, if they begin with one: a letter, `_` or `:`, then letters, digits, `_`, `:`, `.` and `-`.
fn after_attribute_name(bytes: &[u8]) -> Option<&[u8]>
    ensures value { option_copied result ≡ after_attribute_name bytes.now }
    ensures within { IfSome result (λ rest. length rest.now < length bytes.now) }
{
    match bytes {
        [first, rest @ ..] if is_attribute_start(*first) => {
            Some(Class::AttributeName.following(rest))
        }
        _ => None,
    }
}

/// The bytes after a bare value, if they begin with one.
fn after_bare_value(bytes: &[u8]) -> Option<&[u8]>
    ensures value { option_copied result ≡ after_bare_value bytes.now }
    ensures within { IfSome result (λ rest. length rest.now ≤ length bytes.now) }
{
    match bytes {
        [first, rest @ ..] if Class::BareValue.has(*first) => Some(Class::BareValue.following(
            rest,
        )),
        _ => None,
    }
}

/// The bytes after the end of an open tag, if they begin with it: `>`, or `/>`.
fn after_open_end(bytes: &[u8]) -> Option<&[u8]>
    ensures value { option_copied result ≡ after_open_end bytes.now }
    ensures within { IfSome result (λ rest. length rest.now ≤ length bytes.now) }
{
    match bytes {
        [b'/', rest @ ..] => after_byte(b'>', rest),
        _ => after_byte(b'>', bytes),
    }
}

/// The bytes after a closing tag, if `bytes` follow its `</`.
fn after_closing_tag(bytes: &[u8]) -> Option<&[u8]>
    ensures value { option_copied result ≡ after_closing_tag bytes.now }
    ensures within { IfSome result (λ rest. length rest.now ≤ length bytes.now) }
{
    after_byte(b'>', Class::Blank.following(after_tag_name(bytes)?))
}

/// The rest of a line without its prefixes; the handler returns their number of bytes.
pub fn without_prefix<'a, H: Fn(&[u8]) -> usize>(bytes: &'a [u8], handler: &H) -> &'a [u8]
    requires callable { H.IsAlwaysCallable handler.now }
    requires within { AnswersWithin H.Fn handler.now }
    ensures value { ForAnswers H.Fn handler.now
        (λ prefix. result.now ≡ without_prefix prefix bytes.now) }
    ensures within { length result.now ≤ length bytes.now }
{
    &bytes[handler(bytes)..]
}

/// The bytes after white space: blanks with at most one line ending, and the prefixes of the next line.
fn after_space<'a, H: Fn(&[u8]) -> usize>(bytes: &'a [u8], handler: &H) -> &'a [u8]
    requires callable { H.IsAlwaysCallable handler.now }
    requires within { AnswersWithin H.Fn handler.now }
    ensures value { ForAnswers H.Fn handler.now
        (λ prefix. result.now ≡ after_space prefix bytes.now) }
    ensures within { length result.now ≤ length bytes.now }
{
    let blanks = Class::Blank.following(bytes);
    match after_ending(blanks) {
        Some(rest) => Class::Blank.following(without_prefix(rest, handler)),
        None => blanks,
    }
}

/// The bytes after the closing quote, if `bytes` follow the opening one.
fn after_quotation_mark<'a, H: Fn(&[u8]) -> usize>(
    quote: u8,
    bytes: &'a [u8],
    handler: &H,
) -> Option<&'a [u8]>
    requires callable { H.IsAlwaysCallable handler.now }
    requires within { AnswersWithin H.Fn handler.now }
    requires quote { is_content quote ≡ true }
    ensures value { ForAnswers H.Fn handler.now
        (λ prefix. option_copied result ≡ after_quotation_mark prefix quote 0 bytes.now) }
    ensures within { IfSome result (λ rest. length rest.now ≤ length bytes.now) }
{
    let mut line = bytes;
    'lines: loop {
        let stop = at_first3(quote, b'\n', b'\r', line);
        match after_ending(stop) {
            Some(next) => line = without_prefix(next, handler),
            None => return after_byte(quote, stop),
        }
    }
}

/// The bytes after an attribute's value, if they begin with one.
fn after_value<'a, H: Fn(&[u8]) -> usize>(bytes: &'a [u8], handler: &H) -> Option<&'a [u8]>
    requires callable { H.IsAlwaysCallable handler.now }
    requires within { AnswersWithin H.Fn handler.now }
    ensures value { ForAnswers H.Fn handler.now
        (λ prefix. option_copied result ≡ after_value prefix bytes.now) }
    ensures within { IfSome result (λ rest. length rest.now ≤ length bytes.now) }
{
    match bytes {
        [b'"', rest @ ..] => after_quotation_mark(b'"', rest, handler),
        [b'\'', rest @ ..] => after_quotation_mark(b'\'', rest, handler),
        _ => after_bare_value(bytes),
    }
}

/// The bytes after an attribute's value, or after its name if there is no `=`. `name` are the bytes after the name. `None` if no value
/// follows the `=`.
fn after_assigned<'a, H: Fn(&[u8]) -> usize>(name: &'a [u8], handler: &H) -> Option<&'a [u8]>
    requires callable { H.IsAlwaysCallable handler.now }
    requires within { AnswersWithin H.Fn handler.now }
    ensures value { ForAnswers H.Fn handler.now
        (λ prefix. option_copied result
        ≡ after_assigned prefix name.now (after_space prefix name.now)) }
    ensures within { IfSome result (λ rest. length rest.now ≤ length name.now) }
{
    match after_space(name, handler) {
        [b'=', value @ ..] => after_value(after_space(value, handler), handler),
        _ => Some(name),
    }
}

/// The bytes after an attribute, if white space and an attribute are at the beginning.
fn after_attribute<'a, H: Fn(&[u8]) -> usize>(bytes: &'a [u8], handler: &H) -> Option<&'a [u8]>
    requires callable { H.IsAlwaysCallable handler.now }
    requires within { AnswersWithin H.Fn handler.now }
    ensures value { ForAnswers H.Fn handler.now
        (λ prefix. option_copied result ≡ after_attribute prefix bytes.now) }
    ensures within { IfSome result (λ rest. length rest.now < length bytes.now) }
{
    match bytes {
        [first, ..] if is_space(*first) => {
            after_assigned(after_attribute_name(after_space(bytes, handler))?, handler)
        }
        _ => None,
    }
}

/// The bytes after all attributes at the beginning.
fn after_attributes<'a, H: Fn(&[u8]) -> usize>(bytes: &'a [u8], handler: &H) -> &'a [u8]
    requires callable { H.IsAlwaysCallable handler.now }
    requires within { AnswersWithin H.Fn handler.now }
    ensures value { ForAnswers H.Fn handler.now
        (λ prefix. result.now ≡ after_attributes prefix (length bytes.now) bytes.now) }
    ensures within { length result.now ≤ length bytes.now }
{
    let mut rest = bytes;
    while let Some(next) = after_attribute(rest, handler) {
        rest = next;
    }
    rest
}

/// The bytes after an open tag, if `bytes` follow its `<`.
fn after_open_tag<'a, H: Fn(&[u8]) -> usize>(bytes: &'a [u8], handler: &H) -> Option<&'a [u8]>
    requires callable { H.IsAlwaysCallable handler.now }
    requires within { AnswersWithin H.Fn handler.now }
    ensures value { ForAnswers H.Fn handler.now
        (λ prefix. option_copied result ≡ after_open_tag prefix bytes.now) }
    ensures within { IfSome result (λ rest. length rest.now ≤ length bytes.now) }
{
    let attributes = after_attributes(after_tag_name(bytes)?, handler);
    after_open_end(after_space(attributes, handler))
}

/// The bytes after an open or a closing tag, if `bytes` follow its `<`.
fn after_tag_start<'a, H: Fn(&[u8]) -> usize>(bytes: &'a [u8], handler: &H) -> Option<&'a [u8]>
    requires callable { H.IsAlwaysCallable handler.now }
    requires within { AnswersWithin H.Fn handler.now }
    ensures value { ForAnswers H.Fn handler.now
        (λ prefix. option_copied result ≡ after_tag_start prefix bytes.now) }
    ensures within { IfSome result (λ rest. length rest.now ≤ length bytes.now) }
{
    match bytes {
        [b'/', rest @ ..] => after_closing_tag(rest),
        _ => after_open_tag(bytes, handler),
    }
}

/// The bytes after an open or a closing tag, if they begin with one.
pub fn after_tag<'a, H: Fn(&[u8]) -> usize>(bytes: &'a [u8], handler: &H) -> Option<&'a [u8]>
    requires callable { H.IsAlwaysCallable handler.now }
    requires within { AnswersWithin H.Fn handler.now }
    ensures value { ForAnswers H.Fn handler.now
        (λ prefix. option_copied result ≡ after_tag prefix bytes.now) }
    ensures within { IfSome result (λ rest. length rest.now ≤ length bytes.now) }
{
    after_tag_start(after_byte(b'<', bytes)?, handler)
}

/// The bytes after an open or a closing tag, if they begin with one (CommonMark 6.6). The bytes are of one line.
pub fn scan_tag(bytes: &[u8]) -> Option<&[u8]>
    ensures value { option_copied result ≡ after_tag no_prefix bytes.now }
    ensures within { IfSome result (λ rest. length rest.now ≤ length bytes.now) }
    ensures boundary { IsUtf8 bytes.now
        → IfSome result (λ rest. IsCharBoundary bytes.now (length bytes.now - length rest.now)) }
{
    after_tag(bytes, &|_: &[u8]| 0)
}
