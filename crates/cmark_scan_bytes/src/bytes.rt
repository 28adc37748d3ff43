//! Tests of bytes, and of the beginning and the end of byte slices: the one place for each test that several crates make.

ghost use Rattle.std.specs.Prelude.{◌≡◌, ◌<◌, ◌≤◌, length, option_copied, IfSome};
ghost use Rattle.cmark_grammar.specs.Autolinks.{is_local_mark};
ghost use Rattle.cmark_grammar.specs.Columns.{is_blank_byte, drop_end};
ghost use Rattle.std.specs.List.{prefix_len};
ghost use Rattle.cmark_grammar.specs.Letters.{is_letter, after_while};
ghost use Rattle.cmark_grammar.specs.LinkDefinitions.{escapes_next};
ghost use Rattle.cmark_grammar.specs.Lines.{ending_len};
ghost use Rattle.cmark_grammar.specs.Tags.{is_attribute_start, is_space_byte, ends_value, after_ending, after_line_feed};
ghost use Rattle.cmark_scan_bytes.specs.Tested.{ForTests};

use crate::count::scan_rev_while;

/// A class of bytes, all of them ASCII except in `BareValue` and `Uri`.
#[derive(Clone, Copy)]
pub(crate) enum Class {
    /// Spaces and tabs.
    Blank,
    /// The bytes after the first letter of a tag's name: letters, digits and `-` (CommonMark 6.6).
    TagName,
    /// The bytes after the first byte of an attribute's name: letters, digits, `_`, `:`, `.` and `-` (CommonMark 6.6).
    AttributeName,
    /// All bytes except blanks, line endings, quotes, `=`, `<`, `>` and backticks (CommonMark 6.6).
    BareValue,
    /// The bytes after the first letter of a URI's scheme: letters, digits, `+`, `-` and `.` (CommonMark 6.5).
    Scheme,
    /// All bytes except ASCII controls, space, `<` and `>` (CommonMark 6.5).
    Uri,
    /// The local part of an email address: letters, digits and ``.!#$%&'*+/=?^_`{|}~-`` (CommonMark 6.5).
    Local,
    /// Letters and digits.
    Alphanumeric,
    /// Decimal digits.
    Digit,
    /// Hexadecimal digits.
    Hexadecimal,
}

impl Class {
    ghost use Rattle.cmark_scan_bytes.specs.Classes.{is_in};

    /// Whether a byte is in the class.
    #[inline]
    pub fn has(self, byte: u8) -> bool
        ensures { result ≡ is_in self byte }
    {
        match self {
            Class::Blank => is_blank(byte),
            Class::TagName => byte.is_ascii_alphanumeric() || byte == b'-',
            Class::AttributeName => {
                byte.is_ascii_alphanumeric() || matches!(byte, b'_' | b':' | b'.' | b'-')
            }
            Class::BareValue => !ends_value(byte),
            Class::Scheme => byte.is_ascii_alphanumeric() || matches!(byte, b'+' | b'-' | b'.'),
            Class::Uri => byte > b' ' && !matches!(byte, 127 | b'<' | b'>'),
            Class::Local => byte.is_ascii_alphanumeric() || is_local_mark(byte),
            Class::Alphanumeric => byte.is_ascii_alphanumeric(),
            Class::Digit => byte.is_ascii_digit(),
            Class::Hexadecimal => byte.is_ascii_hexdigit(),
        }
    }

    /// The number of bytes of the class at the beginning.
    pub fn count(self, bytes: &[u8]) -> usize
        ensures value { result ≡ prefix_len (is_in self) bytes.now }
        ensures within { result ≤ length bytes.now }
    {
        bytes.iter().take_while(|byte| self.has(**byte)).count()
    }

    /// The bytes after those of the class at the beginning.
    pub fn following(self, bytes: &[u8]) -> &[u8]
        ensures value { result.now ≡ after_while (is_in self) bytes.now }
        ensures within { length result.now ≤ length bytes.now }
    {
        &bytes[self.count(bytes)..]
    }
}

/// Whether a byte is a blank: a space or a tab (CommonMark 2.1).
#[inline]
pub fn is_blank(byte: u8) -> bool
    ensures { result ≡ is_blank_byte byte }
{
    byte == b' ' || byte == b'\t'
}

/// The number of blanks at the beginning.
#[inline]
pub fn count_blanks(bytes: &[u8]) -> usize
    ensures value { result ≡ prefix_len is_blank_byte bytes.now }
    ensures within { result ≤ length bytes.now }
{
    bytes.iter().take_while(|byte| is_blank(**byte)).count()
}

/// The bytes without the blanks at their end.
#[inline]
pub fn without_trailing_blanks(bytes: &[u8]) -> &[u8]
    ensures value { result.now ≡ drop_end is_blank_byte bytes.now }
    ensures within { length result.now ≤ length bytes.now }
{
    without_trailing(bytes, is_blank)
}

/// The bytes without those at their end that pass a test.
#[inline]
pub fn without_trailing<F: Fn(u8) -> bool>(bytes: &[u8], passes: F) -> &[u8]
    requires { F.IsAlwaysCallable passes }
    ensures value { ForTests F.Fn passes (λ test. result.now ≡ drop_end test bytes.now) }
    ensures within { length result.now ≤ length bytes.now }
{
    let passed = scan_rev_while(bytes, passes);
    &bytes[..bytes.len() - passed]
}

/// Whether a byte is a blank or a part of a line ending.
pub fn is_space(byte: u8) -> bool
    ensures { result ≡ is_space_byte byte }
{
    matches!(byte, b' ' | b'\t' | b'\n' | b'\r')
}

/// Whether a byte ends an attribute's bare value.
fn ends_value(byte: u8) -> bool
    ensures { result ≡ ends_value byte }
{
    is_space(byte) || matches!(byte, b'"' | b'\'' | b'<' | b'=' | b'>' | b'`')
}

/// Whether a byte is a sign that is allowed in the local part of an email address (CommonMark 6.5).
fn is_local_mark(byte: u8) -> bool
    ensures { result ≡ is_local_mark byte }
{
    matches!(
        byte,
        b'!' | b'#'..=b'\'' | b'*' | b'+' | b'-'..=b'/' | b'=' | b'?' | b'^'..=b'`' | b'{'..=b'~'
    )
}

/// Whether a byte is an ASCII letter.
#[inline]
pub fn is_letter(byte: u8) -> bool
    ensures { result ≡ is_letter byte }
{
    byte.is_ascii_alphabetic()
}

/// Whether an attribute's name may begin with this byte: a letter, `_` or `:`.
pub(crate) fn is_attribute_start(byte: u8) -> bool
    ensures { result ≡ is_attribute_start byte }
{
    is_letter(byte) || byte == b'_' || byte == b':'
}

/// Whether the byte after this one is escaped: this one is a backslash, and no backslash escapes it (CommonMark 2.4).
#[inline]
pub fn escapes_next(escaped: bool, byte: u8) -> bool
    ensures { result ≡ escapes_next escaped byte }
{
    !escaped && byte == b'\\'
}

/// The length of the line ending that these bytes begin with: 1 for a line feed or a carriage return, 2 for both in this order (CommonMark
/// 2.1). It is 0 if there are no bytes.
#[inline]
pub fn ending_len(bytes: &[u8]) -> usize
    ensures value { result ≡ ending_len bytes.now }
    ensures within { result ≤ length bytes.now }
{
    match bytes {
        [] => 0,
        [b'\r', b'\n', ..] => 2,
        [_, ..] => 1,
    }
}

/// The bytes after a line ending, if they begin with one: a line feed, a carriage return, or both in this order.
pub fn after_ending(bytes: &[u8]) -> Option<&[u8]>
    ensures value { option_copied result ≡ after_ending bytes.now }
    ensures within { IfSome result (λ rest. length rest.now < length bytes.now) }
{
    match bytes {
        [b'\n', rest @ ..] => Some(rest),
        [b'\r', rest @ ..] => Some(after_line_feed(rest)),
        _ => None,
    }
}

fn after_line_feed(bytes: &[u8]) -> &[u8]
    ensures value { result.now ≡ after_line_feed bytes.now }
    ensures within { length result.now ≤ length bytes.now }
{
    match bytes {
        [b'\n', rest @ ..] => rest,
        _ => bytes,
    }
}
