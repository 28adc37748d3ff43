//! Tests and slices of bytes that the scanners of lines share.

ghost use Rattle.std.specs.Prelude.{◌≡◌, ◌+◌, ◌<◌, ◌≤◌, ◌==◌, ◌&&◌, ◌||◌, length, take, map, IsTrue};
ghost use Rattle.cmark_grammar.specs.Leaves.{are_blank, is_parted, run, trimmed};
ghost use Rattle.cmark_grammar.specs.HtmlBlocks.{lower, is_alphanumeric, starts};

use cmark_scan_bytes::bytes::{count_blanks, is_blank, is_letter, without_trailing_blanks};

/// The number of times that this byte is repeated at the beginning.
#[inline]
pub(crate) fn count_leading(bytes: &[u8], one: u8) -> usize
    ensures value { result ≡ run one bytes.now }
    ensures within { result ≤ length bytes.now }
{
    bytes.iter().take_while(|byte| **byte == one).count()
}

/// Whether all bytes are blanks.
#[inline]
pub(crate) fn are_blank(bytes: &[u8]) -> bool
    ensures { result ≡ are_blank bytes.now }
{
    count_blanks(bytes) == bytes.len()
}

/// Whether the bytes are empty or begin with a blank.
#[inline]
pub(crate) fn is_parted(bytes: &[u8]) -> bool
    ensures { result ≡ is_parted bytes.now }
{
    match bytes {
        [] => true,
        [first, ..] => is_blank(*first),
    }
}

/// The bytes without blanks at both ends.
#[inline]
pub(crate) fn trimmed(bytes: &[u8]) -> &[u8]
    ensures value { result.now ≡ trimmed bytes.now }
    ensures within { length result.now ≤ length bytes.now }
{
    without_trailing_blanks(&bytes[count_blanks(bytes)..])
}

/// An ASCII letter in its lower case, other bytes as they are.
#[inline]
pub(crate) fn lower(byte: u8) -> u8
    ensures { result ≡ lower byte }
{
    if byte >= b'A' && byte <= b'Z' {
        byte + 32
    } else {
        byte
    }
}

/// Whether a byte is an ASCII letter or digit.
#[inline]
pub(crate) fn is_alphanumeric(byte: u8) -> bool
    ensures { result ≡ is_alphanumeric byte }
{
    is_letter(byte) || (byte >= b'0' && byte <= b'9')
}

/// Whether the bytes begin with this prefix.
#[inline]
pub(crate) fn starts(bytes: &[u8], prefix: &[u8]) -> bool
    ensures value { result ≡ starts prefix.now bytes.now }
    ensures within { IsTrue result → length prefix.now ≤ length bytes.now }
{
    bytes.starts_with(prefix)
}

/// Whether the bytes begin with this prefix, in any case of the letters. The prefix has no capital letters.
#[inline]
pub(crate) fn starts_lower(bytes: &[u8], prefix: &[u8]) -> bool
    ensures value { result ≡ starts prefix.now (map lower bytes.now) }
    ensures within { IsTrue result → length prefix.now ≤ length bytes.now }
{
    if bytes.len() < prefix.len() {
        return false;
    }
    for (at, byte) in prefix.iter().enumerate() {
        if lower(bytes[at]) != *byte {
            return false;
        }
    }
    true
}
