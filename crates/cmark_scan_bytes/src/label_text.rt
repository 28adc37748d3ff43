//! The bytes that are the text of a label (CommonMark 6.3).

ghost use Rattle.std.specs.Prelude.{◌≡◌, ◌||◌, not, nat_lt, nat_le, count_by};
ghost use Rattle.std.specs.List.{list_all};
ghost use Rattle.std.specs.Char.{is_ascii_whitespace};
ghost use Rattle.cmark_grammar.specs.LinkDefinitions.{characters, is_label};

/// Whether a character begins with this byte.
#[inline]
pub fn begins_character(byte: u8) -> bool
    ensures { result ≡ (nat_lt byte 128 || nat_le 192 byte) }
{
    byte < 128 || 192 <= byte
}

/// The number of characters in these bytes.
fn characters(bytes: &[u8]) -> usize
    ensures { result ≡ characters bytes.now }
{
    bytes.iter().filter(|byte| begins_character(**byte)).count()
}

/// Whether all bytes are white space.
fn is_white(bytes: &[u8]) -> bool
    ensures { result ≡ list_all is_ascii_whitespace bytes.now }
{
    bytes.iter().all(|byte| byte.is_ascii_whitespace())
}

/// Whether some byte is not white space.
fn has_words(bytes: &[u8]) -> bool
    ensures { result ≡ nat_lt 0 (count_by (λ b. not (is_ascii_whitespace b)) bytes.now) }
{
    !is_white(bytes)
}

/// Whether these bytes have at most 999 characters. Most labels have fewer bytes than that, so their characters need not be counted.
fn is_short(bytes: &[u8]) -> bool
    ensures { result ≡ nat_le (characters bytes.now) 999 }
{
    bytes.len() <= 999 || characters(bytes) <= 999
}

/// Whether these bytes are the text of a label: 1 to 999 characters, not only white space.
pub fn is_label(bytes: &[u8]) -> bool
    ensures { result ≡ is_label bytes.now }
{
    is_short(bytes) && has_words(bytes)
}
