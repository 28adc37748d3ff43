//! Entities and numeric character references (CommonMark 2.5).

ghost use Rattle.std.specs.Prelude.{◌≡◌, ◌<◌, ◌≤◌, ◌==◌, ◌&&◌, true, nat_lt, nat_le, length, drop, slice_index, EachIndex, encode_utf8, IfSome, option_map};
ghost use Rattle.std.specs.Str.{IsUtf8, IsCharBoundary};
ghost use Rattle.cmark_grammar.specs.Characters.{ampersand, semicolon};
ghost use Rattle.cmark_grammar.specs.Letters.{first_is, after_if, and_then};
ghost use Rattle.cmark_grammar.specs.Tokens.{is_hexadecimal, digit_of, value_of, character, decimal_in, hexadecimal_in, numeric_in, named_in, entity_in};
ghost use Rattle.cmark_scan_bytes.specs.Shown.{Closes, shown_entity};

use crate::bytes::Class;
use crate::find::{after_byte, begins_with};
use cmark_values::{CowStr, EntityLookup};

/// An entity or a numeric character reference.
#[derive(Drop)]
pub struct Entity<'e> {
    /// The number of bytes from `&` to the end of `;`.
    pub len: usize,
    /// Its text. The text of a numeric reference is in the value itself.
    pub text: CowStr<'e>,
}

/// The value of a decimal or hexadecimal digit.
fn digit_of(byte: u8) -> u32
    requires { is_hexadecimal byte ≡ true }
    ensures value { result ≡ digit_of byte }
    ensures below { result < 16 }
{
    match byte {
        b'0'..=b'9' => (byte - b'0') as u32,
        b'A'..=b'F' => (byte - b'A') as u32 + 10,
        _ => (byte - b'a') as u32 + 10,
    }
}

/// The number that these decimal digits represent.
fn decimal_value(digits: &[u8]) -> u32
    requires few { length digits.now ≤ 7 }
    requires digits { EachIndex digits.now (λ k. is_hexadecimal (slice_index digits.now k) ≡ true) }
    ensures { result ≡ value_of 10 digits.now }
{
    let mut value = 0;
    for digit in digits {
        value = value * 10 + digit_of(*digit);
    }
    value
}

/// The number that these hexadecimal digits represent.
fn hexadecimal_value(digits: &[u8]) -> u32
    requires few { length digits.now ≤ 7 }
    requires digits { EachIndex digits.now (λ k. is_hexadecimal (slice_index digits.now k) ≡ true) }
    ensures { result ≡ value_of 16 digits.now }
{
    let mut value = 0;
    for digit in digits {
        value = value * 16 + digit_of(*digit);
    }
    value
}

/// The character of this number; U+FFFD for 0 and for numbers that are not characters.
fn character(code: u32) -> char
    ensures { encode_utf8 result ≡ character code }
{
    if code == 0 {
        return '\u{fffd}';
    }
    match char::from_u32(code) {
        Some(character) => character,
        None => '\u{fffd}',
    }
}

/// Whether the `count` digits at the beginning are 1 to `most`, and a semicolon follows.
fn is_closed(bytes: &[u8], count: usize, most: usize) -> bool
    requires { count ≤ length bytes.now }
    ensures { result
        ≡
        (nat_lt 0 count && (nat_le count most && first_is (λ b. b == semicolon) (drop count bytes.now))) }
{
    0 < count && count <= most && begins_with(&bytes[count..], b';')
}

/// The decimal reference whose `&#` precedes `bytes`.
fn decimal_in(bytes: &[u8]) -> Option<Entity<'static>>
    ensures value { option_map shown_entity result ≡ decimal_in bytes.now }
    ensures closed { IfSome result (λ entity. Closes bytes.now 2 entity.len) }
{
    let count = Class::Digit.count(bytes);
    if !is_closed(bytes, count, 7) {
        return None;
    }
    Some(Entity {
        len: count + 3,
        text: CowStr::from(character(decimal_value(&bytes[..count]))),
    })
}

/// The hexadecimal reference whose `&#x` precedes `bytes`.
fn hexadecimal_in(bytes: &[u8]) -> Option<Entity<'static>>
    ensures value { option_map shown_entity result ≡ hexadecimal_in bytes.now }
    ensures closed { IfSome result (λ entity. Closes bytes.now 3 entity.len) }
{
    let count = Class::Hexadecimal.count(bytes);
    if !is_closed(bytes, count, 6) {
        return None;
    }
    Some(Entity {
        len: count + 4,
        text: CowStr::from(character(hexadecimal_value(&bytes[..count]))),
    })
}

/// The numeric reference whose `&#` precedes `bytes`.
fn numeric_in(bytes: &[u8]) -> Option<Entity<'static>>
    ensures value { option_map shown_entity result ≡ numeric_in bytes.now }
    ensures closed { IfSome result (λ entity. Closes bytes.now 2 entity.len) }
{
    match bytes {
        [b'x' | b'X', digits @ ..] => hexadecimal_in(digits),
        _ => decimal_in(bytes),
    }
}

/// The entity whose `&` precedes `bytes`, by its name.
fn named_in<'e, E: EntityLookup>(bytes: &[u8], entities: &'e E) -> Option<Entity<'e>>
    ensures value { option_map shown_entity result
        ≡ named_in (E.replacement entities.now) bytes.entry.now }
    ensures closed { IfSome result (λ entity. Closes bytes.entry.now 1 entity.len) }
{
    let count = Class::Alphanumeric.count(bytes);
    if !is_closed(bytes, count, count) {
        return None;
    }
    let name = match std::str::from_utf8(&bytes[..count]) {
        Ok(name) => name,
        Err(_) => return None,
    };
    let text = entities.get_entity(name)?;
    Some(Entity {
        len: count + 2,
        text: CowStr::from(text),
    })
}

/// The entity or numeric character reference at the beginning, if there is one (CommonMark 2.5). It is `&` and a name of ASCII letters and
/// digits that the look-up knows, `&#` and 1 to 7 digits, or `&#x` or `&#X` and 1 to 6 hexadecimal digits; then `;`. The text for 0 and for
/// numbers that are not characters is U+FFFD. No memory is needed.
pub fn scan_entity<'e, E: EntityLookup>(bytes: &[u8], entities: &'e E) -> Option<Entity<'e>>
    ensures closed { IfSome result (λ entity. Closes bytes.entry.now 0 entity.len) }
    ensures boundary { IsUtf8 bytes.entry.now
        → IfSome result (λ entity. IsCharBoundary bytes.entry.now entity.len) }
    ensures value { option_map shown_entity result
        ≡ and_then (after_if (λ b. b == ampersand) bytes.entry.now)
        (entity_in (E.replacement entities.now)) }
{
    match after_byte(b'&', bytes)? {
        [b'#', rest @ ..] => numeric_in(rest),
        rest => named_in(rest, entities),
    }
}
