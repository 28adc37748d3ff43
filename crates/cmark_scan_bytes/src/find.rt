//! Searches for bytes and closers.

ghost use Rattle.std.specs.Prelude.{◌≡◌, ◌<◌, ◌≤◌, ◌==◌, not, length, option_copied, IfSome};
ghost use Rattle.memchr.specs.Find.{is_byte3};
ghost use Rattle.cmark_grammar.specs.Letters.{first_is, after_while, after_if, after_start_of, after_first_of};

use memchr::{memchr3, memmem};

/// The bytes from the first of these three on; empty if they do not occur.
pub fn at_first3(one: u8, two: u8, three: u8, bytes: &[u8]) -> &[u8]
    ensures value { result.now ≡ after_while (λ b. not (is_byte3 one two three b)) bytes.now }
    ensures within { length result.now ≤ length bytes.now }
{
    match memchr3(one, two, three, bytes) {
        Some(at) => &bytes[at..],
        None => &bytes[bytes.len()..],
    }
}

/// The bytes after this one, if they begin with it.
pub fn after_byte(byte: u8, bytes: &[u8]) -> Option<&[u8]>
    ensures value { option_copied result ≡ after_if (λ b. b == byte) bytes.now }
    ensures within { IfSome result (λ rest. length rest.now < length bytes.now) }
{
    match bytes {
        [first, rest @ ..] if *first == byte => Some(rest),
        _ => None,
    }
}

/// The bytes after this prefix, if they begin with it.
pub fn after_start_of<'a>(prefix: &[u8], bytes: &'a [u8]) -> Option<&'a [u8]>
    ensures value { option_copied result ≡ after_start_of prefix.now bytes.now }
    ensures within { IfSome result (λ rest. length rest.now ≤ length bytes.now) }
{
    bytes.strip_prefix(prefix)
}

/// The bytes after the first occurrence of the closer.
pub fn after_first_of<'a>(closer: &[u8], bytes: &'a [u8]) -> Option<&'a [u8]>
    requires { 0 < length closer.now }
    ensures value { option_copied result ≡ after_first_of closer.now bytes.now }
    ensures within { IfSome result (λ rest. length rest.now ≤ length bytes.now) }
{
    let at = memmem::find(bytes, closer)?;
    Some(&bytes[at + closer.len()..])
}

/// Whether the bytes begin with this one.
pub fn begins_with(bytes: &[u8], byte: u8) -> bool
    ensures { result ≡ first_is (λ b. b == byte) bytes.now }
{
    match bytes {
        [first, ..] => *first == byte,
        [] => false,
    }
}
