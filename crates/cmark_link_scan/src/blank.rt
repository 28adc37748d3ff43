//! Blanks and line endings at the beginning of a text.

ghost use Rattle.std.specs.Prelude.{◌≡◌, ◌<◌, ◌==◌, length, IfSome, option_copied};
ghost use Rattle.cmark_grammar.specs.Letters.{after_if};
ghost use Rattle.cmark_grammar.specs.LinkDefinitions.{after_leading_blanks, after_separator, is_line_done};
ghost use Rattle.cmark_grammar.specs.Tags.{after_ending};
ghost use Rattle.cmark_link_scan.specs.Rests.{IsRest};

use cmark_scan_bytes::bytes;

/// The text after the blanks at its beginning.
pub fn after_leading_blanks(text: &str) -> &str
    ensures value { result.now ≡ after_leading_blanks text.entry.now }
    ensures rest { IsRest text.entry.now result.now }
{
    &text[bytes::count_blanks(text.as_bytes())..]
}

/// The text after the line ending at its beginning, if there is one: a line feed, a carriage return, or both in this order (CommonMark
/// 2.1).
pub fn after_ending(text: &str) -> Option<&str>
    ensures value { option_copied result ≡ after_ending text.entry.now }
    ensures rest { IfSome result (λ rest. IsRest text.entry.now rest.now) }
    ensures shorter { IfSome result (λ rest. length rest.now < length text.entry.now) }
{
    let rest = bytes::after_ending(text.as_bytes())?;
    Some(&text[text.len() - rest.len()..])
}

/// The text after blanks with at most one line ending.
pub fn after_separator(text: &str) -> &str
    ensures value { result.now ≡ after_separator text.entry.now }
    ensures rest { IsRest text.entry.now result.now }
{
    let here = after_leading_blanks(text);
    match after_ending(here) {
        Some(line) => after_leading_blanks(line),
        None => here,
    }
}

/// Whether only blanks come before the next line ending, or before the end of the text.
pub fn is_line_done(text: &str) -> bool
    ensures { result ≡ is_line_done text.now }
{
    matches!(
        after_leading_blanks(text).as_bytes(),
        [] | [b'\n', ..] | [b'\r', ..]
    )
}

/// The text after this ASCII byte, if the text begins with it.
pub fn after_byte(byte: u8, text: &str) -> Option<&str>
    requires { byte < 128 }
    ensures value { option_copied result ≡ after_if (λ b. b == byte) text.entry.now }
    ensures rest { IfSome result (λ rest. IsRest text.entry.now rest.now) }
{
    match text.as_bytes() {
        [first, ..] if *first == byte => Some(&text[1..]),
        _ => None,
    }
}
