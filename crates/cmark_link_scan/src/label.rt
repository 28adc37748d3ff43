//! Labels (CommonMark 4.7 and 6.3).

ghost use Rattle.std.specs.Prelude.{◌≡◌, ◌<◌, ◌==◌, ◌&&◌, ◌||◌, not, false, drop, IfSome, option_map};
ghost use Rattle.std.specs.Str.{IsCharBoundary};
ghost use Rattle.cmark_grammar.specs.Characters.{left_bracket, right_bracket};
ghost use Rattle.cmark_grammar.specs.LinkDefinitions.{label_in};
ghost use Rattle.cmark_grammar.specs.LinkTails.{reference_label_in, after_collapsed, has_bracket, is_bracketed_label};
ghost use Rattle.cmark_link_scan.specs.Rests.{IsRest};
ghost use Rattle.cmark_link_scan.specs.Shown.{shown_label, shown_part};

use crate::blank::after_byte;
use crate::part::{Part, closed_part};
use crate::place::place_of;
use cmark_scan_bytes::bytes::escapes_next;
use cmark_scan_bytes::is_label;

/// The label after its opening bracket, up to the next unescaped bracket, which closes it.
pub fn label_in(text: &str) -> Option<Part<'_>>
    ensures value { option_map shown_part result ≡ label_in text.entry.now }
    ensures rest { IfSome result (λ label. IsRest text.entry.now label.following.now) }
{
    let label = closed_part(text, b']', b'[')?;
    if is_label(label.part.as_bytes()) {
        Some(label)
    } else {
        None
    }
}

/// The label of a full reference.
#[derive(Clone, Copy)]
pub struct ReferenceLabel<'t> {
    /// The text between its brackets, as written.
    pub label: &'t str,
    /// The byte offset after its closing bracket.
    pub end: usize,
}

/// The label in brackets at this byte offset of the text, directly after a closing bracket: the label of a full reference (CommonMark 6.3).
/// A label has 1 to 999 characters, not only white space, and no unescaped bracket.
pub fn reference_label(text: &str, at: usize) -> Option<ReferenceLabel<'_>>
    requires { IsCharBoundary text.now at }
    ensures value { option_map (shown_label text.entry.now) result
        ≡ reference_label_in (drop at text.entry.now) }
    ensures further { IfSome result (λ label. at < label.end) }
    ensures ends { IfSome result (λ label. IsCharBoundary text.entry.now label.end) }
{
    let label = label_in(after_byte(b'[', &text[at..])?)?;
    Some(ReferenceLabel {
        label: label.part,
        end: place_of(text, label.following),
    })
}

/// The byte offset after a `[]` at this byte offset of the text, directly after a closing bracket: the end of a collapsed reference
/// (CommonMark 6.3).
pub fn collapsed_end(text: &str, at: usize) -> Option<usize>
    requires { IsCharBoundary text.now at }
    ensures value { option_map (λ end. drop end text.now) result
        ≡ after_collapsed (drop at text.now) }
    ensures further { IfSome result (λ end. at < end) }
    ensures ends { IfSome result (λ end. IsCharBoundary text.now end) }
{
    match &text.as_bytes()[at..] {
        [b'[', b']', ..] => Some(at + 2),
        _ => None,
    }
}

/// Whether a byte is an unescaped bracket.
fn is_bracket(escaped: bool, byte: u8) -> bool
    ensures { result ≡ (not escaped && ((byte == left_bracket) || (byte == right_bracket))) }
{
    !escaped && (byte == b'[' || byte == b']')
}

/// Whether these bytes contain an unescaped bracket.
fn has_bracket(bytes: &[u8]) -> bool
    ensures { result ≡ has_bracket false bytes.now }
{
    let mut escaped = false;
    let mut rest = bytes;
    while let Some((first, others)) = rest.split_first() {
        if is_bracket(escaped, *first) {
            return true;
        }
        escaped = escapes_next(escaped, *first);
        rest = others;
    }
    false
}

/// Whether the text between two brackets can be the label of a collapsed or shortcut reference (CommonMark 6.3). It has 1 to 999
/// characters, not only white space, and no unescaped bracket.
pub fn is_bracketed_label(text: &str) -> bool
    ensures { result ≡ is_bracketed_label text.now }
{
    !has_bracket(text.as_bytes()) && is_label(text.as_bytes())
}
