//! The markers of footnote definitions (this profile's own).

ghost use Rattle.std.specs.Prelude.{◌≡◌, ◌≤◌, ◌+◌, false, length, slice_index, IfSome, option_map};
ghost use Rattle.cmark_grammar.specs.Characters.{colon, left_bracket, right_bracket};
ghost use Rattle.cmark_grammar.specs.Footnotes.{footnote_in, label_then_colon};
ghost use Rattle.cmark_grammar.specs.LinkDefinitions.{up_to, label_if};
ghost use Rattle.cmark_scan_bytes.specs.Footnotes.{labelled, marked, IsClosed};

use crate::closed::closed_size;
use crate::find::begins_with;
use crate::label_text::is_label;

/// The number of bytes of the label at the beginning, if it is valid, is on one line, and `]:` follows it.
fn label_size(bytes: &[u8]) -> Option<usize>
    ensures value { option_map (labelled bytes.now) result
        ≡ label_then_colon (label_if (up_to false right_bracket left_bracket false bytes.now)) }
    ensures within { IfSome result (λ size. size + 2 ≤ length bytes.now) }
    ensures bracket { IfSome result (λ size. slice_index bytes.now size ≡ right_bracket) }
    ensures colon { IfSome result (λ size. slice_index bytes.now (size + 1) ≡ colon) }
{
    let size = closed_size(bytes, b']', b'[', false)?;
    if is_label(&bytes[..size]) && begins_with(&bytes[size + 1..], b':') {
        Some(size)
    } else {
        None
    }
}

/// The number of bytes of the label, if these bytes begin with the marker of a footnote definition: `[^`, a label on one line, and `]:`.
/// The label is as for links: 1 to 999 characters, not only white space, and no unescaped bracket. It begins after the first two bytes; the
/// marker is four bytes longer than the label.
pub fn scan_footnote_marker(words: &[u8]) -> Option<usize>
    ensures value { option_map (marked words.now) result ≡ footnote_in words.now }
    ensures closed { IfSome result (IsClosed words.now) }
    ensures colon { IfSome result (λ size. slice_index words.now (size + 3) ≡ colon) }
{
    match words {
        [b'[', b'^', label @ ..] => label_size(label),
        _ => None,
    }
}
