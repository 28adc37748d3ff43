//! Parts of a text that a closer ends: labels, titles, and destinations in angle brackets (CommonMark 6.3).

ghost use Rattle.std.specs.Prelude.{◌≡◌, ◌<◌, ◌==◌, ◌&&◌, ◌||◌, ℕ, List, Option, suc, not, false, length, drop, take, slice_index, IfSome, option_map};
ghost use Rattle.cmark_grammar.specs.Characters.{carriage_return, line_feed};
ghost use Rattle.cmark_grammar.specs.LinkDefinitions.{Parsed, up_to_byte, up_to};
ghost use Rattle.cmark_scan_bytes.specs.Steps.{read_closed, OnEnds};

use crate::bytes::escapes_next;

/// The effect of a byte on the part that is read.
#[derive(Clone, Copy)]
pub enum Step {
    /// The part ends there.
    Ends,
    /// There is no such part.
    Fails,
    /// The byte belongs to the part.
    GoesOn,
}

/// Whether a byte refuses a part: it is the unescaped refused byte, or a byte of a line ending and the part may not span lines.
fn refuses(escaped: bool, refused: u8, over_lines: bool, byte: u8) -> bool
    ensures { result
        ≡
        ((not escaped && (byte == refused)) || (not over_lines && ((byte == line_feed) || (byte == carriage_return)))) }
{
    (!escaped && byte == refused) || (!over_lines && (byte == b'\n' || byte == b'\r'))
}

/// The effect of a byte on a part up to its closer. The closer ends it and the refused byte refuses it, unless a backslash escapes them. A
/// line ending refuses it if the part may not span lines.
#[inline]
pub fn closed_step(escaped: bool, closer: u8, refused: u8, over_lines: bool, byte: u8) -> Step
    ensures value { (bs : List ℕ) (found : Option Parsed)
        → up_to_byte escaped closer refused over_lines byte bs found
        ≡ read_closed result byte bs found }
    ensures ends { OnEnds result (byte ≡ closer) }
{
    if !escaped && byte == closer {
        Step::Ends
    } else if refuses(escaped, refused, over_lines, byte) {
        Step::Fails
    } else {
        Step::GoesOn
    }
}

/// The number of bytes before the unescaped closer. `None` if there is no closer, if the refused byte comes before it, or if a line ending
/// does and the part may not span lines.
pub fn closed_size(bytes: &[u8], closer: u8, refused: u8, over_lines: bool) -> Option<usize>
    ensures value { option_map
        (λ size. record { bytes = take size bytes.now; following = drop (suc size) bytes.now })
        result ≡ up_to false closer refused over_lines bytes.now }
    ensures within { IfSome result (λ size. size < length bytes.now) }
    ensures closed { IfSome result (λ size. slice_index bytes.now size ≡ closer) }
{
    let mut escaped = false;
    let mut rest = bytes;
    while let Some((first, others)) = rest.split_first() {
        match closed_step(escaped, closer, refused, over_lines, *first) {
            Step::Ends => return Some(bytes.len() - rest.len()),
            Step::Fails => return None,
            Step::GoesOn => {}
        }
        escaped = escapes_next(escaped, *first);
        rest = others;
    }
    None
}
