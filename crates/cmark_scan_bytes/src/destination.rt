//! Destinations of links (CommonMark 6.3).

ghost use Rattle.std.specs.Prelude.{◌≡◌, ◌<◌, ◌≤◌, ◌+◌, ℕ, List, Option, false, length, drop, take, slice_index, IfSome, option_map};
ghost use Rattle.std.specs.Str.{IsCharBoundary};
ghost use Rattle.cmark_grammar.specs.Characters.{greater_than_sign, less_than_sign};
ghost use Rattle.cmark_grammar.specs.LinkDefinitions.{Parsed, up_to, bare_byte, bare_in, depth_after};
ghost use Rattle.cmark_grammar.specs.Destinations.{link_destination_in};
ghost use Rattle.cmark_scan_bytes.specs.Shown.{shown_cut, cut_after};
ghost use Rattle.cmark_scan_bytes.specs.Steps.{puts, read_bare, OnEnds, OnGoesOn};

use crate::bytes::escapes_next;
use crate::closed::{Step, closed_size};
use crate::find::begins_with;
use crate::link::Cut;
use cmark_search::AsciiSet;

/// The rows of ASCII controls, the space, both parentheses and the backslash. All other bytes belong to a bare destination.
const MARKS: [u8; 16] = [7, 3, 3, 3, 3, 3, 3, 3, 7, 7, 3, 3, 35, 3, 3, 131];

/// The depth of parentheses after a byte of a bare destination.
fn depth_after(escaped: bool, depth: usize, byte: u8) -> usize
    requires { depth ≤ 32 }
    ensures { result ≡ depth_after escaped depth byte }
{
    match byte {
        b'(' if !escaped => depth + 1,
        b')' if !escaped => depth.saturating_sub(1),
        _ => depth,
    }
}

/// The effect of a byte on a bare destination. An ASCII control, a space or an unescaped `)` without its `(` ends it if all parentheses are
/// closed, and refuses it otherwise. So does a 33rd open parenthesis.
fn bare_step(escaped: bool, depth: usize, byte: u8) -> Step
    requires { depth ≤ 32 }
    ensures value { (bs : List ℕ) (found : Option Parsed)
        → bare_byte escaped depth byte bs found ≡ read_bare result byte bs found }
    ensures ends { OnEnds result (byte < 128) }
    ensures shallow { OnGoesOn result (depth_after escaped depth byte ≤ 32) }
{
    let closes = !escaped && byte == b')' && depth == 0;
    if byte <= b' ' || byte == 127 || closes {
        return if depth == 0 { Step::Ends } else { Step::Fails };
    }
    if !escaped && byte == b'(' && 32 <= depth {
        Step::Fails
    } else {
        Step::GoesOn
    }
}

/// The number of bytes before the first one that may end a bare destination, escape a byte or change the depth. It is 0 if the first byte is
/// escaped.
#[inline(always)]
fn plain_size(escaped: bool, bytes: &[u8]) -> usize
    ensures value { (depth : ℕ)
        → bare_in escaped depth bytes.now
        ≡ puts (take result bytes.now) (bare_in escaped depth (drop result bytes.now)) }
    ensures within { result ≤ length bytes.now }
{
    if escaped {
        return 0;
    }
    AsciiSet::of_rows(MARKS).find_within(bytes, 0, bytes.len())
}

/// The number of bytes of the bare destination at the beginning, if its parentheses are balanced.
fn bare_size(bytes: &[u8]) -> Option<usize>
    ensures value { option_map
        (λ size. record { bytes = take size bytes.now; following = drop size bytes.now }) result
        ≡ bare_in false 0 bytes.now }
    ensures within { IfSome result (λ size. size ≤ length bytes.now) }
    ensures ends { IfSome result
        (λ size. size < length bytes.now → slice_index bytes.now size < 128) }
{
    let mut escaped = false;
    let mut depth = 0;
    let mut rest = &bytes[plain_size(escaped, bytes)..];
    while let Some((first, others)) = rest.split_first() {
        match bare_step(escaped, depth, *first) {
            Step::Ends => return Some(bytes.len() - rest.len()),
            Step::Fails => return None,
            Step::GoesOn => {}
        }
        depth = depth_after(escaped, depth, *first);
        escaped = escapes_next(escaped, *first);
        rest = &others[plain_size(escaped, others)..];
    }
    if depth == 0 { Some(bytes.len()) } else { None }
}

/// The destination in angle brackets whose `<` is at this byte offset of the text.
fn pointed_dest(text: &str, start_ix: usize) -> Option<Cut<'_>>
    requires within { start_ix < length text.now }
    requires opens { slice_index text.now start_ix ≡ less_than_sign }
    ensures value { option_map shown_cut result
        ≡ option_map (cut_after text.entry.now)
        (up_to false greater_than_sign less_than_sign false (drop (start_ix + 1) text.entry.now)) }
    ensures within { IfSome result (λ dest. dest.end ≤ length text.entry.now) }
    ensures boundary { IfSome result (λ dest. IsCharBoundary text.entry.now dest.end) }
{
    let start = start_ix + 1;
    let size = closed_size(&text.as_bytes()[start..], b'>', b'<', false)?;
    Some(Cut {
        end: start + size + 1,
        part: &text[start..start + size],
    })
}

/// The bare destination at this byte offset of the text.
fn bare_dest(text: &str, start_ix: usize) -> Option<Cut<'_>>
    requires { IsCharBoundary text.now start_ix }
    ensures value { option_map shown_cut result
        ≡ option_map (cut_after text.entry.now) (bare_in false 0 (drop start_ix text.entry.now)) }
    ensures within { IfSome result (λ dest. dest.end ≤ length text.entry.now) }
    ensures boundary { IfSome result (λ dest. IsCharBoundary text.entry.now dest.end) }
{
    let size = bare_size(&text.as_bytes()[start_ix..])?;
    Some(Cut {
        end: start_ix + size,
        part: &text[start_ix..start_ix + size],
    })
}

/// The destination of a link at this byte offset of the text, as written, and the byte offset after it (CommonMark 6.3). In angle brackets
/// it contains no line ending and no unescaped `<` or `>`. A bare one ends before an ASCII control, a space or an unescaped `)` without its
/// `(`; its parentheses are balanced, 32 deep at most, or escaped. Either may be empty; `part` is without the brackets.
pub fn scan_link_dest(text: &str, start_ix: usize) -> Option<Cut<'_>>
    requires { IsCharBoundary text.now start_ix }
    ensures value { option_map shown_cut result
        ≡ option_map (cut_after text.entry.now)
        (link_destination_in (drop start_ix text.entry.now)) }
    ensures within { IfSome result (λ dest. dest.end ≤ length text.entry.now) }
    ensures boundary { IfSome result (λ dest. IsCharBoundary text.entry.now dest.end) }
{
    if begins_with(&text.as_bytes()[start_ix..], b'<') {
        pointed_dest(text, start_ix)
    } else {
        bare_dest(text, start_ix)
    }
}
