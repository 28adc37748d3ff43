//! HTML of a text that grows at its end: the caller keeps the text and a cut.

ghost use Rattle.std.specs.Prelude.{◌≡◌, ◌<◌, ◌≤◌, ◌++◌, ◌⊎◌, IsUtf8, drop, false, length, string_bytes, take, true};
ghost use Rattle.cmark_parser.specs.Filters.{filtered_by};
ghost use Rattle.cmark_safe.specs.SafeEvents.{safe};
ghost use Rattle.cmark_safe.specs.SafeHtml.{IsSafe};
ghost use Rattle.pulldown_cmark_c.specs.Calls.{are_known};
ghost use Rattle.pulldown_cmark_c.specs.Streams.{AnswersStream, RefusesStream, UnknownStream, numbers};

use crate::options::{Entities, are_known, refuse_unknown};
use bitflags::Flags;
use cmark_parser::Filtering;
use cmark_stream::{Rest, read_from};
use cmark_values::Options;
use program_io::{DONE, NO_MEMORY, NOT_UTF8, hand_over};
use simdutf8::basic::from_utf8;
use std::alloc::Global;

/// The cut is past the end of the text, or inside a character.
const BAD_CUT: u32 = 6;

/// Writes the HTML of a growing text from a cut on at the beginning of `room`, within a reference expansion limit, in bytes.
///
/// `cut` is 0 at first, later what the last successful call left, for a beginning of this text with the same other arguments. After
/// `DONE` it is the new cut, a byte offset, and the first `settled` bytes of the HTML are that of the blocks before it. No further text
/// changes these, as long as it defines neither a link nor a footnote. If the new cut is 0, the HTML is that of the whole text. `size` is
/// the length of the HTML in bytes, even if the room is too small.
///
/// After any other status `cut` is unchanged and `settled` is 0. Beside the statuses of `pcm_html` there is 6: `cut` is past the end of the
/// text or inside a character.
#[unsafe(no_mangle)]
pub extern "C" fn pcm_stream(
    alloc: Global,
    text: &[u8],
    options: u32,
    limit: usize,
    cut: &mut usize,
    settled: &mut usize,
    room: &mut [u8],
    size: &mut usize,
) -> u32
    ensures known { are_known options ≡ true
        → AnswersStream (λ event. event) limit options text.now room.old room.new
        (numbers cut.old cut.new settled.new size.new) result }
    ensures unknown { are_known options ≡ false → UnknownStream room.old room.new
        (numbers cut.old cut.new settled.new size.new) result }
{
    *settled = 0;
    if !are_known(options) {
        return refuse_unknown(size);
    }
    answer_from(
        alloc,
        text,
        options,
        &Filtering::AsTheyAre,
        limit,
        cut,
        settled,
        room,
        size,
    )
}

/// Does what `pcm_stream` does, but writes safe HTML, for a stranger's text: nothing in it runs. Addresses may also have one of the schemes
/// of `schemes`: names separated by white space. If this list is not UTF-8, the status is that of a text that is not UTF-8.
#[unsafe(no_mangle)]
pub extern "C" fn pcm_safe_stream(
    alloc: Global,
    text: &[u8],
    options: u32,
    schemes: &[u8],
    limit: usize,
    cut: &mut usize,
    settled: &mut usize,
    room: &mut [u8],
    size: &mut usize,
) -> u32
    ensures listed { are_known options ≡ true → IsUtf8 schemes.now
        → AnswersStream (safe schemes.now) limit options text.now room.old room.new
        (numbers cut.old cut.new settled.new size.new) result }
    ensures not_listed { are_known options ≡ true → (IsUtf8 schemes.now → ⊥)
        → (result ≡ 2) × RefusesStream room.old room.new
        (numbers cut.old cut.new settled.new size.new) }
    ensures safe { result ≡ 0 → IsSafe schemes.now (take size.new room.new) }
    ensures unknown { are_known options ≡ false → UnknownStream room.old room.new
        (numbers cut.old cut.new settled.new size.new) result }
{
    *settled = 0;
    if !are_known(options) {
        return refuse_unknown(size);
    }
    let Ok(further) = str::from_utf8(schemes) else {
        *size = 0;
        return NOT_UTF8;
    };
    answer_from(
        alloc,
        text,
        options,
        &Filtering::Safe(further),
        limit,
        cut,
        settled,
        room,
        size,
    )
}

/// Does the work of both calls. `bits` have a meaning. The filter replaces each event.
fn answer_from(
    alloc: Global,
    text: &[u8],
    bits: u32,
    filter: &Filtering<'_>,
    limit: usize,
    cut: &mut usize,
    settled: &mut usize,
    room: &mut [u8],
    size: &mut usize,
) -> u32
    ensures { AnswersStream (filtered_by filter.now) limit bits text.now room.old room.new
        (numbers cut.old cut.new settled.new size.new) result }
{
    *size = 0;
    *settled = 0;
    let Ok(text) = from_utf8(text) else {
        return NOT_UTF8;
    };
    if !text.is_char_boundary(*cut) {
        return BAD_CUT;
    }
    let options = Options::from_bits_retain(bits);
    let entities = Entities { bits };
    match read_from(alloc, text, *cut, options, &entities, filter, limit) {
        Ok(rest) => hand_over_rest(rest, cut, settled, room, size),
        Err(_) => NO_MEMORY,
    }
}

/// Writes the HTML to the beginning of `room`, and the new cut and how much is settled, if the HTML fits. Writes its size in any case. Returns
/// `DONE` or `TOO_LONG`, or `NO_MEMORY`, which changes nothing.
fn hand_over_rest(
    rest: Rest,
    cut: &mut usize,
    settled: &mut usize,
    room: &mut [u8],
    size: &mut usize,
) -> u32
    ensures either { (result ≡ 0) ⊎ ((result ≡ 1) ⊎ (result ≡ 3)) }
    ensures done { let html = string_bytes rest.settled ++ string_bytes rest.tail in
        result ≡ 0 → (cut.new ≡ rest.cut) × (settled.new ≡ length (string_bytes rest.settled))
        × (size.new ≡ length html) × (length html ≤ length room.old)
        × (room.new ≡ html ++ drop (length html) room.old) }
    ensures too_long { let html = string_bytes rest.settled ++ string_bytes rest.tail in
        result ≡ 1 → (cut.new ≡ cut.old) × (settled.new ≡ settled.old)
        × (size.new ≡ length html) × (length room.old < length html) × (room.new ≡ room.old) }
    ensures no_memory { result ≡ 3 → (cut.new ≡ cut.old) × (settled.new ≡ settled.old)
        × (size.new ≡ size.old) × (room.new ≡ room.old) }
{
    let settled_len = rest.settled.as_str().len();
    let mut html = rest.settled;
    let Ok(()) = html.push_str(rest.tail.as_str()) else {
        return NO_MEMORY;
    };
    let status = hand_over(html.as_str().as_bytes(), room, size);
    if status == DONE {
        *cut = rest.cut;
        *settled = settled_len;
    }
    status
}
