//! Leaves that are read without the inline pass, because no byte in them may begin a span.

ghost use Rattle.std.specs.Prelude.{◌≡◌, ◌<◌, false, IfSome, length, take};
ghost use Rattle.cmark_event_walk.specs.Plain.{ArePlain, is_lone_line_feed};
ghost use Rattle.cmark_event_walk.specs.declared.plain.Lines.TheVariants.{One};

use cmark_inline::SpecialBytes;
use cmark_scan_bytes::bytes::is_blank;

/// How many lines a plain text has.
#[derive(Clone, Copy)]
pub(crate) enum Lines {
    /// One line.
    One,
    /// More than one line. A soft break is at each line feed.
    Several,
}

/// Whether the bytes are plain lines, and how many: no byte of a line is special, no line is empty, and no blank is beside a line feed. The
/// result is `None` as soon as a byte does not fit. `ahead` begins with `bytes`, and may have further bytes. `joins` says whether the text
/// may have several lines.
#[inline(always)]
pub(crate) fn plain_lines(
    special: &SpecialBytes,
    bytes: &[u8],
    ahead: &[u8],
    joins: bool,
) -> Option<Lines>
    requires ahead { take (length bytes.now) ahead.now ≡ bytes.now }
    ensures plain { IfSome result (ArePlain special.now bytes.now) }
    ensures joins { joins ≡ false → IfSome result (λ lines. lines ≡ One) }
{
    let mut from = 0;
    loop {
        let at = special.next(bytes, ahead, from);
        if at == from {
            return None;
        }
        if at >= bytes.len() {
            break;
        }
        if !joins || !is_lone_line_feed(bytes, at) {
            return None;
        }
        from = at + 1;
    }
    Some(if from == 0 {
        Lines::One
    } else {
        Lines::Several
    })
}

// Whether the byte at `at` is a line feed without a blank beside it.
#[inline(always)]
fn is_lone_line_feed(bytes: &[u8], at: usize) -> bool
    requires first { 0 < at }
    requires within { at < length bytes.now }
    ensures { result ≡ is_lone_line_feed bytes.now at }
{
    if bytes[at] != b'\n' {
        return false;
    }
    let follows_blank = is_blank(bytes[at - 1]);
    let precedes_blank = at + 1 < bytes.len() && is_blank(bytes[at + 1]);
    !follows_blank && !precedes_blank
}
