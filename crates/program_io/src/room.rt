//! The result of a call from C: an output in the caller's room, and a status.

ghost use Rattle.std.specs.Prelude.{◌≡◌, ◌<◌, ◌≤◌, ◌++◌, ◌⊎◌, drop, length};
ghost use Rattle.program_io.specs.Statuses.{Answers};

use crate::render::Render;
use simdutf8::basic::from_utf8;
use std::alloc::Global;

/// The output was written.
pub const DONE: u32 = 0;
/// The room is too small for the output.
pub const TOO_LONG: u32 = 1;
/// The text is not UTF-8.
pub const NOT_UTF8: u32 = 2;
/// Memory was refused.
pub const NO_MEMORY: u32 = 3;

/// Writes an output to the beginning of `room`, if it fits, and its size in bytes to `size` in any case. Returns `DONE` or `TOO_LONG`.
pub fn hand_over(answer: &[u8], room: &mut [u8], size: &mut usize) -> u32
    ensures either { (result ≡ 0) ⊎ (result ≡ 1) }
    ensures size { size.new ≡ length answer.now }
    ensures done { result ≡ 0 → (length answer.now ≤ length room.old)
        × (room.new ≡ answer.now ++ drop (length answer.now) room.old) }
    ensures too_long { result ≡ 1 → (length room.old < length answer.now) × (room.new ≡ room.old) }
{
    *size = answer.len();
    if answer.len() > room.len() {
        return TOO_LONG;
    }
    room[..answer.len()].copy_from_slice(answer);
    DONE
}

/// Renders a text for a call from C: writes the output to the beginning of `room`, if it fits, and its size in bytes to `size` in any case.
/// If there is no output, `size` is 0.
///
/// The status is [`DONE`] or [`TOO_LONG`], or [`NOT_UTF8`] if the bytes are not UTF-8, or [`NO_MEMORY`].
pub fn answer<P: Render>(
    alloc: Global,
    renderer: &P,
    text: &[u8],
    room: &mut [u8],
    size: &mut usize,
) -> u32
    ensures answers { Answers (P.renders renderer.now text.now)
        text.now room.old room.new size.new result }
    ensures refused { result ≡ 3 → P.refuses renderer.now text.now }
{
    *size = 0;
    let Ok(text) = from_utf8(text) else {
        return NOT_UTF8;
    };
    let Ok(answer) = renderer.render(alloc, text) else {
        return NO_MEMORY;
    };
    hand_over(answer.as_str().as_bytes(), room, size)
}
