//! The call of C for safe HTML of flat records.

ghost use Rattle.std.specs.Prelude.{◌≡◌, IsUtf8};
ghost use Rattle.program_io.specs.Statuses.{Refused};
ghost use Rattle.pulldown_cmark_c.specs.Flat.{SafeRenderAnswers};

use crate::flat::MALFORMED;
use cmark_flat::{DecodeError, render_safe};
use program_io::{NO_MEMORY, NOT_UTF8, hand_over};
use std::alloc::Global;

/// Writes safe HTML of the events that flat records stand for, for records that a stranger may have made. Otherwise it does what
/// `pcm_render` does. Addresses may also have one of the schemes of `schemes`: names separated by white space.
///
/// If this list is not UTF-8, the status is 2, `room` is unchanged and `size` is 0.
#[unsafe(no_mangle)]
pub extern "C" fn pcm_safe_render(
    alloc: Global,
    records: &[u8],
    schemes: &[u8],
    room: &mut [u8],
    size: &mut usize,
) -> u32
    ensures listed { IsUtf8 schemes.now
        → SafeRenderAnswers schemes.now records.now room.old room.new size.new result }
    ensures not_listed { (IsUtf8 schemes.now → ⊥)
        → (result ≡ 2) × Refused room.old room.new size.new }
{
    *size = 0;
    let Ok(further) = str::from_utf8(schemes) else {
        return NOT_UTF8;
    };
    match render_safe(alloc, records, further) {
        Ok(html) => hand_over(html.as_str().as_bytes(), room, size),
        Err(DecodeError::NoMemory) => NO_MEMORY,
        Err(DecodeError::Malformed) => MALFORMED,
    }
}
