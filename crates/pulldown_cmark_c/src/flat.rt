//! The calls of C for flat records: events as records, and records as HTML.

ghost use Rattle.std.specs.Prelude.{◌≡◌, false, true, IfOk};
ghost use Rattle.cmark_parser.specs.Parsing.{CanGoRanged};
ghost use Rattle.program_io.specs.Statuses.{Answers};
ghost use Rattle.cmark_values.specs.Shown.{shown_options};
ghost use Rattle.pulldown_cmark_c.specs.Calls.{SaysUnknown, are_known, entities_of, options_of};
ghost use Rattle.pulldown_cmark_c.specs.Flat.{AreFlatOf, AreFlatOfRest, RenderAnswers};

use crate::options::{Entities, are_known, refuse_unknown};
use bitflags::Flags;
use cmark_flat::{DecodeError, append_given, append_short, render};
use cmark_parser::{OffsetIter, Parser};
use cmark_text::Step;
use cmark_values::{EntityLookup, Options};
use program_io::{NO_MEMORY, NOT_UTF8, hand_over};
use simdutf8::basic::from_utf8;
use std::alloc::{AllocError, Global};

/// The bytes are not the flat records that a call reads.
pub const MALFORMED: u32 = 4;

/// Like `pcm_html`, but writes the events of the text as flat records in place of its HTML.
#[unsafe(no_mangle)]
pub extern "C" fn pcm_events(
    alloc: Global,
    text: &[u8],
    options: u32,
    room: &mut [u8],
    size: &mut usize,
) -> u32
    ensures known { are_known options ≡ true
        → Answers (AreFlatOf text.now (options_of options) (entities_of options))
        text.now room.old room.new size.new result }
    ensures unknown { are_known options ≡ false → SaysUnknown room.old room.new size.new result }
{
    if !are_known(options) {
        return refuse_unknown(size);
    }
    *size = 0;
    let Ok(text) = from_utf8(text) else {
        return NOT_UTF8;
    };
    let entities = Entities { bits: options };
    let options = Options::from_bits_retain(options);
    let Ok(records) = flat_of(alloc, text, options, &entities) else {
        return NO_MEMORY;
    };
    hand_over(records.as_slice(), room, size)
}

/// Writes the HTML of the events that flat records stand for to the beginning of `room`, if it fits, and its size in bytes to `size`.
///
/// The status is 4 if the bytes are not the records of events. At 3 and 4 the size is 0.
#[unsafe(no_mangle)]
pub extern "C" fn pcm_render(
    alloc: Global,
    records: &[u8],
    room: &mut [u8],
    size: &mut usize,
) -> u32
    ensures { RenderAnswers records.now room.old room.new size.new result }
{
    *size = 0;
    match render(alloc, records) {
        Ok(html) => hand_over(html.as_str().as_bytes(), room, size),
        Err(DecodeError::NoMemory) => NO_MEMORY,
        Err(DecodeError::Malformed) => MALFORMED,
    }
}

/// The flat records of a text's events.
fn flat_of<E: EntityLookup>(
    alloc: Global,
    text: &str,
    options: Options,
    entities: &E,
) -> Result<Vec<u8>, AllocError>
    ensures { IfOk result (λ output. AreFlatOf text.now
        (shown_options options) (E.replacement entities.now) output.items) }
{
    let parser = Parser::new_ext(alloc, text, options, entities)?;
    let mut iter = parser.into_offset_iter();
    // The walk is passed by reference, so that it is dropped only here: the compiler writes out a drop at each exit of a function.
    flat_of_rest(alloc, &mut iter)
}

// The list of records begins with room for this many bytes, so that it does not grow for a short text. It is almost the most for which glibc
// keeps freed memory in its quickest lists.
const ROOM: usize = 1_024;

/// The flat records of the events that a walk still has to give.
fn flat_of_rest<'a, E: EntityLookup>(
    alloc: Global,
    iter: &mut OffsetIter<'a, E>,
) -> Result<Vec<u8>, AllocError>
    requires { CanGoRanged E.replacement iter.old }
    ensures { IfOk result (λ output. AreFlatOfRest E.replacement iter.old iter.new output.items) }
{
    let mut output = Vec::with_capacity(alloc, ROOM)?;
    loop {
        match iter.step()? {
            Step::Short(short, start, end) => append_short(&mut output, short, start, end)?,
            Step::Over => return Ok(output),
            Step::Long => {
                let given = iter.take_long()?;
                append_given(&mut output, given.event, given.range)?;
            }
        }
    }
}
