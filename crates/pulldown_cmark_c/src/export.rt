//! The calls from C.

ghost use Rattle.std.specs.Prelude.{◌≡◌, [], IsUtf8, false, true};
ghost use Rattle.cmark_grammar.specs.Headline.{IsHtmlOf};
ghost use Rattle.program_io.specs.Statuses.{Answers, Refused};
ghost use Rattle.mdevents_run.specs.Renders.{AreLinesOf};
ghost use Rattle.mdhtml_run.specs.Safe.{IsSafeAnswer};
ghost use Rattle.pulldown_cmark_c.specs.Calls.{SaysUnknown, are_known, entities_of, options_of, version_number};

use crate::options::{Entities, are_known, refuse_unknown};
use bitflags::Flags;
use cmark_values::Options;
use mdevents_run::EventLines;
use mdhtml_run::{Html, SafeHtml};
use program_io::{NOT_UTF8, answer};
use std::alloc::Global;

/// Writes the HTML of a text at the beginning of `room`, and its length in bytes into `size`, even if the room is too small.
/// `options` has the bits of `Options`, and that of all entity names; without this one, the names are the eleven of `BasicEntities`.
///
/// Returns a status of `program_io`, or 5 if a bit of `options` has no meaning: then `room` is unchanged and `size` is 0. `alloc` is not
/// among the parameters of C.
#[unsafe(no_mangle)]
pub extern "C" fn pcm_html(
    alloc: Global,
    text: &[u8],
    options: u32,
    room: &mut [u8],
    size: &mut usize,
) -> u32
    ensures known { are_known options ≡ true
        → Answers (IsHtmlOf text.now (options_of options) (entities_of options))
        text.now room.old room.new size.new result }
    ensures unknown { are_known options ≡ false → SaysUnknown room.old room.new size.new result }
{
    if !are_known(options) {
        return refuse_unknown(size);
    }
    let entities = Entities { bits: options };
    let html = Html {
        options: Options::from_bits_retain(options),
        entities: &entities,
    };
    answer(alloc, &html, text, room, size)
}

/// Writes safe HTML, for a stranger's text: nothing in it runs. Otherwise it does what `pcm_html` does.
#[unsafe(no_mangle)]
pub extern "C" fn pcm_safe_html(
    alloc: Global,
    text: &[u8],
    options: u32,
    room: &mut [u8],
    size: &mut usize,
) -> u32
    ensures known { are_known options ≡ true
        → Answers (IsSafeAnswer text.now (options_of options) (entities_of options) [])
        text.now room.old room.new size.new result }
    ensures unknown { are_known options ≡ false → SaysUnknown room.old room.new size.new result }
{
    if !are_known(options) {
        return refuse_unknown(size);
    }
    safe_answer(alloc, text, options, "", room, size)
}

/// Does what `pcm_safe_html` does, but addresses may also have one of the schemes of `schemes`: names separated by white space.
/// If this list is not UTF-8, the status is that of a text that is not UTF-8, `room` is unchanged and `size` is 0.
#[unsafe(no_mangle)]
pub extern "C" fn pcm_safe_html_with(
    alloc: Global,
    text: &[u8],
    options: u32,
    schemes: &[u8],
    room: &mut [u8],
    size: &mut usize,
) -> u32
    ensures listed { are_known options ≡ true → IsUtf8 schemes.now
        → Answers (IsSafeAnswer text.now (options_of options) (entities_of options) schemes.now)
        text.now room.old room.new size.new result }
    ensures not_listed { are_known options ≡ true → (IsUtf8 schemes.now → ⊥)
        → (result ≡ 2) × Refused room.old room.new size.new }
    ensures unknown { are_known options ≡ false → SaysUnknown room.old room.new size.new result }
{
    if !are_known(options) {
        return refuse_unknown(size);
    }
    let Ok(further) = str::from_utf8(schemes) else {
        *size = 0;
        return NOT_UTF8;
    };
    safe_answer(alloc, text, options, further, room, size)
}

/// Writes safe HTML as `pcm_safe_html` does. `further` names further schemes.
fn safe_answer(
    alloc: Global,
    text: &[u8],
    bits: u32,
    further: &str,
    room: &mut [u8],
    size: &mut usize,
) -> u32
    ensures { Answers (IsSafeAnswer text.now (options_of bits) (entities_of bits) further.now)
        text.now room.old room.new size.new result }
{
    let options = Options::from_bits_retain(bits);
    let entities = Entities { bits };
    let renderer = SafeHtml {
        options,
        entities: &entities,
        further,
    };
    answer(alloc, &renderer, text, room, size)
}

/// Writes a line of JSON for each event of a text, as `mdevents` does. Otherwise it does what `pcm_html` does.
#[unsafe(no_mangle)]
pub extern "C" fn pcm_events_json(
    alloc: Global,
    text: &[u8],
    options: u32,
    room: &mut [u8],
    size: &mut usize,
) -> u32
    ensures known { are_known options ≡ true
        → Answers (AreLinesOf text.now (options_of options) (entities_of options))
        text.now room.old room.new size.new result }
    ensures unknown { are_known options ≡ false → SaysUnknown room.old room.new size.new result }
{
    if !are_known(options) {
        return refuse_unknown(size);
    }
    let entities = Entities { bits: options };
    let lines = EventLines {
        options: Options::from_bits_retain(options),
        entities: &entities,
    };
    answer(alloc, &lines, text, room, size)
}

/// Returns the version of the library, as the header's `PCM_VERSION`.
#[unsafe(no_mangle)]
pub extern "C" fn pcm_version() -> u32
    ensures { result ≡ version_number 0 13 6 }
{
    (13 << 8) | 6
}
