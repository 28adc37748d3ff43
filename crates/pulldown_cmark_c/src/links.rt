//! The calls of C for link reference definitions, and for events with the caller's answers.

ghost use Rattle.std.specs.Prelude.{◌≡◌, false, true, is_some, IfErr, IfOk};
ghost use Rattle.cmark_flat.specs.Gives.{Fails};
ghost use Rattle.cmark_flat.specs.Questions.{decode_replies};
ghost use Rattle.cmark_parser.specs.Parsing.{CanGoRanged, callback_of, walk_of};
ghost use Rattle.program_io.specs.Statuses.{Answers};
ghost use Rattle.cmark_values.specs.Shown.{shown_options};
ghost use Rattle.pulldown_cmark_c.specs.Calls.{SaysUnknown, are_known, entities_of, options_of};
ghost use Rattle.pulldown_cmark_c.specs.Links.{AnswersEvents, AreAnsweredOf, AreAnsweredRest, AreDefinitionsOf};

use crate::flat::MALFORMED;
use crate::options::{Entities, are_known, refuse_unknown};
use bitflags::Flags;
use cmark_flat::{DecodeError, append_given, decode_replies};
use cmark_flat_links::{AnswerTable, Answering, append_definitions};
use cmark_parser::{OffsetIter, Parser};
use cmark_values::{EntityLookup, Options};
use program_io::{NO_MEMORY, NOT_UTF8, hand_over};
use simdutf8::basic::from_utf8;
use std::alloc::{AllocError, Global};

/// Like `pcm_events`, but writes the records of the text's link reference definitions.
#[unsafe(no_mangle)]
pub extern "C" fn pcm_references(
    alloc: Global,
    text: &[u8],
    options: u32,
    room: &mut [u8],
    size: &mut usize,
) -> u32
    ensures known { are_known options ≡ true
        → Answers (AreDefinitionsOf text.now (options_of options) (entities_of options))
        text.now room.old room.new size.new result }
    ensures unknown { are_known options ≡ false → SaysUnknown room.old room.new size.new result }
{
    if !are_known(options) {
        return refuse_unknown(size);
    }
    *size = 0;
    let Ok(text) = from_utf8(text) else {
        return NOT_UTF8;
    };
    let entities = Entities { bits: options };
    let options = Options::from_bits_retain(options);
    let Ok(records) = definitions_of(alloc, text, options, &entities) else {
        return NO_MEMORY;
    };
    hand_over(records.as_slice(), room, size)
}

/// The records of a text's link reference definitions.
fn definitions_of<E: EntityLookup>(
    alloc: Global,
    text: &str,
    options: Options,
    entities: &E,
) -> Result<Vec<u8>, AllocError>
    ensures { IfOk result (λ output. AreDefinitionsOf text.now
        (shown_options options) (E.replacement entities.now) output.items) }
{
    let parser = Parser::new_ext(alloc, text, options, entities)?;
    let mut output = Vec::new(alloc);
    append_definitions(&mut output, parser.reference_definitions())?;
    Ok(output)
}

/// Like `pcm_events`, but links without a definition get the answers of the records `answers`. The records of the questions follow those of
/// the events.
///
/// The status is 4 if the bytes are not the records of answers. At 2, 3 and 4 the size is 0.
#[unsafe(no_mangle)]
pub extern "C" fn pcm_events_answered(
    alloc: Global,
    text: &[u8],
    options: u32,
    answers: &[u8],
    room: &mut [u8],
    size: &mut usize,
) -> u32
    ensures known { are_known options ≡ true
        → AnswersEvents text.now (options_of options) (entities_of options) answers.now
        room.old room.new size.new result }
    ensures unknown { are_known options ≡ false → SaysUnknown room.old room.new size.new result }
{
    if !are_known(options) {
        return refuse_unknown(size);
    }
    *size = 0;
    let Ok(text) = from_utf8(text) else {
        return NOT_UTF8;
    };
    let entities = Entities { bits: options };
    let options = Options::from_bits_retain(options);
    match answered(alloc, text, options, &entities, answers) {
        Ok(records) => hand_over(records.as_slice(), room, size),
        Err(DecodeError::NoMemory) => NO_MEMORY,
        Err(DecodeError::Malformed) => MALFORMED,
    }
}

/// The records of a text's events and of its questions, which get these answers.
fn answered<'a, E: EntityLookup>(
    alloc: Global,
    text: &'a str,
    options: Options,
    entities: &'a E,
    answers: &'a [u8],
) -> Result<Vec<u8>, DecodeError>
    ensures answered { IfOk result (λ output. AreAnsweredOf text.entry.now (shown_options options)
        (E.replacement entities.entry.now) answers.entry.now output.items) }
    ensures malformed { IfErr result (λ e. Fails e (decode_replies answers.entry.now)) }
{
    let replies = decode_replies(alloc, answers)?;
    let table = AnswerTable::new(alloc, replies.as_slice())?;
    let callback = Answering::new(alloc, table);
    let parser = Parser::new_with_broken_link_callback(
        alloc,
        text,
        options,
        entities,
        Some(callback),
    )?;
    let mut iter = parser.into_offset_iter();
    Ok(answered_of_rest(alloc, &mut iter)?)
}

/// The records of the events that a walk still has to give, and of all its questions.
fn answered_of_rest<'a, E: EntityLookup>(
    alloc: Global,
    iter: &mut OffsetIter<'a, E, Answering<'a>>,
) -> Result<Vec<u8>, AllocError>
    requires goes { CanGoRanged E.replacement iter.old }
    requires asks { is_some (callback_of (walk_of iter.old)) ≡ true }
    ensures { IfOk result (λ output. AreAnsweredRest E.replacement iter.old iter.new output.items) }
{
    let mut output = Vec::new(alloc);
    while let Some(item) = iter.next() {
        let (event, range) = item?;
        append_given(&mut output, event, range)?;
    }
    let callback = iter.callback().unwrap();
    output.extend_from_slice(callback.asked()?)?;
    Ok(output)
}
