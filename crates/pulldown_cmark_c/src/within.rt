//! HTML within a reference expansion limit of the caller.

ghost use Rattle.std.specs.Prelude.{◌≡◌, false, true};
ghost use Rattle.cmark_grammar.specs.Headline.{IsHtmlWithin};
ghost use Rattle.program_io.specs.Statuses.{Answers};
ghost use Rattle.cmark_values.specs.Shown.{shown_options};
ghost use Rattle.pulldown_cmark_c.specs.Calls.{SaysUnknown, are_known, entities_of, options_of};

use crate::options::{Entities, are_known, refuse_unknown};
use bitflags::Flags;
use cmark_parser::to_html_within;
use cmark_values::Options;
use program_io::{Render, answer};
use std::alloc::{AllocError, Global};

/// Renders a text as HTML within a reference expansion limit, in bytes.
#[derive(Drop)]
struct Within {
    options: Options,
    entities: Entities,
    limit: usize,
}

impl Render for Within {
    ghost renders = { λ within text output. IsHtmlWithin within.limit text (shown_options within.options) (entities_of within.entities.bits) output };

    fn render(&self, alloc: Global, text: &str) -> Result<String, AllocError> {
        to_html_within(alloc, text, self.options, &self.entities, self.limit)
    }
}

/// Writes the HTML within a reference expansion limit, and otherwise does what `pcm_html` does. Once the destinations and titles of
/// references total `limit` bytes, no definition is looked up.
#[unsafe(no_mangle)]
pub extern "C" fn pcm_html_within(
    alloc: Global,
    text: &[u8],
    options: u32,
    limit: usize,
    room: &mut [u8],
    size: &mut usize,
) -> u32
    ensures known { are_known options ≡ true
        → Answers (IsHtmlWithin limit text.now (options_of options) (entities_of options))
        text.now room.old room.new size.new result }
    ensures unknown { are_known options ≡ false → SaysUnknown room.old room.new size.new result }
{
    if !are_known(options) {
        return refuse_unknown(size);
    }
    let within = Within {
        options: Options::from_bits_retain(options),
        entities: Entities { bits: options },
        limit,
    };
    answer(alloc, &within, text, room, size)
}
