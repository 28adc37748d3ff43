//! From a text to a line of JSON for each of its events.

ghost use Rattle.std.specs.Prelude.{IfOk, string_bytes};
ghost use Rattle.cmark_values.specs.Shown.{shown_options};
ghost use Rattle.cmark_parser.specs.Parsing.{CanGoRanged};
ghost use Rattle.mdevents_run.specs.Renders.{AreLinesOf, AreLinesOfRest};

use cmark_json::append_given;
use cmark_parser::{OffsetIter, Parser};
use cmark_values::{EntityLookup, Options};
use std::alloc::{AllocError, Global};

/// One line of JSON for each event of a text, with its range, read with these options. `entities` gives the texts of entity names. Fails if
/// memory is refused.
pub fn to_json_lines<E: EntityLookup>(
    alloc: Global,
    text: &str,
    options: Options,
    entities: &E,
) -> Result<String, AllocError>
    ensures { IfOk result (λ output. AreLinesOf text.now
        (shown_options options) (E.replacement entities.now) (string_bytes output)) }
{
    let parser = Parser::new_ext(alloc, text, options, entities)?;
    let mut iter = parser.into_offset_iter();
    // The walk is passed by reference, so that it is dropped only here: the compiler writes out a drop at each exit of a function.
    lines_of(alloc, &mut iter)
}

// One line for each event that a walk still has to give.
fn lines_of<'a, E: EntityLookup>(
    alloc: Global,
    iter: &mut OffsetIter<'a, E>,
) -> Result<String, AllocError>
    requires { CanGoRanged E.replacement iter.old }
    ensures { IfOk result
        (λ output. AreLinesOfRest E.replacement iter.old iter.new (string_bytes output)) }
{
    let mut output = String::new(alloc);
    while let Some(item) = iter.next() {
        let (event, range) = item?;
        append_given(&mut output, alloc, event, range)?;
    }
    Ok(output)
}
