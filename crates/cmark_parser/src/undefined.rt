//! A parser of the lines after an offset, if they define nothing.

ghost use Rattle.std.specs.Prelude.{◌≡◌, ◌↔◌, [], IfOk, IfSome, IsCharBoundary, IsTrue, None};
ghost use Rattle.cmark_block_model.specs.Tails.{document_after};
ghost use Rattle.cmark_stream_model.specs.Undefined.{HasNoDefinitions};
ghost use Rattle.cmark_values.specs.Shown.{shown_options};
ghost use Rattle.cmark_parser.specs.Parsing.{CanGo, callback_of, text_of};
ghost use Rattle.cmark_parser.specs.Tails.{ReadsUndefined};

use crate::parse::{EVENTS_A_BYTE, Parser};
use cmark_block_walk::Walk;
use cmark_blocks::{FirstPass, run_first_pass_from};
use cmark_event_walk::{OptionalCallback, SpanWalk};
use cmark_items::Allocations;
use cmark_references::{FootnoteDefs, RefDefs};
use cmark_text::{EntityLookup, Options};
use std::alloc::{AllocError, Global};
use std::mem;

/// A parser of the lines of `text` from the byte offset `from` on, without a callback. `None` if these lines define a link or a footnote.
///
/// No block is open before `from`, and no label has a definition. `limit` is the reference expansion limit, in bytes. Fails only if memory
/// is refused.
pub fn parse_undefined<'input, E: EntityLookup>(
    alloc: Global,
    text: &'input str,
    from: usize,
    options: Options,
    entities: &'input E,
    limit: usize,
) -> Result<Option<Parser<'input, E>>, AllocError>
    requires begins { IsCharBoundary text.now from }
    ensures undefined { IfOk result (λ found. IfSome found (λ parser. HasNoDefinitions
        (document_after text.entry.now
        (shown_options options) (E.replacement entities.entry.now) from))) }
    ensures text { IfOk result (λ found. IfSome found (λ parser. text_of parser ≡ text.entry.now)) }
    ensures reads { IfOk result (λ found. IfSome found (ReadsUndefined E.replacement limit
        text.entry.now from (shown_options options) (E.replacement entities.entry.now))) }
    ensures callback { IfOk result (λ found. IfSome found (λ parser. callback_of parser ≡ None)) }
    ensures goes { IfOk result (λ found. IfSome found (CanGo E.replacement)) }
{
    let definitions = RefDefs::new(alloc);
    let footnotes = FootnoteDefs::new(alloc);
    let FirstPass {
        tree,
        mut allocations,
    } = run_first_pass_from(alloc, text, from, definitions, footnotes, options, entities)?;
    if !has_no_definitions(&allocations) {
        return Ok(None);
    }
    let none = FootnoteDefs::new(alloc);
    let footnotes = mem::replace(&mut allocations.footdefs, none);
    let budget = text.len() as u128 * EVENTS_A_BYTE + 1;
    let walk = Walk::new(alloc, text, tree, allocations);
    let callback = OptionalCallback { callback: None };
    Ok(Some(Parser {
        spans: SpanWalk::new(
            alloc, text, walk, budget, options, entities, footnotes, callback, limit,
        ),
        is_over: false,
    }))
}

/// Whether the tables have neither a link nor a footnote.
fn has_no_definitions(allocations: &Allocations<'_>) -> bool
    ensures { IsTrue result
        ↔ ((allocations.now.references ≡ []) × (allocations.now.footnotes ≡ [])) }
{
    allocations.refdefs.is_empty() && allocations.footdefs.is_empty()
}
