//! A parser of the rest of a text.

ghost use Rattle.std.specs.Prelude.{◌≡◌, IfOk};
ghost use Rattle.std.specs.Option.{ForSome};
ghost use Rattle.cmark_values.specs.Shown.{shown_options};
ghost use Rattle.cmark_parser.specs.Parsing.{Defines, DefinesFootnotes, CanGo, IsReady, callback_of, text_of};
ghost use Rattle.cmark_parser.specs.Tails.{CanReadRest, ReadsRest};

use crate::parse::{EVENTS_A_BYTE, Parser};
use cmark_block_walk::Walk;
use cmark_blocks::{FirstPass, run_first_pass_from};
use cmark_event_walk::{OptionalCallback, SpanWalk};
use cmark_inline::BrokenLinkCallback;
use cmark_references::{FootnoteDefs, RefDefs};
use cmark_text::{EntityLookup, Options};
use std::alloc::{AllocError, Global};
use std::mem;

/// A parser of the rest of `text`, from the line at the byte offset `from` on. A parser of the whole text returns these events, with these
/// ranges, after the events of the earlier lines.
///
/// The blocks before `from` must be those of these bytes alone. `definitions` and `footnotes` are the tables of the earlier lines, and no
/// footnote in them is used yet (`CanReadRest`). `limit` is the rest of the reference expansion limit, in bytes. Fails only if memory is
/// refused.
pub fn parse_rest<'input, E: EntityLookup, F: BrokenLinkCallback<'input> + Drop>(
    alloc: Global,
    text: &'input str,
    from: usize,
    definitions: RefDefs<'input>,
    footnotes: FootnoteDefs,
    options: Options,
    entities: &'input E,
    callback: Option<F>,
    limit: usize,
) -> Result<Parser<'input, E, F>, AllocError>
    requires follows { CanReadRest text.now (shown_options options)
        (E.replacement entities.now) from definitions footnotes }
    requires ready { ForSome callback F.ready }
    ensures ready { IfOk result (IsReady F.ready) }
    ensures text { IfOk result (λ parser. text_of parser ≡ text.entry.now) }
    ensures reads { IfOk result (ReadsRest E.replacement limit text.entry.now from
        (shown_options options) (E.replacement entities.entry.now)) }
    ensures definitions { IfOk result (Defines text.entry.now
        (shown_options options) (E.replacement entities.entry.now)) }
    ensures footnotes { IfOk result (DefinesFootnotes text.entry.now
        (shown_options options) (E.replacement entities.entry.now)) }
    ensures callback { IfOk result (λ parser. callback_of parser ≡ callback) }
    ensures goes { IfOk result (CanGo E.replacement) }
{
    let FirstPass {
        tree,
        mut allocations,
    } = run_first_pass_from(alloc, text, from, definitions, footnotes, options, entities)?;
    let none = FootnoteDefs::new(alloc);
    let footnotes = mem::replace(&mut allocations.footdefs, none);
    let budget = text.len() as u128 * EVENTS_A_BYTE + 1;
    let walk = Walk::new(alloc, text, tree, allocations);
    let callback = OptionalCallback { callback };
    Ok(Parser {
        spans: SpanWalk::new(
            alloc, text, walk, budget, options, entities, footnotes, callback, limit,
        ),
        is_over: false,
    })
}
