//! The block pass over the rest of a text.

ghost use Rattle.std.specs.Prelude.{IfOk, IsCharBoundary, List, ℕ};
ghost use Rattle.cmark_values.specs.Shown.{shown_options};
ghost use Rattle.cmark_grammar.specs.BlockDocument.{Reference};
ghost use Rattle.cmark_blocks.specs.Footnotes.{HasLabels};
ghost use Rattle.cmark_blocks.specs.Tails.{HasDefinitions, LeavesRest};

use crate::first_pass::FirstPass;
use crate::siblings::Siblings;
use crate::state::{OpenLeaf, Pass};
use cmark_builder::Builder;
use cmark_references::{FootnoteDefs, RefDefs};
use cmark_values::{EntityLookup, Options};
use std::alloc::{AllocError, Global};

impl<'a, E: EntityLookup> Pass<'a, E> {
    ghost use Rattle.cmark_block_model.specs.Tails.{starting_at};
    ghost use Rattle.cmark_blocks.specs.Runs.{Runs};

    /// The state before the line that begins at the byte offset `from`, after the definitions and footnotes of earlier lines.
    pub(crate) fn starting_at(
        alloc: Global,
        text: &'a str,
        from: usize,
        definitions: RefDefs<'a>,
        footnotes: FootnoteDefs,
        options: Options,
        entities: &'a E,
    ) -> Result<Pass<'a, E>, AllocError>
        requires begins { IsCharBoundary text.now from }
        ensures runs { IfOk result
            (λ pass. (earlier : List Reference) (labels : List (List ℕ))
            → HasDefinitions earlier definitions.entry → HasLabels labels footnotes
            → Runs E.replacement text.entry.now (shown_options options)
            (E.replacement entities.entry.now) (starting_at from earlier labels) pass) }
    {
        let builder = Builder::with_definitions(alloc, definitions, footnotes)?;
        Ok(Pass {
            alloc,
            text,
            options,
            entities,
            builder,
            inner: Siblings::none(),
            outer: Vec::new(alloc),
            strict: 0,
            footnote_runs: Vec::new(alloc),
            bare: false,
            leaf: OpenLeaf::Closed,
            blank_lines: Vec::new(alloc),
            line_end: from,
            room: String::new(alloc),
        })
    }
}

/// The blocks of the rest of a text, from a line on: what `run_first_pass` returns for a whole text. `from` is the byte offset at which the
/// line begins. No block is open before it. `definitions` and `footnotes` are the tables of the lines before it; the result has the
/// definitions and footnotes of the rest in addition, the first of each label. Fails only if memory is refused.
pub fn run_first_pass_from<'a, E: EntityLookup>(
    alloc: Global,
    text: &'a str,
    from: usize,
    definitions: RefDefs<'a>,
    footnotes: FootnoteDefs,
    options: Options,
    entities: &'a E,
) -> Result<FirstPass<'a>, AllocError>
    requires begins { IsCharBoundary text.now from }
    ensures document { IfOk result
        (λ pass. (earlier : List Reference) (labels : List (List ℕ))
        → HasDefinitions earlier definitions.entry → HasLabels labels footnotes
        → LeavesRest text.entry.now from (shown_options options) (E.replacement entities.entry.now)
        earlier labels pass) }
{
    let mut pass = Pass::starting_at(alloc, text, from, definitions, footnotes, options, entities)?;
    pass.feed_all()?;
    pass.close_everything()?;
    Ok(pass.finish())
}
