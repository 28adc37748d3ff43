//! The block pass over a whole text.

ghost use Rattle.std.specs.Prelude.{◌≡◌, OnOk, IfOk};
ghost use Rattle.cmark_values.specs.Shown.{shown_options};
ghost use Rattle.cmark_blocks.specs.FirstPass.{Leaves};

use crate::state::Pass;
use cmark_items::{Allocations, Item};
use cmark_line_rules::LineRest;
use cmark_tree::Tree;
use cmark_values::{EntityLookup, Options};
use std::alloc::{AllocError, Global};

/// The result of the block pass over a text.
#[derive(Drop)]
pub struct FirstPass<'a> {
    /// The tree of the text's blocks. Its focus is the last block that is inside no other.
    pub tree: Tree<Item>,
    /// The tables that the items point into, the link reference definitions, and the footnotes that are defined.
    pub allocations: Allocations<'a>,
}

impl<'a, E: EntityLookup> Pass<'a, E> {
    ghost use Rattle.cmark_blocks.specs.LineByLine.{FeedsAll, ClosesEverything};

    /// Feeds all lines of the text from the next one on.
    pub(crate) fn feed_all(&mut self) -> Result<(), AllocError>
        ensures runs { OnOk result (FeedsAll E.replacement self.old self.new) }
        ensures text { self.new.text ≡ self.old.text }
    {
        while self.line_end < self.text.len() {
            let line = LineRest::new(self.text.as_bytes(), self.line_end);
            self.feed(line)?;
        }
        Ok(())
    }

    /// Closes everything at the end of the text.
    pub(crate) fn close_everything(&mut self) -> Result<(), AllocError>
        ensures runs { OnOk result (ClosesEverything E.replacement self.old self.new) }
    {
        self.close_leaf()?;
        self.close_containers(0);
        self.close_list();
        Ok(())
    }

    /// The tree and its tables.
    pub(crate) fn finish(self) -> FirstPass<'a>
        ensures tree { result.tree ≡ self.entry.builder.tree }
        ensures allocations { result.allocations ≡ self.entry.builder.allocations }
    {
        let Pass { builder, .. } = self;
        let (tree, allocations) = builder.finish();
        FirstPass { tree, allocations }
    }
}

/// The blocks of a text, with their texts (CommonMark 3 to 5), its link reference definitions, and the labels of the footnotes that it
/// defines, each with no use yet. Of several definitions of one label the table has the first. `entities` gives the texts of entity names.
/// The options for tables, footnotes, task lists, alerts (`ENABLE_GFM`), definition lists, metadata blocks and heading attributes matter
/// here; the others concern the texts in the blocks. The tree has at most four nodes for each byte of the text, and the cells that are
/// filled in at the end of rows, at most 262,144 for each table. A line takes time in proportion to its bytes and to the containers around
/// it. Fails only if memory is refused.
pub fn run_first_pass<'a, E: EntityLookup>(
    alloc: Global,
    text: &'a str,
    options: Options,
    entities: &'a E,
) -> Result<FirstPass<'a>, AllocError>
    ensures document { IfOk result
        (Leaves text.entry.now (shown_options options) (E.replacement entities.entry.now)) }
{
    let mut pass = Pass::new(alloc, text, options, entities)?;
    pass.feed_all()?;
    pass.close_everything()?;
    Ok(pass.finish())
}
