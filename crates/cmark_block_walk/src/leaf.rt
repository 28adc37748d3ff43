//! The leaves in a walk over a document's tree: all their lines are met at once.

ghost use Rattle.std.specs.Prelude.{◌≡◌, List, IfOk, OnErr, OnOk};
ghost use Rattle.cmark_grammar.specs.SpanDocuments.{Segment, is_cell};
ghost use Rattle.cmark_block_walk.specs.declared.reading.Stage.TheVariants as stage;
ghost use Rattle.cmark_block_walk.specs.Walking.{GoesOn, LeavesTheSame, Remains, GivesLeaf, IsAt, HoldsLines, HasText};
ghost use Rattle.cmark_leaf_text.specs.declared.stretch.LeafLine.{LeafLine};

use crate::kind::{is_cell, own_text_end};
use crate::reading::Stage;
use crate::walk::Walk;
use cmark_leaf_text::LeafLine;
use cmark_tree::TreeIndex;
use std::alloc::AllocError;

impl<'a> Walk<'a> {
    // Gives the lines of the leaf at the focus, and moves past them. Returns whether it is a table cell.
    #[inline(always)]
    pub(crate) fn meet_leaf(
        &mut self,
        ix: TreeIndex,
        lines: &mut Vec<LeafLine>,
    ) -> Result<bool, AllocError>
        requires at { IsAt self.old ix }
        requires before { self.old.stage ≡ stage.Lines }
        ensures given { IfOk result
            (λ is_cell. (left : List Segment) → Remains self.old left
            → GivesLeaf left is_cell lines.new.items self.new) }
        ensures refused { OnErr result (LeavesTheSame self.old self.new) }
        ensures goes_on { GoesOn self.old self.new }
    {
        self.gather(ix, lines)?;
        let is_cell = is_cell(*self.tree.item(ix));
        self.stage = Stage::Following;
        Ok(is_cell)
    }

    // The lines of the leaf at the focus: its own text, or the nodes inside it.
    #[inline(always)]
    fn gather(&self, ix: TreeIndex, lines: &mut Vec<LeafLine>) -> Result<(), AllocError>
        requires { IsAt self.now ix }
        ensures lines { OnOk result (HoldsLines self.now lines.new.items) }
        ensures text { OnErr result (HasText self.now) }
    {
        lines.clear();
        let leaf = *self.tree.item(ix);
        if let Some(text_end) = own_text_end(leaf) {
            lines.push(LeafLine {
                start: leaf.start,
                content_end: text_end,
                line_end: text_end,
            })?;
            return Ok(());
        }
        let Some(first) = self.tree.child(ix) else {
            return Ok(());
        };
        let mut next = Some(first);
        // The count is not reached: no memory holds this many nodes.
        for _ in 0..u64::MAX {
            let Some(line) = next else {
                return Ok(());
            };
            let item = *self.tree.item(line);
            lines.push(LeafLine {
                start: item.start,
                content_end: item.end,
                line_end: item.end,
            })?;
            next = self.tree.next(line);
        }
        Err(AllocError)
    }
}
