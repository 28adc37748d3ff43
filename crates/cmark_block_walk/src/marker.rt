//! Task markers in a walk over a document's tree (GFM 5.3).

ghost use Rattle.std.specs.Prelude.{◌≡◌, ℕ, List, Some, IfOk, OnErr};
ghost use Rattle.cmark_tree.specs.Zip.{Zip};
ghost use Rattle.cmark_grammar.specs.BlockDocument.{BlockNode};
ghost use Rattle.cmark_grammar.specs.BlockReading as reads;
ghost use Rattle.cmark_grammar.specs.BlockReading.{read_as};
ghost use Rattle.cmark_block_model.specs.DrawnDocument.{kind_within};
ghost use Rattle.cmark_grammar.specs.SpanDocuments.{Segment};
ghost use Rattle.cmark_text.specs.Ranged.{IsRangedZeroCopy, shown_ranged};
ghost use Rattle.cmark_text.specs.Shown.{shown_tag};
ghost use Rattle.cmark_text.specs.declared.event.Event.TheVariants as event;
ghost use Rattle.cmark_block_walk.specs.declared.reading.Stage.TheVariants as stage;
ghost use Rattle.cmark_block_walk.specs.Walking.{GivesRanged, GoesOn, LeavesTheSame, Drawn, Remains, Goes, IsFirst, Outer, StandsBelow, text_of, texts_of, tight_below, IsAt, IsTaskAt, IsTitleIn, IsListAfter, IsLeafAfter, IsLeafElement};

use crate::kind::{is_leaf, is_list, is_title};
use crate::reading::{Glance, Stage};
use crate::walk::{Walk, begun, given};
use cmark_items::Item;
use cmark_text::{Event, Ranged, Tag};
use cmark_tree::TreeIndex;
use std::alloc::AllocError;

impl<'a> Walk<'a> {
    // Moves past a task marker, which is the first event of the paragraph, heading or title that follows (GFM 5.3). The walk is then at the
    // lines of that leaf, or in the definition list that begins with the title.
    pub(crate) fn pass_marker(
        &mut self,
        ix: TreeIndex,
        is_checked: bool,
    ) -> Result<Ranged<'a>, AllocError>
        requires at { IsAt self.old ix }
        requires before { self.old.stage ≡ stage.Before }
        requires task { IsTaskAt self.old ix is_checked }
        ensures given { IfOk result
            (λ given. (left : List Segment) → Remains self.old left
            → IsFirst left (shown_ranged given) self.new) }
        ensures lent { IfOk result (IsRangedZeroCopy (text_of self.old)) }
        ensures refused { OnErr result (LeavesTheSame self.old self.new) }
        ensures goes_on { GoesOn self.old self.new }
    {
        let item = *self.tree.item(ix);
        if let Some(list) = self.definitions_after(ix) {
            self.tree.next_sibling(ix);
            self.stage = Stage::Listed {
                is_checked,
                start: item.start,
                end: item.end,
            };
            return Ok(begun(Tag::DefinitionList, list));
        }
        if let Some(leaf) = self.leaf_following(ix) {
            return self.pass_to_leaf(ix, is_checked, leaf);
        }
        self.tree.next_sibling(ix);
        Ok(marker(is_checked, item.start, item.end))
    }

    // Moves past a task marker to this paragraph or heading after it, whose start is given.
    fn pass_to_leaf(
        &mut self,
        ix: TreeIndex,
        is_checked: bool,
        leaf: Item,
    ) -> Result<Ranged<'a>, AllocError>
        requires at { IsAt self.old ix }
        requires before { self.old.stage ≡ stage.Before }
        requires task { IsTaskAt self.old ix is_checked }
        requires following { IsLeafAfter self.old ix (Some leaf) }
        ensures given { IfOk result
            (λ given. (left : List Segment) → Remains self.old left
            → IsFirst left (shown_ranged given) self.new) }
        ensures lent { IfOk result (IsRangedZeroCopy (text_of self.old)) }
        ensures refused { OnErr result (LeavesTheSame self.old self.new) }
        ensures goes_on { GoesOn self.old self.new }
    {
        let item = *self.tree.item(ix);
        let Ok(tag) = self.leaf_tag(leaf) else {
            return Err(AllocError);
        };
        self.tree.next_sibling(ix);
        self.stage = Stage::Marked {
            is_checked,
            start: item.start,
            end: item.end,
        };
        Ok(begun(tag, leaf))
    }

    // The tag of a paragraph or a heading.
    fn leaf_tag(&self, leaf: Item) -> Result<Tag<'a>, AllocError>
        requires { IsLeafElement self.now leaf }
        ensures { IfOk result
            (λ tag. (z : Zip Item) (above : List Outer) (node : BlockNode)
            → StandsBelow self.now z above → Drawn self.now.text.now (texts_of self.now) leaf node
            → reads.Around (shown_tag tag) ≡ read_as (kind_within (tight_below above) node.kind)) }
    {
        match self.glance(leaf) {
            Glance::Around(tag) => Ok(tag.tag(self.alloc)),
            _ => self.tag_with_texts(leaf),
        }
    }

    // Moves into the definition list at the focus, whose start was given: to the lines of the title with which it begins. The task marker
    // between these byte offsets is the title's first event (GFM 5.3). If the list does not begin with a title, the marker is given here.
    pub(crate) fn enter_list(
        &mut self,
        ix: TreeIndex,
        is_checked: bool,
        start: usize,
        end: usize,
    ) -> Result<Ranged<'a>, AllocError>
        requires at { IsAt self.old ix }
        requires listed { self.old.stage ≡ stage.Listed is_checked start end }
        ensures given { IfOk result
            (λ given. (left : List Segment) → Remains self.old left
            → IsFirst left (shown_ranged given) self.new) }
        ensures lent { IfOk result (IsRangedZeroCopy (text_of self.old)) }
        ensures refused { OnErr result (LeavesTheSame self.old self.new) }
        ensures goes_on { GoesOn self.old self.new }
    {
        let title = self.title_in(ix);
        self.tree.push()?;
        match title {
            Some(title) => {
                self.stage = Stage::Marked {
                    is_checked,
                    start,
                    end,
                };
                Ok(begun(Tag::DefinitionListTitle, title))
            }
            None => {
                self.stage = Stage::Before;
                Ok(marker(is_checked, start, end))
            }
        }
    }

    // The item of the title with which the node at the focus begins, if it begins with one.
    fn title_in(&self, ix: TreeIndex) -> Option<Item>
        requires { IsAt self.now ix }
        ensures { IsTitleIn self.now ix result }
    {
        let child = self.tree.child(ix)?;
        let item = *self.tree.item(child);
        if is_title(item) { Some(item) } else { None }
    }

    // The item of the definition list after a node, if there is one.
    fn definitions_after(&self, ix: TreeIndex) -> Option<Item>
        requires { IsAt self.now ix }
        ensures { IsListAfter self.now ix result }
    {
        let next = self.tree.next(ix)?;
        let item = *self.tree.item(next);
        if is_list(item) { Some(item) } else { None }
    }

    // The item of the paragraph or heading after a node, if there is one.
    fn leaf_following(&self, ix: TreeIndex) -> Option<Item>
        requires { IsAt self.now ix }
        ensures { IsLeafAfter self.now ix result }
    {
        let next = self.tree.next(ix)?;
        let item = *self.tree.item(next);
        if !is_leaf(item) {
            return None;
        }
        match self.end(item) {
            Some(_) => Some(item),
            None => None,
        }
    }

    // Gives the task marker of the leaf at the focus, which is between these byte offsets; the walk is then before the leaf's lines.
    pub(crate) fn meet_marker(&mut self, is_checked: bool, start: usize, end: usize) -> Ranged<'a>
        requires goes { Goes self.old }
        requires marked { self.old.stage ≡ stage.Marked is_checked start end }
        ensures given { (left : List Segment) → Remains self.old left
            → IsFirst left (shown_ranged result) self.new }
        ensures lent { IsRangedZeroCopy (text_of self.old) result }
        ensures goes_on { GoesOn self.old self.new }
    {
        self.stage = Stage::Lines;
        marker(is_checked, start, end)
    }
}

// A task marker with its range.
#[inline(always)]
fn marker<'a>(is_checked: bool, start: usize, end: usize) -> Ranged<'a>
    ensures value { GivesRanged (event.TaskListMarker is_checked) start end result }
    ensures lent { (text : List ℕ) → IsRangedZeroCopy text result }
{
    given(Event::TaskListMarker(is_checked), start, end)
}
