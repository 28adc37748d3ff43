//! The walk over a document's tree.

ghost use Rattle.std.specs.Prelude.{◌≡◌, ℕ, true, false, List, [], length, IfOk, OnErr};
ghost use Rattle.std.specs.Str.{IsCharBoundary};
ghost use Rattle.cmark_tree.specs.Forest.{Forest};
ghost use Rattle.cmark_tree.specs.Building.{Is};
ghost use Rattle.cmark_grammar.specs.BlockDocument.{BlockDocument};
ghost use Rattle.cmark_block_model.specs.DrawnDocument.{settled};
ghost use Rattle.cmark_block_model.specs.Ranges.{InOrder, AllAt};
ghost use Rattle.cmark_grammar.specs.SpanDocuments.{Segment, segments};
ghost use Rattle.cmark_text.specs.declared.event.Event.TheVariants as event;
ghost use Rattle.cmark_items.specs.ItemNodes.{shown_forest, nodes_of};
ghost use Rattle.cmark_text.specs.Ranged.{IsRangedZeroCopy, shown_ranged};
ghost use Rattle.cmark_text.specs.ZeroCopy.{IsZeroCopy};
ghost use Rattle.cmark_block_walk.specs.declared.reading.Stage.TheVariants as stage;
ghost use Rattle.cmark_block_walk.specs.Walking.{GoesOn, LeavesTheSame, Remains, IsFirst, definitions_of, text_of, IsAt, IsItemAt, IsLong, IsLongItemAt, GivesRanged, has_texts, is_synthesized};

use crate::kind::{is_leaf, is_synthesized, task_of};
use crate::reading::Stage;
use cmark_items::{Allocations, Item};
use cmark_references::RefDefs;
use cmark_text::{Event, Ranged, Tag};
use cmark_tree::{Tree, TreeIndex};
use std::alloc::{AllocError, Global};

/// A walk over the tree of a document. It gives the events of the blocks and the lines of the leaves in the order of the text.
///
/// A leaf is a paragraph, a heading, the title of definitions or a table cell. The node around a text determines whether the text has
/// spans, so the texts of code, of HTML blocks and of metadata are events. A paragraph directly in an item or a definition of a tight list
/// is given as its lines only (CommonMark 5.3).
#[derive(Drop)]
pub struct Walk<'a> {
    pub(crate) text: &'a str,
    pub(crate) tree: Tree<Item>,
    pub(crate) allocations: Allocations<'a>,
    pub(crate) alloc: Global,
    pub(crate) stage: Stage,
}

impl<'a> Walk<'a> {
    /// A walk over the tree, from its first node on. If the tree is a document of the text without its link reference definitions, the walk
    /// gives that document's events and leaves, with the paragraphs of tight lists settled.
    pub fn new(
        alloc: Global,
        text: &'a str,
        tree: Tree<Item>,
        allocations: Allocations<'a>,
    ) -> Walk<'a>
        ensures remains { (forest : Forest Item) (document : BlockDocument)
            → Is tree forest []
            → shown_forest text.entry.now allocations.entry.texts forest ≡ nodes_of document
            → InOrder 0 document (length text.entry.now)
            → AllAt (IsCharBoundary text.entry.now) document
            → Remains result (segments (settled false document)) }
        ensures definitions { definitions_of result ≡ allocations.entry.references }
        ensures text { text_of result ≡ text.entry.now }
    {
        let mut tree = tree;
        tree.reset();
        Walk {
            text,
            tree,
            allocations,
            alloc,
            stage: Stage::Before,
        }
    }

    /// The definitions of links, which do not change during the walk.
    pub fn definitions(&self) -> &RefDefs<'a>
        ensures { result.now ≡ definitions_of self.now }
    {
        &self.allocations.refdefs
    }

    /// The next event with its range, after [`step`](Walk::step) reported it as long. If memory is refused, all events and
    /// leaves remain.
    #[inline(never)]
    pub fn take_long(&mut self) -> Result<Ranged<'a>, AllocError>
        requires { IsLong self.old }
        ensures given { IfOk result
            (λ given. (left : List Segment) → Remains self.old left
            → IsFirst left (shown_ranged given) self.new) }
        ensures lent { IfOk result (IsRangedZeroCopy (text_of self.old)) }
        ensures refused { OnErr result (LeavesTheSame self.old self.new) }
        ensures goes_on { GoesOn self.old self.new }
    {
        let Some(ix) = self.tree.cur() else {
            unreachable!()
        };
        match self.stage {
            Stage::Marked {
                is_checked,
                start,
                end,
            } => Ok(self.meet_marker(is_checked, start, end)),
            Stage::Listed {
                is_checked,
                start,
                end,
            } => self.enter_list(ix, is_checked, start, end),
            _ => self.enter(ix),
        }
    }

    // Into the focus or past it, if it has a text of its own or is a task marker.
    fn enter(&mut self, ix: TreeIndex) -> Result<Ranged<'a>, AllocError>
        requires at { IsAt self.old ix }
        requires before { self.old.stage ≡ stage.Before }
        requires long { IsLongItemAt self.old ix }
        ensures given { IfOk result
            (λ given. (left : List Segment) → Remains self.old left
            → IsFirst left (shown_ranged given) self.new) }
        ensures lent { IfOk result (IsRangedZeroCopy (text_of self.old)) }
        ensures refused { OnErr result (LeavesTheSame self.old self.new) }
        ensures goes_on { GoesOn self.old self.new }
    {
        let item = *self.tree.item(ix);
        if let Some(is_checked) = task_of(item) {
            return self.pass_marker(ix, is_checked);
        }
        if is_synthesized(item) {
            return self.pass_text(ix, item);
        }
        self.enter_element(ix, item)
    }

    // Past a text that does not occur in the source.
    fn pass_text(&mut self, ix: TreeIndex, item: Item) -> Result<Ranged<'a>, AllocError>
        requires at { IsAt self.old ix }
        requires before { self.old.stage ≡ stage.Before }
        requires item { IsItemAt self.old ix item }
        requires synthesized { is_synthesized item.body ≡ true }
        ensures given { IfOk result
            (λ given. (left : List Segment) → Remains self.old left
            → IsFirst left (shown_ranged given) self.new) }
        ensures lent { IfOk result (IsRangedZeroCopy (text_of self.old)) }
        ensures refused { OnErr result (LeavesTheSame self.old self.new) }
        ensures goes_on { GoesOn self.old self.new }
    {
        let Ok(event) = self.synthesized(item) else {
            return Err(AllocError);
        };
        self.tree.next_sibling(ix);
        Ok(given(event, item.start, item.end))
    }

    // Into an element that has a text of its own.
    fn enter_element(&mut self, ix: TreeIndex, item: Item) -> Result<Ranged<'a>, AllocError>
        requires at { IsAt self.old ix }
        requires before { self.old.stage ≡ stage.Before }
        requires item { IsItemAt self.old ix item }
        requires texts { has_texts item.body ≡ true }
        ensures given { IfOk result
            (λ given. (left : List Segment) → Remains self.old left
            → IsFirst left (shown_ranged given) self.new) }
        ensures lent { IfOk result (IsRangedZeroCopy (text_of self.old)) }
        ensures refused { OnErr result (LeavesTheSame self.old self.new) }
        ensures goes_on { GoesOn self.old self.new }
    {
        let Ok(tag) = self.tag_with_texts(item) else {
            return Err(AllocError);
        };
        if is_leaf(item) {
            self.stage = Stage::Lines;
            return Ok(begun(tag, item));
        }
        match self.tree.push() {
            Ok(()) => Ok(begun(tag, item)),
            Err(AllocError) => {
                drop(tag);
                Err(AllocError)
            }
        }
    }
}

// The start of an element with an item's range.
#[inline(always)]
pub(crate) fn begun<'a>(tag: Tag<'a>, item: Item) -> Ranged<'a>
    ensures value { GivesRanged (event.Start tag.entry) item.start item.end result }
    ensures lent { (text : List ℕ) → IsRangedZeroCopy text result }
{
    given(Event::Start(tag), item.start, item.end)
}

// An event with its range.
#[inline(always)]
pub(crate) fn given<'a>(event: Event<'a>, start: usize, end: usize) -> Ranged<'a>
    ensures value { GivesRanged event.entry start end result }
    ensures lent { (text : List ℕ) → IsZeroCopy text event.entry start end
        → IsRangedZeroCopy text result }
{
    Ranged {
        event,
        range: start..end,
    }
}
