//! The tree and the tables of a document that grows at its end.

ghost use Rattle.std.specs.Prelude.{◌≡◌, ◌==◌, ◌&&◌, true, false, IfOk, OnOk, List, [], ◌∷◌, None};
ghost use Rattle.cmark_tree.specs.Forest.{Forest, Nil, join, one};
ghost use Rattle.cmark_tree.specs.Building.{Opened, Is, IsPlaced, closed};
ghost use Rattle.cmark_tree.specs.Cut.{ending_before, reaching_start};
ghost use Rattle.cmark_items.specs.Spans.{spans};
ghost use Rattle.cmark_builder.specs.Ended.{ended, item_at, titled, is_paragraph, is_empty_paragraph, IsEmpty};
ghost use Rattle.cmark_items.specs.declared.item.ItemBody.TheVariants as body;

use cmark_items::{Allocations, Item, ItemBody};
use cmark_references::{FootnoteDefs, RefDefs};
use cmark_tree::Tree;
use cmark_values::CowStr;
use std::alloc::{AllocError, Global};

/// A document's tree and its tables. Nodes are added only at the end: the last sibling is the end of the current siblings, inside the open
/// nodes.
#[derive(Drop)]
pub struct Builder<'a> {
    tree: Tree<Item>,
    /// The tables that the items point into, and the definitions of links.
    pub allocations: Allocations<'a>,
    ghost placed: { IsPlaced tree },
}

/// The body of this paragraph as the title of a definition. A text that is part of the node stays there.
fn titled(body: ItemBody) -> ItemBody
    ensures { result ≡ titled body }
{
    match body {
        ItemBody::ParagraphOf(text_end) => ItemBody::DefinitionListTitleOf(text_end),
        ItemBody::DefinitionListTitleOf(text_end) => ItemBody::DefinitionListTitleOf(text_end),
        _ => ItemBody::DefinitionListTitle,
    }
}

/// Whether an item is a paragraph that begins at this byte offset of the text and has no text in its own node yet.
fn is_paragraph_from(item: Item, start: usize) -> bool
    ensures { result ≡ ((item.start == start) && is_paragraph item.body) }
{
    item.start == start && matches!(item.body, ItemBody::Paragraph)
}

impl<'a> Builder<'a> {
    /// A document without nodes. With the first one it makes room for at least `room` nodes. Fails only if memory is refused.
    pub fn new(alloc: Global, room: usize) -> Result<Builder<'a>, AllocError>
        ensures tree { IfOk result (λ b. Is b.tree Nil []) }
        ensures tables { IfOk result (λ b. IsEmpty b.allocations) }
    {
        Ok(Builder {
            tree: Tree::with_capacity(alloc, room)?,
            allocations: Allocations::new(alloc),
        })
    }

    /// A document without nodes, after the definitions and footnotes of earlier lines. Fails only if memory is refused.
    pub fn with_definitions(
        alloc: Global,
        definitions: RefDefs<'a>,
        footnotes: FootnoteDefs,
    ) -> Result<Builder<'a>, AllocError>
        ensures tree { IfOk result (λ b. Is b.tree Nil []) }
        ensures definitions { IfOk result (λ b. b.allocations.references ≡ definitions.entry) }
        ensures footnotes { IfOk result (λ b. b.allocations.footnotes ≡ footnotes) }
    {
        let tree = Tree::with_capacity(alloc, 0)?;
        let allocations = Allocations::with_definitions(alloc, definitions, footnotes);
        Ok(Builder { tree, allocations })
    }

    /// Opens a node after the last sibling; `close` sets its end. If memory is refused, the tables are unchanged, and the tree can still be
    /// extended.
    #[inline(always)]
    pub fn open(&mut self, start: usize, body: ItemBody) -> Result<(), AllocError>
        ensures ok { OnOk result
            ((here : Forest Item) (up : List (Opened Item)) → Is self.old.tree here up
            → Is self.new.tree Nil (record { left = here; item = item_at start start body } ∷ up)) }
        ensures tables { self.new.allocations ≡ self.old.allocations }
    {
        self.tree.open(Item {
            start,
            end: start,
            body,
        })?;
        Ok(())
    }

    /// Adds a node without children after the last sibling. If memory is refused, the tables are unchanged, and the tree can still be
    /// extended.
    pub fn add(&mut self, start: usize, end: usize, body: ItemBody) -> Result<(), AllocError>
        ensures ok { OnOk result
            ((here : Forest Item) (up : List (Opened Item)) → Is self.old.tree here up
            → Is self.new.tree (join here (one (item_at start end body) Nil)) up) }
        ensures tables { self.new.allocations ≡ self.old.allocations }
    {
        self.tree.add(Item { start, end, body })?;
        Ok(())
    }

    /// Closes the innermost open node at this byte offset of the text. If no node is open, nothing changes.
    pub fn close(&mut self, end: usize)
        ensures closed { (here : Forest Item) (v : Opened Item) (up : List (Opened Item))
            → Is self.old.tree here (v ∷ up)
            → Is self.new.tree (closed (ended end v.item.body v) here) up }
        ensures none { (here : Forest Item) → Is self.old.tree here []
            → self.new.tree ≡ self.old.tree }
        ensures tables { self.new.allocations ≡ self.old.allocations }
    {
        if let Some(parent) = self.tree.peek_up() {
            self.tree.item_mut(parent).end = end;
            self.tree.close();
        }
    }

    /// Closes the innermost open node at this byte offset of the text, with another body. If no node is open, nothing changes.
    pub fn close_as(&mut self, end: usize, body: ItemBody)
        ensures closed { (here : Forest Item) (v : Opened Item) (up : List (Opened Item))
            → Is self.old.tree here (v ∷ up)
            → Is self.new.tree (closed (ended end body v) here) up }
        ensures none { (here : Forest Item) → Is self.old.tree here []
            → self.new.tree ≡ self.old.tree }
        ensures tables { self.new.allocations ≡ self.old.allocations }
    {
        if let Some(parent) = self.tree.peek_up() {
            let item = self.tree.item_mut(parent);
            item.end = end;
            item.body = body;
            self.tree.close();
        }
    }

    /// Closes the innermost open node at byte offset `end` of the text, as a paragraph with one text inside, from `start` up to `text_end`:
    /// both are one node. This happens only if the node is an empty paragraph that begins at `start`; else nothing changes. Returns whether
    /// it happened.
    pub fn close_whole(&mut self, start: usize, text_end: usize, end: usize) -> bool
        ensures answer { (here : Forest Item) (up : List (Opened Item)) → Is self.old.tree here up
            → result ≡ is_empty_paragraph start here up }
        ensures closed { result ≡ true
            → (here : Forest Item) (v : Opened Item) (up : List (Opened Item))
            → Is self.old.tree here (v ∷ up)
            → Is self.new.tree (closed (ended end (body.ParagraphOf text_end) v) here) up }
        ensures unchanged { result ≡ false → self.new.tree ≡ self.old.tree }
        ensures tables { self.new.allocations ≡ self.old.allocations }
    {
        if self.tree.cur().is_some() {
            return false;
        }
        let Some(parent) = self.tree.peek_up() else {
            return false;
        };
        if !is_paragraph_from(*self.tree.item(parent), start) {
            return false;
        }
        let item = self.tree.item_mut(parent);
        item.end = end;
        item.body = ItemBody::ParagraphOf(text_end);
        self.tree.close();
        true
    }

    /// Makes the last sibling the title of a definition, with the nodes inside it. If there is no sibling, nothing changes.
    pub fn title_last(&mut self)
        ensures turned { (here : Forest Item) (item : Item) (inside : Forest Item)
            (up : List (Opened Item)) → Is self.old.tree (join here (one item inside)) up
            → Is self.new.tree
            (join here (one (item_at item.start item.end (titled item.body)) inside)) up }
        ensures none { (up : List (Opened Item)) → Is self.old.tree Nil up
            → self.new.tree ≡ self.old.tree }
        ensures tables { self.new.allocations ≡ self.old.allocations }
    {
        if let Some(last) = self.tree.cur() {
            let item = self.tree.item_mut(last);
            item.body = titled(item.body);
        }
    }

    /// Puts a node around the last sibling, which becomes the title of a definition. The new node begins at that sibling's start and is
    /// open. If there is no sibling, the new node is empty and begins at the start of the text.
    pub fn enclose_title(&mut self, around: ItemBody) -> Result<(), AllocError>
        ensures ok { OnOk result
            ((here : Forest Item) (item : Item) (inside : Forest Item) (up : List (Opened Item))
            → Is self.old.tree (join here (one item inside)) up
            → Is self.new.tree (one (item_at item.start item.end (titled item.body)) inside)
            (record { left = here; item = item_at item.start item.start around } ∷ up)) }
        ensures none { OnOk result
            ((up : List (Opened Item)) → Is self.old.tree Nil up
            → Is self.new.tree Nil (record { left = Nil; item = item_at 0 0 around } ∷ up)) }
        ensures tables { self.new.allocations ≡ self.old.allocations }
    {
        let Some(last) = self.tree.cur() else {
            return self.open(0, around);
        };
        let begin = self.tree.item(last).start;
        self.title_last();
        self.tree.enclose(Item {
            start: begin,
            end: begin,
            body: around,
        })
    }

    /// Closes the innermost open node at this byte offset of the text, with another body, and moves its last child after it. The time is
    /// proportional to the number of children. If no node is open, nothing changes.
    pub fn release_last(&mut self, end: usize, body: ItemBody)
        ensures released { (here : Forest Item) (item : Item) (inside : Forest Item)
            (v : Opened Item) (up : List (Opened Item))
            → Is self.old.tree (join here (one item inside)) (v ∷ up)
            → Is self.new.tree (join (closed (ended end body v) here) (one item inside)) up }
        ensures childless { (v : Opened Item) (up : List (Opened Item))
            → Is self.old.tree Nil (v ∷ up) → Is self.new.tree (closed (ended end body v) Nil) up }
        ensures none { (here : Forest Item) → Is self.old.tree here []
            → self.new.tree ≡ self.old.tree }
        ensures tables { self.new.allocations ≡ self.old.allocations }
    {
        if let Some(parent) = self.tree.peek_up() {
            let list = self.tree.item_mut(parent);
            list.end = end;
            list.body = body;
            self.tree.release();
        }
    }

    /// Cuts off the children of the innermost open node, from the first that does not end before this byte offset of the text. Returns the
    /// start of that child, or `None` if each child ends before. The time is proportional to the number of children. If no node is open,
    /// nothing changes and the result is `None`.
    pub fn cut(&mut self, at: usize) -> Option<usize>
        ensures kept { (here : Forest Item) (v : Opened Item) (up : List (Opened Item))
            → Is self.old.tree here (v ∷ up)
            → Is self.new.tree (ending_before spans at here) (v ∷ up) }
        ensures start { (here : Forest Item) (v : Opened Item) (up : List (Opened Item))
            → Is self.old.tree here (v ∷ up) → result ≡ reaching_start spans at here }
        ensures none { (here : Forest Item) → Is self.old.tree here []
            → (self.new.tree ≡ self.old.tree) × (result ≡ None) }
        ensures tables { self.new.allocations ≡ self.old.allocations }
    {
        self.tree.cut_siblings(at)
    }

    /// The tree and its tables, as they are. Open nodes stay open.
    pub fn finish(self) -> (Tree<Item>, Allocations<'a>)
        ensures tree { result.0 ≡ self.entry.tree }
        ensures tables { result.1 ≡ self.entry.allocations }
    {
        (self.tree, self.allocations)
    }
}
