// The nodes of a tree by their numbers. Only this file and `links.rt` know how they are stored.

ghost use Rattle.std.specs.Prelude.{◌≡◌, ◌≤◌, length, vec_capacity};
ghost use Rattle.cmark_tree.specs.Links.{links_of, links_room};

use crate::links::Links;
use std::alloc::{AllocError, Global};

// A full vector makes room for at least this many nodes, so that a short text asks for memory once.
const NODES_AT_ONCE: usize = 32;

// Node i has its item and its links at place i - 1. The number 0 is no node.
#[derive(Drop)]
pub struct Nodes<T> {
    items: Vec<T>,
    links: Links,
    // Items and links have room for this many nodes, so that one comparison shows whether the next node needs memory.
    room: usize,
    // A full vector makes room for this many nodes, if it is more than `NODES_AT_ONCE`.
    at_once: usize,
    ghost even: { (length (links_of links) ≡ length items.items)
        × ((length items.items ≤ room) × ((room ≤ vec_capacity items) × (room ≤ links_room links))) },
}

impl<T: Drop> Nodes<T> {
    ghost use Rattle.std.specs.Prelude.{◌<◌, Some, IfOk, OnErr, OnOk};
    ghost use Rattle.std.specs.Borrow.{sem};
    ghost use Rattle.cmark_tree.specs.Lending.{LendsStoredItem};
    ghost use Rattle.cmark_tree.specs.Arena.{Entry};
    ghost use Rattle.cmark_tree.specs.Nodes.{node_at, node_count, HasNumber, IsGrown, IsChanged, IsMoved, SameNodes, with_next, with_child};

    // No nodes. With the first one there will be room for `capacity` nodes. The first node asks for the memory, since then this function
    // cannot fail: LLVM moves a new tree from caller to caller only if one of them can.
    pub fn with_capacity(alloc: Global, capacity: usize) -> Result<Nodes<T>, AllocError>
        ensures { IfOk result (λ nodes. node_count nodes ≡ 0) }
    {
        let links = Links::with_capacity(alloc, 0)?;
        Ok(Nodes {
            items: Vec::new(alloc),
            links,
            room: 0,
            at_once: capacity,
        })
    }

    pub fn count(&self) -> usize
        ensures { result ≡ node_count self.now }
    {
        self.items.len()
    }

    // Makes room for at least one node. If memory is refused, the items or the links keep the room that they got before.
    #[inline(never)]
    fn grow(&mut self) -> Result<(), AllocError>
        ensures items { self.new.items.items ≡ self.old.items.items }
        ensures links { links_of self.new.links ≡ links_of self.old.links }
        ensures ok { OnOk result (length self.new.items.items < self.new.room) }
    {
        let more = self.at_once.max(NODES_AT_ONCE);
        self.items.reserve(more)?;
        self.links.reserve(more)?;
        self.room = self.items.capacity().min(self.links.room());
        Ok(())
    }

    // Appends a node without links and returns its number. Its item and its links have room before either is written.
    #[inline]
    pub fn push(&mut self, item: T) -> Result<usize, AllocError>
        ensures ok { IfOk result (λ ix. IsGrown self.old self.new ix item) }
        ensures err { OnErr result (SameNodes self.old self.new) }
    {
        if self.items.len() >= self.room {
            self.grow()?;
        }
        self.items.push_reserved(item);
        self.links.push_reserved();
        Ok(self.items.len())
    }

    // Appends a node that takes the content of node `ix`, which gets this item and no links. Returns the new node's number.
    pub fn move_to_new(&mut self, ix: usize, item: T) -> Result<usize, AllocError>
        requires { HasNumber self.old ix }
        ensures ok { IfOk result (λ new. IsMoved self.old self.new ix new item) }
        ensures err { OnErr result (SameNodes self.old self.new) }
    {
        let new = self.push(item)?;
        self.items.swap(ix - 1, new - 1);
        self.links.swap(ix - 1, new - 1);
        Ok(new)
    }

    pub fn item(&self, ix: usize) -> &T
        requires { HasNumber self.now ix }
        ensures { (e : Entry T) → node_at self.now ix ≡ Some e → result.now ≡ e.item }
    {
        &self.items[ix - 1]
    }

    pub fn item_mut(&mut self, ix: usize) -> &mut T
        requires { HasNumber self.old ix }
        ensures* lends { sem 𝓛 (LendsStoredItem T.row self.entry ix result) }
        ensures value { (e : Entry T) → node_at self.old ix ≡ Some e → result.now ≡ e.item }
    {
        &mut self.items[ix - 1]
    }

    #[inline(always)]
    pub fn next(&self, ix: usize) -> usize
        requires { HasNumber self.now ix }
        ensures { (e : Entry T) → node_at self.now ix ≡ Some e → result ≡ e.next }
    {
        self.links.next(ix - 1)
    }

    #[inline(always)]
    pub fn child(&self, ix: usize) -> usize
        requires { HasNumber self.now ix }
        ensures { (e : Entry T) → node_at self.now ix ≡ Some e → result ≡ e.child }
    {
        self.links.child(ix - 1)
    }

    // A link leads to a node that has been made, or to none.
    pub fn set_next(&mut self, ix: usize, to: usize)
        requires number { HasNumber self.old ix }
        requires to { to ≤ node_count self.old }
        ensures { IsChanged self.old self.new ix (with_next to) }
    {
        self.links.set_next(ix - 1, to);
    }

    pub fn set_child(&mut self, ix: usize, to: usize)
        requires number { HasNumber self.old ix }
        requires to { to ≤ node_count self.old }
        ensures { IsChanged self.old self.new ix (with_child to) }
    {
        self.links.set_child(ix - 1, to);
    }

    // The children of a node end with this one; if it is 0, there are none.
    pub fn end_children(&mut self, parent: usize, last: usize)
        requires parent { HasNumber self.old parent }
        requires last { (last ≡ 0 → ⊥) → HasNumber self.old last }
        ensures none { last ≡ 0 → IsChanged self.old self.new parent (with_child 0) }
        ensures some { (last ≡ 0 → ⊥) → IsChanged self.old self.new last (with_next 0) }
    {
        if last == 0 {
            self.set_child(parent, 0);
        } else {
            self.set_next(last, 0);
        }
    }
}
