// The links of a tree's nodes. Only this file knows how they are stored.

ghost use Rattle.std.specs.Prelude.{◌≡◌, ℕ, ◌+◌, ◌<◌, ◌≤◌, [], ◌∷◌, ◌++◌, length, vec_len, vec_capacity, slice_get, slice_set, Some, IfOk, OnOk};
ghost use Rattle.std.specs.List.{swap};
ghost use Rattle.cmark_tree.specs.Links.{links_of, links_room, no_links, linked_next, linked_child};

use std::alloc::{AllocError, Global};

// The largest number that a narrow link holds.
const LARGEST_NARROW: usize = u32::MAX as usize;

// The numbers of a node's next sibling and of its first child. The number 0 is no node.
#[derive(Clone, Copy)]
pub struct Link<N> {
    next: N,
    child: N,
}

// The links of the nodes, in the order of their numbers. They are narrow until a node has a number that a narrow link cannot hold. Nodes
// with narrow links take less memory.
#[derive(Drop)]
pub enum Links {
    Narrow(Vec<Link<u32>>),
    Wide(Vec<Link<usize>>),
}

impl Links {
    // No links, and room for those of `capacity` nodes.
    pub fn with_capacity(alloc: Global, capacity: usize) -> Result<Links, AllocError>
        ensures empty { IfOk result (λ links. links_of links ≡ []) }
        ensures room { IfOk result (λ links. capacity ≤ links_room links) }
    {
        if capacity <= LARGEST_NARROW {
            Ok(Links::Narrow(Vec::with_capacity(alloc, capacity)?))
        } else {
            Ok(Links::Wide(Vec::with_capacity(alloc, capacity)?))
        }
    }

    // The number of nodes for which there is room.
    pub fn room(&self) -> usize
        ensures { result ≡ links_room self.now }
    {
        match self {
            Links::Narrow(links) => links.capacity().min(LARGEST_NARROW),
            Links::Wide(links) => links.capacity(),
        }
    }

    // Makes room for at least one more node. If memory is refused, no link changes. Narrow links become wide if the number of the next node
    // is too large for them.
    #[inline(never)]
    pub fn reserve(&mut self, more: usize) -> Result<(), AllocError>
        requires { 0 < more }
        ensures links { links_of self.new ≡ links_of self.old }
        ensures room { links_room self.old ≤ links_room self.new }
        ensures ok { OnOk result (length (links_of self.new) < links_room self.new) }
    {
        match self {
            Links::Narrow(narrow) => {
                if narrow.len() < LARGEST_NARROW {
                    return narrow.reserve(more);
                }
                let wide = widened(narrow, more)?;
                *self = Links::Wide(wide);
                Ok(())
            }
            Links::Wide(links) => links.reserve(more),
        }
    }

    // Appends the links of a node that has none.
    #[inline(always)]
    pub fn push_reserved(&mut self)
        requires { length (links_of self.old) < links_room self.old }
        ensures links { links_of self.new ≡ links_of self.old ++ no_links ∷ [] }
        ensures room { links_room self.new ≡ links_room self.old }
    {
        match self {
            Links::Narrow(links) => links.push_reserved(Link { next: 0, child: 0 }),
            Links::Wide(links) => links.push_reserved(Link { next: 0, child: 0 }),
        }
    }

    // Exchanges the links of the nodes at two places.
    pub fn swap(&mut self, i: usize, j: usize)
        requires i_in_bounds { i < length (links_of self.old) }
        requires j_in_bounds { j < length (links_of self.old) }
        ensures links { links_of self.new ≡ swap (links_of self.old) i j }
        ensures count { length (links_of self.new) ≡ length (links_of self.old) }
        ensures room { links_room self.new ≡ links_room self.old }
    {
        match self {
            Links::Narrow(links) => links.swap(i, j),
            Links::Wide(links) => links.swap(i, j),
        }
    }

    // The number of the sibling after the node at a place.
    #[inline(always)]
    pub fn next(&self, at: usize) -> usize
        requires { at < length (links_of self.now) }
        ensures { (l : Link ℕ) → slice_get (links_of self.now) at ≡ Some l → result ≡ l.next }
    {
        match self {
            Links::Narrow(links) => links[at].next as usize,
            Links::Wide(links) => links[at].next,
        }
    }

    // The number of the first child of the node at a place.
    #[inline(always)]
    pub fn child(&self, at: usize) -> usize
        requires { at < length (links_of self.now) }
        ensures { (l : Link ℕ) → slice_get (links_of self.now) at ≡ Some l → result ≡ l.child }
    {
        match self {
            Links::Narrow(links) => links[at].child as usize,
            Links::Wide(links) => links[at].child,
        }
    }

    #[inline(always)]
    pub fn set_next(&mut self, at: usize, to: usize)
        requires at { at < length (links_of self.old) }
        requires to { to ≤ links_room self.old }
        ensures links { (l : Link ℕ) → slice_get (links_of self.old) at ≡ Some l
            → links_of self.new ≡ slice_set (links_of self.old) at (linked_next to l) }
        ensures count { length (links_of self.new) ≡ length (links_of self.old) }
        ensures room { links_room self.new ≡ links_room self.old }
    {
        match self {
            Links::Narrow(links) => links[at].next = to as u32,
            Links::Wide(links) => links[at].next = to,
        }
    }

    #[inline(always)]
    pub fn set_child(&mut self, at: usize, to: usize)
        requires at { at < length (links_of self.old) }
        requires to { to ≤ links_room self.old }
        ensures links { (l : Link ℕ) → slice_get (links_of self.old) at ≡ Some l
            → links_of self.new ≡ slice_set (links_of self.old) at (linked_child to l) }
        ensures count { length (links_of self.new) ≡ length (links_of self.old) }
        ensures room { links_room self.new ≡ links_room self.old }
    {
        match self {
            Links::Narrow(links) => links[at].child = to as u32,
            Links::Wide(links) => links[at].child = to,
        }
    }
}

// The same links with wide numbers, and room for some more.
fn widened(narrow: &Vec<Link<u32>>, more: usize) -> Result<Vec<Link<usize>>, AllocError>
    ensures links { IfOk result (λ wide. wide.items ≡ narrow.now.items) }
    ensures room { IfOk result (λ wide. vec_len wide + more ≤ vec_capacity wide) }
{
    let capacity = narrow.len().saturating_add(more);
    let mut wide = Vec::with_capacity(*narrow.allocator(), capacity)?;
    for link in narrow {
        wide.push(Link {
            next: link.next as usize,
            child: link.child as usize,
        })?;
    }
    wide.reserve(more)?;
    Ok(wide)
}
