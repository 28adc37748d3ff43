//! The slots of a leaf, and the state of the walk over them.

ghost use Rattle.std.specs.Prelude.{◌≡◌, []};
ghost use Rattle.cmark_slot_events.specs.Events.{AreLeft, events_to_come};
ghost use Rattle.cmark_leaf_text.specs.declared.leaf_text.LeafText.{LeafText};
ghost use Rattle.cmark_slots.specs.SlotViews.{CanBeGiven, all_events};

use cmark_references::Link;
use cmark_slots::slot::Slot;
use cmark_text::{CowStr, TagEnd};
use std::alloc::Global;
use std::mem;

/// An element that is open.
#[derive(Clone, Copy)]
pub struct Opened {
    pub tag: TagEnd,
    pub start: usize,
    pub end: usize,
}

/// The state of a walk over slots.
#[derive(Drop)]
pub struct Walk {
    pub next: usize,
    pub opened: Vec<Opened>,
}

impl Walk {
    /// A walk that has given nothing yet.
    pub fn new(alloc: Global) -> Walk
        ensures opened { result.opened.items ≡ [] }
        ensures next { result.next ≡ 0 }
    {
        Walk {
            next: 0,
            opened: Vec::new(alloc),
        }
    }

    /// Starts again from the first slot.
    pub fn clear(&mut self)
        ensures opened { self.new.opened.items ≡ [] }
        ensures next { self.new.next ≡ 0 }
    {
        self.next = 0;
        self.opened.clear();
    }
}

/// The events of one leaf after the other, read from its slots and the texts and links that these name. Its memory is reused.
#[derive(Drop)]
pub struct LeafEvents<'a> {
    pub(crate) alloc: Global,
    pub(crate) slots: Vec<Slot>,
    pub(crate) texts: Vec<CowStr<'a>>,
    pub(crate) links: Vec<Link<'a>>,
    pub(crate) walk: Walk,
}

impl<'a> LeafEvents<'a> {
    /// The events of no leaf.
    pub fn new(alloc: Global) -> LeafEvents<'a>
        ensures slots { result.slots.items ≡ [] }
        ensures opened { result.walk.opened.items ≡ [] }
    {
        LeafEvents {
            alloc,
            slots: Vec::new(alloc),
            texts: Vec::new(alloc),
            links: Vec::new(alloc),
            walk: Walk::new(alloc),
        }
    }

    /// Begins with the slots of a leaf and the texts and links that they name. They are swapped with those of the last leaf, so that memory
    /// can be reused. Most leaves have no texts and no links, and then those lists stay where they are.
    pub fn begin_leaf(
        &mut self,
        slots: &mut Vec<Slot>,
        texts: &mut Vec<CowStr<'a>>,
        links: &mut Vec<Link<'a>>,
    )
        ensures slots { self.new.slots ≡ slots.old }
        ensures texts { self.new.texts.items ≡ texts.old.items }
        ensures links { self.new.links.items ≡ links.old.items }
        ensures next { self.new.walk.next ≡ 0 }
        ensures opened { self.new.walk.opened.items ≡ [] }
        ensures events { (leaf : LeafText)
            → events_to_come leaf self.new
            ≡ all_events leaf texts.old.items links.old.items slots.old.items }
        ensures left { (leaf : LeafText)
            → CanBeGiven leaf texts.old.items links.old.items slots.old.items
            → AreLeft leaf self.new }
    {
        mem::swap(&mut self.slots, slots);
        if !self.texts.is_empty() || !texts.is_empty() {
            mem::swap(&mut self.texts, texts);
        }
        if !self.links.is_empty() || !links.is_empty() {
            mem::swap(&mut self.links, links);
        }
        self.walk.clear();
    }
}
