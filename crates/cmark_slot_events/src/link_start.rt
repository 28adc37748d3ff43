//! The start of a link without an `Event`: the link is borrowed, and then its start is passed.

ghost use Rattle.std.specs.Prelude.{◌≡◌, ◌<◌, true, IfSome, OnErr, OnOk, is_some, option_map};
ghost use Rattle.cmark_inline_model.specs.FirstEvents.{BeginWithoutEnd};
ghost use Rattle.cmark_references.specs.Links.{shown_link};
ghost use Rattle.cmark_leaf_text.specs.Reads.{source_of};
ghost use Rattle.cmark_slot_events.specs.LeafStates.{IsOver};
ghost use Rattle.cmark_slot_events.specs.LinkStarts.{IsStartFirst, link_to_come};
ghost use Rattle.cmark_slot_events.specs.Opens.{events_left, AreOpened};
ghost use Rattle.cmark_slot_events.specs.Events.{AreLeft, events_to_come};

use crate::leaf_events::{LeafEvents, Opened};
use cmark_leaf_text::LeafText;
use cmark_references::Link;
use cmark_slots::slot::{LinkElement, SlotKind};
use cmark_text::TagEnd;
use std::alloc::AllocError;

impl<'a> LeafEvents<'a> {
    /// The link or the autolink that begins at the next slot; `None` if that slot begins neither, or if there is no slot left. The walk
    /// does not move: [`pass_link`](LeafEvents::pass_link) moves past the start.
    #[inline(always)]
    pub fn link_ahead(&self) -> Option<&Link<'a>>
        ensures { option_map (λ link. link.now) result ≡ link_to_come self.now }
    {
        let Some(slot) = self.slots.get(self.walk.next) else {
            return None;
        };
        match slot.kind {
            SlotKind::BeginLink(LinkElement::Link | LinkElement::Autolink, index) => {
                self.links.get(index)
            }
            _ => None,
        }
    }

    /// Moves past the start of the link at the next slot, as `take_long` does, but builds no event. The link's end is still to come, and the
    /// link stays in the table. Fails if memory is refused.
    #[inline(always)]
    pub fn pass_link(&mut self, leaf: &LeafText<'a>) -> Result<(), AllocError>
        requires over { IsOver leaf.now self.old }
        requires ahead { is_some (link_to_come self.old) ≡ true }
        ensures slots { self.new.slots ≡ self.old.slots }
        ensures left { AreLeft leaf.now self.old → OnOk result (AreLeft leaf.now self.new) }
        ensures opened { AreOpened (source_of leaf.now) self.new.walk.opened.items }
        ensures fewer { OnOk result (events_left self.new < events_left self.old) }
        ensures events { OnOk result
            (IfSome (link_to_come self.old)
            (λ link. IsStartFirst (source_of leaf.now) self.old.walk.opened.items (shown_link link)
            self.new.walk.opened.items (events_to_come leaf.now self.old)
            (events_to_come leaf.now self.new))) }
        ensures ends { OnErr result (BeginWithoutEnd (events_to_come leaf.now self.old)) }
    {
        // The index after the slot fits in a `usize`.
        prove!(self.walk.next < self.slots.len());
        let slot = self.slots[self.walk.next];
        let range = leaf.range(slot.start, slot.end);
        self.walk.opened.push(Opened {
            tag: TagEnd::Link,
            start: range.start,
            end: range.end,
        })?;
        self.walk.next += 1;
        Ok(())
    }
}
