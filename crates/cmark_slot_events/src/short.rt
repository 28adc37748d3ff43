//! The events of a leaf's slots that own nothing, without an `Event`.

ghost use Rattle.std.specs.Prelude.{◌≡◌, ◌<◌, ◌≤◌, ◌+◌, ◌-◌, ◌∷◌, ℕ, List, IfOk, IfSome, OnErr, OnOk, false, get_or, is_some, length, true};
ghost use Rattle.std.specs.Str.{IsCharBoundary};
ghost use Rattle.cmark_grammar.specs.CodeSpans.{code_text};
ghost use Rattle.cmark_grammar.specs.InlineTokens.{as_in};
ghost use Rattle.cmark_inline_model.specs.LeafSpans.{IsInline, IsSpan};
ghost use Rattle.cmark_grammar.specs.TagEnd.{end_of};
ghost use Rattle.cmark_grammar.specs.Tokens.{slice};
ghost use Rattle.cmark_inline_model.specs.FirstEvents.{BeginWithoutEnd};
ghost use Rattle.cmark_leaf_text.specs.Reads.{IsPart, IsRead, is_cell_of, place_of, source_of, text_of};
ghost use Rattle.cmark_text.specs.Short.{IsShortZeroCopy, shown_plain, shown_short};
ghost use Rattle.cmark_text.specs.Shown.{shown_end};
ghost use Rattle.cmark_values.specs.Lending.{IsPartOf};
ghost use Rattle.cmark_slots.specs.Elements.{emphasis_tag};
ghost use Rattle.cmark_slot_events.specs.LeafStates.{CountsDown, IsOver, IsSlotIn, KeepsSlots};
ghost use Rattle.cmark_slot_events.specs.Longs.{IsLong, is_long};
ghost use Rattle.cmark_slot_events.specs.Opens.{AreOpened};
ghost use Rattle.cmark_slot_events.specs.Shorts.{GivesNext, IfLong, IfShort, IsAlone, IsNextFirst, PassesFirst, PassesShort, StandsFor};
ghost use Rattle.cmark_slot_events.specs.Events.{AreLeft, events_of, events_to_come, shown_opened};
ghost use Rattle.cmark_slots.specs.SlotViews.{written_code};
ghost use Rattle.cmark_slots.specs.Slots.{IsSlot, before_backticks};
ghost use Rattle.cmark_slot_events.specs.declared.leaf_events.Opened.{Opened as OpenedOnes};
ghost use Rattle.cmark_slots.specs.declared.slot.Slot.{Slot as Slots};
ghost use Rattle.cmark_leaf_text.specs.declared.leaf_text.LeafText.{LeafText as LeafTexts};
ghost use Rattle.cmark_references.specs.declared.link.Link.{Link as Links};
ghost use Rattle.cmark_values.specs.declared.text.CowStr.{CowStr as Texts};

use crate::leaf_events::{LeafEvents, Opened};
use cmark_leaf_text::LeafText;
use cmark_slots::slot::{Element, Slot, SlotKind};
use cmark_slots::text::before_backticks;
use cmark_span_scan::code_part;
use cmark_text::{Excerpt, PlainTag, Short, Step, TagEnd};
use std::alloc::AllocError;
use std::ops::Range;

impl<'a> LeafEvents<'a> {
    /// The next event of the resolved leaf, with its range in the source, if it owns nothing. An event of another kind is reported as
    /// `Step::Long` and is still the next one: [`take_long`](LeafEvents::take_long) returns it. The result is `Over` after the last event.
    /// An end of an element takes no memory.
    #[inline(always)]
    pub fn step(&mut self, leaf: &LeafText<'a>) -> Result<Step<'a>, AllocError>
        requires over { IsOver leaf.now self.old }
        ensures slots { self.new.slots ≡ self.old.slots }
        ensures left { AreLeft leaf.now self.old → OnOk result (AreLeft leaf.now self.new) }
        ensures opened { AreOpened (source_of leaf.now) self.new.walk.opened.items }
        ensures stands { IfOk result
            (λ next. IfShort next
            (λ short. (d : Slots)
            → StandsFor leaf.now (get_or self.old.slots.items (self.new.walk.next - 1) d) short)) }
        ensures gives { IfOk result
            (λ next. GivesNext (source_of leaf.now) self.old.walk.opened.items next
            self.new.walk.opened.items) }
        ensures long { IfOk result (λ next. IfLong next (IsLong self.new)) }
        ensures fewer { IfOk result (λ next. CountsDown self.old next self.new) }
        ensures events { IfOk result
            (λ next. IsNextFirst (source_of leaf.now) self.old.walk.opened.items next
            self.new.walk.opened.items (events_to_come leaf.now self.old)
            (events_to_come leaf.now self.new)) }
        ensures ends { OnErr result (BeginWithoutEnd (events_to_come leaf.now self.old)) }
    {
        while self.walk.next < self.slots.len() {
            let slot = self.slots[self.walk.next];
            let Ok(next) = self.give_short(leaf, slot) else {
                return Err(AllocError);
            };
            match next {
                Step::Short(short, start, end) => {
                    self.walk.next += 1;
                    return Ok(Step::Short(short, start, end));
                }
                Step::Long => return Ok(Step::Long),
                Step::Over => self.walk.next += 1,
            }
        }
        Ok(self.end_short())
    }

    // Like `step` for one slot; `Over` says that the slot has no event.
    #[inline(always)]
    fn give_short(&mut self, leaf: &LeafText<'a>, slot: Slot) -> Result<Step<'a>, AllocError>
        requires slot { IsSlotIn leaf.now slot }
        requires opened { AreOpened (source_of leaf.now) self.old.walk.opened.items }
        ensures keeps { KeepsSlots self.old self.new }
        ensures opened { AreOpened (source_of leaf.now) self.new.walk.opened.items }
        ensures stands { IfOk result (λ next. IfShort next (StandsFor leaf.now slot)) }
        ensures long { IfOk result (λ next. IfLong next (is_long slot.kind ≡ true)) }
        ensures gives { IfOk result
            (λ next. PassesShort (source_of leaf.now) self.old.walk.opened.items next
            self.new.walk.opened.items) }
        ensures first { IfOk result
            (λ next. (texts : List Texts) (links : List Links) (following : List Slots)
            → PassesFirst (source_of leaf.now) self.old.walk.opened.items next
            self.new.walk.opened.items
            (events_of leaf.now texts links (slot ∷ following) self.old.walk.opened.items)
            (events_of leaf.now texts links following self.new.walk.opened.items)) }
        ensures ends { OnErr result
            ((texts : List Texts) (links : List Links) (following : List Slots)
            → BeginWithoutEnd
            (events_of leaf.now texts links (slot ∷ following) self.old.walk.opened.items)) }
    {
        match slot.kind {
            SlotKind::Begin(element) => {
                let (tag, end) = plain_element(element);
                let range = leaf.range(slot.start, slot.end);
                self.walk.opened.push(Opened {
                    tag: end,
                    start: range.start,
                    end: range.end,
                })?;
                Ok(Step::Short(Short::Start(tag), range.start, range.end))
            }
            SlotKind::End => Ok(self.end_short()),
            SlotKind::Nothing => Ok(Step::Over),
            // The start of a link or an image is an event of another kind.
            SlotKind::BeginLink(_, _) => Ok(Step::Long),
            _ => Ok(single_short(leaf, slot)),
        }
    }

    // The end of the element that began last, if one is open.
    #[inline(always)]
    fn end_short(&mut self) -> Step<'a>
        ensures keeps { KeepsSlots self.old self.new }
        ensures opened { (source : List ℕ) → AreOpened source self.old.walk.opened.items
            → AreOpened source self.new.walk.opened.items }
        ensures gives { (source : List ℕ) → AreOpened source self.old.walk.opened.items
            → GivesNext source self.old.walk.opened.items result self.new.walk.opened.items }
        ensures stands { (text : LeafTexts) (slot : Slots) → IfShort result (StandsFor text slot) }
        ensures long { IfLong result ⊥ }
        ensures fewer { IfShort result
            (λ short. length self.new.walk.opened.items < length self.old.walk.opened.items) }
        ensures most { length self.new.walk.opened.items ≤ length self.old.walk.opened.items }
        ensures first { (source : List ℕ) → AreOpened source self.old.walk.opened.items
            → IsNextFirst source self.old.walk.opened.items result self.new.walk.opened.items
            (shown_opened self.old.walk.opened.items) (shown_opened self.new.walk.opened.items) }
    {
        match self.walk.opened.pop() {
            Some(opened) => Step::Short(Short::End(opened.tag), opened.start, opened.end),
            None => Step::Over,
        }
    }
}

// The tag and the end of an element of emphasis, which has no text of its own.
#[inline(always)]
fn plain_element(element: Element) -> (PlainTag, TagEnd)
    ensures value { shown_plain result.0 ≡ emphasis_tag element }
    ensures span { IsSpan (shown_plain result.0) }
    ensures end { end_of (shown_plain result.0) ≡ shown_end result.1 }
{
    match element {
        Element::Emphasis => (PlainTag::Emphasis, TagEnd::Emphasis),
        Element::Strong => (PlainTag::Strong, TagEnd::Strong),
        Element::Strikethrough => (PlainTag::Strikethrough, TagEnd::Strikethrough),
        Element::Superscript => (PlainTag::Superscript, TagEnd::Superscript),
        Element::Subscript => (PlainTag::Subscript, TagEnd::Subscript),
        Element::Highlight => (PlainTag::Highlight, TagEnd::Highlight),
    }
}

// The event of a slot that is not an element, if it owns nothing.
#[inline(always)]
fn single_short<'a>(leaf: &LeafText<'a>, slot: Slot) -> Step<'a>
    requires read { IsRead leaf.now }
    requires slot { IsSlot (text_of leaf.now) (length (text_of leaf.now)) slot }
    requires alone { IsAlone slot.kind }
    ensures stands { IfShort result (StandsFor leaf.now slot) }
    ensures long { IfLong result (is_long slot.kind ≡ true) }
    ensures gives { (opened : List OpenedOnes)
        → PassesShort (source_of leaf.now) opened result opened }
    ensures first { (texts : List Texts) (links : List Links) (opened : List OpenedOnes)
        (following : List Slots)
        → PassesFirst (source_of leaf.now) opened result opened
        (events_of leaf.now texts links (slot ∷ following) opened)
        (events_of leaf.now texts links following opened) }
{
    // Only a text is found by its range. Where the caller reads no range, as for HTML, the compiler drops it for the other kinds.
    match slot.kind {
        SlotKind::Text => {
            let range = leaf.range(slot.start, slot.end);
            match text_in(leaf, slot, &range) {
                Some(short) => Step::Short(short, range.start, range.end),
                None => Step::Long,
            }
        }
        _ => match part_of(leaf, slot) {
            Some(short) => {
                let range = leaf.range(slot.start, slot.end);
                Step::Short(short, range.start, range.end)
            }
            None => Step::Long,
        },
    }
}

// The event of a text, if it is in the source without a gap. `range` is the slot's range in the source.
#[inline(always)]
fn text_in<'a>(leaf: &LeafText<'a>, slot: Slot, range: &Range<usize>) -> Option<Short<'a>>
    requires read { IsRead leaf.now }
    requires start { range.now.start ≡ place_of leaf.now slot.start }
    requires end { range.now.end ≡ place_of leaf.now (slot.end - 1) + 1 }
    requires inside { IsPart (source_of leaf.now) range.now.start range.now.end }
    requires slot { IsSlot (text_of leaf.now) (length (text_of leaf.now)) slot }
    requires text { slot.kind ≡ SlotKind.Text }
    ensures stands { IfSome result (StandsFor leaf.now slot) }
    ensures inline { IfSome result (λ short. IsInline (shown_short short)) }
    ensures lent { IfSome result
        (λ short. IsShortZeroCopy (source_of leaf.now) short (place_of leaf.now slot.start)
        (place_of leaf.now (slot.end - 1) + 1)) }
{
    match leaf.slice_ahead_at(range, slot.start, slot.end) {
        Some(ahead) => Some(Short::Text(Excerpt::new(ahead, slot.end - slot.start))),
        None => None,
    }
}

// The event of a slot that is neither an element nor a text, if its text is a part of the source.
#[inline(always)]
fn part_of<'a>(leaf: &LeafText<'a>, slot: Slot) -> Option<Short<'a>>
    requires read { IsRead leaf.now }
    requires slot { IsSlot (text_of leaf.now) (length (text_of leaf.now)) slot }
    requires alone { IsAlone slot.kind }
    ensures stands { IfSome result (StandsFor leaf.now slot) }
    ensures long { is_some result ≡ false → is_long slot.kind ≡ true }
    ensures inline { IfSome result (λ short. IsInline (shown_short short)) }
    ensures lent { IfSome result
        (λ short. IsShortZeroCopy (source_of leaf.now) short (place_of leaf.now slot.start)
        (place_of leaf.now (slot.end - 1) + 1)) }
{
    match slot.kind {
        SlotKind::SoftBreak => Some(Short::SoftBreak),
        SlotKind::HardBreak => Some(Short::HardBreak),
        SlotKind::Code(from) => match code_in(leaf, from, slot.end) {
            Some(code) => Some(Short::Code(code)),
            None => None,
        },
        SlotKind::InlineHtml => match leaf.slice(slot.start, slot.end) {
            Some(html) => Some(Short::InlineHtml(html)),
            None => None,
        },
        SlotKind::Whole(_) => {
            let text = leaf.source_between(slot.start, slot.end);
            Some(Short::Text(Excerpt::whole(text)))
        }
        _ => None,
    }
}

// The text of a code span that ends at the offset `end`, if its content is in the source without a gap and without a line ending. `None` in a table cell, since the text
// may be owned there (GFM 4.10).
#[inline(always)]
fn code_in<'a>(leaf: &LeafText<'a>, from: usize, end: usize) -> Option<&'a str>
    requires read { IsRead leaf.now }
    requires within { end ≤ length (text_of leaf.now) }
    requires starts { IsCharBoundary (text_of leaf.now) from }
    requires ends { IsCharBoundary (text_of leaf.now) (before_backticks (text_of leaf.now) end) }
    ensures value { IfSome result
        (λ part. part.now
        ≡ code_text (as_in (is_cell_of leaf.now) (written_code leaf.now from end))) }
    ensures part { IfSome result (λ part. IsPartOf (source_of leaf.now) part.now) }
{
    if leaf.is_cell() {
        return None;
    }
    let to = before_backticks(leaf.as_str(), end);
    if from >= to {
        return None;
    }
    match leaf.slice_ahead(from, to) {
        Some(ahead) => code_part(ahead, to - from),
        None => None,
    }
}
