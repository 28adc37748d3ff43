//! The events of a leaf's slots that are not short.

ghost use Rattle.std.specs.Prelude.{◌≡◌, ◌<◌, ◌+◌, ◌-◌, ◌∷◌, ℕ, List, [], Some, IfOk, OnErr, OnOk, length, true};
ghost use Rattle.std.specs.Str.{IsCharBoundary};
ghost use Rattle.cmark_grammar.specs.Event.{Start, End, Text};
ghost use Rattle.cmark_grammar.specs.InlineReading.{over};
ghost use Rattle.cmark_inline_model.specs.LeafSpans.{IsRange, IsSpan};
ghost use Rattle.cmark_grammar.specs.Tokens.{slice};
ghost use Rattle.cmark_inline_model.specs.FirstEvents.{BeginWithoutEnd};
ghost use Rattle.cmark_leaf_text.specs.Reads.{IsRead, IsPart, place_of, text_of, source_of};
ghost use Rattle.cmark_grammar.specs.Tag as grammar_tag;
ghost use Rattle.cmark_grammar.specs.TagEnd as grammar_end;
ghost use Rattle.cmark_grammar.specs.TagEnd.{end_of};
ghost use Rattle.cmark_text.specs.Ranged.{IsRangedZeroCopy, shown_ranged};
ghost use Rattle.cmark_text.specs.Shown.{shown, shown_end, shown_tag};
ghost use Rattle.cmark_values.specs.Shown.{text_bytes};
ghost use Rattle.cmark_text.specs.ZeroCopy.{IsZeroCopy};
ghost use Rattle.cmark_values.specs.Lending.{IsLentBy};
ghost use Rattle.cmark_slot_events.specs.Opens.{element_end, events_left, AreOpened, Follows};
ghost use Rattle.cmark_slot_events.specs.LeafStates.{GivesLong, HasNamed, IsOver, IsSlotIn, KeepsPlace, TakesLink};
ghost use Rattle.cmark_slot_events.specs.Longs.{IsLong, is_long};
ghost use Rattle.cmark_references.specs.Links.{shown_link};
ghost use Rattle.cmark_slot_events.specs.Events.{AreLeft, IsHeldAs, KeepsOthers, event_as, held_in, events_of, events_to_come, shown_opened};
ghost use Rattle.cmark_slots.specs.SlotViews.{CanBeGiven, IsThere, link_tag, linked_at, text_at, text_named};
ghost use Rattle.cmark_slots.specs.Slots.{IsSlot};
ghost use Rattle.cmark_slots.specs.declared.slot.Slot.{Slot as Slots};

use crate::content::Content;
use crate::leaf_events::{LeafEvents, Opened};
use cmark_leaf_text::LeafText;
use cmark_references::Link;
use cmark_slots::slot::{LinkElement, Slot, SlotKind};
use cmark_slots::text::{before_backticks, copied, text_between};
use cmark_text::{CowStr, Event, Ranged, Tag, TagEnd};
use std::alloc::{AllocError, Global};
use std::ops::Range;

impl<'a> LeafEvents<'a> {
    /// The next event of the resolved leaf, with its range in the source, after [`step`](LeafEvents::step) reported it as long.
    /// Fails if memory is refused.
    #[inline(never)]
    pub fn take_long(&mut self, leaf: &LeafText<'a>) -> Result<Ranged<'a>, AllocError>
        requires over { IsOver leaf.now self.old }
        requires left { AreLeft leaf.now self.old }
        requires long { IsLong self.old }
        ensures slots { self.new.slots ≡ self.old.slots }
        ensures opened { AreOpened (source_of leaf.now) self.new.walk.opened.items }
        ensures gives { IfOk result (λ given. GivesLong leaf.now self.old given self.new) }
        ensures fewer { OnOk result (events_left self.new < events_left self.old) }
        ensures left { OnOk result (AreLeft leaf.now self.new) }
        ensures ends { OnErr result (BeginWithoutEnd (events_to_come leaf.now self.old)) }
    {
        // The index after the slot fits in a `usize`.
        prove!(self.walk.next < self.slots.len());
        let slot = self.slots[self.walk.next];
        let Ok(given) = self.give(leaf, slot) else {
            return Err(AllocError);
        };
        self.walk.next += 1;
        Ok(given)
    }

    // The event of a slot that is not a short one.
    #[inline(always)]
    fn give(&mut self, leaf: &LeafText<'a>, slot: Slot) -> Result<Ranged<'a>, AllocError>
        requires slot { IsSlotIn leaf.now slot }
        requires opened { AreOpened (source_of leaf.now) self.old.walk.opened.items }
        requires named { HasNamed slot self.old }
        requires long { is_long slot.kind ≡ true }
        ensures keeps { KeepsPlace self.old self.new }
        ensures opened { AreOpened (source_of leaf.now) self.new.walk.opened.items }
        ensures follows { IfOk result
            (λ given. Follows (source_of leaf.now) self.old.walk.opened.items (shown_ranged given)
            self.new.walk.opened.items) }
        ensures lent { IfOk result (IsRangedZeroCopy (source_of leaf.now)) }
        ensures events { (following : List Slots)
            → CanBeGiven leaf.now self.old.texts.items self.old.links.items (slot ∷ following)
            → IfOk result
            (λ given. events_of leaf.now self.old.texts.items self.old.links.items
            (slot ∷ following) self.old.walk.opened.items
            ≡ shown_ranged given
            ∷ events_of leaf.now self.new.texts.items self.new.links.items following
            self.new.walk.opened.items) }
        ensures left { (following : List Slots)
            → CanBeGiven leaf.now self.old.texts.items self.old.links.items (slot ∷ following)
            → OnOk result
            (CanBeGiven leaf.now self.new.texts.items self.new.links.items following) }
    {
        match slot.kind {
            SlotKind::BeginLink(element, index) => self.begin(leaf, slot, element, index),
            SlotKind::SourceHtml(end) | SlotKind::SourceText(end) => {
                Ok(source_part(leaf, slot, end))
            }
            SlotKind::Empty => Ok(empty_text(leaf, slot)),
            _ => self.over_slot(leaf, slot),
        }
    }

    // The start of a link or an image.
    #[inline(always)]
    fn begin(
        &mut self,
        leaf: &LeafText<'a>,
        slot: Slot,
        element: LinkElement,
        index: usize,
    ) -> Result<Ranged<'a>, AllocError>
        requires slot { IsSlotIn leaf.now slot }
        requires opened { AreOpened (source_of leaf.now) self.old.walk.opened.items }
        requires link { index < length self.old.links.items }
        ensures takes { TakesLink (Some index) self.old self.new }
        ensures opened { AreOpened (source_of leaf.now) self.new.walk.opened.items }
        ensures follows { IfOk result
            (λ given. Follows (source_of leaf.now) self.old.walk.opened.items (shown_ranged given)
            self.new.walk.opened.items) }
        ensures lent { IfOk result (IsRangedZeroCopy (source_of leaf.now)) }
        ensures event { IfOk result
            (λ given. shown_ranged given
            ≡ over (source_of leaf.now) (place_of leaf.now slot.start)
            (place_of leaf.now (slot.end - 1) + 1)
            (Start (link_tag element (linked_at self.old.links.items index)))) }
        ensures opens { OnOk result
            (shown_opened self.new.walk.opened.items
            ≡ over (source_of leaf.now) (place_of leaf.now slot.start)
            (place_of leaf.now (slot.end - 1) + 1)
            (End (end_of (link_tag element (linked_at self.old.links.items index))))
            ∷ shown_opened self.old.walk.opened.items) }
    {
        let range = leaf.range(slot.start, slot.end);
        // The push comes first: if memory is refused, no text was moved out that would have to be dropped.
        self.walk.opened.push(Opened {
            tag: element_end(element),
            start: range.start,
            end: range.end,
        })?;
        Ok(Ranged {
            event: Event::Start(self.tag(element, index)),
            range,
        })
    }

    // The event of a slot with a text, whose range is the range of its bytes.
    #[inline(always)]
    fn over_slot(&mut self, leaf: &LeafText<'a>, slot: Slot) -> Result<Ranged<'a>, AllocError>
        requires slot { IsSlotIn leaf.now slot }
        requires text { IsThere (length self.old.texts.items) (text_named slot.kind) }
        requires long { is_long slot.kind ≡ true }
        ensures slots { self.new.slots ≡ self.old.slots }
        ensures walk { self.new.walk ≡ self.old.walk }
        ensures follows { IfOk result
            (λ given. Follows (source_of leaf.now) self.old.walk.opened.items (shown_ranged given)
            self.new.walk.opened.items) }
        ensures lent { IfOk result (IsRangedZeroCopy (source_of leaf.now)) }
        ensures event { IfOk result
            (λ given. shown_ranged given
            ≡ over (source_of leaf.now) (place_of leaf.now slot.start)
            (place_of leaf.now (slot.end - 1) + 1)
            (event_as slot.kind (held_in leaf.now self.old.texts.items slot slot.kind))) }
        ensures texts { KeepsOthers (text_named slot.kind) self.old.texts.items
            self.new.texts.items }
        ensures links { self.new.links ≡ self.old.links }
    {
        let range = leaf.range(slot.start, slot.end);
        let text = self.held(leaf, slot)?;
        Ok(Ranged {
            event: event_of(slot.kind, text),
            range,
        })
    }

    fn tag(&mut self, element: LinkElement, index: usize) -> Tag<'a>
        requires { index < length self.old.links.items }
        ensures span { IsSpan (shown_tag result) }
        ensures end { end_of (shown_tag result) ≡ element_end element }
        ensures slots { self.new.slots ≡ self.old.slots }
        ensures walk { self.new.walk ≡ self.old.walk }
        ensures value { shown_tag result
            ≡ link_tag element (linked_at self.old.links.items index) }
        ensures links { KeepsOthers (Some index) self.old.links.items self.new.links.items }
        ensures texts { self.new.texts ≡ self.old.texts }
    {
        let link = self.take_link(index);
        match element {
            LinkElement::Link | LinkElement::Autolink => link_tag(link),
            LinkElement::Image => image_tag(link),
        }
    }

    fn take_link(&mut self, index: usize) -> Link<'a>
        requires { index < length self.old.links.items }
        ensures slots { self.new.slots ≡ self.old.slots }
        ensures walk { self.new.walk ≡ self.old.walk }
        ensures value { shown_link result ≡ linked_at self.old.links.items index }
        ensures links { KeepsOthers (Some index) self.old.links.items self.new.links.items }
        ensures texts { self.new.texts ≡ self.old.texts }
    {
        std::mem::replace(&mut self.links[index], Link::none())
    }

    fn take_text(&mut self, index: usize) -> CowStr<'a>
        requires { index < length self.old.texts.items }
        ensures slots { self.new.slots ≡ self.old.slots }
        ensures walk { self.new.walk ≡ self.old.walk }
        ensures value { text_bytes result ≡ text_at self.old.texts.items index }
        ensures texts { KeepsOthers (Some index) self.old.texts.items self.new.texts.items }
        ensures links { self.new.links ≡ self.old.links }
    {
        std::mem::replace(&mut self.texts[index], CowStr::Borrowed(""))
    }

    // The text of a slot's event, which is not a short one.
    #[inline(always)]
    fn held(&mut self, leaf: &LeafText<'a>, slot: Slot) -> Result<CowStr<'a>, AllocError>
        requires read { IsRead leaf.now }
        requires slot { IsSlot (text_of leaf.now) (length (text_of leaf.now)) slot }
        requires text { IsThere (length self.old.texts.items) (text_named slot.kind) }
        requires long { is_long slot.kind ≡ true }
        ensures slots { self.new.slots ≡ self.old.slots }
        ensures walk { self.new.walk ≡ self.old.walk }
        ensures lent { IfOk result
            (IsHeldAs slot.kind (source_of leaf.now) (place_of leaf.now slot.start)
            (place_of leaf.now (slot.end - 1) + 1)) }
        ensures value { IfOk result
            (λ text. text_bytes text ≡ held_in leaf.now self.old.texts.items slot slot.kind) }
        ensures texts { KeepsOthers (text_named slot.kind) self.old.texts.items
            self.new.texts.items }
        ensures links { self.new.links ≡ self.old.links }
    {
        match slot.kind {
            SlotKind::OwnedText(index) => {
                let text = self.take_text(index);
                written(self.alloc, leaf, slot, text)
            }
            SlotKind::Character(character) => {
                written(self.alloc, leaf, slot, CowStr::from(character))
            }
            SlotKind::FootnoteReference(index) => Ok(self.take_text(index)),
            SlotKind::Code(from) => {
                let to = before_backticks(leaf.as_str(), slot.end);
                Content { leaf, from, to }.code(self.alloc)
            }
            SlotKind::InlineMath(from) => {
                let to = slot.end - 1;
                Content { leaf, from, to }.formula(self.alloc)
            }
            SlotKind::DisplayMath(from) => {
                let to = slot.end - 2;
                Content { leaf, from, to }.formula(self.alloc)
            }
            SlotKind::CutHtml(from) => cut_html(self.alloc, leaf, slot, from),
            _ => text_between(self.alloc, leaf, slot.start, slot.end),
        }
    }
}

// The event of a slot of this kind with this text. The slot is not a line break.
#[inline(always)]
fn event_of<'a>(kind: SlotKind, text: CowStr<'a>) -> Event<'a>
    ensures value { shown result ≡ event_as kind (text_bytes text.entry) }
    ensures lent { (source : List ℕ) (start end : ℕ) → IsHeldAs kind source start end text.entry
        → IsZeroCopy source result start end }
{
    match kind {
        SlotKind::FootnoteReference(_) => Event::FootnoteReference(text),
        SlotKind::Code(_) => Event::Code(text),
        SlotKind::InlineMath(_) => Event::InlineMath(text),
        SlotKind::DisplayMath(_) => Event::DisplayMath(text),
        SlotKind::InlineHtml | SlotKind::CutHtml(_) | SlotKind::SourceHtml(_) => {
            Event::InlineHtml(text)
        }
        _ => Event::Text(text),
    }
}

// The end of a link or an image.
fn element_end(element: LinkElement) -> TagEnd
    ensures { shown_end result ≡ element_end element }
{
    match element {
        LinkElement::Link | LinkElement::Autolink => TagEnd::Link,
        LinkElement::Image => TagEnd::Image,
    }
}

fn link_tag<'a>(link: Link<'a>) -> Tag<'a>
    ensures span { IsSpan (shown_tag result) }
    ensures end { end_of (shown_tag result) ≡ grammar_end.Link }
    ensures value { shown_tag result ≡ grammar_tag.Link (shown_link link.entry) }
{
    let Link {
        link_type,
        dest_url,
        title,
        id,
    } = link;
    Tag::Link {
        link_type,
        dest_url,
        title,
        id,
    }
}

fn image_tag<'a>(link: Link<'a>) -> Tag<'a>
    ensures span { IsSpan (shown_tag result) }
    ensures end { end_of (shown_tag result) ≡ grammar_end.Image }
    ensures value { shown_tag result ≡ grammar_tag.Image (shown_link link.entry) }
{
    let Link {
        link_type,
        dest_url,
        title,
        id,
    } = link;
    Tag::Image {
        link_type,
        dest_url,
        title,
        id,
    }
}

// The text of a slot that replaces its bytes, such as the text of an entity: borrowed if it equals the bytes, and otherwise owned.
#[inline(never)]
fn written<'a>(
    alloc: Global,
    leaf: &LeafText<'a>,
    slot: Slot,
    text: CowStr<'a>,
) -> Result<CowStr<'a>, AllocError>
    requires read { IsRead leaf.now }
    requires slot { IsSlot (text_of leaf.now) (length (text_of leaf.now)) slot }
    ensures value { IfOk result (λ made. text_bytes made ≡ text_bytes text.entry) }
    ensures lent { IfOk result
        (IsLentBy
        (slice (source_of leaf.now) (place_of leaf.now slot.start)
        (place_of leaf.now (slot.end - 1) + 1))) }
{
    let part = leaf.source_between(slot.start, slot.end);
    text.lent_by(alloc, part)
}

// A part of the source from the start of a slot up to `end`, if that is after the start: HTML, or a text. It includes the prefixes of its
// later lines.
fn source_part<'a>(leaf: &LeafText<'a>, slot: Slot, end: usize) -> Ranged<'a>
    requires read { IsRead leaf.now }
    requires slot { IsSlot (text_of leaf.now) (length (text_of leaf.now)) slot }
    ensures start { result.range.start ≡ place_of leaf.now slot.start }
    ensures end { place_of leaf.now slot.start < end → IsCharBoundary (source_of leaf.now) end
        → result.range.end ≡ end }
    ensures part { IsPart (source_of leaf.now) result.range.start result.range.end }
    ensures value { shown result.event
        ≡ event_as slot.kind (slice (source_of leaf.now) result.range.start result.range.end) }
    ensures lent { IsRangedZeroCopy (source_of leaf.now) result }
{
    let range = leaf.range_up_to(slot.start, slot.end, end);
    let part = leaf.source_at(range.start, range.end);
    Ranged {
        event: event_of(slot.kind, CowStr::Borrowed(part)),
        range,
    }
}

// An empty text, before the first byte of a slot.
fn empty_text<'a>(leaf: &LeafText<'a>, slot: Slot) -> Ranged<'a>
    requires read { IsRead leaf.now }
    requires slot { IsSlot (text_of leaf.now) (length (text_of leaf.now)) slot }
    ensures start { result.range.start ≡ place_of leaf.now slot.start }
    ensures end { result.range.end ≡ place_of leaf.now slot.start }
    ensures range { IsRange (source_of leaf.now) result.range.start result.range.end }
    ensures value { shown result.event ≡ Text [] }
    ensures lent { IsRangedZeroCopy (source_of leaf.now) result }
{
    let start = leaf.range(slot.start, slot.end).start;
    Ranged {
        event: Event::Text(CowStr::Borrowed("")),
        range: start..start,
    }
}

// A tag over several lines that begins at `from`. The slot has its last bytes.
#[inline(never)]
fn cut_html<'a>(
    alloc: Global,
    leaf: &LeafText<'a>,
    slot: Slot,
    from: usize,
) -> Result<CowStr<'a>, AllocError>
    requires read { IsRead leaf.now }
    requires slot { IsSlot (text_of leaf.now) (length (text_of leaf.now)) slot }
    requires from { IsCharBoundary (text_of leaf.now) from }
    ensures value { IfOk result (λ made. text_bytes made ≡ slice (text_of leaf.now) from slot.end) }
    ensures lent { IfOk result
        (IsLentBy
        (slice (source_of leaf.now) (place_of leaf.now slot.start)
        (place_of leaf.now (slot.end - 1) + 1))) }
{
    if from >= slot.end {
        return written(alloc, leaf, slot, CowStr::Borrowed(""));
    }
    match copied(alloc, &leaf.as_str()[from..slot.end]) {
        Ok(tag) => written(alloc, leaf, slot, tag),
        Err(error) => Err(error),
    }
}
