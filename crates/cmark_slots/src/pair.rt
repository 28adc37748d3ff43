//! Pairs of delimiter runs, and the elements that they form in the slots of their bytes (CommonMark 6.2).

ghost use Rattle.std.specs.Prelude.{◌≡◌, ◌+◌, ◌<◌, ◌≤◌, ◌++◌, ◌∷◌, ℕ, List, [], get_or, length, map, set};
ghost use Rattle.cmark_emphasis.specs.Shown.{shown_kind, shown_pair};
ghost use Rattle.cmark_grammar.specs.Spans.{Span, span_width};
ghost use Rattle.cmark_leaf_text.specs.declared.leaf_text.LeafText.{LeafText};
ghost use Rattle.cmark_references.specs.declared.link.Link.{Link};
ghost use Rattle.cmark_values.specs.Shown.{shown_options};
ghost use Rattle.cmark_values.specs.declared.text.CowStr.{CowStr};
ghost use Rattle.cmark_slots.specs.Elements.{IsElementOf};
ghost use Rattle.cmark_slots.specs.MarkedSlots.{AreWhole, SameBefore, begun_as, ended};
ghost use Rattle.cmark_slots.specs.PairSlots.{AreOpen, BeginFrom, CanWrite, KeepsSlots, hidden_inside, span_between, spans_of_pair, spans_of_pairs, write_span, write_spans};
ghost use Rattle.cmark_slots.specs.SlotViews.{shown_slots};
ghost use Rattle.cmark_slots.specs.Slots.{AreSlots, NoNewLink};
ghost use Rattle.cmark_slots.specs.declared.slot.Slot.{Slot as Slots};
ghost use Rattle.cmark_slots.specs.declared.slot.SlotKind.TheVariants as slot_kind;

use crate::slot::{Element, Slot, SlotKind, begin, merge, use_up};
use bitflags::Flags;
use cmark_emphasis::{Pair, SpanKind, innermost};
use cmark_values::Options;

/// Writes the spans of pairs into the slots of their bytes, pair after pair.
pub(crate) fn write_pairs(pairs: &[Pair], options: Options, slots: &mut Vec<Slot>)
    requires opens { AreOpen (map shown_pair pairs.now) }
    requires texts { CanWrite slots.old.items (spans_of_pairs (map shown_pair pairs.now)) }
    ensures keeps { KeepsSlots slots.old.items slots.new.items }
    ensures whole { AreWhole slots.new.items }
    ensures before { (low : ℕ) → BeginFrom low (spans_of_pairs (map shown_pair pairs.now))
        → SameBefore low slots.old.items slots.new.items }
    ensures spans { (leaf : LeafText) (texts : List CowStr) (links : List Link)
        → shown_slots leaf texts links slots.new.items
        ≡ write_spans (shown_options options) (spans_of_pairs (map shown_pair pairs.now))
        (shown_slots leaf texts links slots.old.items) }
{
    for pair in pairs.iter() {
        write_pair(*pair, options, slots);
    }
}

/// Writes the spans of a pair into the slots of its bytes, the innermost first (CommonMark 6.2, rules 13 and 14). A pair becomes spans of
/// width 2 from the inside, and an odd byte on each side the outermost span.
#[inline(always)]
pub(crate) fn write_pair(pair: Pair, options: Options, slots: &mut Vec<Slot>)
    requires opens { pair.count ≤ pair.from }
    requires texts { CanWrite slots.old.items (spans_of_pair (shown_pair pair)) }
    ensures keeps { KeepsSlots slots.old.items slots.new.items }
    ensures whole { AreWhole slots.new.items }
    ensures others { (others : List Span)
        → CanWrite slots.old.items (spans_of_pair (shown_pair pair) ++ others)
        → CanWrite slots.new.items others }
    ensures before { (low : ℕ) → BeginFrom low (spans_of_pair (shown_pair pair))
        → SameBefore low slots.old.items slots.new.items }
    ensures spans { (leaf : LeafText) (texts : List CowStr) (links : List Link)
        → shown_slots leaf texts links slots.new.items
        ≡ write_spans (shown_options options) (spans_of_pair (shown_pair pair))
        (shown_slots leaf texts links slots.old.items) }
{
    let mut from = pair.from;
    let mut to = pair.to;
    let mut left = pair.count;
    while left > 0 {
        let kind = innermost(pair.delimiter, left);
        let width = kind.width();
        from -= width;
        to += width;
        write_span(kind, from, to - 1, options, slots);
        left -= width;
    }
}

/// Writes a span from the slot of the first byte that opens it to the slot of the last that closes it. It becomes an element, or one text.
fn write_span(kind: SpanKind, first: usize, last: usize, options: Options, slots: &mut Vec<Slot>)
    requires { CanWrite slots.old.items (span_between kind first last ∷ []) }
    ensures keeps { KeepsSlots slots.old.items slots.new.items }
    ensures others { (others : List Span)
        → CanWrite slots.old.items (span_between kind first last ∷ others)
        → CanWrite slots.new.items others }
    ensures before { SameBefore first slots.old.items slots.new.items }
    ensures span { (leaf : LeafText) (texts : List CowStr) (links : List Link)
        → shown_slots leaf texts links slots.new.items
        ≡ write_span (shown_options options) (span_between kind first last)
        (shown_slots leaf texts links slots.old.items) }
{
    use_up_inner(kind, first, last, slots);
    match element_of(kind, options) {
        Some(element) => enclose(slots, first, last, element),
        None => merge(slots, first, last),
    }
}

/// Makes the second of two bytes that open a span, and the first of two that close it, `Nothing`.
fn use_up_inner(kind: SpanKind, first: usize, last: usize, slots: &mut Vec<Slot>)
    requires order { first + span_width (shown_kind kind) ≤ last }
    requires within { last < length slots.old.items }
    ensures slots { (text : List ℕ) (place : ℕ) → AreSlots text place slots.old.items
        → AreSlots text place slots.new.items }
    ensures length { length slots.new.items ≡ length slots.old.items }
    ensures links { NoNewLink slots.old.items slots.new.items }
    ensures value { (d : Slots)
        → slots.new.items
        ≡ hidden_inside (span_width (shown_kind kind)) first last d slots.old.items }
{
    if kind.width() == 1 {
        return;
    }
    use_up(slots, first + 1, false);
    use_up(slots, last - 1, false);
}

/// Makes two slots the start and the end of an element.
fn enclose(slots: &mut Vec<Slot>, first: usize, last: usize, element: Element)
    requires order { first < last }
    requires within { last < length slots.old.items }
    ensures slots { (text : List ℕ) (place : ℕ) → AreSlots text place slots.old.items
        → AreSlots text place slots.new.items }
    ensures length { length slots.new.items ≡ length slots.old.items }
    ensures links { NoNewLink slots.old.items slots.new.items }
    ensures value { (d : Slots)
        → slots.new.items
        ≡ set (set slots.old.items last (ended (get_or slots.old.items last d))) first
        (begun_as (slot_kind.Begin element) (get_or slots.old.items last d).end
        (get_or slots.old.items first d)) }
{
    let end = slots[last].end;
    use_up(slots, last, true);
    begin(slots, first, SlotKind::Begin(element), end);
}

/// The element of a span under these options. Double tildes without strikethrough form no element: their span becomes one text (this
/// profile's own).
fn element_of(kind: SpanKind, options: Options) -> Option<Element>
    ensures { IsElementOf (shown_options options) (shown_kind kind) result }
{
    match kind {
        SpanKind::Emphasis => Some(Element::Emphasis),
        SpanKind::Strong => Some(Element::Strong),
        SpanKind::SingleTilde if options.contains(Options::ENABLE_SUBSCRIPT) => {
            Some(Element::Subscript)
        }
        SpanKind::DoubleTilde if !options.contains(Options::ENABLE_STRIKETHROUGH) => None,
        SpanKind::SingleTilde | SpanKind::DoubleTilde => Some(Element::Strikethrough),
        SpanKind::Caret => Some(Element::Superscript),
        SpanKind::DoubleEquals => Some(Element::Highlight),
    }
}
