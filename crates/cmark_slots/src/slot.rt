//! Slots: the parts of a leaf's text, one after the other.

ghost use Rattle.std.specs.Prelude.{◌≡◌, ◌<◌, ◌≤◌, ◌+◌, ◌++◌, ◌∷◌, ◌&&◌, nat_lt, true, false, [], ℕ, List, get_or, length, set, vec_capacity, IsOk, OnOk};
ghost use Rattle.std.specs.Str.{IsCharBoundary};
ghost use Rattle.cmark_grammar.specs.InlineHtml.{takes_lines};
ghost use Rattle.cmark_grammar.specs.Tokens.{slice};
ghost use Rattle.cmark_slots.specs.Slots.{put_at, AreSlots, HoldNoLink, IsContent, IsSlot, NoNewLink, PushesText, begins_link};
ghost use Rattle.cmark_slots.specs.MarkedSlots.{AreWhole, Merges, begun_as, ended, last_in, whole_to};
ghost use Rattle.cmark_slots.specs.QuoteSlots.{with_character};
ghost use Rattle.cmark_leaf_text.specs.Reads.{IsPart};
ghost use Rattle.cmark_slots.specs.Cuts.{Hides, IsFirstAfter, cut_at, cut_kind, cut_slot, ends_by, hidden};
ghost use Rattle.cmark_slots.specs.declared.slot.Slot.{Slot as Slots};
ghost use Rattle.cmark_slots.specs.declared.slot.SlotKind.TheVariants as kind;

use cmark_search::find_line_end;
use std::alloc::AllocError;

/// An element of emphasis around other slots.
#[derive(Clone, Copy)]
pub enum Element {
    Emphasis,
    Strong,
    Strikethrough,
    Superscript,
    Subscript,
    Highlight,
}

/// An element around other slots that has a link: its destination and its title.
#[derive(Clone, Copy)]
pub enum LinkElement {
    Link,
    Autolink,
    Image,
}

/// The meaning of a slot. A kind has at most one number.
#[derive(Clone, Copy)]
pub enum SlotKind {
    /// The bytes of its range.
    Text,
    /// The owned text with this index.
    OwnedText(usize),
    /// This character.
    Character(char),
    /// The bytes of the source that its range covers. The later slots up to the one with this index are `Nothing`.
    Whole(usize),
    SoftBreak,
    HardBreak,
    /// A code span whose content begins at this offset of the text. It ends before the backticks at the slot's end.
    Code(usize),
    /// Inline math whose content begins at this offset of the text. It ends one byte before the slot's end.
    InlineMath(usize),
    /// Display math whose content begins at this offset of the text. It ends two bytes before the slot's end.
    DisplayMath(usize),
    /// A tag: the bytes of its range.
    InlineHtml,
    /// Inline HTML that is a part of the source and ends there at this offset, exclusive.
    SourceHtml(usize),
    /// A tag over several lines that begins at this offset of the text. The slot's range has its last bytes.
    CutHtml(usize),
    /// A text that is a part of the source and ends there at this offset, exclusive.
    SourceText(usize),
    /// An empty text, before the bytes of its range.
    Empty,
    /// A footnote reference. Its label is the owned text with this index.
    FootnoteReference(usize),
    /// The start of emphasis. The range is the whole element's.
    Begin(Element),
    /// The start of an element with the link of this index. The range is the whole element's.
    BeginLink(LinkElement, usize),
    /// The end of the element that began last.
    End,
    /// No event: a delimiter whose bytes belong to another slot.
    Nothing,
}

/// A part of a leaf's text.
#[derive(Clone, Copy)]
pub struct Slot {
    pub kind: SlotKind,
    /// Byte offsets of the leaf's text.
    pub start: usize,
    pub end: usize,
}

// A text may have a slot for each of its bytes, so a kind has at most one number.
const _: () = prove!(size_of::<Slot>() == 32);

// How many slots more there is room for when a list of slots is full. Most leaves have fewer, so their list grows once.
const SLOTS_AT_ONCE: usize = 24;

/// Appends a slot.
pub fn push_slot(
    slots: &mut Vec<Slot>,
    kind: SlotKind,
    start: usize,
    end: usize,
) -> Result<(), AllocError>
    ensures { OnOk result
        (slots.new.items
        ≡ slots.old.items ++ (record { kind = kind; start = start; end = end } ∷ [])) }
{
    if slots.len() >= slots.capacity() {
        make_room(slots)?;
    }
    slots.push_reserved(Slot { kind, start, end });
    Ok(())
}

/// Makes room for at least one more slot.
#[inline(never)]
fn make_room(slots: &mut Vec<Slot>) -> Result<(), AllocError>
    ensures slots { slots.new.items ≡ slots.old.items }
    ensures room { OnOk result (length slots.new.items < vec_capacity slots.new) }
{
    slots.reserve(SLOTS_AT_ONCE)?;
    Ok(())
}

/// Appends a text, unless it is empty.
pub fn push_text(slots: &mut Vec<Slot>, start: usize, end: usize) -> Result<(), AllocError>
    ensures pushes { OnOk result (PushesText start end slots.old.items slots.new.items) }
    ensures succeeds { end ≤ start → IsOk result }
{
    if start < end {
        push_slot(slots, SlotKind::Text, start, end)?;
    }
    Ok(())
}

/// Makes a slot the start of an element of this kind that ends at the offset `end` or later.
pub fn begin(slots: &mut Vec<Slot>, at: usize, kind: SlotKind, end: usize)
    requires there { at < length slots.old.items }
    requires content { (text : List ℕ) (close : ℕ) → IsContent text close kind }
    ensures slots { (text : List ℕ) (place : ℕ) → AreSlots text place slots.old.items
        → IsCharBoundary text end → end ≤ place → AreSlots text place slots.new.items }
    ensures length { length slots.new.items ≡ length slots.old.items }
    ensures links { begins_link kind ≡ false → NoNewLink slots.old.items slots.new.items }
    ensures following { HoldNoLink slots.old.items at → HoldNoLink slots.new.items (at + 1) }
    ensures value { (d : Slots)
        → slots.new.items
        ≡ set slots.old.items at (begun_as kind end (get_or slots.old.items at d)) }
{
    let slot = slots[at];
    slots[at] = Slot {
        kind,
        start: slot.start,
        end: slot.end.max(end),
    };
}

/// Replaces a slot.
pub fn replace_slot(slots: &mut Vec<Slot>, at: usize, slot: Slot)
    requires there { at < length slots.old.items }
    requires kind { begins_link slot.kind ≡ false }
    ensures value { slots.new.items ≡ set slots.old.items at slot }
    ensures slots { (text : List ℕ) (place : ℕ) → AreSlots text place slots.old.items
        → IsSlot text place slot → AreSlots text place slots.new.items }
    ensures length { length slots.new.items ≡ length slots.old.items }
    ensures links { NoNewLink slots.old.items slots.new.items }
{
    slots[at] = slot;
}

/// Puts a slot at this index: replaces the slot there, or appends it after the last.
pub fn put_slot(slots: &mut Vec<Slot>, at: usize, slot: Slot) -> Result<(), AllocError>
    requires within { at ≤ length slots.old.items }
    requires kind { begins_link slot.kind ≡ false }
    ensures value { OnOk result (slots.new.items ≡ put_at at slot slots.old.items) }
    ensures slots { OnOk result
        ((text : List ℕ) (place : ℕ) → AreSlots text place slots.old.items → IsSlot text place slot
        → AreSlots text place slots.new.items) }
    ensures length { OnOk result (length slots.new.items ≤ length slots.old.items + 1) }
    ensures longer { OnOk result (length slots.old.items ≤ length slots.new.items) }
    ensures links { OnOk result (NoNewLink slots.old.items slots.new.items) }
{
    if at < slots.len() {
        replace_slot(slots, at, slot);
        return Ok(());
    }
    push_slot(slots, slot.kind, slot.start, slot.end)?;
    Ok(())
}

/// Makes a slot a used delimiter: the end of an element if `ends`, and otherwise `Nothing`.
pub fn use_up(slots: &mut Vec<Slot>, at: usize, ends: bool)
    requires there { at < length slots.old.items }
    ensures slots { (text : List ℕ) (place : ℕ) → AreSlots text place slots.old.items
        → AreSlots text place slots.new.items }
    ensures length { length slots.new.items ≡ length slots.old.items }
    ensures links { NoNewLink slots.old.items slots.new.items }
    ensures hides { (d : Slots) → ends ≡ false
        → slots.new.items ≡ set slots.old.items at (hidden (get_or slots.old.items at d)) }
    ensures ends { (d : Slots) → ends ≡ true
        → slots.new.items ≡ set slots.old.items at (ended (get_or slots.old.items at d)) }
{
    let slot = slots[at];
    let kind = if ends {
        SlotKind::End
    } else {
        SlotKind::Nothing
    };
    slots[at] = Slot { kind, ..slot };
}

/// Makes a slot a character.
pub fn become_character(slots: &mut Vec<Slot>, at: usize, character: char)
    requires there { at < length slots.old.items }
    ensures value { slots.new.items ≡ with_character at character slots.old.items }
    ensures slots { (text : List ℕ) (place : ℕ) → AreSlots text place slots.old.items
        → AreSlots text place slots.new.items }
    ensures length { length slots.new.items ≡ length slots.old.items }
    ensures links { NoNewLink slots.old.items slots.new.items }
{
    let slot = slots[at];
    slots[at] = Slot {
        kind: SlotKind::Character(character),
        ..slot
    };
}

/// Merges the slots from `first` to `last`, of which the last is a text, into one text. It has the bytes of the source from the start of
/// the first to the end of the last.
pub fn merge(slots: &mut Vec<Slot>, first: usize, last: usize)
    requires ordered { first < last }
    requires within { last < length slots.old.items }
    requires text { (d : Slots) → (get_or slots.old.items last d).kind ≡ kind.Text }
    requires whole { AreWhole slots.old.items }
    ensures slots { (text : List ℕ) (place : ℕ) → AreSlots text place slots.old.items
        → AreSlots text place slots.new.items }
    ensures length { length slots.new.items ≡ length slots.old.items }
    ensures links { NoNewLink slots.old.items slots.new.items }
    ensures value { Merges first last slots.old.items slots.new.items }
{
    let end = slots[last].end;
    use_up_between(slots, first, last);
    become_whole(slots, first, last, end);
}

// Makes a slot the text of all slots up to `last`. It ends at the offset `end` or later.
fn become_whole(slots: &mut Vec<Slot>, at: usize, last: usize, end: usize)
    requires there { at < length slots.old.items }
    ensures slots { (text : List ℕ) (place : ℕ) → AreSlots text place slots.old.items
        → IsCharBoundary text end → end ≤ place → AreSlots text place slots.new.items }
    ensures length { length slots.new.items ≡ length slots.old.items }
    ensures links { NoNewLink slots.old.items slots.new.items }
    ensures value { (d : Slots)
        → slots.new.items
        ≡ set slots.old.items at (whole_to last end (get_or slots.old.items at d)) }
{
    let slot = slots[at];
    slots[at] = Slot {
        kind: SlotKind::Whole(last),
        start: slot.start,
        end: slot.end.max(end),
    };
}

// Makes the slots after `first` up to `last`, which is a text, `Nothing`. Slots that a whole text already covers are skipped.
fn use_up_between(slots: &mut Vec<Slot>, first: usize, last: usize)
    requires ordered { first < last }
    requires within { last < length slots.old.items }
    requires text { (d : Slots) → (get_or slots.old.items last d).kind ≡ kind.Text }
    requires whole { AreWhole slots.old.items }
    ensures slots { (text : List ℕ) (place : ℕ) → AreSlots text place slots.old.items
        → AreSlots text place slots.new.items }
    ensures length { length slots.new.items ≡ length slots.old.items }
    ensures links { NoNewLink slots.old.items slots.new.items }
    ensures hides { Hides (first + 1) (last + 1) slots.old.items slots.new.items }
{
    let mut at = first;
    while at < last {
        at += 1;
        let end = last_of(slots[at].kind, at);
        use_up(slots, at, false);
        at = end;
    }
}

/// The index of the first slot, from `from` on, that ends after the offset `place`; the number of slots if there is none.
pub fn first_after(slots: &[Slot], from: usize, place: usize) -> usize
    requires { from ≤ length slots.now }
    ensures { IsFirstAfter slots.now from place result }
{
    let mut at = from;
    while at < slots.len() && ends_by(slots[at], place) {
        at += 1;
    }
    at
}

// Whether a slot has no bytes after an offset. `End` and `Nothing` have no bytes, and an empty text ends where it begins.
fn ends_by(slot: Slot, place: usize) -> bool
    ensures value { result ≡ ends_by place slot }
    ensures following { result ≡ false → place < slot.end }
{
    let has_none = match slot.kind {
        SlotKind::End | SlotKind::Nothing => true,
        SlotKind::Empty => slot.start <= place,
        _ => false,
    };
    has_none || slot.end <= place
}

/// Makes the slots from `from` up to `to`, exclusive, `Nothing`.
pub fn hide(slots: &mut Vec<Slot>, from: usize, to: usize)
    requires ordered { from ≤ to }
    requires within { to ≤ length slots.old.items }
    ensures hides { Hides from to slots.old.items slots.new.items }
    ensures slots { (text : List ℕ) (place : ℕ) → AreSlots text place slots.old.items
        → AreSlots text place slots.new.items }
    ensures links { NoNewLink slots.old.items slots.new.items }
{
    let mut at = from;
    while at < to {
        use_up(slots, at, false);
        at += 1;
    }
}

/// Makes the slot at the index `at` begin at the offset `place`, if that is inside it. Does nothing if `at` is the number of slots. The
/// content of the slot stays whole, except that a text, and HTML on one line, lose the bytes before `place`.
pub fn cut(slots: &mut Vec<Slot>, at: usize, text: &str, place: usize)
    requires within { at ≤ length slots.old.items }
    requires slots { (end : ℕ) × AreSlots text.now end slots.old.items }
    requires place { IsCharBoundary text.now place }
    ensures value { slots.new.items ≡ cut_at text.now place at slots.old.items }
    ensures slots { (end : ℕ) → AreSlots text.now end slots.old.items
        → AreSlots text.now end slots.new.items }
    ensures length { length slots.new.items ≡ length slots.old.items }
    ensures links { NoNewLink slots.old.items slots.new.items }
{
    if at < slots.len() {
        let slot = slots[at];
        slots[at] = cut_slot(slot, text, place);
    }
}

// The slot, beginning at `place` if that is inside it.
fn cut_slot(slot: Slot, text: &str, place: usize) -> Slot
    requires part { IsPart text.now slot.start slot.end }
    requires content { IsContent text.now slot.end slot.kind }
    ensures value { result ≡ cut_slot text.now place slot }
    ensures slot { (end : ℕ) → IsSlot text.now end slot → IsCharBoundary text.now place
        → IsSlot text.now end result }
    ensures link { begins_link result.kind ≡ begins_link slot.kind }
{
    if is_inside(slot, place) {
        return Slot {
            kind: cut_kind(slot, text),
            start: place,
            end: slot.end,
        };
    }
    slot
}

// Whether an offset is inside a slot, after its start.
fn is_inside(slot: Slot, place: usize) -> bool
    ensures { result ≡ (nat_lt slot.start place && nat_lt place slot.end) }
{
    slot.start < place && place < slot.end
}

// The meaning of a slot once its first bytes are cut off.
fn cut_kind(slot: Slot, text: &str) -> SlotKind
    requires part { IsPart text.now slot.start slot.end }
    requires content { IsContent text.now slot.end slot.kind }
    ensures value { result ≡ cut_kind text.now slot.start slot.end slot.kind }
    ensures content { IsContent text.now slot.end slot.kind
        → IsContent text.now slot.end result }
    ensures link { begins_link result ≡ begins_link slot.kind }
{
    match slot.kind {
        SlotKind::OwnedText(_) | SlotKind::Character(_) => SlotKind::Whole(0),
        SlotKind::InlineHtml if takes_lines(text, slot.start, slot.end) => {
            SlotKind::CutHtml(slot.start)
        }
        SlotKind::CutHtml(from) if !takes_lines(text, from, slot.end) => SlotKind::InlineHtml,
        kind => kind,
    }
}

// Whether the text has a line ending between two offsets.
fn takes_lines(text: &str, from: usize, end: usize) -> bool
    requires from { IsCharBoundary text.now from }
    requires end { IsCharBoundary text.now end }
    ensures { result ≡ takes_lines (slice text.now from end) }
{
    from < end && find_line_end(text[from..end].as_bytes()).is_some()
}

// The index of the last slot that belongs to the slot at `at`.
fn last_of(kind: SlotKind, at: usize) -> usize
    ensures order { at ≤ result }
    ensures value { result ≡ last_in kind at }
{
    match kind {
        SlotKind::Whole(last) => last.max(at),
        _ => at,
    }
}
