//! Footnote references (this profile's own).

ghost use Rattle.std.specs.Prelude.{◌≡◌, false, ◌<◌, ◌≤◌, ◌+◌, ◌^◌, ◌++◌, ◌∷◌, ℕ, List, [], drop, length, is_some, IfOk, OnErr, OnOk, IfSome, None, Some, option_copied, option_map};
ghost use Rattle.std.specs.Str.{IsCharBoundary};
ghost use Rattle.cmark_link_scan.specs.Shown.{shown_label};
ghost use Rattle.cmark_grammar.specs.BracketDecisions.{is_there};
ghost use Rattle.cmark_grammar.specs.Labels.{fold, normal_form};
ghost use Rattle.cmark_grammar.specs.LinkTails.{reference_label_in};
ghost use Rattle.cmark_grammar.specs.Tokens.{slice};
ghost use Rattle.cmark_references.specs.Footnotes.{Counts, Keeps};
ghost use Rattle.cmark_leaf_text.specs.Reads.{IsPart, is_cell_of};
ghost use Rattle.cmark_values.specs.Shown.{shown_options, text_bytes};
ghost use Rattle.cmark_inline.specs.AtCloser.{DecidesFootnote, FormsReference, GoesOn, IsOpening, KeepsLimits, StandsSound, UsesUpTo};
ghost use Rattle.cmark_inline.specs.Closers.{LeavesFootnote};
ghost use Rattle.cmark_inline.specs.Footnoted.{CountsOf, PutsReference, SameFootnotes, fits_footnote, footnote_after, footnote_label, footnote_of, forms_footnote, is_accepted, is_footnote_label, reference_as, reference_slot, reference_start, unless_footnote, with_mark};
ghost use Rattle.cmark_inline.specs.Hiding.{WritesReference};
ghost use Rattle.cmark_inline.specs.Uses.{RiseUpTo};
ghost use Rattle.cmark_slots.specs.Standing.{AreEnded};
ghost use Rattle.cmark_leaf_text.specs.declared.leaf_text.LeafText.{LeafText as LeafTexts};
ghost use Rattle.cmark_slots.specs.Slots.{AreSlots, IsBracket, IsSlot, NoNewLink, begins_link};

use crate::reference::label_text;
use crate::state::InlineState;
use crate::step::Cursor;
use bitflags::Flags;
use cmark_leaf_text::LeafText;
use cmark_link_scan::{ReferenceLabel, after_byte, is_bracketed_label, link_tail, reference_label};
use cmark_references::FootnoteDefs;
use cmark_slots::bracket::Bracket;
use cmark_slots::slot::{Slot, SlotKind, hide, put_slot, replace_slot};
use cmark_span_scan::has_line_ending;
use cmark_text::{CowStr, FootnoteLabel, Options};
use std::alloc::{AllocError, Global};

/// The label of a footnote without its `^`, if `between`, the text between two brackets, is one. The label is on one line, unless old
/// footnotes are read. Returns `None` without the option for footnotes.
pub fn footnote_label(options: Options, between: &str) -> Option<&str>
    ensures value { option_copied result
        ≡ footnote_label (shown_options options) between.entry.now }
{
    if options.contains(Options::ENABLE_FOOTNOTES) {
        let label = after_byte(b'^', between)?;
        if fits_footnote(options, label) {
            return Some(label);
        }
    }
    None
}

/// Whether a footnote may have this label. It may if it can be a link label, and is on one line unless old footnotes are read.
fn fits_footnote(options: Options, label: &str) -> bool
    ensures { result ≡ fits_footnote (shown_options options) label.now }
{
    is_bracketed_label(label)
        && (options.contains(Options::ENABLE_OLD_FOOTNOTES) || !has_line_ending(label))
}

/// Whether `between`, the text between two brackets, is the label of a footnote.
pub fn is_footnote_label(options: Options, between: &str) -> bool
    ensures { result ≡ is_footnote_label (shown_options options) between.now }
{
    footnote_label(options, between).is_some()
}

/// The label of a full reference, if it begins at the offset `at`, directly after a closing bracket. A footnote's label is not one.
pub fn full_label(options: Options, text: &str, at: usize) -> Option<ReferenceLabel<'_>>
    requires { IsCharBoundary text.now at }
    ensures value { option_map (shown_label text.entry.now) result
        ≡ unless_footnote (shown_options options) (reference_label_in (drop at text.entry.now)) }
    ensures further { IfSome result (λ label. at < label.end) }
    ensures ends { IfSome result (λ label. IsCharBoundary text.entry.now label.end) }
{
    let label = reference_label(text, at)?;
    if is_footnote_label(options, label.label) {
        return None;
    }
    Some(label)
}

/// The label of the footnote reference between `bracket` and `close`. Returns `None` if a destination in parentheses or the label of a full
/// reference follows. Also returns `None` if the bracket at `close` ends the label of an earlier full reference.
fn footnote_at<'t>(
    options: Options,
    text: &'t str,
    bracket: Bracket,
    close: usize,
    closes_label: bool,
) -> Option<&'t str>
    requires bracket { IsBracket text.now close bracket }
    requires close { IsPart text.now close (close + 1) }
    ensures value { option_copied result
        ≡ footnote_after (shown_options options) closes_label
        (slice text.entry.now bracket.inside close) (drop (close + 1) text.entry.now) }
{
    let label = footnote_label(options, &text[bracket.inside..close])?;
    if closes_label
        || link_tail(text, close + 1).is_some()
        || full_label(options, text, close + 1).is_some()
    {
        return None;
    }
    Some(label)
}

/// Counts a use of the footnote with this label, and returns whether the label forms a reference. It does if a footnote has the label, or
/// if old footnotes are read. If memory is refused, no count changes.
fn count(options: Options, footnotes: &mut FootnoteDefs, label: &str) -> Result<bool, AllocError>
    ensures value { IfOk result
        (λ accepted. accepted ≡ is_accepted (shown_options options) footnotes.old label.now) }
    ensures counts { OnOk result (Counts (fold label.now) footnotes.old footnotes.new) }
    ensures same { SameFootnotes footnotes.old footnotes.new }
    ensures refused { OnErr result (Keeps footnotes.old footnotes.new) }
{
    let is_defined = footnotes.count_use(label)?;
    Ok(is_defined || !options.has_gfm_footnotes())
}

/// The normal form of a footnote's label, as an owned text. Fails only if memory is refused.
fn name_of<'a>(alloc: Global, label: &str) -> Result<CowStr<'a>, AllocError>
    ensures { IfOk result (λ name. text_bytes name ≡ normal_form label.now) }
{
    let label = FootnoteLabel::new(alloc, label)?;
    CowStr::Borrowed(label.as_str()).into_static(alloc)
}

/// The name of the footnote that `bracket` refers to. Counts a use of the footnote. Returns `None` if the bracket refers to no footnote.
fn referred_footnote<'a>(
    alloc: Global,
    leaf: &LeafText<'a>,
    options: Options,
    footnotes: &mut FootnoteDefs,
    text: &str,
    bracket: Bracket,
    close: usize,
    closes_label: bool,
) -> Result<Option<CowStr<'a>>, AllocError>
    requires bracket { IsBracket text.now close bracket }
    requires close { IsPart text.now close (close + 1) }
    ensures forms { IfOk result
        (λ name. is_some name
        ≡ forms_footnote (shown_options options) footnotes.old
        (footnote_of (shown_options options) (is_cell_of leaf.now) closes_label text.now close
        (Some bracket))) }
    ensures name { IfOk result
        (λ name. IfSome name
        (λ name. IfSome
        (footnote_of (shown_options options) (is_cell_of leaf.now) closes_label text.now close
        (Some bracket)) (λ label. text_bytes name ≡ normal_form label))) }
    ensures off { (shown_options options).footnotes ≡ false
        → (footnotes.new ≡ footnotes.old) × IfOk result (λ name. name ≡ None) }
    ensures counts { OnOk result
        (CountsOf
        (footnote_of (shown_options options) (is_cell_of leaf.now) closes_label text.now close
        (Some bracket)) footnotes.old footnotes.new) }
    ensures same { SameFootnotes footnotes.old footnotes.new }
    ensures rise { RiseUpTo 1 footnotes.old footnotes.new }
{
    if !options.contains(Options::ENABLE_FOOTNOTES) {
        return Ok(None);
    }
    let Some(written) = footnote_at(options, text, bracket, close, closes_label) else {
        return Ok(None);
    };
    let label = label_text(alloc, leaf.is_cell(), written)?;
    if !count(options, footnotes, label.as_str())? {
        return Ok(None);
    }
    let name = name_of(alloc, label.as_str())?;
    Ok(Some(name))
}

/// The index of the slot for the reference that `bracket` opens: its own slot, or the next one if it opens an image.
fn reference_slot(bracket: Bracket) -> usize
    requires { bracket.slot + 1 < 2 ^ 64 }
    ensures { result ≡ reference_slot bracket }
{
    if bracket.is_image {
        bracket.slot + 1
    } else {
        bracket.slot
    }
}

/// The offset of the `[` of a bracket. The reference begins there, since a `!` before it is a text.
fn reference_start(bracket: Bracket) -> usize
    requires { bracket.start < bracket.inside }
    ensures { result ≡ reference_start bracket }
{
    if bracket.is_image {
        bracket.start + 1
    } else {
        bracket.start
    }
}

/// Reduces the slot of an image's bracket to the `!`. Changes no other bracket's slot.
fn put_mark(slots: &mut Vec<Slot>, bracket: Bracket)
    requires there { bracket.slot < length slots.old.items }
    requires start { bracket.start < bracket.inside }
    ensures value { slots.new.items ≡ with_mark bracket slots.old.items }
    ensures slots { (text : List ℕ) (place : ℕ) → AreSlots text place slots.old.items
        → IsBracket text place bracket → AreSlots text place slots.new.items }
    ensures length { length slots.new.items ≡ length slots.old.items }
    ensures links { NoNewLink slots.old.items slots.new.items }
{
    if bracket.is_image {
        let mark = Slot {
            kind: SlotKind::Text,
            start: bracket.start,
            end: bracket.start + 1,
        };
        replace_slot(slots, bracket.slot, mark);
    }
}

impl<'a> InlineState<'a> {
    // Forms the footnote reference of the opening bracket `taken` and the closing bracket at `close`, and returns the cursor after it.
    // Counts a use of its footnote. Returns `None` if no bracket was taken, or if the brackets form no footnote reference.
    pub(crate) fn footnote(
        &mut self,
        leaf: &LeafText<'a>,
        options: Options,
        footnotes: &mut FootnoteDefs,
        text: &str,
        taken: Option<Bracket>,
        close: usize,
    ) -> Result<Option<Cursor>, AllocError>
        requires at { StandsSound text.now close self.old }
        requires opening { IfSome taken (IsOpening text.now close self.old) }
        requires close { IsPart text.now close (close + 1) }
        ensures decides { IfOk result
            (DecidesFootnote (shown_options options)
            (footnote_of (shown_options options) (is_cell_of leaf.now)
            (is_there close self.old.label_close) text.now close taken) footnotes.old footnotes.new
            self.old self.new) }
        ensures forms { IfOk result
            (λ next. IfSome next
            (FormsReference taken
            (footnote_of (shown_options options) (is_cell_of leaf.now)
            (is_there close self.old.label_close) text.now close taken) close self.old self.new)) }
        ensures limits { KeepsLimits self.old self.new }
        ensures goes_on { IfOk result (GoesOn text.now close self.old self.new) }
        ensures off { (shown_options options).footnotes ≡ false
            → (self.new ≡ self.old) × (footnotes.new ≡ footnotes.old) }
        ensures uses { UsesUpTo 1 footnotes.old footnotes.new }
    {
        let Some(bracket) = taken else {
            return Ok(None);
        };
        let closes_label = self.closes_label(close);
        let Some(name) = referred_footnote(
            self.alloc,
            leaf,
            options,
            footnotes,
            text,
            bracket,
            close,
            closes_label,
        )?
        else {
            return Ok(None);
        };
        self.form_footnote(text, bracket, close, name)?;
        Ok(Some(Cursor {
            pending: close + 1,
            at: close + 1,
        }))
    }

    // Whether the closing bracket at `close` ends the label of an earlier full reference. It then forms no reference by its own label.
    pub(crate) fn closes_label(&self, close: usize) -> bool
        ensures { result ≡ is_there close self.now.label_close }
    {
        match self.label_close {
            Some(other) => other == close,
            None => false,
        }
    }

    // Forms a footnote reference. The slots between its brackets become `Nothing`. All brackets before it are removed, so that no link is
    // formed over it. Doubled brackets before it stay.
    fn form_footnote(
        &mut self,
        text: &str,
        bracket: Bracket,
        close: usize,
        name: CowStr<'a>,
    ) -> Result<(), AllocError>
        requires at { StandsSound text.now close self.old }
        requires opening { IsOpening text.now close self.old bracket }
        requires close { IsPart text.now close (close + 1) }
        ensures writes { OnOk result
            (WritesReference bracket (text_bytes name.entry) (close + 1) self.old self.new) }
        ensures slots { OnOk result
            (PutsReference bracket (reference_as bracket (length self.old.texts.items) (close + 1))
            self.old.slots.items self.new.slots.items) }
        ensures leaves { OnOk result (LeavesFootnote bracket.start self.old self.new) }
        ensures limits { KeepsLimits self.old self.new }
        ensures at { OnOk result (StandsSound text.now (close + 1) self.new) }
        ensures ends { OnOk result
            ((leaf : LeafTexts) → AreEnded leaf self.old.slots.items
            → AreEnded leaf self.new.slots.items) }
        ensures texts { OnOk result
            (self.new.texts.items ≡ self.old.texts.items ++ (name.entry ∷ [])) }
    {
        let kind = SlotKind::FootnoteReference(self.texts.len());
        self.texts.push(name)?;
        let reference = Slot {
            kind,
            start: reference_start(bracket),
            end: close + 1,
        };
        self.put_reference(bracket, reference)?;
        self.quotes.truncate(bracket.quotes);
        self.delimiters.truncate(bracket.runs);
        self.brackets.clear();
        self.doubled.drop_after(bracket.start);
        Ok(())
    }

    // Puts the slot of a footnote reference in the place of the bracket's slot, or after the `!` of an image, which is a text. Later slots
    // become `Nothing`.
    fn put_reference(&mut self, bracket: Bracket, reference: Slot) -> Result<(), AllocError>
        requires there { bracket.slot < length self.old.slots.items }
        requires start { bracket.start < bracket.inside }
        requires kind { begins_link reference.kind ≡ false }
        ensures slots { OnOk result
            ((text : List ℕ) (place : ℕ) → AreSlots text place self.old.slots.items
            → IsBracket text place bracket → IsSlot text place reference
            → AreSlots text place self.new.slots.items) }
        ensures length { OnOk result
            (length self.new.slots.items ≤ length self.old.slots.items + 1) }
        ensures longer { OnOk result (length self.old.slots.items ≤ length self.new.slots.items) }
        ensures links { OnOk result (NoNewLink self.old.slots.items self.new.slots.items) }
        ensures puts { OnOk result
            (PutsReference bracket reference self.old.slots.items self.new.slots.items) }
        ensures others { self.new ≡ record self.old { slots = self.new.slots } }
    {
        let count = self.slots.len();
        let at = reference_slot(bracket);
        hide(&mut self.slots, at, count);
        put_mark(&mut self.slots, bracket);
        put_slot(&mut self.slots, at, reference)?;
        Ok(())
    }
}
