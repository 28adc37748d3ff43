//! Wikilinks (this profile's own).

ghost use Rattle.std.specs.Prelude.{◌≡◌, ◌⊎◌, ◌≤◌, ◌<◌, ◌+◌, ◌&&◌, ◌==◌, drop, if◌then◌else◌, false, is_some, ℕ, length, IfOk, OnOk, IfSome, None, Some};
ghost use Rattle.std.specs.Str.{IsCharBoundary};
ghost use Rattle.cmark_grammar.specs.Characters.{right_bracket};
ghost use Rattle.cmark_grammar.specs.BracketDecisions.{name_in};
ghost use Rattle.cmark_leaf_text.specs.Reads.{IsRead, IsPart, text_of};
ghost use Rattle.cmark_values.specs.Shown.{shown_options};
ghost use Rattle.cmark_grammar.specs.Letters.{first_is};
ghost use Rattle.cmark_inline.specs.AtCloser.{FormsPair, FormsWikilink, HidesSlots, IsInside, IsPair, KeepsLimits, StandsSound, TriesPair};
ghost use Rattle.cmark_inline.specs.TextOf.{IsTextOf};
ghost use Rattle.cmark_slots.specs.Doubled.{nearest};
ghost use Rattle.cmark_slots.specs.declared.slot.LinkElement.TheVariants as element;
ghost use Rattle.cmark_inline.specs.Hiding.{AreLeft};
ghost use Rattle.cmark_slots.specs.Standing.{AreEnded, EndsIn};
ghost use Rattle.cmark_inline.specs.Sound.{IsSound};
ghost use Rattle.cmark_leaf_text.specs.declared.leaf_text.LeafText.{LeafText as LeafTexts};
ghost use Rattle.cmark_slots.specs.Slots.{HoldNoLink, IsBracket};
ghost use Rattle.cmark_inline.specs.Wikilinks.{IsNamed, IsWikilink, Shows, forms_wikilink, wiki_text};

use crate::place::is_followed_by;
use crate::state::InlineState;
use crate::step::Cursor;
use bitflags::Flags;
use cmark_leaf_text::LeafText;
use cmark_references::Link;
use cmark_scan_bytes::scan_wikilink_pipe;
use cmark_slots::bracket::Bracket;
use cmark_slots::slot::{LinkElement, SlotKind, begin, cut, first_after, hide, push_slot};
use cmark_text::{CowStr, LinkType, Options};
use std::alloc::AllocError;

/// The parts of a wikilink between its brackets.
#[derive(Clone, Copy)]
pub struct Wikilink<'a> {
    /// The bytes of the source before the first pipe, or before the closing bracket if there is no pipe.
    pub name: &'a str,
    /// The offset of the first byte of the leaf's text after the first pipe, if there is a pipe.
    pub display: Option<usize>,
    /// The offset of the closing bracket in the source.
    pub source_end: usize,
}

/// The wikilink between a doubled bracket and the closing bracket at `close`. Its name is a slice of the source, with the prefixes of later
/// lines. Returns `None` if nothing is between the brackets, or if the name is empty.
fn wikilink_at<'a>(
    leaf: &LeafText<'a>,
    text: &str,
    doubled: Bracket,
    close: usize,
) -> Option<Wikilink<'a>>
    requires read { IsRead leaf.now }
    requires same { text.now ≡ text_of leaf.now }
    requires doubled { IsBracket text.now close doubled }
    requires close { IsPart text.now close (close + 1) }
    ensures is { IfSome result (IsWikilink leaf.now doubled close) }
    ensures none { result ≡ None
        → (close ≤ doubled.inside) ⊎ (length (name_in (wiki_text leaf.now doubled close)) ≡ 0) }
    ensures display { IfSome result
        (λ wikilink. IfSome wikilink.display
        (λ place. IsCharBoundary text.now place × (place ≤ close))) }
    ensures inside { IfSome result (λ wikilink. doubled.inside < close) }
{
    if close <= doubled.inside {
        return None;
    }
    let start = leaf.range(doubled.start, doubled.inside).end;
    let source_end = leaf.range(close, close + 1).start;
    if source_end <= start {
        return None;
    }
    let written = leaf.source_at(start, source_end);
    let Some(piped) = scan_wikilink_pipe(written, 0, written.len()) else {
        return Some(Wikilink {
            name: written,
            display: None,
            source_end,
        });
    };
    if piped.part.is_empty() {
        return None;
    }
    Some(Wikilink {
        name: piped.part,
        display: Some(leaf.first_from(start + piped.end)),
        source_end,
    })
}

// The element of a link, or of an image if `is_image`.
pub(crate) fn linked_element(is_image: bool) -> LinkElement
    ensures { result ≡ (if is_image then element.Image else element.Link) }
{
    if is_image {
        LinkElement::Image
    } else {
        LinkElement::Link
    }
}

// The link of a wikilink. Its name is the destination, and its title and its id are empty.
fn named_link(wikilink: Wikilink<'_>) -> Link<'_>
    ensures { IsNamed wikilink.entry result }
{
    Link {
        link_type: LinkType::WikiLink {
            has_pothole: wikilink.display.is_some(),
        },
        dest_url: CowStr::Borrowed(wikilink.name),
        title: CowStr::Borrowed(""),
        id: CowStr::Borrowed(""),
    }
}

impl<'a> InlineState<'a> {
    // If two closing brackets are at `close`, tries to form a wikilink with the nearest doubled bracket, which is then used up. Returns the
    // cursor after the wikilink. Returns `None` if no wikilink is formed, or if wikilinks are not read.
    pub(crate) fn wikilink(
        &mut self,
        leaf: &LeafText<'a>,
        options: Options,
        text: &str,
        close: usize,
    ) -> Result<Option<Cursor>, AllocError>
        requires text { IsTextOf leaf.now text.now }
        requires at { StandsSound text.now close self.old }
        requires close { IsPart text.now close (close + 1) }
        ensures forms { IfOk result
            (λ next. is_some next
            ≡ forms_wikilink (shown_options options) leaf.now close self.old.doubled) }
        ensures pair { IfOk result
            (λ next. IfSome next
            (FormsPair (shown_options options) leaf.now text.now close self.old self.new)) }
        ensures tries { IfOk result
            (λ next. next ≡ None
            → TriesPair
            ((shown_options options).wikilinks && first_is (λ b. b == right_bracket)
            (drop (close + 1) text.now)) text.now close self.old self.new) }
        ensures limits { KeepsLimits self.old self.new }
        ensures sound { OnOk result (IsSound self.new) }
        ensures ends { OnOk result
            (AreEnded leaf.now self.old.slots.items → AreEnded leaf.now self.new.slots.items) }
        ensures off { (shown_options options).wikilinks ≡ false → self.new ≡ self.old }
    {
        if !options.contains(Options::ENABLE_WIKILINKS) || !is_followed_by(text, close, b']') {
            return Ok(None);
        }
        let Some((doubled, forms)) = self.doubled.take() else {
            return Ok(None);
        };
        if !forms {
            return Ok(None);
        }
        let Some(wikilink) = wikilink_at(leaf, text, doubled, close) else {
            return Ok(None);
        };
        self.form_wikilink(options, text, doubled, close, wikilink)?;
        Ok(Some(Cursor {
            pending: close + 2,
            at: close + 2,
        }))
    }

    // Forms a wikilink. After it, no earlier doubled bracket is tried, and no earlier bracket forms a link.
    fn form_wikilink(
        &mut self,
        options: Options,
        text: &str,
        doubled: Bracket,
        close: usize,
        wikilink: Wikilink<'a>,
    ) -> Result<(), AllocError>
        requires at { StandsSound text.now close self.old }
        requires pair { IsPair text.now close wikilink self.old doubled }
        requires end { IsPart text.now close (close + 2) }
        requires middle { IsCharBoundary text.now (close + 1) }
        requires free { doubled.is_image ≡ false → HoldNoLink self.old.slots.items doubled.slot }
        ensures forms { OnOk result
            (FormsWikilink (shown_options options) text.now doubled close wikilink.entry self.old
            self.new) }
        ensures limits { KeepsLimits self.old self.new }
        ensures at { OnOk result (StandsSound text.now (close + 2) self.new) }
        ensures ends { OnOk result
            ((leaf : LeafTexts) → AreEnded leaf self.old.slots.items
            → EndsIn leaf close (Some wikilink.entry.source_end)
            → AreEnded leaf self.new.slots.items) }
    {
        let end = close + 2;
        let index = self.links.len();
        self.links.push(named_link(wikilink))?;
        let inside = self.show(text, doubled, close, wikilink)?;
        let element = linked_element(doubled.is_image);
        let kind = SlotKind::BeginLink(element, index);
        begin(&mut self.slots, doubled.slot, kind, end);
        self.finish(options, inside, close, end)?;
        self.quotes.truncate(doubled.quotes);
        self.delimiters.truncate(doubled.runs);
        self.brackets.drop_after(doubled.start);
        self.brackets.deactivate_all();
        self.doubled.clear();
        Ok(())
    }

    // Keeps only those slots after `doubled` that the wikilink shows: its name as one text, or the slots after the pipe. A slot that
    // contains the byte after the pipe is cut to begin there. Returns `doubled` with the numbers of runs and quotes before the shown slots.
    fn show(
        &mut self,
        text: &str,
        doubled: Bracket,
        close: usize,
        wikilink: Wikilink<'a>,
    ) -> Result<Bracket, AllocError>
        requires at { StandsSound text.now close self.old }
        requires pair { IsPair text.now close wikilink self.old doubled }
        requires end { IsPart text.now close (close + 1) }
        ensures shows { IfOk result
            (λ inside. (at : ℕ)
            × Shows text.now doubled close wikilink.entry self.old.slots.items self.new.slots.items
            at
            × AreLeft at self.old.delimiters.placed.items self.old.quotes.placed.items doubled
            inside) }
        ensures inside { IfOk result (IsInside doubled self.old self.new) }
        ensures hides { OnOk result
            (HidesSlots text.now doubled close wikilink.entry.source_end self.old.slots.items
            self.new.slots.items) }
        ensures others { self.new ≡ record self.old { slots = self.new.slots } }
    {
        let place = wikilink.display.unwrap_or(close);
        let from = doubled.slot + 1;
        let shown = first_after(&self.slots, from, place);
        hide(&mut self.slots, from, shown);
        cut(&mut self.slots, shown, text, place);
        let inside = Bracket {
            runs: self.delimiters.first_from(doubled.runs, shown),
            quotes: self.quotes.first_from(doubled.quotes, shown),
            ..doubled
        };
        match wikilink.display {
            None => {
                let name = SlotKind::SourceText(wikilink.source_end);
                push_slot(&mut self.slots, name, doubled.inside, close)?;
            }
            Some(place) if place == close => {
                push_slot(&mut self.slots, SlotKind::Empty, close, close + 1)?;
            }
            Some(_) => {}
        }
        Ok(inside)
    }
}
