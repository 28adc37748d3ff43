//! Reference links and images: their labels and their targets (CommonMark 6.3 and 6.4).

ghost use Rattle.std.specs.Prelude.{◌≡◌, if◌then◌else◌, ◌<◌, ◌+◌, ◌-◌, IfOk, IfSome, OnErr, Some, drop, option_map};
ghost use Rattle.cmark_leaf_text.specs.Reads.{IsRead, IsPart, is_cell_of, place_of, text_of};
ghost use Rattle.cmark_grammar.specs.Labels.{fold, normal_form};
ghost use Rattle.cmark_references.specs.Definitions.{definition};
ghost use Rattle.cmark_values.specs.Labelled.{link_text, link_key};
ghost use Rattle.cmark_inline.specs.Linked.{Answers, AsksOfReference, IsLed, Refers, left_after, reference_after, shown_link_reference, by_own_label, said_by, shown_destination, target_link};
ghost use Rattle.cmark_values.specs.Shown.{shown_link_type, shown_options, text_bytes};
ghost use Rattle.cmark_inline.specs.Asking.{AsksOnce};
ghost use Rattle.cmark_inline.specs.Decided.{is_full};
ghost use Rattle.cmark_inline.specs.Footnoted.{as_label};
ghost use Rattle.cmark_inline.specs.Stands.{IsLinkReference};
ghost use Rattle.cmark_inline.specs.TextOf.{IsTextOf};
ghost use Rattle.cmark_slots.specs.Slots.{IsBracket};
ghost use Rattle.cmark_grammar.specs.Tokens.{slice};

use crate::callback::{BrokenLink, BrokenLinkCallback};
use crate::footnote::{full_label, is_footnote_label};
use crate::link::Target;
use crate::read::Reader;
use crate::state::InlineState;
use cmark_leaf_text::LeafText;
use cmark_link_scan::{collapsed_end, is_bracketed_label};
use cmark_references::{Link, RefDefs};
use cmark_scan_bytes::with_literal_pipes;
use cmark_slots::bracket::Bracket;
use cmark_text::{CowStr, EntityLookup, LinkLabel, LinkType, Options};
use std::alloc::{AllocError, Global};

/// A link reference as it is written (CommonMark 6.3).
#[derive(Clone, Copy)]
pub struct LinkReference<'t> {
    pub label: &'t str,
    pub link_type: LinkType,
    /// The offset after the reference, not including a `[]` after it.
    pub end: usize,
    /// The offset after all bytes that it uses up, a `[]` included. Reading continues there.
    pub resume: usize,
}

/// The reference with its text between `bracket` and `close`: a full one, or else one by its own label. If `closes_label`, the bracket at
/// `close` ends the label of an earlier full reference, and only a full one is possible. A footnote's label is not the label of a link.
pub fn link_reference_at<'t>(
    options: Options,
    text: &'t str,
    bracket: Bracket,
    close: usize,
    closes_label: bool,
) -> Option<LinkReference<'t>>
    requires bracket { IsBracket text.now close bracket }
    requires close { IsPart text.now close (close + 1) }
    ensures value { option_map (shown_link_reference text.entry.now) result
        ≡ reference_after (shown_options options) closes_label
        (slice text.entry.now bracket.inside close) (drop (close + 1) text.entry.now) }
    ensures ends { IfSome result (IsLinkReference text.entry.now close) }
{
    if let Some(label) = full_label(options, text, close + 1) {
        return Some(LinkReference {
            label: label.label,
            link_type: LinkType::Reference,
            end: label.end,
            resume: label.end,
        });
    }
    if closes_label {
        return None;
    }
    own_label_at(options, text, bracket, close)
}

// The collapsed or shortcut reference whose label is the text between `bracket` and `close`; `None` if this is no label of a link.
fn own_label_at<'t>(
    options: Options,
    text: &'t str,
    bracket: Bracket,
    close: usize,
) -> Option<LinkReference<'t>>
    requires bracket { IsBracket text.now close bracket }
    requires close { IsPart text.now close (close + 1) }
    ensures value { option_map (shown_link_reference text.entry.now) result
        ≡ by_own_label (shown_options options) (slice text.entry.now bracket.inside close)
        (drop (close + 1) text.entry.now) }
    ensures ends { IfSome result (IsLinkReference text.entry.now close) }
{
    let label = &text[bracket.inside..close];
    if is_footnote_label(options, label) || !is_bracketed_label(label) {
        return None;
    }
    let end = close + 1;
    if let Some(resume) = collapsed_end(text, end) {
        return Some(LinkReference {
            label,
            link_type: LinkType::Collapsed,
            end,
            resume,
        });
    }
    Some(LinkReference {
        label,
        link_type: LinkType::Shortcut,
        end,
        resume: end,
    })
}

/// The text by which a label is compared. In a table's cell, each `\|` (GFM 4.10) and each `\\|` (this profile's own) counts as `|`.
/// Borrows `label` if it has none of them. Fails only if memory is refused.
pub fn label_text<'t>(
    alloc: Global,
    is_cell: bool,
    label: &'t str,
) -> Result<CowStr<'t>, AllocError>
    ensures { IfOk result (λ text. text_bytes text ≡ as_label is_cell label.entry.now) }
{
    if is_cell {
        return with_literal_pipes(alloc, CowStr::Borrowed(label));
    }
    Ok(CowStr::Borrowed(label))
}

/// The destination and the title of a reference.
#[derive(Drop)]
pub struct Destination<'a> {
    pub dest_url: CowStr<'a>,
    pub title: CowStr<'a>,
}

/// The destination and the title in the definition of a label; `None` if the label has no definition. Fails only if memory is refused.
pub fn defined<'a>(
    alloc: Global,
    references: &RefDefs<'a>,
    label: &LinkLabel,
) -> Result<Option<Destination<'a>>, AllocError>
    ensures { IfOk result
        (λ found. option_map shown_destination found
        ≡ option_map said_by (definition references.now (link_key label.now))) }
{
    let Some(definition) = references.get_label(label) else {
        return Ok(None);
    };
    let title = match &definition.title {
        Some(title) => title.clone(alloc)?,
        None => CowStr::Borrowed(""),
    };
    let dest_url = definition.dest.clone(alloc)?;
    Ok(Some(Destination { dest_url, title }))
}

impl<'a> InlineState<'a> {
    // Remembers the closing bracket of a full reference's label, since that bracket forms no reference by its own label.
    pub(crate) fn remember_label(&mut self, link_reference: LinkReference<'_>)
        requires { 0 < link_reference.end }
        ensures label { self.new.label_close
            ≡
            (if is_full (shown_link_type link_reference.entry.link_type) then Some
            (link_reference.entry.end - 1) else self.old.label_close) }
        ensures others { self.new ≡ record self.old { label_close = self.new.label_close } }
    {
        if link_reference.link_type == LinkType::Reference {
            self.label_close = Some(link_reference.end - 1);
        }
    }

    // The target of a reference that begins at the offset `start`; `None` if it leads nowhere. Subtracts its destination and its title from
    // the rest of the reference expansion limit.
    pub(crate) fn reference<E: EntityLookup, F: BrokenLinkCallback<'a>>(
        &mut self,
        leaf: &LeafText<'a>,
        reader: &Reader<'_, 'a, E>,
        callback: &mut F,
        text: &str,
        start: usize,
        link_reference: LinkReference<'_>,
    ) -> Result<Option<Target<'a>>, AllocError>
        requires part { IsPart text.now start link_reference.end }
        requires text { IsTextOf leaf.now text.now }
        requires ready { F.ready callback.old }
        ensures refers { IfOk result
            (λ found. Refers F.answers
            (definition reader.now.references.now
            (fold (as_label (is_cell_of leaf.now) link_reference.entry.label.now)))
            link_reference.entry.link_type
            (normal_form (as_label (is_cell_of leaf.now) link_reference.entry.label.now))
            (place_of leaf.now start) (place_of leaf.now (link_reference.entry.end - 1) + 1)
            callback.old callback.new (option_map target_link found)) }
        ensures stops { OnErr result
            (AsksOfReference F.answers
            (definition reader.now.references.now
            (fold (as_label (is_cell_of leaf.now) link_reference.entry.label.now)))
            link_reference.entry.link_type
            (normal_form (as_label (is_cell_of leaf.now) link_reference.entry.label.now))
            (place_of leaf.now start) (place_of leaf.now (link_reference.entry.end - 1) + 1)
            callback.old callback.new) }
        ensures ready { F.ready callback.new }
        ensures asks { AsksOnce F.answers callback.old callback.new }
        ensures expansion_left { IfOk result
            (λ found. self.new.expansion_left ≡ left_after self.old.expansion_left found) }
        ensures others { self.new ≡ record self.old { expansion_left = self.new.expansion_left } }
        ensures target { IfOk result
            (λ found. IfSome found
            (λ target. (target.end ≡ link_reference.entry.end)
            × (target.resume ≡ link_reference.entry.resume))) }
    {
        let Some(link) = referred(
            self.alloc,
            leaf,
            reader.references,
            callback,
            start,
            link_reference,
        )?
        else {
            return Ok(None);
        };
        Ok(Some(self.resolved(link, link_reference)))
    }

    // The target of a reference with this link. Subtracts the destination and the title from the rest of the reference expansion limit.
    fn resolved(&mut self, link: Link<'a>, link_reference: LinkReference<'_>) -> Target<'a>
        ensures link { result.link ≡ link.entry }
        ensures end { result.end ≡ link_reference.entry.end }
        ensures resume { result.resume ≡ link_reference.entry.resume }
        ensures expansion_left { self.new.expansion_left
            ≡ left_after self.old.expansion_left (Some result) }
        ensures others { self.new ≡ record self.old { expansion_left = self.new.expansion_left } }
    {
        self.expansion_left = self
            .expansion_left
            .saturating_sub(link.dest_url.as_str().len());
        self.expansion_left = self
            .expansion_left
            .saturating_sub(link.title.as_str().len());
        Target {
            link,
            end: link_reference.end,
            resume: link_reference.resume,
        }
    }
}

// The link of a reference, by the definition of its label, or else by the callback's answer. Returns `None` if there is neither.
fn referred<'a, F: BrokenLinkCallback<'a>>(
    alloc: Global,
    leaf: &LeafText<'a>,
    references: &RefDefs<'a>,
    callback: &mut F,
    start: usize,
    link_reference: LinkReference<'_>,
) -> Result<Option<Link<'a>>, AllocError>
    requires read { IsRead leaf.now }
    requires part { IsPart (text_of leaf.now) start link_reference.end }
    requires ready { F.ready callback.old }
    ensures ready { F.ready callback.new }
    ensures asks { AsksOnce F.answers callback.old callback.new }
    ensures refers { IfOk result
        (Refers F.answers
        (definition references.now
        (fold (as_label (is_cell_of leaf.now) link_reference.entry.label.now)))
        link_reference.entry.link_type
        (normal_form (as_label (is_cell_of leaf.now) link_reference.entry.label.now))
        (place_of leaf.now start) (place_of leaf.now (link_reference.entry.end - 1) + 1)
        callback.old callback.new) }
    ensures stops { OnErr result
        (AsksOfReference F.answers
        (definition references.now
        (fold (as_label (is_cell_of leaf.now) link_reference.entry.label.now)))
        link_reference.entry.link_type
        (normal_form (as_label (is_cell_of leaf.now) link_reference.entry.label.now))
        (place_of leaf.now start) (place_of leaf.now (link_reference.entry.end - 1) + 1)
        callback.old callback.new) }
{
    let label = label_of(alloc, leaf.is_cell(), link_reference.label)?;
    if let Some(found) = defined(alloc, references, &label)? {
        let link = linked(alloc, link_reference.link_type, found, &label)?;
        return Ok(Some(link));
    }
    let Some(found) = ask(alloc, leaf, callback, start, link_reference, &label)? else {
        return Ok(None);
    };
    let link = linked(alloc, link_reference.link_type.to_unknown(), found, &label)?;
    Ok(Some(link))
}

// The label by which a reference is compared. `label` is its text as written.
fn label_of(alloc: Global, is_cell: bool, label: &str) -> Result<LinkLabel, AllocError>
    ensures key { IfOk result (λ made. link_key made ≡ fold (as_label is_cell label.now)) }
    ensures text { IfOk result (λ made. link_text made ≡ normal_form (as_label is_cell label.now)) }
{
    let written = label_text(alloc, is_cell, label)?;
    LinkLabel::new(alloc, written.as_str())
}

// The link to this destination. Its id is the normal form of the label.
fn linked<'a>(
    alloc: Global,
    link_type: LinkType,
    found: Destination<'a>,
    label: &LinkLabel,
) -> Result<Link<'a>, AllocError>
    ensures { IfOk result (IsLed link_type (link_text label.now) found.entry) }
{
    let Destination { dest_url, title } = found;
    let id = CowStr::Borrowed(label.as_str()).into_static(alloc)?;
    Ok(Link {
        link_type,
        dest_url,
        title,
        id,
    })
}

// Asks the callback for the destination and the title of a reference whose label has no definition. If memory is refused, nothing was
// asked.
fn ask<'a, F: BrokenLinkCallback<'a>>(
    alloc: Global,
    leaf: &LeafText<'a>,
    callback: &mut F,
    start: usize,
    link_reference: LinkReference<'_>,
    label: &LinkLabel,
) -> Result<Option<Destination<'a>>, AllocError>
    requires read { IsRead leaf.now }
    requires part { IsPart (text_of leaf.now) start link_reference.end }
    requires ready { F.ready callback.old }
    ensures ready { F.ready callback.new }
    ensures asks { AsksOnce F.answers callback.old callback.new }
    ensures answers { IfOk result
        (λ found. Answers F.answers link_reference.entry.link_type (link_text label.now)
        (place_of leaf.now start) (place_of leaf.now (link_reference.entry.end - 1) + 1)
        callback.old callback.new found) }
    ensures unasked { OnErr result (callback.new ≡ callback.old) }
{
    let reference = CowStr::Borrowed(label.as_str()).into_static(alloc)?;
    let link = BrokenLink {
        span: leaf.range(start, link_reference.end),
        link_type: link_reference.link_type,
        reference,
    };
    match callback.handle_broken_link(link) {
        Some((dest_url, title)) => Ok(Some(Destination { dest_url, title })),
        None => Ok(None),
    }
}
