//! Inline HTML (CommonMark 6.6). Tags are read in the text of a leaf. All other kinds, called markup here, are read in the source.

ghost use Rattle.std.specs.Prelude.{◌≡◌, ◌<◌, ◌≤◌, ◌+◌, ◌^◌, ℕ, length, drop, true, false, Some, None, IfSome, MatchOption, option_map};
ghost use Rattle.std.specs.Str.{IsCharBoundary};
ghost use Rattle.cmark_grammar.specs.InlineHtml.{after_inline_html, after_markup};
ghost use Rattle.cmark_scan_bytes.specs.Guards.{may_pass};
ghost use Rattle.cmark_leaf_text.specs.Reads.{IsPart, text_of};
ghost use Rattle.cmark_inline.specs.MarkupInSource.{AreUnclosed, FindsNone, IsFound, IsInSource, source_from};
ghost use Rattle.cmark_inline.specs.Counted.{extent_of};
ghost use Rattle.cmark_inline.specs.Paid.{MarkupPaid};
ghost use Rattle.cmark_inline.specs.Sought.{CanBeSlot, IsMarkupSought, IsSizeIn, SearchesMarkup};
ghost use Rattle.cmark_inline.specs.TextOf.{IsTextOf};
ghost use Rattle.cmark_slots.specs.Slots.{IsContent, begins_link};
ghost use Rattle.cmark_inline.specs.Tokens.{opens_markup};
ghost use Rattle.cmark_slots.specs.declared.slot.SlotKind.TheVariants as slot_kind;
ghost use Rattle.cmark_leaf_text.specs.declared.leaf_text.LeafText.{LeafText as Leaf};

use crate::place::{is_followed_by, part_end};
use cmark_leaf_text::LeafText;
use cmark_scan_bytes::HtmlScanGuard;
use cmark_slots::slot::SlotKind;
use cmark_span_scan::{inline_html, inline_markup};

/// The memory of the searches for markup in a leaf. Its offsets are counted in the source, from the leaf's first byte on.
#[derive(Clone, Copy)]
pub struct Unclosed {
    /// The marks of the kinds that are not closed.
    guard: HtmlScanGuard,
    /// The number of bytes of the source that were passed.
    pub passed: u128,
}

/// Inline HTML that was found.
#[derive(Clone, Copy)]
pub struct FoundHtml {
    /// The kind of its slot.
    pub kind: SlotKind,
    /// The offset after it: that of the first byte of the leaf's text that does not belong to it.
    pub end: usize,
}

impl Unclosed {
    /// The memory before the first search.
    pub fn none() -> Unclosed
        ensures kept { (leaf : Leaf) (at : ℕ) → AreUnclosed leaf at result }
        ensures paid { (leaf : Leaf) → length (text_of leaf) ≤ extent_of leaf
            → MarkupPaid leaf 0 result }
    {
        Unclosed {
            guard: HtmlScanGuard::default(),
            passed: 0,
        }
    }

    /// The inline HTML whose `<` is at the offset `at`; `None` if there is none. Tags are read in the text of the leaf. Markup is read in
    /// the source, up to the end of the leaf's last line, and includes the prefixes of later lines. A search that found no end is not
    /// repeated.
    pub fn inline_html(&mut self, leaf: &LeafText<'_>, text: &str, at: usize) -> Option<FoundHtml>
        requires text { IsTextOf leaf.now text.now }
        requires part { IsPart text.now at (at + 1) }
        requires sought { IsMarkupSought leaf.now at self.old }
        ensures is { IfSome result (IsFound leaf.now at) }
        ensures none { result ≡ None → FindsNone leaf.now at }
        ensures fits { IfSome result (CanBeSlot leaf.now text.now at) }
        ensures kept { AreUnclosed leaf.now at self.new }
        ensures paid { MatchOption result (MarkupPaid leaf.now (at + 1) self.new)
            (λ found. MarkupPaid leaf.now found.end self.new) }
        ensures searches { SearchesMarkup leaf.now text.now at self.old self.new }
    {
        if !opens_in_source(text, at) {
            return tag(text, at);
        }
        self.in_source(leaf, text, at)
    }

    // The markup whose `<` is at `at`, as the source reads from there on; `None` if there is none.
    fn in_source(&mut self, leaf: &LeafText<'_>, text: &str, at: usize) -> Option<FoundHtml>
        requires text { IsTextOf leaf.now text.now }
        requires part { IsPart text.now at (at + 1) }
        requires opens { opens_markup (drop (at + 1) text.now) ≡ true }
        requires sought { IsMarkupSought leaf.now at self.old }
        ensures is { IfSome result (IsInSource leaf.now at) }
        ensures none { result ≡ None → after_markup (source_from leaf.now at) ≡ None }
        ensures fits { IfSome result (CanBeSlot leaf.now text.now at) }
        ensures kept { AreUnclosed leaf.now at self.new }
        ensures paid { MatchOption result (MarkupPaid leaf.now (at + 1) self.new)
            (λ found. MarkupPaid leaf.now found.end self.new) }
        ensures searches { SearchesMarkup leaf.now text.now at self.old self.new }
    {
        let size = self.size_in_source(leaf, text, at)?;
        let source_end = leaf.place(at) + size;
        let end = part_end(text, at, leaf.first_from(source_end))?;
        Some(FoundHtml {
            kind: SlotKind::SourceHtml(source_end),
            end,
        })
    }

    // The number of bytes of the source in the markup whose `<` is at `at`; `None` if there is none.
    fn size_in_source(&mut self, leaf: &LeafText<'_>, text: &str, at: usize) -> Option<usize>
        requires text { IsTextOf leaf.now text.now }
        requires part { IsPart text.now at (at + 1) }
        requires kept { AreUnclosed leaf.now at self.old }
        requires room { self.old.passed < 2 ^ 127 }
        ensures value { option_map (λ size. drop size (source_from leaf.now at)) result
            ≡ after_markup (source_from leaf.now at) }
        ensures size { IfSome result (IsSizeIn (source_from leaf.now at)) }
        ensures kept { AreUnclosed leaf.now at self.new }
        ensures pays { MatchOption result
            (self.new.passed + may_pass (extent_of leaf.now) (extent_of leaf.now)
            self.new.guard ≤ self.old.passed + 7 + may_pass (extent_of leaf.now)
            (extent_of leaf.now) self.old.guard)
            (λ size. (self.new.passed ≤ self.old.passed + size)
            × (self.new.guard ≡ self.old.guard)) }
        ensures least { IfSome result (λ size. self.new.passed + 2 ≡ self.old.passed + size) }
        ensures grows { self.old.passed ≤ self.new.passed }
    {
        let source = leaf.source_between(0, text.len());
        let ahead = leaf.place(at) - leaf.place(0);
        let found = inline_markup(source, ahead, &mut self.guard);
        self.passed += found.passed as u128;
        let end = found.end?;
        Some(end - ahead)
    }
}

// Whether the `<` at `at` opens markup.
fn opens_in_source(text: &str, at: usize) -> bool
    requires { at < length text.now }
    ensures { result ≡ opens_markup (drop (at + 1) text.now) }
{
    is_followed_by(text, at, b'!') || is_followed_by(text, at, b'?')
}

// The tag whose `<` is at `at`; `None` if there is none.
fn tag(text: &str, at: usize) -> Option<FoundHtml>
    requires { IsCharBoundary text.now at }
    ensures part { IfSome result (λ found. IsPart text.now at found.end) }
    ensures content { IfSome result (λ found. IsContent text.now found.end found.kind) }
    ensures kind { IfSome result (λ found. begins_link found.kind ≡ false) }
    ensures edge { IfSome result (λ found. (end : ℕ) → found.kind ≡ slot_kind.SourceHtml end → ⊥) }
    ensures is { IfSome result
        (λ found. (found.kind ≡ slot_kind.InlineHtml)
        × (after_inline_html (drop at text.now) ≡ Some (drop found.end text.now))) }
    ensures none { result ≡ None → after_inline_html (drop at text.now) ≡ None }
{
    let end = inline_html(text, at)?;
    Some(FoundHtml {
        kind: SlotKind::InlineHtml,
        end,
    })
}
