//! Code spans, autolinks and inline HTML (CommonMark 6.1, 6.5 and 6.6).

ghost use Rattle.std.specs.Prelude.{◌≡◌, ◌⊎◌, ◌+◌, ◌-◌, ◌++◌, ◌∷◌, ◌<◌, ◌≤◌, [], drop, length, slice_index, Bool, true, is_some, IfOk, OnOk};
ghost use Rattle.cmark_grammar.specs.Characters.{backtick, less_than_sign};
ghost use Rattle.cmark_grammar.specs.Answers.{Lookup};
ghost use Rattle.cmark_grammar.specs.CodeSpans.{code_in};
ghost use Rattle.cmark_grammar.specs.Options.{Options as OptionsRead};
ghost use Rattle.cmark_grammar.specs.Siblings.{address_type};
ghost use Rattle.cmark_values.specs.Shown.{shown_link_type, shown_options};
ghost use Rattle.cmark_span_scan.specs.Backticks.{AreRunsOf};
ghost use Rattle.cmark_leaf_text.specs.Reads.{IsPart};
ghost use Rattle.cmark_inline.specs.Linked.{IsAutolink};
ghost use Rattle.cmark_references.specs.declared.link.Link.{Link as Links};
ghost use Rattle.cmark_inline.specs.ReadsOn.{ReadsOn};
ghost use Rattle.cmark_inline.specs.Stands.{IsAtByte, IsCursor, Moves, Stands};
ghost use Rattle.cmark_inline.specs.Tokens.{Appends, PutsAutolink, TakesEscaped};
ghost use Rattle.cmark_inline.specs.LeastSteps.{PassesAt};
ghost use Rattle.cmark_inline.specs.MarkupInSource.{AreUnclosed, ReadsLess};
ghost use Rattle.cmark_inline.specs.Paid.{MarkupPaid, RunsPaid};
ghost use Rattle.cmark_inline.specs.ReadsLeafOn.{ReadsLeafOn};
ghost use Rattle.cmark_inline.specs.Sought.{IsMarkupSought};
ghost use Rattle.cmark_inline.specs.TextOf.{IsTextOf};

use crate::markup::Unclosed;
use crate::place::{autolink_end, following, is_followed_by, pass, run_end, text_start};
use crate::state::InlineState;
use crate::step::Cursor;
use cmark_leaf_text::LeafText;
use cmark_references::Link;
use cmark_scan_bytes::has_scheme;
use cmark_slots::slot::{LinkElement, Slot, SlotKind};
use cmark_slots::text::text_between;
use cmark_span_scan::BacktickRuns;
use cmark_text::{CowStr, LinkType, Options};
use std::alloc::AllocError;

// The type of an autolink with this address: a URI if the address begins with a scheme, and otherwise an email address.
fn address_type(address: &str) -> LinkType
    ensures { shown_link_type result ≡ address_type address.now }
{
    if has_scheme(address.as_bytes()) {
        LinkType::Autolink
    } else {
        LinkType::Email
    }
}

impl<'a> InlineState<'a> {
    // Reads a run of backticks: it opens a code span (CommonMark 6.1), or is text. `runs` are the runs of this text.
    pub(crate) fn backticks(
        &mut self,
        runs: &mut BacktickRuns,
        text: &str,
        here: Cursor,
    ) -> Result<Cursor, AllocError>
        requires runs { AreRunsOf text.now runs.old }
        requires paid { RunsPaid text.now here.at runs.old }
        requires byte { IsAtByte text.now here self.old }
        ensures runs { AreRunsOf text.now runs.new }
        ensures paid { IfOk result (λ next. RunsPaid text.now next.at runs.new) }
        ensures grows { runs.old.visited ≤ runs.new.visited }
        ensures least { OnOk result
            (is_some (code_in (drop here.at text.now)) ≡ true
            → runs.old.visited < runs.new.visited) }
        ensures reads_on { ReadsOn text.now here self.old self.new result }
        ensures token { (options : OptionsRead) (lookup : Lookup) (is_cell : Bool)
            → slice_index text.now here.at ≡ backtick
            → IfOk result
            (λ next. Appends options lookup is_cell text.now here self.old self.new next
            ⊎ TakesEscaped options lookup is_cell text.now here self.old self.new next) }
    {
        if let Some(span) = runs.code_span(text, here.at)? {
            let slot = Slot {
                kind: SlotKind::Code(span.content_start),
                start: here.at,
                end: span.end,
            };
            return self.put(text, here, here.at, slot);
        }
        let start = text_start(text, here);
        let slot = Slot {
            kind: SlotKind::Text,
            start,
            end: run_end(text, here.at),
        };
        self.put(text, here, start, slot)
    }

    // Reads `<`: it begins an autolink (CommonMark 6.5) or inline HTML (CommonMark 6.6), or is text. `unclosed` remembers the searches in
    // this leaf that found no end.
    #[tactic(auto, using(std::proofs::lemmas::Str::lead_after_ascii))]
    pub(crate) fn less_than(
        &mut self,
        unclosed: &mut Unclosed,
        options: Options,
        leaf: &LeafText<'a>,
        text: &str,
        here: Cursor,
    ) -> Result<Cursor, AllocError>
        requires byte { IsAtByte text.now here self.old }
        requires text { IsTextOf leaf.now text.now }
        requires sought { IsMarkupSought leaf.now here.at unclosed.old }
        ensures token { (lookup : Lookup) → slice_index text.now here.at ≡ less_than_sign
            → IfOk result
            (ReadsLess (shown_options options) lookup leaf.now here self.old self.new) }
        ensures reads_on { ReadsLeafOn leaf.now text.now here self.old self.new result }
        ensures kept { AreUnclosed leaf.now here.at unclosed.new }
        ensures paid { IfOk result (λ next. MarkupPaid leaf.now next.at unclosed.new) }
        ensures passes { OnOk result
            (PassesAt (shown_options options).email_autolinks leaf.now here.at unclosed.old
            unclosed.new) }
    {
        if is_followed_by(text, here.at, b'\\') {
            return Ok(pass(text, here));
        }
        if let Some(end) = autolink_end(options, text, here.at) {
            return self.autolink(leaf, text, here, end);
        }
        if let Some(found) = unclosed.inline_html(leaf, text, here.at) {
            let slot = Slot {
                kind: found.kind,
                start: here.at,
                end: found.end,
            };
            return self.put_onto_words(text, here, here.at, slot);
        }
        let slot = Slot {
            kind: SlotKind::Text,
            start: here.at,
            end: following(text, here.at),
        };
        self.put(text, here, here.at, slot)
    }

    // Appends an autolink from the cursor to the offset `end`. Its address is its text and its destination.
    fn autolink(
        &mut self,
        leaf: &LeafText<'a>,
        text: &str,
        here: Cursor,
        end: usize,
    ) -> Result<Cursor, AllocError>
        requires stands { Stands text.now here.pending self.old }
        requires cursor { IsCursor text.now here }
        requires whole { IsPart text.now here.at end }
        requires inside { IsPart text.now (here.at + 1) (end - 1) }
        requires text { IsTextOf leaf.now text.now }
        ensures slots { OnOk result
            (PutsAutolink (length self.old.links.items) here.pending here.at end
            self.old.slots.items self.new.slots.items) }
        ensures link { IfOk result
            (λ next. (parts : Links) × IsAutolink text.now here.at end parts
            × (self.new.links.items ≡ self.old.links.items ++ (parts ∷ []))) }
        ensures at { IfOk result (λ next. (next.pending ≡ end) × (next.at ≡ end)) }
        ensures others { self.new
            ≡ record self.old { slots = self.new.slots; links = self.new.links } }
        ensures moves { IfOk result (Moves text.now here.at self.new) }
    {
        let dest_url = text_between(self.alloc, leaf, here.at + 1, end - 1)?;
        let slot = Slot {
            kind: SlotKind::BeginLink(LinkElement::Autolink, self.links.len()),
            start: here.at,
            end,
        };
        self.links.push(Link {
            link_type: address_type(&text[here.at + 1..end - 1]),
            dest_url,
            title: CowStr::Borrowed(""),
            id: CowStr::Borrowed(""),
        })?;
        let next = self.put(text, here, here.at, slot)?;
        let address = Slot {
            kind: SlotKind::Text,
            start: here.at + 1,
            end: end - 1,
        };
        self.add(text, end, address)?;
        let last = Slot {
            kind: SlotKind::End,
            start: end - 1,
            end,
        };
        self.add(text, end, last)?;
        Ok(next)
    }
}
