//! Closing brackets, and the links and images that they form (CommonMark 6.3 and 6.4).

ghost use Rattle.std.specs.Prelude.{◌≡◌, ◌<◌, IfOk, OnErr, OnOk, false, ◌+◌, ◌^◌, IfSome, None, Bool, ℕ, List, ◌++◌, ◌∷◌, [], drop};
ghost use Rattle.cmark_leaf_text.specs.Reads.{IsPart};
ghost use Rattle.cmark_values.specs.Shown.{shown_options};
ghost use Rattle.cmark_inline.specs.AtCloser.{AsksLeft, CanLink, DropsAfterBracket, EndsElement, ExaminesAfter, FormsElement, GoesOn, IsWithin, KeepsLimits, PassesCloser, StandsSound, UsesUpTo};
ghost use Rattle.cmark_inline.specs.TextOf.{IsTextOf};
ghost use Rattle.cmark_inline.specs.Closers.{AsksOfCloser, AsksOfLink, Closes, DeactivatesAfter, LinksTaken};
ghost use Rattle.cmark_slots.specs.Standing.{AreEnded, CanSettle, IsSettled};
ghost use Rattle.cmark_inline.specs.Readings.{reading_of};
ghost use Rattle.cmark_inline.specs.Sound.{IsSound, IsTakenFrom};
ghost use Rattle.cmark_inline.specs.Stands.{IsAtByte, Stands, IsTarget};
ghost use Rattle.cmark_slots.specs.Slots.{HoldNoLink, IsBracket};
ghost use Rattle.cmark_leaf_text.specs.declared.leaf_text.LeafText.{LeafText as LeafTexts};
ghost use Rattle.cmark_grammar.specs.BracketStates.{Opener};
ghost use Rattle.cmark_grammar.specs.OpenBrackets.{nearest, used_up};
ghost use Rattle.cmark_inline.specs.BracketViews.{StandFor, TakenAs};
ghost use Rattle.cmark_slots.specs.declared.bracket.Bracket.{Bracket as Opening};
ghost use Rattle.cmark_inline.specs.Decided.{AsksOfTarget, EndsWithin, TargetDecides};
ghost use Rattle.cmark_inline.specs.FormedSlots.{dressed_after, end_slot};
ghost use Rattle.cmark_grammar.specs.Spans.{Spans};
ghost use Rattle.cmark_values.specs.declared.text.CowStr.{CowStr as Texts};
ghost use Rattle.cmark_grammar.specs.Emphasis.{IsEmphasis, Pair};
ghost use Rattle.cmark_slots.specs.MarkedSlots.{siblings_from};
ghost use Rattle.cmark_slots.specs.SlotViews.{shown_slots};
ghost use Rattle.cmark_references.specs.declared.link.Link.{Link as Links};

use crate::callback::BrokenLinkCallback;
use crate::link::{Target, inline_target};
use crate::place::following;
use crate::read::Reader;
use crate::reference::link_reference_at;
use crate::state::InlineState;
use crate::step::Cursor;
use crate::wikilink::linked_element;
use cmark_leaf_text::LeafText;
use cmark_references::FootnoteDefs;
use cmark_slots::bracket::Bracket;
use cmark_slots::slot::{Slot, SlotKind, begin, push_slot};
use cmark_text::{EntityLookup, Options};
use std::alloc::AllocError;

impl<'a> InlineState<'a> {
    // Reads a closing bracket. It ends a wikilink, a footnote reference, or a link or an image, in this order of preference; otherwise it
    // is text. The nearest opening bracket is used up in each case.
    #[tactic(auto, using(std::proofs::lemmas::Str::lead_after_ascii))]
    pub(crate) fn close_bracket<E: EntityLookup, F: BrokenLinkCallback<'a>>(
        &mut self,
        leaf: &LeafText<'a>,
        reader: &Reader<'_, 'a, E>,
        footnotes: &mut FootnoteDefs,
        callback: &mut F,
        text: &str,
        here: Cursor,
    ) -> Result<Cursor, AllocError>
        requires byte { IsAtByte text.now here self.old }
        requires text { IsTextOf leaf.now text.now }
        requires sound { IsSound self.old }
        requires ready { F.ready callback.old }
        ensures closes { IfOk result
            (λ next. reading_of E.replacement reader.now (Closes F.answers) footnotes.old
            footnotes.new leaf.now text.now here.pending here.at self.old self.new next callback.old
            callback.new) }
        ensures stops { OnErr result
            (reading_of E.replacement reader.now (AsksOfCloser F.answers) footnotes.old leaf.now
            text.now here.at self.old callback.old callback.new) }
        ensures asks { AsksLeft F.ready F.answers self.old self.new callback.old callback.new }
        ensures uses { UsesUpTo 1 footnotes.old footnotes.new }
        ensures steps { self.new.steps ≡ self.old.steps }
        ensures passes { IfOk result
            (PassesCloser leaf.now text.now here.pending here.at self.old self.new) }
    {
        self.flush(text, here, here.at)?;
        let following_it = following(text, here.at);
        let taken = self.take_bracket(text, here.at);
        if let Some(next) = self.wikilink(leaf, reader.options, text, here.at)? {
            return Ok(next);
        }
        if let Some(next) = self.footnote(leaf, reader.options, footnotes, text, taken, here.at)? {
            return Ok(next);
        }
        if let Some(next) = self.link(leaf, reader, callback, text, taken, here.at)? {
            return Ok(next);
        }
        let slot = Slot {
            kind: SlotKind::Text,
            start: here.at,
            end: following_it,
        };
        let flushed = Cursor {
            pending: here.at,
            at: here.at,
        };
        self.put(text, flushed, here.at, slot)
    }

    // Forms the link or the image of the opening bracket `taken` and the closing bracket at `close`, and returns the cursor after it.
    // Returns `None` if no bracket was taken, or if the brackets form neither.
    fn link<E: EntityLookup, F: BrokenLinkCallback<'a>>(
        &mut self,
        leaf: &LeafText<'a>,
        reader: &Reader<'_, 'a, E>,
        callback: &mut F,
        text: &str,
        taken: Option<Bracket>,
        close: usize,
    ) -> Result<Option<Cursor>, AllocError>
        requires text { IsTextOf leaf.now text.now }
        requires at { StandsSound text.now close self.old }
        requires opening { IfSome taken (CanLink text.now close self.old) }
        requires close { IsPart text.now close (close + 1) }
        requires ready { F.ready callback.old }
        ensures links { IfOk result
            (λ next. reading_of E.replacement reader.now (LinksTaken F.answers) leaf.now text.now
            taken close self.old self.new next callback.old callback.new) }
        ensures stops { OnErr result
            (reading_of E.replacement reader.now (AsksOfLink F.answers) leaf.now text.now taken
            close self.old callback.old callback.new) }
        ensures asks { AsksLeft F.ready F.answers self.old self.new callback.old callback.new }
        ensures steps { self.new.steps ≡ self.old.steps }
        ensures goes_on { IfOk result (GoesOn text.now close self.old self.new) }
    {
        let Some(bracket) = taken else {
            return Ok(None);
        };
        let Some(target) = self.target(leaf, reader, callback, text, bracket, close)? else {
            return Ok(None);
        };
        let resume = target.resume;
        self.form(reader.options, text, bracket, close, target)?;
        Ok(Some(Cursor {
            pending: resume,
            at: resume,
        }))
    }

    // Uses up the nearest opening bracket. Returns it if it can form a link or an image.
    fn take_bracket(&mut self, text: &str, at: usize) -> Option<Bracket>
        requires stands { Stands text.now at self.old }
        requires sound { IsSound self.old }
        ensures sound { IsSound self.new }
        ensures stands { Stands text.now at self.new }
        ensures opening { IfSome result (CanLink text.now at self.new) }
        ensures others { self.new ≡ record self.old { brackets = self.new.brackets } }
        ensures takes { (wikilinks : Bool) (place : ℕ → ℕ) (openers : List Opener)
            (bs : List Opening)
            → StandFor wikilinks place at openers bs self.old.brackets self.old.doubled
            → StandFor wikilinks place at (used_up openers) bs self.new.brackets self.new.doubled
            × TakenAs place bs (nearest openers) result }
    {
        let (bracket, forms) = self.brackets.take()?;
        if forms { Some(bracket) } else { None }
    }

    // The target of the link or the image between `bracket` and the closing bracket at `close`. It is the target of an inline link, or else
    // of a reference. Returns `None` if there is neither. A reference has no target if nothing is left of the reference expansion limit.
    fn target<E: EntityLookup, F: BrokenLinkCallback<'a>>(
        &mut self,
        leaf: &LeafText<'a>,
        reader: &Reader<'_, 'a, E>,
        callback: &mut F,
        text: &str,
        bracket: Bracket,
        close: usize,
    ) -> Result<Option<Target<'a>>, AllocError>
        requires bracket { IsBracket text.now close bracket }
        requires close { IsPart text.now close (close + 1) }
        requires text { IsTextOf leaf.now text.now }
        requires ready { F.ready callback.old }
        ensures decides { IfOk result
            (λ found. reading_of E.replacement reader.now (TargetDecides F.answers) leaf.now
            text.now bracket close self.old self.new found callback.old callback.new) }
        ensures stops { OnErr result
            (reading_of E.replacement reader.now (AsksOfTarget F.answers) leaf.now text.now bracket
            close self.old callback.old callback.new) }
        ensures asks { AsksLeft F.ready F.answers self.old self.new callback.old callback.new }
        ensures others { self.new
            ≡ record self.old
            { expansion_left = self.new.expansion_left; label_close = self.new.label_close } }
        ensures target { IfOk result (λ found. IfSome found (IsTarget text.now close)) }
        ensures label { OnOk result
            (EndsWithin text.now self.old.label_close → EndsWithin text.now self.new.label_close) }
    {
        if let Some(target) = inline_target(self.alloc, leaf, text, close + 1, reader.entities)? {
            return Ok(Some(target));
        }
        let closes_label = self.closes_label(close);
        let Some(link_reference) = link_reference_at(
            reader.options,
            text,
            bracket,
            close,
            closes_label,
        ) else {
            return Ok(None);
        };
        self.remember_label(link_reference);
        if self.expansion_left == 0 {
            return Ok(None);
        }
        let found = self.reference(leaf, reader, callback, text, bracket.start, link_reference)?;
        Ok(found)
    }

    // Forms the link or the image of `bracket` with this target. After a link, no earlier bracket forms one (CommonMark 6.3).
    fn form(
        &mut self,
        options: Options,
        text: &str,
        bracket: Bracket,
        close: usize,
        target: Target<'a>,
    ) -> Result<(), AllocError>
        requires at { StandsSound text.now close self.old }
        requires close { IsPart text.now close (close + 1) }
        requires target { IsTarget text.now close target }
        requires free { bracket.is_image ≡ false → HoldNoLink self.old.slots.items bracket.slot }
        requires taken { IsTakenFrom self.old bracket }
        ensures forms { OnOk result
            (FormsElement (shown_options options) bracket target.entry self.old self.new) }
        ensures limits { KeepsLimits self.old self.new }
        ensures at { OnOk result (StandsSound text.now target.entry.resume self.new) }
        ensures ends { OnOk result
            ((leaf : LeafTexts) → AreEnded leaf self.old.slots.items
            → AreEnded leaf self.new.slots.items) }
    {
        let Target { link, end, .. } = target;
        let element = linked_element(bracket.is_image);
        let kind = SlotKind::BeginLink(element, self.links.len());
        self.links.push(link)?;
        self.doubled.drop_after(bracket.start);
        begin(&mut self.slots, bracket.slot, kind, end);
        self.finish(options, bracket, close, end)?;
        self.deactivate_after(bracket.is_image);
        Ok(())
    }

    // After a link, no bracket before it forms another link. An image changes nothing.
    fn deactivate_after(&mut self, is_image: bool)
        ensures brackets { DeactivatesAfter is_image self.old.brackets self.new.brackets }
        ensures doubled { DeactivatesAfter is_image self.old.doubled self.new.doubled }
        ensures others { self.new
            ≡ record self.old { brackets = self.new.brackets; doubled = self.new.doubled } }
    {
        if !is_image {
            self.brackets.deactivate_all();
            self.doubled.deactivate_all();
        }
    }

    // Ends the element of `bracket` by a slot from `close` to `end`, and resolves the quotes and the delimiter runs in it.
    pub(crate) fn finish(
        &mut self,
        options: Options,
        bracket: Bracket,
        close: usize,
        end: usize,
    ) -> Result<(), AllocError>
        requires within { IsWithin bracket self.old }
        requires settles { CanSettle (bracket.slot + 1) self.old.slots.items
            (drop bracket.runs self.old.delimiters.placed.items)
            (drop bracket.quotes self.old.quotes.placed.items) }
        requires room { self.old.delimiters.examined < 2 ^ 127 }
        ensures dressed { OnOk result
            ((leaf : LeafTexts) (texts : List Texts) (links : List Links) (pairs : List Pair)
            (spans : Spans)
            → IsEmphasis (siblings_from 0 (drop bracket.runs self.old.delimiters.placed.items))
            pairs spans
            → shown_slots leaf texts links self.new.slots.items
            ≡ dressed_after (shown_options options) bracket pairs self.old.delimiters.placed.items
            self.old.quotes.placed.items
            (shown_slots leaf texts links (self.old.slots.items ++ (end_slot close end ∷ [])))) }
        ensures settled { OnOk result
            (IsSettled (bracket.slot + 1) self.old.slots.items self.new.slots.items) }
        ensures others { self.new
            ≡ record self.old
            { slots = self.new.slots; delimiters = self.new.delimiters; quotes = self.new.quotes } }
        ensures examines { OnOk result (ExaminesAfter bracket self.old self.new) }
        ensures drops { OnOk result (DropsAfterBracket bracket self.old self.new) }
        ensures ends { OnOk result
            (EndsElement close end self.old.slots.items self.new.slots.items) }
    {
        push_slot(&mut self.slots, SlotKind::End, close, end)?;
        self.quotes.resolve(bracket.quotes, &mut self.slots)?;
        self.delimiters
            .resolve(bracket.runs, options, &mut self.slots)?;
        Ok(())
    }
}
