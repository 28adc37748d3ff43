//! One pass over a leaf's text, from special byte to special byte.

ghost use Rattle.std.specs.Prelude.{◌≡◌, ◌==◌, true, false, ◌<◌, ◌≤◌, ◌+◌, ◌*◌, ◌++◌, ◌∷◌, [], length, take, slice_index, Err, IfOk, IsOk, OnErr, OnOk};
ghost use Rattle.std.specs.Str.{IsCharBoundary};
ghost use Rattle.cmark_grammar.specs.Characters.{right_bracket};
ghost use Rattle.cmark_leaf_text.specs.Reads.{IsRead, source_of, text_of};
ghost use Rattle.cmark_inline.specs.LeafPass.{CanReadOn, Fails, FindsToken, IsLaidOut, PassesTo, ReadsWholly, StaysBetween, StaysWithin};
ghost use Rattle.cmark_inline.specs.Readings.{reading_of};
ghost use Rattle.cmark_inline.specs.ReadsLeafOn.{ReadsLeafOn};
ghost use Rattle.cmark_inline.specs.Sought.{AreOfText, IsSoughtIn};
ghost use Rattle.cmark_inline.specs.TextOf.{IsTextOf};
ghost use Rattle.cmark_inline.specs.Counted.{Counts, total};
ghost use Rattle.cmark_inline.specs.CursorProgress.{ComesOn, StopsOn};
ghost use Rattle.cmark_inline.specs.PlainStretches.{IsSetOf};
ghost use Rattle.cmark_inline.specs.Resolved.{Stops};
ghost use Rattle.cmark_inline.specs.Stands.{ComesNext, IsAtByte, IsPendingUpTo, Moves, Stands};
ghost use Rattle.cmark_slots.specs.Slots.{IsSlot, PushesText, begins_link};
ghost use Rattle.cmark_inline.specs.LeastSteps.{PassesAt, VisitsAt};
ghost use Rattle.cmark_inline.specs.MarkupInSource.{AreUnclosed};
ghost use Rattle.cmark_inline.specs.Paid.{ArePaid, HasRoom};
ghost use Rattle.cmark_inline.specs.SpecialReads.{ReadsSpecial};
ghost use Rattle.cmark_inline.specs.Tokens.{Puts, read_on};
ghost use Rattle.cmark_inline_model.specs.SpecialBytes.{is_special};
ghost use Rattle.cmark_values.specs.Shown.{shown_options};

use crate::callback::BrokenLinkCallback;
use crate::markup::Unclosed;
use crate::place::{following, onto_words};
use crate::read::Reader;
use crate::state::InlineState;
use cmark_leaf_text::LeafText;
use cmark_references::FootnoteDefs;
use cmark_slots::slot::{Slot, push_slot, push_text};
use cmark_span_scan::{BacktickRuns, Dollars};
use cmark_text::EntityLookup;
use std::alloc::AllocError;

/// How far a text was read, in byte offsets of the text.
#[derive(Clone, Copy)]
pub struct Cursor {
    /// The start of the pending text, which has no slot yet.
    pub pending: usize,
    /// The offset up to which the text was read.
    pub at: usize,
}

/// The memory of the searches in one leaf: its runs of backticks, its dollar signs, and the kinds of markup whose end was not found.
#[derive(Drop)]
pub struct Sought {
    pub runs: BacktickRuns,
    pub dollars: Dollars,
    pub unclosed: Unclosed,
}

impl<'a> InlineState<'a> {
    /// Reads the text of `leaf`. Afterwards `slots` holds its slots, and `texts` and `links` the texts and links that they name. Each
    /// footnote reference that is formed adds one to the use count of its footnote in `footnotes`. No other count changes.
    ///
    /// Fails only if memory is refused. The references that were formed before stay counted then. `callback` was asked the first questions
    /// of a reading of the leaf, and no others. Nothing is promised of the slots, and each later call fails too. A leaf without a byte,
    /// such as an empty cell, takes no memory.
    #[inline(always)]
    pub fn resolve<E: EntityLookup, F: BrokenLinkCallback<'a>>(
        &mut self,
        leaf: &LeafText<'a>,
        reader: &Reader<'_, 'a, E>,
        footnotes: &mut FootnoteDefs,
        callback: &mut F,
    ) -> Result<(), AllocError>
        requires read { IsRead leaf.now }
        requires counted { total self.old.steps ≤ 128 * length (source_of leaf.now) }
        requires ready { F.ready callback.old }
        ensures reads { IsSetOf (shown_options reader.now.options) reader.now.special.now
            → OnOk result
            (reading_of E.replacement reader.now (ReadsWholly F.answers) footnotes.old footnotes.new
            leaf.now self.old self.new callback.old callback.new) }
        ensures laid_out { OnOk result (IsLaidOut leaf.now self.new) }
        ensures within { StaysWithin F.ready F.answers leaf.now self.old.expansion_left
            footnotes.old footnotes.new callback.old callback.new }
        ensures counts { Counts leaf.now self.old.steps self.new.steps }
        ensures fails { Fails result (text_of leaf.now) self.old self.new footnotes.old
            footnotes.new callback.old callback.new }
        ensures stops { IsSetOf (shown_options reader.now.options) reader.now.special.now
            → OnErr result
            (reading_of E.replacement reader.now (Stops F.answers) footnotes.old leaf.now
            self.old.expansion_left callback.old callback.new) }
    {
        if self.failed {
            return Err(AllocError);
        }
        let done = self.read_leaf(leaf, reader, footnotes, callback);
        self.failed = done.is_err();
        done
    }

    // Reads the text of `leaf` as `resolve` does, even after memory was refused.
    #[inline(always)]
    fn read_leaf<E: EntityLookup, F: BrokenLinkCallback<'a>>(
        &mut self,
        leaf: &LeafText<'a>,
        reader: &Reader<'_, 'a, E>,
        footnotes: &mut FootnoteDefs,
        callback: &mut F,
    ) -> Result<(), AllocError>
        requires read { IsRead leaf.now }
        requires room { HasRoom self.old.steps }
        requires ready { F.ready callback.old }
        ensures reads { IsSetOf (shown_options reader.now.options) reader.now.special.now
            → OnOk result
            (reading_of E.replacement reader.now (ReadsWholly F.answers) footnotes.old footnotes.new
            leaf.now self.old self.new callback.old callback.new) }
        ensures laid_out { OnOk result (IsLaidOut leaf.now self.new) }
        ensures within { StaysWithin F.ready F.answers leaf.now self.old.expansion_left
            footnotes.old footnotes.new callback.old callback.new }
        ensures counts { OnOk result (Counts leaf.now self.old.steps self.new.steps) }
        ensures refused { OnErr result (self.new.steps ≡ self.old.steps) }
        ensures succeeds { text_of leaf.now ≡ [] → IsOk result }
        ensures stops { IsSetOf (shown_options reader.now.options) reader.now.special.now
            → OnErr result
            (reading_of E.replacement reader.now (Stops F.answers) footnotes.old leaf.now
            self.old.expansion_left callback.old callback.new) }
    {
        self.clear();
        let text = leaf.as_str();
        let mut sought = Sought {
            runs: BacktickRuns::new(self.alloc),
            dollars: Dollars::new(self.alloc),
            unclosed: Unclosed::none(),
        };
        let ahead = leaf.ahead();
        let mut cursor = Cursor { pending: 0, at: 0 };
        while cursor.at < text.len() {
            cursor = self.step(
                leaf,
                reader,
                footnotes,
                callback,
                &mut sought,
                text,
                ahead,
                cursor,
            )?;
        }
        self.flush(text, cursor, text.len())?;
        self.quotes.resolve(0, &mut self.slots)?;
        self.delimiters.resolve(0, reader.options, &mut self.slots)?;
        self.steps.count(&sought, self.delimiters.examined);
        Ok(())
    }

    // Reads on to the next special byte, and the token that begins there. If no special byte is left, reads to the end, and the bytes up to
    // there stay pending. `ahead` begins with the text and may continue after it. The function is inlined into the one loop that calls it.
    #[inline(always)]
    fn step<E: EntityLookup, F: BrokenLinkCallback<'a>>(
        &mut self,
        leaf: &LeafText<'a>,
        reader: &Reader<'_, 'a, E>,
        footnotes: &mut FootnoteDefs,
        callback: &mut F,
        sought: &mut Sought,
        text: &str,
        ahead: &[u8],
        cursor: Cursor,
    ) -> Result<Cursor, AllocError>
        requires text { IsTextOf leaf.now text.now }
        requires ahead { take (length text.now) ahead.now ≡ text.now }
        requires here { CanReadOn text.now cursor self.old }
        requires sought { IsSoughtIn leaf.now text.now cursor.at sought.old }
        requires ready { F.ready callback.old }
        ensures come { IsSetOf (shown_options reader.now.options) reader.now.special.now
            → IfOk result
            (λ next. reading_of E.replacement reader.now (ComesOn F.answers) footnotes.old
            footnotes.new leaf.now sought.old sought.new cursor next self.old self.new callback.old
            callback.new) }
        ensures stops { IsSetOf (shown_options reader.now.options) reader.now.special.now
            → OnErr result
            (reading_of E.replacement reader.now (StopsOn F.answers) footnotes.old leaf.now
            sought.old cursor self.old callback.old callback.new) }
        ensures finds { IfOk result
            (FindsToken (shown_options reader.now.options) (E.replacement reader.now.entities.now)
            reader.now.special.now leaf.now text.now cursor self.old self.new) }
        ensures passes { IfOk result
            (PassesTo F.answers leaf.now text.now cursor.at footnotes.old footnotes.new sought.new
            self.old self.new callback.old callback.new) }
        ensures between { StaysBetween F.ready F.answers text.now cursor.at (length text.now)
            footnotes.old footnotes.new sought.new self.old self.new callback.old callback.new }
    {
        let bytes = text.as_bytes();
        let at = reader.special.next(bytes, ahead, cursor.at);
        if at >= bytes.len() {
            return Ok(Cursor {
                pending: cursor.pending,
                at: bytes.len(),
            });
        }
        let here = Cursor {
            pending: cursor.pending,
            at,
        };
        if bytes[at] == b']' {
            return self.close_bracket(leaf, reader, footnotes, callback, text, here);
        }
        self.span(leaf, reader, sought, text, here)
    }

    // Reads the token at the cursor, which begins with a special byte other than a closing bracket.
    fn span<E: EntityLookup>(
        &mut self,
        leaf: &LeafText<'a>,
        reader: &Reader<'_, 'a, E>,
        sought: &mut Sought,
        text: &str,
        here: Cursor,
    ) -> Result<Cursor, AllocError>
        requires byte { IsAtByte text.now here self.old }
        requires text { IsTextOf leaf.now text.now }
        requires sought { IsSoughtIn leaf.now text.now here.at sought.old }
        ensures token { is_special (shown_options reader.now.options) (slice_index text.now here.at)
            ≡ true → (slice_index text.now here.at == right_bracket) ≡ false
            → IfOk result
            (ReadsSpecial (shown_options reader.now.options) (E.replacement reader.now.entities.now)
            leaf.now here self.old self.new) }
        ensures reads_on { ReadsLeafOn leaf.now text.now here self.old self.new result }
        ensures of_text { AreOfText text.now sought.new }
        ensures kept { AreUnclosed leaf.now here.at sought.new.unclosed }
        ensures paid { IfOk result (λ next. ArePaid leaf.now next.at sought.new) }
        ensures visits { OnOk result (VisitsAt text.now here.at sought.old sought.new) }
        ensures passes { OnOk result
            (PassesAt (shown_options reader.now.options).email_autolinks leaf.now here.at
            sought.old.unclosed sought.new.unclosed) }
    {
        match text.as_bytes()[here.at] {
            b'\n' | b'\r' => self.line_ending(text, here),
            b'\\' => self.backslash(leaf.is_cell(), text, here),
            b'&' => self.entity(text, reader.entities, here),
            b'`' => self.backticks(&mut sought.runs, text, here),
            b'<' => self.less_than(&mut sought.unclosed, reader.options, leaf, text, here),
            b'!' => self.exclamation(reader.options, text, here),
            b'$' => self.dollar(&mut sought.dollars, text, here),
            b'[' => {
                let inside = following(text, here.at);
                self.open_bracket(reader.options, text, here, inside, false)
            }
            b'.' => self.dots(text, here),
            b'-' => self.hyphens(text, here),
            b'"' | b'\'' => self.quote(text, here),
            delimiter => self.run(text, reader.options, delimiter, here),
        }
    }

    // Appends a slot that ends at or before the offset `place`.
    pub(crate) fn add(&mut self, text: &str, place: usize, slot: Slot) -> Result<(), AllocError>
        requires stands { Stands text.now place self.old }
        requires slot { IsSlot text.now place slot }
        requires room { length self.old.slots.items < place }
        requires kind { begins_link slot.kind ≡ false }
        ensures expansion_left { self.new.expansion_left ≡ self.old.expansion_left }
        ensures table { self.new.links ≡ self.old.links }
        ensures stands { OnOk result (Stands text.now place self.new) }
        ensures length { OnOk result
            (length self.new.slots.items ≡ length self.old.slots.items + 1) }
        ensures slots { OnOk result (self.new.slots.items ≡ self.old.slots.items ++ (slot ∷ [])) }
        ensures others { self.new ≡ record self.old { slots = self.new.slots } }
    {
        push_slot(&mut self.slots, slot.kind, slot.start, slot.end)
    }

    // Appends the pending text up to the offset `text_end`, unless it is empty.
    pub(crate) fn flush(
        &mut self,
        text: &str,
        here: Cursor,
        text_end: usize,
    ) -> Result<(), AllocError>
        requires stands { Stands text.now here.pending self.old }
        requires starts { IsCharBoundary text.now here.pending }
        requires stops { IsCharBoundary text.now text_end }
        requires ordered { here.pending ≤ text_end }
        ensures table { self.new.links ≡ self.old.links }
        ensures expansion_left { self.new.expansion_left ≡ self.old.expansion_left }
        ensures stands { OnOk result (Stands text.now text_end self.new) }
        ensures slots { OnOk result
            (PushesText here.pending text_end self.old.slots.items self.new.slots.items) }
        ensures succeeds { text_end ≤ here.pending → IsOk result }
        ensures others { self.new ≡ record self.old { slots = self.new.slots } }
    {
        push_text(&mut self.slots, here.pending, text_end)
    }

    // Appends the pending text up to the offset `text_end`, unless it is empty, and then `slot`. Returns the cursor after the slot.
    #[inline(always)]
    pub(crate) fn put(
        &mut self,
        text: &str,
        here: Cursor,
        text_end: usize,
        slot: Slot,
    ) -> Result<Cursor, AllocError>
        requires stands { Stands text.now here.pending self.old }
        requires pending { IsPendingUpTo text.now here.pending text_end }
        requires next { ComesNext text.now here.at text_end slot }
        ensures slots { OnOk result
            (Puts here.pending text_end slot self.old.slots.items self.new.slots.items) }
        ensures length { IfOk result (λ next. length self.new.slots.items ≤ text_end + 1) }
        ensures moves { IfOk result (Moves text.now here.at self.new) }
        ensures end { IfOk result (λ next. next.pending ≡ slot.end) }
        ensures at { IfOk result (λ next. next.at ≡ slot.end) }
        ensures others { self.new ≡ record self.old { slots = self.new.slots } }
    {
        self.flush(text, here, text_end)?;
        self.add(text, slot.end, slot)?;
        Ok(Cursor {
            pending: slot.end,
            at: slot.end,
        })
    }

    // Like `put`. If a line begins after the slot, the returned cursor is after the blanks of that line.
    #[inline(always)]
    pub(crate) fn put_onto_words(
        &mut self,
        text: &str,
        here: Cursor,
        text_end: usize,
        slot: Slot,
    ) -> Result<Cursor, AllocError>
        requires stands { Stands text.now here.pending self.old }
        requires pending { IsPendingUpTo text.now here.pending text_end }
        requires next { ComesNext text.now here.at text_end slot }
        ensures slots { OnOk result
            (Puts here.pending text_end slot self.old.slots.items self.new.slots.items) }
        ensures moves { IfOk result (Moves text.now here.at self.new) }
        ensures order { IfOk result (λ next. slot.end ≤ next.at) }
        ensures at { IfOk result
            (λ next. (next.pending ≡ next.at) × (next.at ≡ read_on text.now slot.end)) }
        ensures others { self.new ≡ record self.old { slots = self.new.slots } }
    {
        let next = self.put(text, here, text_end, slot)?;
        Ok(onto_words(text, next))
    }
}
