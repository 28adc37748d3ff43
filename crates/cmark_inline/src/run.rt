//! Delimiter runs (CommonMark 6.2).

ghost use Rattle.std.specs.Prelude.{◌≡◌, ◌⊎◌, true, ◌<◌, ◌≤◌, ◌+◌, ◌-◌, ◌++◌, ℕ, Bool, length, slice_index, IfOk, OnOk};
ghost use Rattle.cmark_grammar.specs.Flanking.{is_run_delimiter};
ghost use Rattle.cmark_grammar.specs.Answers.{Lookup};
ghost use Rattle.cmark_values.specs.Shown.{shown_options};
ghost use Rattle.cmark_leaf_text.specs.Reads.{IsPart};
ghost use Rattle.cmark_inline.specs.ReadsOn.{ReadsOn};
ghost use Rattle.cmark_inline.specs.Stands.{IsAtByte, Stands};
ghost use Rattle.cmark_slots.specs.Slots.{AreSlots, NoNewLink, byte_slots};
ghost use Rattle.cmark_inline.specs.Tokens.{AppendsRun, Passes, PassesOver, is_other};

use crate::place::{character_at, character_before, run_end};
use crate::state::InlineState;
use crate::step::Cursor;
use cmark_emphasis::{PlacedRun, flanking_of};
use cmark_slots::slot::{SlotKind, push_slot};
use cmark_text::Options;
use std::alloc::AllocError;

impl<'a> InlineState<'a> {
    // Reads a run of the byte `delimiter`. If it can open or close a span, each of its bytes gets a slot; otherwise it becomes pending
    // text.
    pub(crate) fn run(
        &mut self,
        text: &str,
        options: Options,
        delimiter: u8,
        here: Cursor,
    ) -> Result<Cursor, AllocError>
        requires byte { IsAtByte text.now here self.old }
        ensures reads_on { ReadsOn text.now here self.old self.new result }
        ensures token { (lookup : Lookup) (is_cell : Bool)
            → slice_index text.now here.at ≡ delimiter → is_run_delimiter delimiter ≡ true
            → IfOk result
            (λ next. Passes (shown_options options) lookup is_cell text.now here self.old self.new
            next
            ⊎ AppendsRun (shown_options options) lookup is_cell text.now here self.old self.new
            next) }
        ensures others { (lookup : Lookup) (is_cell : Bool)
            → slice_index text.now here.at ≡ delimiter → is_other delimiter ≡ true
            → IfOk result
            (PassesOver (shown_options options) lookup is_cell text.now here self.old self.new) }
    {
        let end = run_end(text, here.at);
        let before = character_before(text, here.at);
        let after = character_at(text, end);
        let run_length = end - here.at;
        let flanking = flanking_of(options, delimiter, run_length, before, after);
        if !flanking.opens && !flanking.closes {
            return Ok(Cursor {
                pending: here.pending,
                at: end,
            });
        }
        self.flush(text, here, here.at)?;
        let first = self.slots.len();
        self.push_bytes(text, here.at, end)?;
        self.delimiters.push(PlacedRun {
            slot: first,
            run_length,
            delimiter,
            opens: flanking.opens,
            closes: flanking.closes,
        })?;
        Ok(Cursor {
            pending: end,
            at: end,
        })
    }

    // Appends a text for each ASCII byte from `start` to `end`.
    fn push_bytes(&mut self, text: &str, start: usize, end: usize) -> Result<(), AllocError>
        requires stands { Stands text.now start self.old }
        requires part { IsPart text.now start end }
        requires ascii { (k : ℕ) → start ≤ k → k < end → slice_index text.now k < 128 }
        ensures bytes { OnOk result
            (self.new.slots.items ≡ self.old.slots.items ++ byte_slots start (end - start)) }
        ensures others { self.new ≡ record self.old { slots = self.new.slots } }
        ensures slots { OnOk result (AreSlots text.now end self.new.slots.items) }
        ensures links { OnOk result (NoNewLink self.old.slots.items self.new.slots.items) }
        ensures length { OnOk result
            (length self.new.slots.items ≡ length self.old.slots.items + (end - start)) }
    {
        let mut at = start;
        while at < end {
            push_slot(&mut self.slots, SlotKind::Text, at, at + 1)?;
            at += 1;
        }
        Ok(())
    }
}
