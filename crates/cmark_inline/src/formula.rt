//! Formulas between dollar signs (this profile's own).

ghost use Rattle.std.specs.Prelude.{◌≡◌, ◌<◌, ◌≤◌, true, false, if◌then◌else◌, Bool, slice_index, is_some, IfOk, OnOk};
ghost use Rattle.cmark_grammar.specs.Characters.{dollar_sign};
ghost use Rattle.cmark_grammar.specs.Answers.{Lookup};
ghost use Rattle.cmark_grammar.specs.Options.{Options};
ghost use Rattle.cmark_span_scan.specs.Dollars.{AreDollarsOf, formula_at};
ghost use Rattle.cmark_inline.specs.Paid.{DollarsPaid};
ghost use Rattle.cmark_inline.specs.ReadsOn.{ReadsOn};
ghost use Rattle.cmark_inline.specs.Stands.{IsAtByte};
ghost use Rattle.cmark_slots.specs.Slots.{begins_link};
ghost use Rattle.cmark_inline.specs.Tokens.{Appends};
ghost use Rattle.cmark_slots.specs.declared.slot.SlotKind.TheVariants as slot_kind;

use crate::place::following;
use crate::state::InlineState;
use crate::step::Cursor;
use cmark_slots::slot::{Slot, SlotKind};
use cmark_span_scan::{Dollars, Formula};
use std::alloc::AllocError;

impl<'a> InlineState<'a> {
    // Reads a dollar sign: it opens a formula, or is text. `dollars` are the dollar signs of this text.
    pub(crate) fn dollar(
        &mut self,
        dollars: &mut Dollars,
        text: &str,
        here: Cursor,
    ) -> Result<Cursor, AllocError>
        requires dollars { AreDollarsOf text.now dollars.old }
        requires paid { DollarsPaid text.now here.at dollars.old }
        requires byte { IsAtByte text.now here self.old }
        requires dollar { slice_index text.now here.at ≡ dollar_sign }
        ensures token { (options : Options) (lookup : Lookup) (is_cell : Bool) → options.math ≡ true
            → IfOk result (Appends options lookup is_cell text.now here self.old self.new) }
        ensures dollars { AreDollarsOf text.now dollars.new }
        ensures paid { IfOk result (λ next. DollarsPaid text.now next.at dollars.new) }
        ensures grows { dollars.old.visited ≤ dollars.new.visited }
        ensures least { OnOk result
            (is_some (formula_at text.now here.at) ≡ true
            → dollars.old.visited < dollars.new.visited) }
        ensures reads_on { ReadsOn text.now here self.old self.new result }
    {
        if let Some(formula) = dollars.formula(text, here.at)? {
            let slot = Slot {
                kind: kind_of(formula),
                start: here.at,
                end: formula.end,
            };
            return self.put(text, here, here.at, slot);
        }
        let slot = Slot {
            kind: SlotKind::Text,
            start: here.at,
            end: following(text, here.at),
        };
        self.put(text, here, here.at, slot)
    }
}

/// The kind of a formula's slot.
fn kind_of(formula: Formula) -> SlotKind
    ensures value { result
        ≡
        (if formula.is_display then slot_kind.DisplayMath formula.content_start
        else slot_kind.InlineMath formula.content_start) }
    ensures link { begins_link result ≡ false }
{
    if formula.is_display {
        SlotKind::DisplayMath(formula.content_start)
    } else {
        SlotKind::InlineMath(formula.content_start)
    }
}
