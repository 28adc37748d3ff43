//! Typographic punctuation: dots, hyphens and quotes (this profile's own).

ghost use Rattle.std.specs.Prelude.{◌≡◌, ◌⊎◌, true, ◌≤◌, ◌+◌, ◌*◌, ◌++◌, string_bytes, Bool, slice_index, IfOk, OnOk};
ghost use Rattle.cmark_grammar.specs.Characters.{apostrophe, hyphen, period, quotation_mark};
ghost use Rattle.cmark_grammar.specs.Answers.{Lookup};
ghost use Rattle.cmark_grammar.specs.Dashes as grammar;
ghost use Rattle.cmark_grammar.specs.Options.{Options};
ghost use Rattle.cmark_inline.specs.ReadsOn.{ReadsOn};
ghost use Rattle.cmark_inline.specs.Stands.{IsAtByte, Moves};
ghost use Rattle.cmark_inline.specs.Tokens.{Appends, AppendsQuote, Passes};

use crate::place::{character_at, character_before, following, pass, run_end};
use crate::state::InlineState;
use crate::step::Cursor;
use cmark_emphasis::quote_of;
use cmark_slots::slot::{Slot, SlotKind};
use cmark_text::CowStr;
use std::alloc::{AllocError, Global};

impl<'a> InlineState<'a> {
    // Reads a dot: three dots are an ellipsis, and any other dot is text.
    pub(crate) fn dots(&mut self, text: &str, here: Cursor) -> Result<Cursor, AllocError>
        requires byte { IsAtByte text.now here self.old }
        ensures reads_on { ReadsOn text.now here self.old self.new result }
        ensures token { (options : Options) (lookup : Lookup) (is_cell : Bool)
            → options.smart_punctuation ≡ true → slice_index text.now here.at ≡ period
            → IfOk result
            (λ next. Passes options lookup is_cell text.now here self.old self.new next
            ⊎ Appends options lookup is_cell text.now here self.old self.new next) }
    {
        if !text[here.at..].starts_with("...") {
            return Ok(pass(text, here));
        }
        let slot = Slot {
            kind: SlotKind::Character('\u{2026}'),
            start: here.at,
            end: here.at + 3,
        };
        self.put(text, here, here.at, slot)
    }

    // Reads a run of hyphens: two or more are dashes, and a single hyphen is text.
    pub(crate) fn hyphens(&mut self, text: &str, here: Cursor) -> Result<Cursor, AllocError>
        requires byte { IsAtByte text.now here self.old }
        ensures reads_on { ReadsOn text.now here self.old self.new result }
        ensures token { (options : Options) (lookup : Lookup) (is_cell : Bool)
            → options.smart_punctuation ≡ true → slice_index text.now here.at ≡ hyphen
            → IfOk result
            (λ next. Passes options lookup is_cell text.now here self.old self.new next
            ⊎ Appends options lookup is_cell text.now here self.old self.new next) }
    {
        let end = run_end(text, here.at);
        let size = end - here.at;
        if size < 2 {
            return Ok(pass(text, here));
        }
        let slot = Slot {
            kind: SlotKind::OwnedText(self.texts.len()),
            start: here.at,
            end,
        };
        let owned = CowStr::from_string(dash_text(self.alloc, size)?)?;
        self.texts.push(owned)?;
        self.put(text, here, here.at, slot)
    }

    // Reads a quote. Its character depends on the quotes among its siblings, so it is chosen once they are all read.
    #[tactic(auto, using(std::proofs::lemmas::Str::lead_after_ascii))]
    pub(crate) fn quote(&mut self, text: &str, here: Cursor) -> Result<Cursor, AllocError>
        requires byte { IsAtByte text.now here self.old }
        ensures expansion_left { self.new.expansion_left ≡ self.old.expansion_left }
        ensures steps { self.new.steps ≡ self.old.steps }
        ensures moves { IfOk result (Moves text.now here.at self.new) }
        ensures token { (options : Options) (lookup : Lookup) (is_cell : Bool)
            → options.smart_punctuation ≡ true
            → (slice_index text.now here.at ≡ quotation_mark)
            ⊎ (slice_index text.now here.at ≡ apostrophe)
            → IfOk result (AppendsQuote options lookup is_cell text.now here self.old self.new) }
    {
        let end = following(text, here.at);
        let before = character_before(text, here.at);
        let after = character_at(text, end);
        let quote = quote_of(text.as_bytes()[here.at] == b'"', before, after);
        self.flush(text, here, here.at)?;
        self.quotes.push(self.slots.len(), quote)?;
        let slot = Slot {
            kind: SlotKind::Text,
            start: here.at,
            end,
        };
        self.add(text, end, slot)?;
        Ok(Cursor {
            pending: end,
            at: end,
        })
    }
}

/// The numbers of em dashes and of en dashes. The em dashes come first.
#[derive(Clone, Copy)]
struct Dashes {
    em: usize,
    en: usize,
}

/// The dashes for a run of `size` hyphens.
fn dashes_of(size: usize) -> Dashes
    requires { 2 ≤ size }
    ensures value { record { em = result.em; en = result.en } ≡ grammar.dashes_of size }
    ensures whole { 3 * result.em + 2 * result.en ≡ size }
{
    if size % 3 == 0 {
        return Dashes {
            em: size / 3,
            en: 0,
        };
    }
    if size % 2 == 0 {
        return Dashes {
            em: 0,
            en: size / 2,
        };
    }
    if size % 3 == 2 {
        return Dashes {
            em: (size - 2) / 3,
            en: 1,
        };
    }
    Dashes {
        em: (size - 4) / 3,
        en: 2,
    }
}

/// The text of the dashes for a run of `size` hyphens. Fails only if memory is refused.
fn dash_text(alloc: Global, size: usize) -> Result<String, AllocError>
    requires { 2 ≤ size }
    ensures { IfOk result (λ text. string_bytes text ≡ grammar.dash_text (grammar.dashes_of size)) }
{
    let counts = dashes_of(size);
    let mut out = String::new(alloc);
    push_times(&mut out, '\u{2014}', counts.em)?;
    push_times(&mut out, '\u{2013}', counts.en)?;
    Ok(out)
}

/// Appends `character` to `out`, `times` times.
fn push_times(out: &mut String, character: char, times: usize) -> Result<(), AllocError>
    ensures { OnOk result
        (string_bytes out.new ≡ string_bytes out.old ++ grammar.repeated character times) }
{
    let mut left = times;
    while left > 0 {
        out.push(character)?;
        left -= 1;
    }
    Ok(())
}
