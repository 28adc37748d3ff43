//! Opening brackets (CommonMark 6.3 and 6.4).

ghost use Rattle.std.specs.Prelude.{◌≡◌, true, OnOk, ◌⊎◌, Bool, slice_index, IfOk, ◌+◌};
ghost use Rattle.cmark_slots.specs.Doubled.{doubles};
ghost use Rattle.cmark_values.specs.Shown.{shown_options};
ghost use Rattle.cmark_inline.specs.ReadsOn.{ReadsOn};
ghost use Rattle.cmark_inline.specs.Stands.{IsAtByte, IsCursor, Stands};
ghost use Rattle.cmark_grammar.specs.Characters.{exclamation_mark};
ghost use Rattle.cmark_grammar.specs.Answers.{Lookup};
ghost use Rattle.cmark_inline.specs.SpecialReads.{OpensBracket};
ghost use Rattle.cmark_inline.specs.Tokens.{Passes, PutsBracket};
ghost use Rattle.std.specs.Str.{IsCharBoundary};
ghost use Rattle.cmark_leaf_text.specs.Reads.{IsPart};
ghost use Rattle.cmark_inline.specs.Closers.{OpensAs};

use crate::place::{following, is_followed_by, pass};
use crate::state::InlineState;
use crate::step::Cursor;
use cmark_slots::bracket::Bracket;
use cmark_slots::slot::{SlotKind, push_slot};
use cmark_text::Options;
use std::alloc::AllocError;

impl<'a> InlineState<'a> {
    // Reads `!`: with a bracket after it, it opens an image; otherwise it is text.
    #[tactic(auto, using(std::proofs::lemmas::Str::lead_after_ascii))]
    pub(crate) fn exclamation(
        &mut self,
        options: Options,
        text: &str,
        here: Cursor,
    ) -> Result<Cursor, AllocError>
        requires byte { IsAtByte text.now here self.old }
        ensures reads_on { ReadsOn text.now here self.old self.new result }
        ensures token { (lookup : Lookup) (is_cell : Bool)
            → slice_index text.now here.at ≡ exclamation_mark
            → IfOk result
            (λ next. Passes (shown_options options) lookup is_cell text.now here self.old self.new
            next
            ⊎ OpensBracket (shown_options options) lookup is_cell text.now here self.old self.new
            next) }
    {
        if is_followed_by(text, here.at, b'[') {
            let inside = following(text, following(text, here.at));
            return self.open_bracket(options, text, here, inside, true);
        }
        Ok(pass(text, here))
    }

    // Appends an opening bracket, which ends at the offset `inside` and may open a link or an image. If wikilinks are read, two brackets that
    // touch may also open a wikilink.
    #[inline(always)]
    pub(crate) fn open_bracket(
        &mut self,
        options: Options,
        text: &str,
        here: Cursor,
        inside: usize,
        is_image: bool,
    ) -> Result<Cursor, AllocError>
        requires stands { Stands text.now here.pending self.old }
        requires cursor { IsCursor text.now here }
        requires part { IsPart text.now here.at inside }
        requires mark { is_image ≡ true → IsCharBoundary text.now (here.at + 1) }
        ensures reads_on { ReadsOn text.now here self.old self.new result }
        ensures at { IfOk result (λ next. (next.pending ≡ inside) × (next.at ≡ inside)) }
        ensures doubles { OnOk result
            (self.new.doubled.standing.items
            ≡ doubles (shown_options options) self.old.brackets is_image here.at inside
            self.old.doubled.standing.items) }
        ensures puts { OnOk result
            (PutsBracket is_image here.pending here.at inside self.old self.new) }
        ensures opens { OnOk result
            (OpensAs (shown_options options).wikilinks is_image text.now here.at inside self.old
            self.new) }
    {
        self.flush(text, here, here.at)?;
        let bracket = Bracket {
            slot: self.slots.len(),
            runs: self.delimiters.len(),
            quotes: self.quotes.len(),
            start: here.at,
            inside,
            is_image,
        };
        push_slot(&mut self.slots, SlotKind::Text, here.at, inside)?;
        self.doubled.double(&self.brackets, options, bracket)?;
        self.brackets.push(bracket)?;
        Ok(Cursor {
            pending: inside,
            at: inside,
        })
    }
}
