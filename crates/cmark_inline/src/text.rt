//! Line breaks, escapes and entities (CommonMark 2.4, 2.5, 6.7 and 6.8).

ghost use Rattle.std.specs.Prelude.{◌≡◌, ◌⊎◌, if◌then◌else◌, Bool, slice_index, IfOk};
ghost use Rattle.cmark_grammar.specs.Characters.{ampersand, backslash, carriage_return, line_feed};
ghost use Rattle.cmark_grammar.specs.Answers.{Lookup};
ghost use Rattle.cmark_grammar.specs.LineBreaks.{ends_with_two_spaces};
ghost use Rattle.cmark_grammar.specs.Options.{Options};
ghost use Rattle.cmark_inline.specs.ReadsOn.{ReadsOn};
ghost use Rattle.cmark_inline.specs.Stands.{IsAtByte};
ghost use Rattle.cmark_inline.specs.Tokens.{Appends, Escapes, EscapesPipe, Passes};
ghost use Rattle.cmark_slots.specs.declared.slot.SlotKind.TheVariants as slot_kind;

use crate::place::{
    before_blanks, following, following_end, is_escape, is_lone_backtick, is_pipe_escape, pass,
};
use crate::state::InlineState;
use crate::step::Cursor;
use cmark_link_scan::line_break;
use cmark_scan_bytes::scan_entity;
use cmark_slots::slot::{Slot, SlotKind};
use cmark_text::EntityLookup;
use std::alloc::AllocError;

impl<'a> InlineState<'a> {
    // Reads a line ending: a hard break if two spaces are directly before it, otherwise a soft break (CommonMark 6.7 and 6.8). The blanks
    // before the next line are skipped.
    pub(crate) fn line_ending(&mut self, text: &str, here: Cursor) -> Result<Cursor, AllocError>
        requires byte { IsAtByte text.now here self.old }
        ensures reads_on { ReadsOn text.now here self.old self.new result }
        ensures token { (options : Options) (lookup : Lookup) (is_cell : Bool)
            → (slice_index text.now here.at ≡ line_feed)
            ⊎ (slice_index text.now here.at ≡ carriage_return)
            → IfOk result (Appends options lookup is_cell text.now here self.old self.new) }
    {
        let text_end = before_blanks(text, here);
        let Some(found) = line_break(text, here.at) else {
            return Ok(pass(text, here));
        };
        let is_hard = ends_with_two_spaces(&text.as_bytes()[text_end..here.at]);
        let slot = break_slot(is_hard, text_end, here.at, found.end);
        self.put_onto_words(text, here, text_end, slot)
    }

    // Reads a backslash: it is a hard break before a line ending (CommonMark 6.7), begins an escape (CommonMark 2.4), or is text. In a
    // table's cell, two backslashes before a pipe are dropped, and the pipe is text (this profile's own).
    #[tactic(auto, using(std::proofs::lemmas::Str::lead_after_ascii))]
    pub(crate) fn backslash(
        &mut self,
        is_cell: bool,
        text: &str,
        here: Cursor,
    ) -> Result<Cursor, AllocError>
        requires byte { IsAtByte text.now here self.old }
        ensures reads_on { ReadsOn text.now here self.old self.new result }
        ensures token { (options : Options) (lookup : Lookup)
            → slice_index text.now here.at ≡ backslash
            → IfOk result
            (λ next. Passes options lookup is_cell text.now here self.old self.new next
            ⊎
            (Appends options lookup is_cell text.now here self.old self.new next
            ⊎
            (Escapes options lookup is_cell text.now here self.old self.new next
            ⊎ EscapesPipe options lookup is_cell text.now here self.old self.new next))) }
    {
        if let Some(found) = line_break(text, here.at) {
            let slot = Slot {
                kind: SlotKind::HardBreak,
                start: here.at,
                end: found.end,
            };
            return self.put_onto_words(text, here, here.at, slot);
        }
        if !is_escape(text, here.at) {
            return Ok(pass(text, here));
        }
        let escaped = following(text, here.at);
        let end = following(text, escaped);
        if is_lone_backtick(text, escaped) {
            let slot = Slot {
                kind: SlotKind::Text,
                start: escaped,
                end,
            };
            return self.put(text, here, here.at, slot);
        }
        self.flush(text, here, here.at)?;
        if is_cell && is_pipe_escape(text, escaped) {
            return Ok(Cursor {
                pending: end,
                at: following(text, end),
            });
        }
        Ok(Cursor {
            pending: escaped,
            at: end,
        })
    }

    // Reads `&`: it begins an entity or a numeric character reference (CommonMark 2.5), or is text.
    pub(crate) fn entity<E: EntityLookup>(
        &mut self,
        text: &str,
        entities: &E,
        here: Cursor,
    ) -> Result<Cursor, AllocError>
        requires byte { IsAtByte text.now here self.old }
        ensures reads_on { ReadsOn text.now here self.old self.new result }
        ensures token { (options : Options) (is_cell : Bool)
            → slice_index text.now here.at ≡ ampersand
            → IfOk result
            (λ next. Passes options (E.replacement entities.now) is_cell text.now here self.old
            self.new next
            ⊎ Appends options (E.replacement entities.now) is_cell text.now here self.old self.new
            next) }
    {
        let Some(entity) = scan_entity(text[here.at..].as_bytes(), entities) else {
            return Ok(pass(text, here));
        };
        let Some(end) = following_end(text, here.at, entity.len) else {
            return Ok(pass(text, here));
        };
        let slot = Slot {
            kind: SlotKind::OwnedText(self.texts.len()),
            start: here.at,
            end,
        };
        let owned = entity.text.into_static(self.alloc)?;
        self.texts.push(owned)?;
        self.put(text, here, here.at, slot)
    }
}

/// Whether the bytes end with two spaces.
fn ends_with_two_spaces(bytes: &[u8]) -> bool
    ensures { result ≡ ends_with_two_spaces bytes.now }
{
    bytes.ends_with(b"  ")
}

/// The slot of a line break. The line ending begins at `at`, and the blanks before it at `text_end`. Only a hard break includes these
/// blanks.
fn break_slot(is_hard: bool, text_end: usize, at: usize, end: usize) -> Slot
    ensures { result
        ≡
        record { kind = if is_hard then slot_kind.HardBreak else slot_kind.SoftBreak; start = if is_hard then text_end else at; end = end } }
{
    if is_hard {
        Slot {
            kind: SlotKind::HardBreak,
            start: text_end,
            end,
        }
    } else {
        Slot {
            kind: SlotKind::SoftBreak,
            start: at,
            end,
        }
    }
}
