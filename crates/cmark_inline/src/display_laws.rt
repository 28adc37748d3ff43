//! The theorem about the slots of a wikilink with a display text. It is the contract of a function that does nothing.

ghost use Rattle.std.specs.Prelude.{◌≡◌, ◌≤◌, ℕ, suc, List, ◌∷◌, Some, drop, length, take};
ghost use Rattle.cmark_grammar.specs.BracketDecisions.{decide};
ghost use Rattle.cmark_grammar.specs.BracketReading.{Comes};
ghost use Rattle.cmark_grammar.specs.BracketStates.{Forms, State};
ghost use Rattle.cmark_grammar.specs.Emphasis.{IsEmphasis, Pair};
ghost use Rattle.cmark_grammar.specs.InlineTokens.{token};
ghost use Rattle.cmark_grammar.specs.Items.{Bracket as Closer, Closes};
ghost use Rattle.cmark_grammar.specs.LeafReading.{Between};
ghost use Rattle.cmark_grammar.specs.LeafText.{InTurn, Leaf};
ghost use Rattle.cmark_grammar.specs.Parts.{Wiki};
ghost use Rattle.cmark_grammar.specs.Questions.{AnyAnswer};
ghost use Rattle.cmark_grammar.specs.Readers.{Reader};
ghost use Rattle.cmark_grammar.specs.Spans.{Spans};
ghost use Rattle.cmark_leaf_text.specs.declared.leaf_text.LeafText.{LeafText};
ghost use Rattle.cmark_inline_model.specs.BracketPass.{Pass, closed_by};
ghost use Rattle.cmark_inline_model.specs.CutRanges.{IsAfterPipe};
ghost use Rattle.cmark_inline_model.specs.Displays.{IsCutThere, ShowsLike, display_target};
ghost use Rattle.cmark_inline_model.specs.LeafModel.{HaveLineEnds};
ghost use Rattle.cmark_inline_model.specs.LikeSlots.{AreLike};
ghost use Rattle.cmark_inline_model.specs.RowPasses.{linked_slots};
ghost use Rattle.cmark_inline_model.specs.SlotRows.{Slot as RowSlot};
ghost use Rattle.cmark_inline.specs.Hiding.{AreLeft};
ghost use Rattle.cmark_slots.specs.MarkedSlots.{siblings_from};
ghost use Rattle.cmark_inline.specs.Reached.{HasRead, bracket_place};
ghost use Rattle.cmark_slots.specs.SlotViews.{shown_slots};
ghost use Rattle.cmark_slots.specs.Standing.{HaveSizes};
ghost use Rattle.cmark_inline.specs.FormedSlots.{dressed_after};
ghost use Rattle.cmark_slots.specs.declared.bracket.Bracket.{Bracket};
ghost use Rattle.cmark_inline.specs.declared.state.InlineState.{InlineState};

/// If the grammar's closing bracket forms a wikilink with a display text, the new state represents the result. Its slots from the opening
/// bracket's on are the element around the slots that are left. The quotes that are left are characters, and the pairs of the runs that are
/// left have written their marks. A premise: the slots that are left are like the rest of the grammar's row.
pub fn what_a_wikilink_shows_is_read()
    ensures { (leaf : LeafText) (reader : Reader) (read : Leaf) (place : ℕ → ℕ) (before : Between)
        (p : Pass) (bs : List Bracket) (old new : InlineState)
        → HasRead leaf reader read place before p bs old
        → InTurn 0 read.stretches (length reader.source) → HaveLineEnds reader.source read.stretches
        → (b : Bracket) (closer : Closer) (nearer : ℕ) (name : List ℕ) (display end : ℕ)
        (next : State) → drop nearer bs ≡ b ∷ drop (suc nearer) bs
        → token reader read p.state.at ≡ Closes closer
        → Comes AnyAnswer p.state.asked (decide reader read p.state closer)
        (record { result = Forms nearer (Wiki name (Some display) end); after = next })
        → HaveSizes old.delimiters.placed.items → (left : Bracket) (at : ℕ) (now : List RowSlot)
        → AreLeft at old.delimiters.placed.items old.quotes.placed.items b left
        →
        ((slots : List RowSlot)
        → AreLike reader.source (shown_slots leaf old.texts.items old.links.items old.slots.items)
        slots → IsCutThere reader.source (suc b.slot) display slots
        → IsAfterPipe reader.options reader.source display → display ≤ closer.start
        → ShowsLike reader.source (suc b.slot) display closer.start at slots now)
        → (pairs : List Pair) (spans : Spans)
        → IsEmphasis (siblings_from 0 (drop left.runs old.delimiters.placed.items)) pairs spans
        → shown_slots leaf new.texts.items new.links.items new.slots.items
        ≡ linked_slots (bracket_place place b) (display_target name end)
        (dressed_after reader.options left pairs old.delimiters.placed.items old.quotes.placed.items
        now) → new.delimiters.placed.items ≡ take b.runs old.delimiters.placed.items
        → new.quotes.placed.items ≡ take b.quotes old.quotes.placed.items
        → HasRead leaf reader read place before
        (closed_by p closer
        (record { result = Forms nearer (Wiki name (Some display) end); after = next }))
        (drop (suc nearer) bs) new }
{}
