//! The theorem about the slots of a wikilink that shows the text after its pipe (this profile's own). It is the contract of a function that
//! does nothing.

ghost use Rattle.std.specs.Prelude.{◌≡◌, ◌≤◌, ℕ, suc, List, ◌∷◌, Some, drop, length, take};
ghost use Rattle.cmark_grammar.specs.BracketDecisions.{decide};
ghost use Rattle.cmark_grammar.specs.BracketReading.{Comes};
ghost use Rattle.cmark_grammar.specs.BracketStates.{Forms, State};
ghost use Rattle.cmark_grammar.specs.Emphasis.{IsEmphasis, Pair, Run};
ghost use Rattle.cmark_grammar.specs.InlineTokens.{token};
ghost use Rattle.cmark_grammar.specs.Items.{Bracket, Closes};
ghost use Rattle.cmark_grammar.specs.LeafReading.{Between};
ghost use Rattle.cmark_grammar.specs.LeafText.{InTurn, Leaf};
ghost use Rattle.cmark_grammar.specs.Parts.{Wiki};
ghost use Rattle.cmark_grammar.specs.Questions.{AnyAnswer};
ghost use Rattle.cmark_grammar.specs.Quotes.{Quote};
ghost use Rattle.cmark_grammar.specs.Readers.{Reader};
ghost use Rattle.cmark_grammar.specs.Spans.{Spans};
ghost use Rattle.cmark_inline_model.specs.BracketPass.{Pass, closed_by};
ghost use Rattle.cmark_inline_model.specs.CutRanges.{IsAfterPipe};
ghost use Rattle.cmark_inline_model.specs.Displays.{IsCutThere, LeavesQuotes, LeavesRuns, ShowsLike, display_dressed, display_target};
ghost use Rattle.cmark_inline_model.specs.LeafModel.{HaveLineEnds};
ghost use Rattle.cmark_inline_model.specs.LikeSlots.{AreLike};
ghost use Rattle.cmark_inline_model.specs.RowParts.{BracketPlace, counted};
ghost use Rattle.cmark_inline_model.specs.RowPasses.{IsReached, bytes_before, linked_slots};
ghost use Rattle.cmark_inline_model.specs.SlotRows.{Slot};

/// A closing bracket may form a wikilink that shows the text after its pipe. Then the slots after the opening bracket that end at the pipe
/// or before it become Nothing. The next slot begins there, and earlier runs and quotes are dropped. Once the remaining quotes are
/// characters, and the pairs of the remaining runs have written their marks, the wikilink replaces the bracket's slot and surrounds these
/// slots.
///
/// A premise is that the slot that is cut is like the rest of its item: like slots may differ after a cut.
pub fn what_a_wikilink_shows_takes_the_place_of_its_slots()
    ensures { (reader : Reader) (leaf : Leaf) (before : Between)
        → InTurn 0 leaf.stretches (length reader.source) → HaveLineEnds reader.source leaf.stretches
        → (p : Pass) (bs : List BracketPlace) (slots : List Slot) (bytes quotes : List ℕ)
        (runs : List Run) (quoted : List Quote)
        → IsReached reader leaf before p bs slots bytes quotes runs quoted
        → (closer : Bracket) (nearer : ℕ) (name : List ℕ) (display end : ℕ) (next : State)
        (place : BracketPlace) → drop nearer bs ≡ place ∷ drop (suc nearer) bs
        → token reader leaf p.state.at ≡ Closes closer
        → Comes AnyAnswer p.state.asked (decide reader leaf p.state closer)
        (record { result = Forms nearer (Wiki name (Some display) end); after = next })
        → (left_runs left_quotes at : ℕ) (now : List Slot)
        → LeavesRuns place.runs left_runs at runs bytes
        → LeavesQuotes place.quotes left_quotes at quotes
        →
        ((row : List Slot) → AreLike reader.source slots row
        → IsCutThere reader.source (suc place.slot) display row
        → IsAfterPipe reader.options reader.source display → display ≤ closer.start
        → ShowsLike reader.source (suc place.slot) display closer.start at row now)
        → (pairs : List Pair) (spans : Spans)
        → IsEmphasis (counted 0 (drop left_runs runs)) pairs spans
        → IsReached reader leaf before
        (closed_by p closer
        (record { result = Forms nearer (Wiki name (Some display) end); after = next }))
        (drop (suc nearer) bs)
        (linked_slots place (display_target name end)
        (display_dressed reader.options left_runs left_quotes pairs now bytes quotes runs quoted))
        (take (bytes_before place runs) bytes) (take place.quotes quotes) (take place.runs runs)
        (take place.quotes quoted) }
{}
