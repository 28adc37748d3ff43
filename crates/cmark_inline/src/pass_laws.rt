//! Theorems about the states of the inline pass and of the grammar's pass. Each is the contract of a function that does nothing.

ghost use Rattle.std.specs.Prelude.{◌≡◌, ℕ, suc, true, List, [], ◌∷◌, ◌++◌, Some, drop, length, map, take};
ghost use Rattle.cmark_emphasis.specs.Shown.{shown_quote, shown_whole};
ghost use Rattle.cmark_grammar.specs.BracketDecisions.{decide};
ghost use Rattle.cmark_grammar.specs.BracketReading.{Comes};
ghost use Rattle.cmark_grammar.specs.BracketStates.{Forms, State, StaysText, moved, opened};
ghost use Rattle.cmark_grammar.specs.Emphasis.{IsEmphasis, Pair};
ghost use Rattle.cmark_grammar.specs.InlineTokens.{token};
ghost use Rattle.cmark_grammar.specs.Items.{Bracket as Opener, Closes, Delimiters, Ends, ItemKind, Opens, Quoted, Stands};
ghost use Rattle.cmark_grammar.specs.LeafReading.{Between, ReadsLeaf, entering, leaving};
ghost use Rattle.cmark_grammar.specs.LeafText.{Leaf};
ghost use Rattle.cmark_grammar.specs.Parts.{Form, Formed, Linking, Nil, Opening, Single, Target};
ghost use Rattle.cmark_grammar.specs.Questions.{AnyAnswer, Exchange, IsNext};
ghost use Rattle.cmark_grammar.specs.Readers.{Reader};
ghost use Rattle.cmark_grammar.specs.Siblings.{item, quotes_of};
ghost use Rattle.cmark_inline_model.specs.SiblingsModel.{siblings_of};
ghost use Rattle.cmark_grammar.specs.Spans.{Spans};
ghost use Rattle.cmark_leaf_text.specs.Reads.{source_of};
ghost use Rattle.cmark_leaf_text.specs.declared.leaf_text.LeafText.{LeafText};
ghost use Rattle.cmark_inline_model.specs.BracketPass.{Pass, closed_by, pass};
ghost use Rattle.cmark_inline_model.specs.LikeSlots.{AreLike, IsLike};
ghost use Rattle.cmark_inline_model.specs.PartLists.{Cut, cut_at, join};
ghost use Rattle.cmark_inline_model.specs.RowParts.{runs_in, text_slot};
ghost use Rattle.cmark_inline_model.specs.RowPasses.{StandsFor, has_own_slot, linked_slots};
ghost use Rattle.cmark_inline_model.specs.SlotRows.{ItemSlot, Slot as RowSlot, marked, marks_by, quoted, run_slots};
ghost use Rattle.cmark_slots.specs.MarkedSlots.{places_of, siblings_from};
ghost use Rattle.cmark_slots.specs.QuoteSlots.{characters_of};
ghost use Rattle.cmark_inline.specs.Reached.{HasRead, bracket_place};
ghost use Rattle.cmark_slots.specs.SlotViews.{all_events, shown_slot, shown_slots};
ghost use Rattle.cmark_slots.specs.declared.bracket.Bracket.{Bracket};
ghost use Rattle.cmark_emphasis.specs.declared.run.PlacedRun.{PlacedRun};
ghost use Rattle.cmark_slots.specs.declared.quote.PlacedQuote.{PlacedQuote};
ghost use Rattle.cmark_slots.specs.declared.slot.Slot.{Slot};
ghost use Rattle.cmark_inline.specs.declared.state.InlineState.{InlineState};

/// Let the grammar's pass have read what a state represents. With one slot more that is like an item, it has read one step more (`own`).
/// This also holds for the slots and the place of a delimiter run (`run`), of a quote (`quote`), and of an opening bracket (`opening`). A
/// premise in each case: the new texts and links do not change how the earlier slots are shown.
pub fn a_step_more_is_read()
    ensures own { (leaf : LeafText) (reader : Reader) (read : Leaf) (place : ℕ → ℕ)
        (before : Between) (p : Pass) (bs : List Bracket) (old new : InlineState)
        → HasRead leaf reader read place before p bs old
        → shown_slots leaf new.texts.items new.links.items old.slots.items
        ≡ shown_slots leaf old.texts.items old.links.items old.slots.items
        → (kind : ItemKind) (start end resume : ℕ) (slot : Slot)
        → token reader read p.state.at ≡ Stands (item kind start end) resume
        → has_own_slot kind ≡ true
        → IsLike reader.source (shown_slot leaf new.texts.items new.links.items slot)
        (ItemSlot (item kind start end)) → new.slots.items ≡ old.slots.items ++ (slot ∷ [])
        → new.delimiters.placed.items ≡ old.delimiters.placed.items
        → new.quotes.placed.items ≡ old.quotes.placed.items
        → HasRead leaf reader read place before
        (pass (moved resume p.state) (join p.here (Single (item kind start end) Nil))) bs new }
    ensures run { (leaf : LeafText) (reader : Reader) (read : Leaf) (place : ℕ → ℕ)
        (before : Between) (p : Pass) (bs : List Bracket) (old new : InlineState)
        → HasRead leaf reader read place before p bs old
        → shown_slots leaf new.texts.items new.links.items old.slots.items
        ≡ shown_slots leaf old.texts.items old.links.items old.slots.items
        → (run : PlacedRun) (start end resume : ℕ) (more : List Slot)
        → token reader read p.state.at
        ≡ Stands (item (Delimiters (shown_whole run)) start end) resume
        → AreLike reader.source (shown_slots leaf new.texts.items new.links.items more)
        (run_slots start run.run_length []) → run.slot ≡ length old.slots.items
        → new.slots.items ≡ old.slots.items ++ more
        → new.delimiters.placed.items ≡ old.delimiters.placed.items ++ (run ∷ [])
        → new.quotes.placed.items ≡ old.quotes.placed.items
        → HasRead leaf reader read place before
        (pass (moved resume p.state)
        (join p.here (Single (item (Delimiters (shown_whole run)) start end) Nil))) bs new }
    ensures quote { (leaf : LeafText) (reader : Reader) (read : Leaf) (place : ℕ → ℕ)
        (before : Between) (p : Pass) (bs : List Bracket) (old new : InlineState)
        → HasRead leaf reader read place before p bs old
        → shown_slots leaf new.texts.items new.links.items old.slots.items
        ≡ shown_slots leaf old.texts.items old.links.items old.slots.items
        → (quote : PlacedQuote) (start end resume : ℕ) (slot : Slot)
        → token reader read p.state.at
        ≡ Stands (item (Quoted (shown_quote quote.quote)) start end) resume
        → IsLike reader.source (shown_slot leaf new.texts.items new.links.items slot)
        (ItemSlot (item (Quoted (shown_quote quote.quote)) start end))
        → quote.slot ≡ length old.slots.items → new.slots.items ≡ old.slots.items ++ (slot ∷ [])
        → new.delimiters.placed.items ≡ old.delimiters.placed.items
        → new.quotes.placed.items ≡ old.quotes.placed.items ++ (quote ∷ [])
        → HasRead leaf reader read place before
        (pass (moved resume p.state)
        (join p.here (Single (item (Quoted (shown_quote quote.quote)) start end) Nil))) bs new }
    ensures opening { (leaf : LeafText) (reader : Reader) (read : Leaf) (place : ℕ → ℕ)
        (before : Between) (p : Pass) (bs : List Bracket) (old new : InlineState)
        → HasRead leaf reader read place before p bs old
        → shown_slots leaf new.texts.items new.links.items old.slots.items
        ≡ shown_slots leaf old.texts.items old.links.items old.slots.items
        → (b : Bracket) (opener : Opener) (slot : Slot)
        → token reader read p.state.at ≡ Opens opener
        → IsLike reader.source (shown_slot leaf new.texts.items new.links.items slot)
        (text_slot opener)
        → opener ≡ record { is_image = b.is_image; start = place b.start; end = place b.inside }
        → b.slot ≡ length old.slots.items → b.runs ≡ length old.delimiters.placed.items
        → b.quotes ≡ length old.quotes.placed.items
        → new.slots.items ≡ old.slots.items ++ (slot ∷ [])
        → new.delimiters.placed.items ≡ old.delimiters.placed.items
        → new.quotes.placed.items ≡ old.quotes.placed.items
        → HasRead leaf reader read place before
        (pass (opened opener p.state) (join p.here (Opening opener Nil))) (b ∷ bs) new }
{}

/// If the grammar's closing bracket forms a link or an image, the new state represents the result. Its slots from the opening bracket's on
/// are the element around the later slots. In these, quotes are characters, and the pairs of the runs have written their marks. The new
/// state has forgotten these quotes and runs.
pub fn a_link_more_is_read()
    ensures { (leaf : LeafText) (reader : Reader) (read : Leaf) (place : ℕ → ℕ) (before : Between)
        (p : Pass) (bs : List Bracket) (old new : InlineState)
        → HasRead leaf reader read place before p bs old
        → (b : Bracket) (closer : Opener) (nearer : ℕ) (target : Target) (next : State)
        → drop nearer bs ≡ b ∷ drop (suc nearer) bs → token reader read p.state.at ≡ Closes closer
        → Comes AnyAnswer p.state.asked (decide reader read p.state closer)
        (record { result = Forms nearer (Linking target); after = next })
        → (pairs : List Pair) (spans : Spans)
        → IsEmphasis (siblings_from 0 (drop b.runs old.delimiters.placed.items)) pairs spans
        → shown_slots leaf new.texts.items new.links.items new.slots.items
        ≡ linked_slots (bracket_place place b) target
        (marked reader.options (places_of (drop b.runs old.delimiters.placed.items))
        (marks_by (length (places_of (drop b.runs old.delimiters.placed.items))) pairs)
        (quoted (map (λ (q : PlacedQuote). q.slot) (drop b.quotes old.quotes.placed.items))
        (characters_of (drop b.quotes old.quotes.placed.items))
        (shown_slots leaf old.texts.items old.links.items old.slots.items)) [])
        → new.delimiters.placed.items ≡ take b.runs old.delimiters.placed.items
        → new.quotes.placed.items ≡ take b.quotes old.quotes.placed.items
        → HasRead leaf reader read place before
        (closed_by p closer (record { result = Forms nearer (Linking target); after = next }))
        (drop (suc nearer) bs) new }
{}

/// Before a leaf is read, a state without slots, runs and quotes represents nothing (`first`). A closing bracket that remains a text has
/// one slot more (`closing`). At the end of the leaf all quotes are characters, and all pairs have written their marks. The leaf is then
/// read as the events of its slots, for the answers that were given (`end`).
pub fn a_leaf_is_read_from_its_begin_to_its_end()
    ensures first { (leaf : LeafText) (reader : Reader) (read : Leaf) (place : ℕ → ℕ)
        (before : Between) (state : InlineState) → state.slots.items ≡ []
        → state.delimiters.placed.items ≡ [] → state.quotes.placed.items ≡ []
        → HasRead leaf reader read place before (pass (entering read before) Nil) [] state }
    ensures closing { (leaf : LeafText) (reader : Reader) (read : Leaf) (place : ℕ → ℕ)
        (before : Between) (p : Pass) (bs : List Bracket) (old new : InlineState)
        → HasRead leaf reader read place before p bs old
        → (closer : Opener) (next : State) (slot : Slot)
        → shown_slots leaf new.texts.items new.links.items old.slots.items
        ≡ shown_slots leaf old.texts.items old.links.items old.slots.items
        → token reader read p.state.at ≡ Closes closer
        → Comes AnyAnswer p.state.asked (decide reader read p.state closer)
        (record { result = StaysText; after = next })
        → IsLike reader.source (shown_slot leaf new.texts.items new.links.items slot)
        (text_slot closer) → new.slots.items ≡ old.slots.items ++ (slot ∷ [])
        → new.delimiters.placed.items ≡ old.delimiters.placed.items
        → new.quotes.placed.items ≡ old.quotes.placed.items
        → HasRead leaf reader read place before
        (closed_by p closer (record { result = StaysText; after = next })) bs new }
    ensures end { (leaf : LeafText) (reader : Reader) (read : Leaf) (place : ℕ → ℕ)
        (before : Between) (p : Pass) (bs : List Bracket) (old new : InlineState)
        → HasRead leaf reader read place before p bs old → reader.source ≡ source_of leaf
        → token reader read p.state.at ≡ Ends → (pairs : List Pair) (spans : Spans)
        → IsEmphasis (siblings_from 0 old.delimiters.placed.items) pairs spans
        → shown_slots leaf new.texts.items new.links.items new.slots.items
        ≡ marked reader.options (places_of old.delimiters.placed.items)
        (marks_by (length (places_of old.delimiters.placed.items)) pairs)
        (quoted (map (λ (q : PlacedQuote). q.slot) old.quotes.placed.items)
        (characters_of old.quotes.placed.items)
        (shown_slots leaf old.texts.items old.links.items old.slots.items)) []
        → (all rest : List Exchange) → all ≡ p.state.asked ++ rest
        → ReadsLeaf reader (IsNext all) read before
        (all_events leaf new.texts.items new.links.items new.slots.items) (leaving p.state) }
{}

/// Let the grammar's closing bracket form something that shows nothing of its inside: a footnote reference, or a wikilink that shows its
/// name. Then the new state represents the result. Its own slots take the place of the opening bracket's slot and of all later ones.
pub fn what_hides_its_inside_is_read()
    ensures { (leaf : LeafText) (reader : Reader) (read : Leaf) (place : ℕ → ℕ) (before : Between)
        (p : Pass) (bs : List Bracket) (old new : InlineState)
        → HasRead leaf reader read place before p bs old
        → (b : Bracket) (closer : Opener) (nearer : ℕ) (what : Formed) (next : State)
        → drop nearer bs ≡ b ∷ drop (suc nearer) bs → token reader read p.state.at ≡ Closes closer
        → Comes AnyAnswer p.state.asked (decide reader read p.state closer)
        (record { result = Forms nearer what; after = next }) → (more : List RowSlot)
        →
        ((cut : Cut) → cut_at nearer p.here ≡ Some cut
        → cut.opener ≡ (bracket_place place b).bracket
        → StandsFor reader b.slot (Form cut.opener cut.inside closer what Nil) more [] [])
        →
        ((cut : Cut)
        → (runs_in (siblings_of reader.options (Form cut.opener cut.inside closer what Nil)) ≡ [])
        ×
        (quotes_of (siblings_of reader.options (Form cut.opener cut.inside closer what Nil)) ≡ []))
        → shown_slots leaf new.texts.items new.links.items new.slots.items
        ≡ take b.slot (shown_slots leaf old.texts.items old.links.items old.slots.items) ++ more
        → new.delimiters.placed.items ≡ take b.runs old.delimiters.placed.items
        → new.quotes.placed.items ≡ take b.quotes old.quotes.placed.items
        → HasRead leaf reader read place before (closed_by p closer
        (record { result = Forms nearer what; after = next })) (drop (suc nearer) bs) new }
{}
