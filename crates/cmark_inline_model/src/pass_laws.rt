//! Theorems about the slots of the parts that a pass over a leaf has read (`RowPasses`). Each is the contract of a function that does
//! nothing. Each step of the pass keeps the slots right, and at the end the events of the leaf are read from them.

ghost use Rattle.std.specs.Prelude.{◌≡◌, ◌-◌, ℕ, suc, true, List, [], ◌∷◌, ◌++◌, Some, drop, length, take};
ghost use Rattle.cmark_grammar.specs.BracketDecisions.{decide};
ghost use Rattle.cmark_grammar.specs.BracketReading.{Comes};
ghost use Rattle.cmark_grammar.specs.BracketStates.{Forms, State, StaysText, moved, opened};
ghost use Rattle.cmark_grammar.specs.Emphasis.{IsEmphasis, Pair, Run};
ghost use Rattle.cmark_grammar.specs.InlineTokens.{token};
ghost use Rattle.cmark_grammar.specs.Items.{Autolink, Bracket, Closes, Delimiters, Ends, Item, ItemKind, Opens, Own, Quoted, Stands};
ghost use Rattle.cmark_grammar.specs.LeafReading.{Between, ReadsLeaf, entering, leaving};
ghost use Rattle.cmark_grammar.specs.LeafText.{Leaf};
ghost use Rattle.cmark_grammar.specs.Parts.{Form, Formed, Linking, Nil, Opening, Single, Target};
ghost use Rattle.cmark_grammar.specs.Questions.{AnyAnswer, Exchange, IsNext};
ghost use Rattle.cmark_grammar.specs.Quotes.{Quote};
ghost use Rattle.cmark_grammar.specs.Readers.{Reader};
ghost use Rattle.cmark_grammar.specs.Siblings.{item, quotes_of, address_link};
ghost use Rattle.cmark_inline_model.specs.SiblingsModel.{siblings_of};
ghost use Rattle.cmark_grammar.specs.Spans.{Spans};
ghost use Rattle.cmark_grammar.specs.Tag.{Link};
ghost use Rattle.cmark_inline_model.specs.BracketPass.{Pass, closed_by, pass};
ghost use Rattle.cmark_inline_model.specs.LikeSlots.{AreLike, IsLike};
ghost use Rattle.cmark_inline_model.specs.PartLists.{Cut, cut_at, join};
ghost use Rattle.cmark_inline_model.specs.RowParts.{BracketPlace, counted, runs_in, text_slot};
ghost use Rattle.cmark_inline_model.specs.RowPasses.{IsReached, StandsFor, bytes_before, dressed_after, dressed_slots, has_own_slot, linked_slots};
ghost use Rattle.cmark_inline_model.specs.SlotRows.{BeginSlot, EndSlot, ItemSlot, Slot, run_places, run_slots, slot_events};

/// A pass begins with no slots (`first`). An item adds its slots, runs and quotes (`item`). An opening bracket adds one slot, whose index
/// is recorded (`opening`). A closing bracket that stays a text adds one slot (`closing`).
pub fn slots_follow_the_pass()
    ensures first { (reader : Reader) (leaf : Leaf) (before : Between)
        → IsReached reader leaf before (pass (entering leaf before) Nil) [] [] [] [] [] [] }
    ensures item { (reader : Reader) (leaf : Leaf) (before : Between) (p : Pass)
        (bs : List BracketPlace) (slots : List Slot) (bytes quotes : List ℕ) (runs : List Run)
        (quoted : List Quote) → IsReached reader leaf before p bs slots bytes quotes runs quoted
        → (x : Item) (resume : ℕ) (more : List Slot) (more_bytes more_quotes : List ℕ)
        → token reader leaf p.state.at ≡ Stands x resume
        → StandsFor reader (length slots) (Single x Nil) more more_bytes more_quotes
        → IsReached reader leaf before (pass (moved resume p.state) (join p.here (Single x Nil))) bs
        (slots ++ more) (bytes ++ more_bytes) (quotes ++ more_quotes)
        (runs ++ runs_in (siblings_of reader.options (Single x Nil)))
        (quoted ++ quotes_of (siblings_of reader.options (Single x Nil))) }
    ensures opening { (reader : Reader) (leaf : Leaf) (before : Between) (p : Pass)
        (bs : List BracketPlace) (slots : List Slot) (bytes quotes : List ℕ) (runs : List Run)
        (quoted : List Quote) → IsReached reader leaf before p bs slots bytes quotes runs quoted
        → (opener : Bracket) (slot : Slot) → token reader leaf p.state.at ≡ Opens opener
        → IsLike reader.source slot (text_slot opener)
        → IsReached reader leaf before
        (pass (opened opener p.state) (join p.here (Opening opener Nil)))
        (record { bracket = opener; slot = length slots; runs = length runs; quotes = length quoted }
        ∷ bs) (slots ++ (slot ∷ [])) bytes quotes runs quoted }
    ensures closing { (reader : Reader) (leaf : Leaf) (before : Between) (p : Pass)
        (bs : List BracketPlace) (slots : List Slot) (bytes quotes : List ℕ) (runs : List Run)
        (quoted : List Quote) → IsReached reader leaf before p bs slots bytes quotes runs quoted
        → (closer : Bracket) (next : State) (slot : Slot)
        → token reader leaf p.state.at ≡ Closes closer
        → Comes AnyAnswer p.state.asked (decide reader leaf p.state closer)
        (record { result = StaysText; after = next }) → IsLike reader.source slot (text_slot closer)
        → IsReached reader leaf before
        (closed_by p closer (record { result = StaysText; after = next })) bs (slots ++ (slot ∷ []))
        bytes quotes runs quoted }
{}

/// The slots of an item. Most kinds have one slot (`own`). A delimiter run has one for each byte (`run`). A quote has one slot, whose index
/// is recorded (`quote`). An autolink has a begin, a text and an end (`autolink`).
pub fn items_have_their_slots()
    ensures own { (reader : Reader) (leaf : Leaf) (before : Between) (p : Pass)
        (bs : List BracketPlace) (slots : List Slot) (bytes quotes : List ℕ) (runs : List Run)
        (quoted : List Quote) → IsReached reader leaf before p bs slots bytes quotes runs quoted
        → (kind : ItemKind) (start end resume : ℕ) (slot : Slot)
        → token reader leaf p.state.at ≡ Stands (item kind start end) resume
        → has_own_slot kind ≡ true → IsLike reader.source slot (ItemSlot (item kind start end))
        → IsReached reader leaf before
        (pass (moved resume p.state) (join p.here (Single (item kind start end) Nil))) bs
        (slots ++ (slot ∷ [])) bytes quotes runs quoted }
    ensures run { (reader : Reader) (leaf : Leaf) (before : Between) (p : Pass)
        (bs : List BracketPlace) (slots : List Slot) (bytes quotes : List ℕ) (runs : List Run)
        (quoted : List Quote) → IsReached reader leaf before p bs slots bytes quotes runs quoted
        → (run : Run) (start end resume : ℕ) (more : List Slot)
        → token reader leaf p.state.at ≡ Stands (item (Delimiters run) start end) resume
        → AreLike reader.source more (run_slots start run.run_length [])
        → IsReached reader leaf before
        (pass (moved resume p.state) (join p.here (Single (item (Delimiters run) start end) Nil)))
        bs (slots ++ more) (bytes ++ run_places (length slots) run.run_length []) quotes
        (runs ++ (run ∷ [])) quoted }
    ensures quote { (reader : Reader) (leaf : Leaf) (before : Between) (p : Pass)
        (bs : List BracketPlace) (slots : List Slot) (bytes quotes : List ℕ) (runs : List Run)
        (quoted : List Quote) → IsReached reader leaf before p bs slots bytes quotes runs quoted
        → (quote : Quote) (start end resume : ℕ) (slot : Slot)
        → token reader leaf p.state.at ≡ Stands (item (Quoted quote) start end) resume
        → IsLike reader.source slot (ItemSlot (item (Quoted quote) start end))
        → IsReached reader leaf before
        (pass (moved resume p.state) (join p.here (Single (item (Quoted quote) start end) Nil))) bs
        (slots ++ (slot ∷ [])) bytes (quotes ++ (length slots ∷ [])) runs (quoted ++ (quote ∷ [])) }
    ensures autolink { (reader : Reader) (leaf : Leaf) (before : Between) (p : Pass)
        (bs : List BracketPlace) (slots : List Slot) (bytes quotes : List ℕ) (runs : List Run)
        (quoted : List Quote) → IsReached reader leaf before p bs slots bytes quotes runs quoted
        → (uri : List ℕ) (start end resume : ℕ) (slot : Slot)
        → token reader leaf p.state.at ≡ Stands (item (Autolink uri) start end) resume
        → IsLike reader.source slot (ItemSlot (item Own (suc start) (end - 1)))
        → IsReached reader leaf before
        (pass (moved resume p.state) (join p.here (Single (item (Autolink uri) start end) Nil))) bs
        (slots ++ (BeginSlot (Link (address_link uri)) start end ∷ (slot ∷ (EndSlot ∷ [])))) bytes
        quotes runs quoted }
{}

/// If a closing bracket forms a construct with an opening one, the construct replaces the opening bracket's slot and all later slots, and
/// the later runs and quotes are dropped. A construct that does not show the content of the brackets has slots of its own (`formed`). A
/// link or an image surrounds the slots after the bracket, once their quotes are characters and their pairs have written their marks
/// (`link`).
pub fn what_is_formed_takes_the_place_of_its_slots()
    ensures formed { (reader : Reader) (leaf : Leaf) (before : Between) (p : Pass)
        (bs : List BracketPlace) (slots : List Slot) (bytes quotes : List ℕ) (runs : List Run)
        (quoted : List Quote) → IsReached reader leaf before p bs slots bytes quotes runs quoted
        → (closer : Bracket) (nearer : ℕ) (what : Formed) (next : State) (place : BracketPlace)
        → drop nearer bs ≡ place ∷ drop (suc nearer) bs
        → token reader leaf p.state.at ≡ Closes closer
        → Comes AnyAnswer p.state.asked (decide reader leaf p.state closer)
        (record { result = Forms nearer what; after = next }) → (more : List Slot)
        →
        ((cut : Cut) → cut_at nearer p.here ≡ Some cut → cut.opener ≡ place.bracket
        → StandsFor reader place.slot (Form cut.opener cut.inside closer what Nil) more [] [])
        →
        ((cut : Cut)
        → (runs_in (siblings_of reader.options (Form cut.opener cut.inside closer what Nil)) ≡ [])
        ×
        (quotes_of (siblings_of reader.options (Form cut.opener cut.inside closer what Nil)) ≡ []))
        → IsReached reader leaf before
        (closed_by p closer (record { result = Forms nearer what; after = next }))
        (drop (suc nearer) bs) (take place.slot slots ++ more)
        (take (bytes_before place runs) bytes) (take place.quotes quotes) (take place.runs runs)
        (take place.quotes quoted) }
    ensures link { (reader : Reader) (leaf : Leaf) (before : Between) (p : Pass)
        (bs : List BracketPlace) (slots : List Slot) (bytes quotes : List ℕ) (runs : List Run)
        (quoted : List Quote) → IsReached reader leaf before p bs slots bytes quotes runs quoted
        → (closer : Bracket) (nearer : ℕ) (target : Target) (next : State) (place : BracketPlace)
        → drop nearer bs ≡ place ∷ drop (suc nearer) bs
        → token reader leaf p.state.at ≡ Closes closer
        → Comes AnyAnswer p.state.asked (decide reader leaf p.state closer)
        (record { result = Forms nearer (Linking target); after = next })
        → (pairs : List Pair) (spans : Spans)
        → IsEmphasis (counted 0 (drop place.runs runs)) pairs spans
        → IsReached reader leaf before
        (closed_by p closer (record { result = Forms nearer (Linking target); after = next }))
        (drop (suc nearer) bs)
        (linked_slots place target
        (dressed_after reader.options place pairs slots bytes quotes runs quoted))
        (take (bytes_before place runs) bytes) (take place.quotes quotes) (take place.runs runs)
        (take place.quotes quoted) }
{}

/// At the end of a leaf its events are read from the slots, once all quotes are characters and all pairs have written their marks. The
/// answers are those given so far, in order, followed by any others.
pub fn the_events_of_a_leaf_are_read_off_the_slots_of_its_pass()
    ensures { (reader : Reader) (leaf : Leaf) (before : Between) (p : Pass) (bs : List BracketPlace)
        (slots : List Slot) (bytes quotes : List ℕ) (runs : List Run) (quoted : List Quote)
        → IsReached reader leaf before p bs slots bytes quotes runs quoted
        → token reader leaf p.state.at ≡ Ends → (pairs : List Pair) (spans : Spans)
        → IsEmphasis (counted 0 runs) pairs spans → (all rest : List Exchange)
        → all ≡ p.state.asked ++ rest
        → ReadsLeaf reader (IsNext all) leaf before
        (slot_events reader.source (dressed_slots reader.options pairs slots bytes quotes quoted)
        []) (leaving p.state) }
{}
