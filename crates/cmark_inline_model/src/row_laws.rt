//! Theorems about the row of slots of the parts that a pass has read (`RowParts`). Each is the contract of a function that does nothing.
//! The row grows at its end; it is cut at an opening bracket; and a construct that brackets form replaces the part after the cut.

ghost use Rattle.std.specs.Prelude.{◌≡◌, ◌<◌, ℕ, suc, List, [], ◌∷◌, ◌++◌, drop, length, take};
ghost use Rattle.cmark_grammar.specs.Emphasis.{IsEmphasis, Pair, Run};
ghost use Rattle.cmark_grammar.specs.Items.{Bracket};
ghost use Rattle.cmark_grammar.specs.Options.{Options};
ghost use Rattle.cmark_grammar.specs.Parts.{Nil, Opening, Parts, openings};
ghost use Rattle.cmark_grammar.specs.Quotes.{Quote, quote_characters};
ghost use Rattle.cmark_grammar.specs.Siblings.{quotes_of};
ghost use Rattle.cmark_inline_model.specs.SiblingsModel.{dress, siblings_of};
ghost use Rattle.cmark_grammar.specs.Spans.{Spans};
ghost use Rattle.cmark_inline_model.specs.PartLists.{join};
ghost use Rattle.cmark_inline_model.specs.RowParts.{BracketPlace, CutsRow, IsRow, counted, runs_in, text_slot};
ghost use Rattle.cmark_inline_model.specs.SlotRows.{LaysOut, Slot, StandAfter, marked, marks_by, quoted};

/// A row is one list of siblings laid out as slots (`whole`). Further parts without opening brackets add their slots, runs and quotes
/// (`grows`). An opening bracket adds one slot, whose index is recorded (`opens`).
pub fn rows_grow_with_the_parts()
    ensures whole { (options : Options) (bs : List BracketPlace) (parts : Parts) (slots : List Slot)
        (bytes quotes : List ℕ) (runs : List Run) (quoted : List Quote)
        → IsRow options bs parts slots bytes quotes runs quoted
        → LaysOut 0 (siblings_of options parts) slots bytes quotes }
    ensures grows { (options : Options) (bs : List BracketPlace) (parts piece : Parts)
        (slots more : List Slot) (bytes more_bytes quotes more_quotes : List ℕ) (runs : List Run)
        (quoted : List Quote) → IsRow options bs parts slots bytes quotes runs quoted
        → openings piece ≡ 0
        → LaysOut (length slots) (siblings_of options piece) more more_bytes more_quotes
        → IsRow options bs (join parts piece) (slots ++ more) (bytes ++ more_bytes)
        (quotes ++ more_quotes) (runs ++ runs_in (siblings_of options piece))
        (quoted ++ quotes_of (siblings_of options piece)) }
    ensures opens { (options : Options) (bs : List BracketPlace) (parts : Parts) (opener : Bracket)
        (slots : List Slot) (bytes quotes : List ℕ) (runs : List Run) (quoted : List Quote)
        → IsRow options bs parts slots bytes quotes runs quoted
        → IsRow options
        (record { bracket = opener; slot = length slots; runs = length runs; quotes = length quoted }
        ∷ bs) (join parts (Opening opener Nil)) (slots ++ (text_slot opener ∷ [])) bytes quotes runs
        quoted }
{}

/// If the parts are cut at an opening bracket, the row is cut at the index recorded for it: its slots, the bytes of its runs, and its
/// quotes.
pub fn rows_are_cut_where_their_parts_are()
    ensures { (options : Options) (nearer : ℕ) (bs : List BracketPlace) (parts : Parts)
        (slots : List Slot) (bytes quotes : List ℕ) (runs : List Run) (quoted : List Quote)
        → nearer < length bs → IsRow options bs parts slots bytes quotes runs quoted
        → CutsRow options nearer bs parts slots bytes quotes runs quoted }
{}

/// After the cut, writing the characters of the quotes and the marks of the pairs of runs gives the slots of the spans of the parts there.
/// The slots up to the bracket's own are unchanged.
pub fn what_stands_after_a_bracket_becomes_spans()
    ensures { (options : Options) (nearer : ℕ) (bs : List BracketPlace) (parts : Parts)
        (slots : List Slot) (bytes quotes : List ℕ) (runs : List Run) (quotes_are : List Quote)
        → (c : CutsRow options nearer bs parts slots bytes quotes runs quotes_are)
        → (pairs : List Pair) (spans : Spans)
        → IsEmphasis (counted 0 (drop c.place.runs runs)) pairs spans
        → StandAfter (c.front ++ (text_slot c.cut.opener ∷ [])) c.following
        (dress options (siblings_of options c.cut.inside))
        (marked options c.after_bytes (marks_by (length c.after_bytes) pairs)
        (quoted c.after_quotes (quote_characters [] (drop c.place.quotes quotes_are)) slots) []) }
{}

/// A construct that brackets form, without runs and quotes of its own, replaces the opening bracket and all slots after it. Earlier opening
/// brackets are unchanged.
pub fn what_brackets_form_closes_the_row()
    ensures { (options : Options) (nearer : ℕ) (bs : List BracketPlace) (parts piece : Parts)
        (slots more : List Slot) (bytes quotes : List ℕ) (runs : List Run) (quoted : List Quote)
        → (c : CutsRow options nearer bs parts slots bytes quotes runs quoted) → openings piece ≡ 0
        → runs_in (siblings_of options piece) ≡ [] → quotes_of (siblings_of options piece) ≡ []
        → LaysOut (length c.front) (siblings_of options piece) more [] []
        → IsRow options (drop (suc nearer) bs) (join c.cut.before piece) (c.front ++ more)
        c.front_bytes c.front_quotes (take c.place.runs runs) (take c.place.quotes quoted) }
{}
