//! Theorems about a list of siblings as a row of slots. Each is the contract of a function that does nothing. Each item has a slot, and
//! each byte of a delimiter run has a slot of its own. An element has a slot for its start and one for its end. Quotes become characters in
//! their slots. The pairs of runs write only into the slots of their own bytes. Then the events are read from the row.

ghost use Rattle.std.specs.Prelude.{◌≡◌, ℕ, List, [], ◌++◌, get_or, length};
ghost use Rattle.cmark_grammar.specs.Emphasis.{IsEmphasis, Pair};
ghost use Rattle.cmark_grammar.specs.Event.{Ranged};
ghost use Rattle.cmark_grammar.specs.InlineReading.{inline_events};
ghost use Rattle.cmark_grammar.specs.LeafReading.{Between, ReadsLeaf};
ghost use Rattle.cmark_grammar.specs.LeafText.{Leaf};
ghost use Rattle.cmark_grammar.specs.Options.{Options};
ghost use Rattle.cmark_grammar.specs.Questions.{Exchange, IsNext};
ghost use Rattle.cmark_grammar.specs.Quotes.{quote_characters};
ghost use Rattle.cmark_grammar.specs.Readers.{Reader};
ghost use Rattle.cmark_grammar.specs.Siblings.{Inline, IsDressed, Nil, quotes_of, with_characters};
ghost use Rattle.cmark_inline_model.specs.RunSpans.{IsDressedByRuns, dressed_all, gaps_of, runs_from};
ghost use Rattle.cmark_grammar.specs.Spans.{Spans};
ghost use Rattle.cmark_inline_model.specs.LikeSlots.{AreLike};
ghost use Rattle.cmark_inline_model.specs.SlotRows.{AreTight, LaysOut, Mark, Slot, StandAfter, byte_places, marked, marks_by, marks_of, quote_places, quoted, row_of, seen, slot_events, slots_of};

/// The pairs of the delimiter runs alone give the spans of the siblings (`sound`). Whatever spans the siblings have, the runs alone give them
/// too (`complete`).
pub fn runs_alone_give_the_emphasis()
    ensures sound { (options : Options) (siblings result : Inline)
        → IsDressedByRuns options siblings result → IsDressed options siblings result }
    ensures complete { (options : Options) (siblings result : Inline)
        → IsDressed options siblings result → IsDressedByRuns options siblings result }
{}

/// Siblings can be laid out as slots, from any index of a row on.
pub fn siblings_have_slots()
    ensures { (siblings : Inline) (at : ℕ)
        → LaysOut at siblings (row_of siblings) (byte_places at siblings)
        (quote_places at siblings) }
{}

/// If characters are written into the slots of quotes, the slots become those of the siblings with these characters instead of the quotes.
/// Earlier slots are unchanged.
pub fn quotes_become_characters()
    ensures { (siblings : Inline) (characters : List ℕ) (before slots : List Slot)
        (bytes quotes : List ℕ) → LaysOut (length before) siblings slots bytes quotes
        → (now : List Slot) × (quoted quotes characters (before ++ slots) ≡ before ++ now)
        × LaysOut (length before) (with_characters siblings characters) now bytes [] }
{}

/// The two bytes that open a span, or that close it, are in one run, without anything between them.
pub fn bytes_of_a_side_are_neighbours()
    ensures { (siblings : Inline) (pairs : List Pair) (spans : Spans)
        → IsEmphasis (runs_from siblings 0) pairs spans
        → AreTight (λ at. get_or (gaps_of siblings) at Nil ≡ Nil) spans }
{}

/// The pairs of the runs write the marks of the spans: one for each byte of a run.
pub fn pairs_write_the_marks()
    ensures { (siblings : Inline) (pairs : List Pair) (spans : Spans)
        → IsEmphasis (runs_from siblings 0) pairs spans
        → (at : ℕ) (slots : List Slot) (bytes quotes : List ℕ)
        → LaysOut at siblings slots bytes quotes → marks_by (length bytes) pairs ≡ marks_of spans }
{}

/// If each mark is written into the slot of its byte, the slots become those of the siblings with their spans. Emphasis, strong,
/// strikethrough, superscript, subscript and highlight become elements. Two tildes without strikethrough become one text that covers
/// everything between them. The number of slots and the earlier slots are unchanged.
pub fn marks_make_the_spans()
    ensures { (options : Options) (siblings : Inline) (pairs : List Pair) (spans : Spans)
        → IsEmphasis (runs_from siblings 0) pairs spans
        → (before slots : List Slot) (bytes quotes : List ℕ)
        → LaysOut (length before) siblings slots bytes quotes
        → StandAfter before slots (dressed_all options siblings spans)
        (marked options bytes (marks_of spans) (before ++ slots) []) }
{}

/// The slots of spans give the events of these spans, followed by the events of the later slots.
pub fn slots_give_the_events()
    ensures { (source : List ℕ) (spans : Inline) (slots others : List Slot) (opened : List Ranged)
        → seen slots ≡ slots_of spans
        → slot_events source (slots ++ others) opened
        ≡ inline_events source spans ++ slot_events source others opened }
{}

/// The events of a list of siblings are read from its slots, once its quotes are characters and its pairs have written their marks. These
/// are the events with quotes and emphasis as the grammar reads them.
pub fn events_are_read_off_the_slots()
    ensures { (source : List ℕ) (options : Options) (siblings result : Inline)
        (dressed : IsDressedByRuns options siblings result) → (slots : List Slot) (bytes quotes : List ℕ)
        → LaysOut 0 siblings slots bytes quotes
        → slot_events source
        (marked options bytes (marks_by (length bytes) dressed.pairs)
        (quoted quotes (quote_characters [] (quotes_of siblings)) slots) []) []
        ≡ inline_events source result }
{}

/// The events of a leaf are read from the slots of the outermost siblings of its parts, after this writing.
pub fn events_of_a_leaf_are_read_off_its_slots()
    ensures { (reader : Reader) (exchanges : List Exchange) (leaf : Leaf) (before after : Between)
        (events : List Ranged)
        (reads : ReadsLeaf reader (IsNext exchanges) leaf before events after)
        (dressed : IsDressedByRuns reader.options reads.are.siblings reads.spans)
        → (slots : List Slot) (bytes quotes : List ℕ)
        → LaysOut 0 reads.are.siblings slots bytes quotes
        → slot_events reader.source
        (marked reader.options bytes (marks_by (length bytes) dressed.pairs)
        (quoted quotes (quote_characters [] (quotes_of reads.are.siblings)) slots) []) [] ≡ events }
{}

/// Slots that give the same events, whatever the kinds of their items are, still do so after the same characters and the same marks were
/// written into both.
pub fn like_slots_stay_like()
    ensures quotes { (source : List ℕ) (quotes characters : List ℕ) (slots others : List Slot)
        → AreLike source slots others
        → AreLike source (quoted quotes characters slots) (quoted quotes characters others) }
    ensures marks { (source : List ℕ) (options : Options) (bytes : List ℕ) (marks : List Mark)
        (slots others : List Slot) (begun : List ℕ) → AreLike source slots others
        → AreLike source (marked options bytes marks slots begun)
        (marked options bytes marks others begun) }
{}

/// The events of a list of siblings can be read from any slots that are like its own.
pub fn events_are_read_off_like_slots()
    ensures { (source : List ℕ) (options : Options) (siblings result : Inline)
        (so : IsDressedByRuns options siblings result)
        → (slots others : List Slot) (bytes quotes : List ℕ)
        → LaysOut 0 siblings others bytes quotes → AreLike source slots others
        → slot_events source
        (marked options bytes (marks_by (length bytes) so.pairs)
        (quoted quotes (quote_characters [] (quotes_of siblings)) slots) []) []
        ≡ inline_events source result }
{}
