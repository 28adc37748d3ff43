//! Theorems about the tokens of a leaf. Each is the contract of a function that does nothing. The tokens of a leaf are those of its text,
//! read as a leaf of one stretch, with offsets of the source.

ghost use Rattle.std.specs.Prelude.{◌≡◌, ◌≤◌, ◌<◌, ◌-◌, ℕ, suc, true, false, List, [], ◌∷◌, drop, length};
ghost use Rattle.cmark_grammar.specs.Answers.{Lookup};
ghost use Rattle.cmark_grammar.specs.BlockDocument.{BlockDocument};
ghost use Rattle.cmark_grammar.specs.Derivation.{Derives};
ghost use Rattle.cmark_grammar.specs.Event.{Text};
ghost use Rattle.cmark_grammar.specs.InlineTokens.{begins_at, from, item_at, read_on, token};
ghost use Rattle.cmark_grammar.specs.Items.{Item, Plain, Stands};
ghost use Rattle.cmark_grammar.specs.LeafReading.{Between, ReadsLeaf};
ghost use Rattle.cmark_grammar.specs.LeafText.{InTurn, Leaf};
ghost use Rattle.cmark_grammar.specs.Options.{Options};
ghost use Rattle.cmark_grammar.specs.Questions.{Exchange, IsNext};
ghost use Rattle.cmark_grammar.specs.Readers.{Reader};
ghost use Rattle.cmark_grammar.specs.SpanDocuments.{segments};
ghost use Rattle.cmark_grammar.specs.Tokens.{slice};
ghost use Rattle.cmark_inline_model.specs.LeafGaps.{HaveNoPipesBetween, HavePrefixesBetween};
ghost use Rattle.cmark_inline_model.specs.LeafModel.{HaveLineEnds};
ghost use Rattle.cmark_inline_model.specs.PlacedLeaves.{AreLeavesPlaced, StandWhole};
ghost use Rattle.cmark_inline_model.specs.PlainLines.{ArePlainLines, line_events};
ghost use Rattle.cmark_inline_model.specs.PlacedTokens.{AreLeafPlaces, HaveWholeEndings, IsParted, StandsUpTo, StopsAt, is_as_written, may_open_markup, one_stretch, placed, text_reader};
ghost use Rattle.cmark_inline_model.specs.TextPlaces.{place_in, text_of};

/// Each offset of the source divides the text of a leaf whose lines end with line endings.
pub fn places_part_the_text()
    ensures { (reader : Reader) (leaf : Leaf) (size : ℕ) → InTurn 0 leaf.stretches size
        → size ≤ length reader.source → HaveLineEnds reader.source leaf.stretches
        → HaveWholeEndings (text_of reader leaf) (place_in reader leaf)
        → AreLeafPlaces reader leaf (text_of reader leaf) (place_in reader leaf) }
{}

/// The stretches of the leaves of a text are in order, their lines end with whole line endings, and the bytes of their texts have offsets
/// in the source.
pub fn leaves_have_their_places()
    ensures { (reader : Reader) (options : Options) (lookup : Lookup)
        (document : BlockDocument) → Derives reader.source options lookup document
        → AreLeavesPlaced reader (segments document) }
{}

/// Between the lines of a leaf the source has only the prefixes of the containers around it, blanks and `>` (`prefixes`), so no pipe
/// (`pipes`).
pub fn no_pipe_stands_between_the_lines_of_a_leaf()
    ensures prefixes { (reader : Reader) (options : Options) (lookup : Lookup) (document : BlockDocument)
        → Derives reader.source options lookup document → HavePrefixesBetween reader (segments document) }
    ensures pipes { (reader : Reader) (options : Options) (lookup : Lookup) (document : BlockDocument)
        → Derives reader.source options lookup document → HaveNoPipesBetween reader (segments document) }
{}

/// The construct that begins at a byte's offset in the source is the one that begins at this byte of the text, with its ranges as offsets
/// of the source. This holds for each single byte (`begins`), and for texts of maximal length (`token`). Markup that is searched in the
/// source is excluded.
pub fn tokens_stand_in_their_places()
    ensures begins { (reader : Reader) (leaf : Leaf) (text : List ℕ) (place : ℕ → ℕ)
        → AreLeafPlaces reader leaf text place → (k : ℕ) → k ≤ length text
        → may_open_markup reader.options.email_autolinks (drop k text) ≡ false
        → begins_at reader leaf (place k)
        ≡ placed place
        (begins_at (text_reader reader.options reader.lookup text) (one_stretch leaf.is_cell text)
        k) }
    ensures token { (reader : Reader) (leaf : Leaf) (text : List ℕ) (place : ℕ → ℕ)
        → AreLeafPlaces reader leaf text place → (k : ℕ) → k ≤ length text
        → may_open_markup reader.options.email_autolinks (drop k text) ≡ false
        → token reader leaf (place k)
        ≡ placed place
        (token (text_reader reader.options reader.lookup text) (one_stretch leaf.is_cell text) k) }
{}

/// After any offset of the source reading continues at the first byte of the text that is not before this offset.
pub fn the_text_is_read_on_in_its_places()
    ensures { (reader : Reader) (leaf : Leaf) (text : List ℕ) (place : ℕ → ℕ)
        → AreLeafPlaces reader leaf text place → (x count : ℕ)
        → IsParted (length text) place x count
        → read_on reader leaf x
        ≡ place
        (read_on (text_reader reader.options reader.lookup text) (one_stretch leaf.is_cell text)
        count) }
{}

/// The bytes of a text, of an autolink, and of a tag without line ending have no gap in the source, and equal the bytes of the item in the
/// text. This holds for each single byte (`begins`), and for texts of maximal length (`token`).
pub fn texts_have_their_bytes_in_the_source()
    ensures begins { (reader : Reader) (leaf : Leaf) (text : List ℕ) (place : ℕ → ℕ)
        → AreLeafPlaces reader leaf text place → (k : ℕ)
        → may_open_markup reader.options.email_autolinks (drop k text) ≡ false
        → (x : Item) (resume : ℕ)
        → begins_at (text_reader reader.options reader.lookup text) (one_stretch leaf.is_cell text)
        k ≡ Stands x resume → is_as_written x.kind ≡ true
        → slice reader.source (place x.start) (suc (place (x.end - 1))) ≡ slice text x.start x.end }
    ensures token { (reader : Reader) (leaf : Leaf) (text : List ℕ) (place : ℕ → ℕ)
        → AreLeafPlaces reader leaf text place → (k : ℕ)
        → may_open_markup reader.options.email_autolinks (drop k text) ≡ false
        → (x : Item) (resume : ℕ)
        → token (text_reader reader.options reader.lookup text) (one_stretch leaf.is_cell text) k
        ≡ Stands x resume → is_as_written x.kind ≡ true
        → slice reader.source (place x.start) (suc (place (x.end - 1))) ≡ slice text x.start x.end }
{}

/// Bytes that are plain text, without a gap, are one text up to an offset at which no plain byte begins.
pub fn bytes_that_stand_for_themselves_are_one_text()
    ensures { (reader : Reader) (leaf : Leaf) (at start end to : ℕ)
        → begins_at reader leaf at ≡ item_at Plain start end → end ≤ to
        → to - end ≤ length (from reader leaf end)
        → ((k : ℕ) → end ≤ k → k < to → StandsUpTo reader leaf k to) → StopsAt reader leaf to
        → token reader leaf at ≡ item_at Plain start to }
{}

/// A leaf of one line whose bytes are all plain text is read as one text, and no question is put.
pub fn a_plain_line_is_read_as_one_text()
    ensures { (reader : Reader) (all : List Exchange) (leaf : Leaf) (before : Between)
        (start end : ℕ) → leaf.stretches ≡ record { start = start; end = end } ∷ [] → start < end
        → end ≤ length reader.source
        → StandWhole reader.options reader.lookup leaf.is_cell (slice reader.source start end)
        → ReadsLeaf reader (IsNext all) leaf before
        (record { event = Text (slice reader.source start end); start = start; end = end } ∷ [])
        before }
{}

/// A leaf whose text consists of several plain lines is read as the texts of the lines, with a soft break at each line feed between two
/// lines. No question is put.
pub fn plain_lines_are_read_as_texts_and_soft_breaks()
    ensures { (reader : Reader) (all : List Exchange) (leaf : Leaf) (before : Between)
        → (start end : ℕ) (lines : List (List ℕ)) (last : List ℕ)
        → leaf.stretches ≡ record { start = start; end = end } ∷ [] → end ≤ length reader.source
        → (let text = slice reader.source start end in
        ArePlainLines reader.options reader.lookup leaf.is_cell text 0 lines last)
        → ReadsLeaf reader (IsNext all) leaf before (line_events start lines last) before }
{}
