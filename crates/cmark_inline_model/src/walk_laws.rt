//! Theorems about the events of a document with any spans that nest in its leaves (`AreGiven`, of `LeafSpans`), as the spans of its reading
//! do. Each is the contract of a function that does nothing.

ghost use Rattle.std.specs.Prelude.{ℕ, List, IsUtf8, map};
ghost use Rattle.cmark_grammar.specs.Answers.{Lookup};
ghost use Rattle.cmark_block_model.specs.Balance.{Balanced};
ghost use Rattle.cmark_grammar.specs.BlockDocument.{BlockDocument};
ghost use Rattle.cmark_grammar.specs.Derivation.{Derives};
ghost use Rattle.cmark_grammar.specs.Event.{Ranged};
ghost use Rattle.cmark_inline_model.specs.LeafSpans.{AreGiven};
ghost use Rattle.cmark_grammar.specs.Options.{Options};
ghost use Rattle.cmark_grammar.specs.SpanDocuments.{segments};
ghost use Rattle.cmark_inline_model.specs.CharacterRanges.{CutNoCharacter, HaveRanges};
ghost use Rattle.cmark_inline_model.specs.ReadingRanges.{Matched};

/// The events of a walk that ends are balanced: each start is followed by its end, with its tag and its range.
pub fn walks_are_balanced()
    ensures matched { (text : List ℕ) (document : BlockDocument) (events : List Ranged)
        → AreGiven text (segments document) events → Matched events }
    ensures balanced { (text : List ℕ) (document : BlockDocument) (events : List Ranged)
        → AreGiven text (segments document) events → Balanced (map Ranged.event events) }
{}

/// Both ends of each range of a walk over a text's document are character boundaries of the text.
pub fn walks_cut_no_character()
    ensures { (text : List ℕ) (options : Options) (lookup : Lookup) (document : BlockDocument)
        (events : List Ranged) → IsUtf8 text → Derives text options lookup document
        → AreGiven text (segments document) events → CutNoCharacter text events }
{}

/// The ranges of the events of a text's blocks are inside the text, and both of their ends are character boundaries.
pub fn blocks_cut_no_character()
    ensures { (text : List ℕ) (options : Options) (lookup : Lookup) (document : BlockDocument)
        → IsUtf8 text → Derives text options lookup document → HaveRanges text (segments document) }
{}
