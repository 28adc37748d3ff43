//! Theorems about the events of one leaf: whether there are any, and how they begin. They are the contract of a function that does nothing.

ghost use Rattle.std.specs.Prelude.{◌≡◌, ◌≢◌, List, [], length};
ghost use Rattle.cmark_grammar.specs.Event.{Ranged};
ghost use Rattle.cmark_grammar.specs.LeafReading.{Between, ReadsLeaf};
ghost use Rattle.cmark_grammar.specs.LeafText.{InTurn, Leaf};
ghost use Rattle.cmark_grammar.specs.Questions.{Exchange, IsNext};
ghost use Rattle.cmark_grammar.specs.Readers.{Reader};
ghost use Rattle.cmark_inline_model.specs.FirstEvents.{BeginWithEnd};
ghost use Rattle.cmark_inline_model.specs.TextPlaces.{text_of};

/// A leaf with a byte has an event (`some`). An empty leaf has no event (`none`); it puts no question and keeps the reference expansion
/// limit (`same`). The events of a leaf never begin with the end of an element (`first`).
pub fn a_leaf_with_a_byte_has_an_event()
    ensures some { (reader : Reader) (exchanges : List Exchange) (leaf : Leaf) (before : Between)
        (events : List Ranged) (after : Between) → InTurn 0 leaf.stretches (length reader.source)
        → ReadsLeaf reader (IsNext exchanges) leaf before events after → text_of reader leaf ≢ []
        → events ≢ [] }
    ensures none { (reader : Reader) (exchanges : List Exchange) (leaf : Leaf) (before : Between)
        (events : List Ranged) (after : Between) → InTurn 0 leaf.stretches (length reader.source)
        → ReadsLeaf reader (IsNext exchanges) leaf before events after → text_of reader leaf ≡ []
        → events ≡ [] }
    ensures same { (reader : Reader) (exchanges : List Exchange) (leaf : Leaf) (before : Between)
        (events : List Ranged) (after : Between) → InTurn 0 leaf.stretches (length reader.source)
        → ReadsLeaf reader (IsNext exchanges) leaf before events after → text_of reader leaf ≡ []
        → after ≡ before }
    ensures first { (reader : Reader) (exchanges : List Exchange) (leaf : Leaf) (before : Between)
        (events : List Ranged) (after : Between)
        → ReadsLeaf reader (IsNext exchanges) leaf before events after → ¬ BeginWithEnd events }
{}
