//! Theorems about the definitions of emphasis. Each is the contract of a function that does nothing.

ghost use Rattle.std.specs.Prelude.{◌≡◌, List};
ghost use Rattle.cmark_grammar.specs.Emphasis.{IsEmphasis, Pair, Run, Sibling, StandFrom, agrees, places_taken};
ghost use Rattle.cmark_inline_model.specs.EmphasisModel.{pairs_of, spans_of};
ghost use Rattle.cmark_grammar.specs.Spans.{Spans, TakePlaces};
ghost use Rattle.cmark_emphasis.specs.Classes.{IsClosing, IsLike};

/// The model's pairs and spans are the emphasis of the siblings.
pub fn emphasis_is_derived()
    ensures { (siblings : List Sibling)
        → IsEmphasis siblings (pairs_of siblings) (spans_of siblings) }
{}

/// Siblings have exactly one emphasis, the one of the model.
pub fn one_emphasis()
    ensures { (siblings : List Sibling) (pairs : List Pair) (spans : Spans)
        → IsEmphasis siblings pairs spans → (pairs ≡ pairs_of siblings)
        × (spans ≡ spans_of siblings) }
{}

/// The spans of siblings cover the siblings. Each sibling keeps its index, on its own or as one of the bytes that open and close a span. A
/// span reaches from the first byte that opens it to the last byte that closes it.
pub fn spans_take_the_places()
    ensures { (siblings : List Sibling) → StandFrom 0 siblings
        → TakePlaces 0 (spans_of siblings) (places_taken siblings) }
{}

/// An open run agrees with all closing runs of a class, or with none. For `*`, and for `_`, a class is given by the length modulo 3 and by
/// whether the run can also open. So if an open run does not agree with one closing run, it agrees with no run of its class.
pub fn a_class_agrees_alike()
    ensures { (opener first second : Run) → IsLike first second → IsClosing first → IsClosing second
        → agrees opener second ≡ agrees opener first }
{}
