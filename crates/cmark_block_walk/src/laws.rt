//! A theorem over walks: the contract of a function with an empty body.

ghost use Rattle.std.specs.Prelude.{◌≡◌, List};
ghost use Rattle.cmark_grammar.specs.SpanDocuments.{Segment};
ghost use Rattle.cmark_block_walk.specs.declared.walk.Walk.{Walk};
ghost use Rattle.cmark_block_walk.specs.Walking.{Remains};

/// The rest of a walk is one list of events and leaves: the tree and the place of the walk determine it.
pub fn one_remainder()
    ensures { (walk : Walk) (first second : List Segment) → Remains walk first → Remains walk second
        → first ≡ second }
{}
