//! A theorem over the grammar of blocks: the contract of a function with an empty body.

ghost use Rattle.std.specs.Prelude.{◌≡◌, ℕ, List};
ghost use Rattle.cmark_grammar.specs.Answers.{Lookup};
ghost use Rattle.cmark_grammar.specs.BlockDocument.{BlockDocument};
ghost use Rattle.cmark_grammar.specs.Derivation.{Derives};
ghost use Rattle.cmark_grammar.specs.Options.{Options};
ghost use Rattle.cmark_grammar.specs.References.{references};
ghost use Rattle.cmark_grammar.specs.SpanDocuments.{footnote_labels, segments};

pub use cmark_block_model::block_laws::{nodes_are_few, tables_are_rectangular};

/// A text has one document of blocks. Two documents that it derives have equal nodes, of equal kinds with equal data and ranges (`nodes`).
/// They have equal events and leaves in order (`tokens`), and equal tables of link reference definitions and of footnotes (`references`,
/// `footnotes`).
pub fn one_blocks()
    ensures nodes { (text : List ℕ) (options : Options) (lookup : Lookup)
        (first second : BlockDocument) → Derives text options lookup first
        → Derives text options lookup second → first ≡ second }
    ensures tokens { (text : List ℕ) (options : Options) (lookup : Lookup)
        (first second : BlockDocument) → Derives text options lookup first
        → Derives text options lookup second → segments first ≡ segments second }
    ensures references { (text : List ℕ) (options : Options) (lookup : Lookup)
        (first second : BlockDocument) → Derives text options lookup first
        → Derives text options lookup second → references first ≡ references second }
    ensures footnotes { (text : List ℕ) (options : Options) (lookup : Lookup)
        (first second : BlockDocument) → Derives text options lookup first
        → Derives text options lookup second → footnote_labels first ≡ footnote_labels second }
{}
