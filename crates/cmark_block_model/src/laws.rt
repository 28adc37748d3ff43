//! Theorems over the block pass. Each is the contract of a function with an empty body.

ghost use Rattle.std.specs.Prelude.{◌≡◌, ℕ, false, ◌+◌, ◌*◌, ◌≤◌, List, [], ◌++◌, length, IsUtf8, IsCharBoundary};
ghost use Rattle.cmark_grammar.specs.Answers.{Lookup};
ghost use Rattle.cmark_grammar.specs.BlockDocument.{BlockDocument, Reference};
ghost use Rattle.cmark_grammar.specs.BlockReading.{block_reading};
ghost use Rattle.cmark_grammar.specs.Derivation.{Derives};
ghost use Rattle.cmark_block_model.specs.DocumentModel.{document};
ghost use Rattle.cmark_block_model.specs.DrawnDocument.{settled, without_definitions};
ghost use Rattle.cmark_grammar.specs.Options.{Options};
ghost use Rattle.cmark_block_model.specs.Ranges.{AllAt, InOrder, count_tables};
ghost use Rattle.cmark_grammar.specs.References.{references};
ghost use Rattle.cmark_grammar.specs.SpanDocuments.{footnote_labels, segments};
ghost use Rattle.cmark_block_model.specs.BlockPass.{pass_over};
ghost use Rattle.cmark_block_model.specs.Tails.{document_after, pass_after};

/// The pass over a text draws the document that the text derives. After the paragraphs of tight lists are settled, the drawing is that
/// document without its link reference definitions, and no node is open. The references are the document's definitions. The labels of
/// footnotes are those that it defines, in order.
pub fn pass_draws_the_document()
    ensures drawn { (text : List ℕ) (options : Options) (lookup : Lookup)
        → settled false (pass_over text options lookup).drawing.here
        ≡ without_definitions (document text options lookup) }
    ensures closed { (text : List ℕ) (options : Options) (lookup : Lookup)
        → (pass_over text options lookup).drawing.up ≡ [] }
    ensures referred { (text : List ℕ) (options : Options) (lookup : Lookup)
        → (pass_over text options lookup).references ≡ references (document text options lookup) }
    ensures labelled { (text : List ℕ) (options : Options) (lookup : Lookup)
        → (pass_over text options lookup).footnotes
        ≡ footnote_labels (document text options lookup) }
{}

/// The pass over the rest of a text, from an offset on, draws the document of the lines there. Its references are the earlier definitions,
/// followed by those of this document, and so are its labels of footnotes. From offset 0 it is the pass over the text.
pub fn pass_draws_the_rest()
    ensures drawn { (text : List ℕ) (options : Options) (lookup : Lookup) (from : ℕ)
        (earlier : List Reference) (labels : List (List ℕ))
        → settled false (pass_after text options lookup from earlier labels).drawing.here
        ≡ without_definitions (document_after text options lookup from) }
    ensures closed { (text : List ℕ) (options : Options) (lookup : Lookup) (from : ℕ)
        (earlier : List Reference) (labels : List (List ℕ))
        → (pass_after text options lookup from earlier labels).drawing.up ≡ [] }
    ensures referred { (text : List ℕ) (options : Options) (lookup : Lookup) (from : ℕ)
        (earlier : List Reference) (labels : List (List ℕ))
        → (pass_after text options lookup from earlier labels).references
        ≡ earlier ++ references (document_after text options lookup from) }
    ensures labelled { (text : List ℕ) (options : Options) (lookup : Lookup) (from : ℕ)
        (earlier : List Reference) (labels : List (List ℕ))
        → (pass_after text options lookup from earlier labels).footnotes
        ≡ labels ++ footnote_labels (document_after text options lookup from) }
    ensures whole { (text : List ℕ) (options : Options) (lookup : Lookup)
        → pass_over text options lookup ≡ pass_after text options lookup 0 [] [] }
    ensures document { (text : List ℕ) (options : Options) (lookup : Lookup)
        → document_after text options lookup 0 ≡ document text options lookup }
{}

/// Leaving out the link reference definitions of a document does not change its events (CommonMark 4.7).
pub fn definitions_are_not_read()
    ensures { (document : BlockDocument)
        → block_reading (without_definitions document) ≡ block_reading document }
{}

/// The drawing of the pass over a text, with the paragraphs of tight lists settled, has the events and the leaves of the document that the
/// text derives. Its ranges are in order in the text, and begin and end at character boundaries.
pub fn drawing_is_read_as_the_document()
    ensures read { (text : List ℕ) (options : Options) (lookup : Lookup)
        → block_reading (settled false (pass_over text options lookup).drawing.here)
        ≡ block_reading (document text options lookup) }
    ensures leaves { (text : List ℕ) (options : Options) (lookup : Lookup)
        → segments (settled false (pass_over text options lookup).drawing.here)
        ≡ segments (document text options lookup) }
    ensures in_order { (text : List ℕ) (options : Options) (lookup : Lookup)
        → InOrder 0 (pass_over text options lookup).drawing.here (length text) }
    ensures uncut { (text : List ℕ) (options : Options) (lookup : Lookup)
        → IsUtf8 text → AllAt (IsCharBoundary text) (pass_over text options lookup).drawing.here }
{}

/// A document has at most eight events for each byte of its text, and at most twelve events and leaves. Cells that are filled in are not
/// counted there: each has two events and a leaf, and a table has at most 262,144 of them.
pub fn events_are_few()
    ensures events { (text : List ℕ) (options : Options) (lookup : Lookup)
        (document : BlockDocument) → Derives text options lookup document
        → length (block_reading document) ≤ 8 * length text + 524288 * count_tables document }
    ensures leaves { (text : List ℕ) (options : Options) (lookup : Lookup)
        (document : BlockDocument) → Derives text options lookup document
        → length (segments document) ≤ 12 * length text + 786432 * count_tables document }
{}
