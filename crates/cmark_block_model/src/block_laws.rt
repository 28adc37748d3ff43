//! Theorems over the block grammar. Each is the contract of a function with an empty body.

ghost use Rattle.std.specs.Prelude.{◌≡◌, ℕ, false, ◌+◌, ◌*◌, ◌≤◌, List, length, map, IsUtf8, IsCharBoundary};
ghost use Rattle.cmark_grammar.specs.Answers.{Lookup};
ghost use Rattle.cmark_block_model.specs.Balance.{Balanced};
ghost use Rattle.cmark_grammar.specs.BlockDocument.{BlockDocument, Reference};
ghost use Rattle.cmark_grammar.specs.BlockReading.{block_reading};
ghost use Rattle.cmark_grammar.specs.Blocks.{Blocks, Body};
ghost use Rattle.cmark_block_model.specs.BlocksByLine.{blocks_by_line};
ghost use Rattle.cmark_block_model.specs.BlocksModel.{blocks};
ghost use Rattle.cmark_grammar.specs.Derivation.{Derives};
ghost use Rattle.cmark_block_model.specs.DocumentModel.{document};
ghost use Rattle.cmark_grammar.specs.Event.{Ranged};
ghost use Rattle.cmark_block_model.specs.MetadataPlaces.{HasMetadataOutside};
ghost use Rattle.cmark_grammar.specs.Options.{Options};
ghost use Rattle.cmark_grammar.specs.Places.{Apart};
ghost use Rattle.cmark_block_model.specs.Ranges.{AllAt, HasSlices, InOrder, count_nodes, count_tables};
ghost use Rattle.cmark_grammar.specs.References.{first_with};
ghost use Rattle.cmark_block_model.specs.ReferenceTable.{EachOnce, table};
ghost use Rattle.cmark_grammar.specs.Rows.{rows};
ghost use Rattle.cmark_block_model.specs.TableShape.{HasRectangularTables};
ghost use Rattle.cmark_block_model.specs.Tightness.{HasTightParagraphs};

/// The model's blocks are the blocks of the text's lines.
pub fn blocks_are_derived()
    ensures { (options : Options) (text : List ℕ)
        → Body options Apart (rows text) (blocks options text) }
{}

/// A text has one block structure: all blocks of its lines equal the model's.
pub fn one_block_structure()
    ensures { (options : Options) (text : List ℕ) (structure : Blocks)
        → Body options Apart (rows text) structure → structure ≡ blocks options text }
{}

/// Metadata blocks are outside of all containers (this profile's own).
pub fn metadata_stands_outside_of_containers()
    ensures { (options : Options) (text : List ℕ) (structure : Blocks)
        → Body options Apart (rows text) structure → HasMetadataOutside structure }
{}

/// The model's document of a text is derived from it, so that each text derives a document.
pub fn block_document_is_derived()
    ensures { (text : List ℕ) (options : Options) (lookup : Lookup)
        → Derives text options lookup (document text options lookup) }
{}

/// A text derives one document: two documents that it derives have equal nodes, with equal data, ranges and tokens.
pub fn one_block_document()
    ensures { (text : List ℕ) (options : Options) (lookup : Lookup) (first second : BlockDocument)
        → Derives text options lookup first → Derives text options lookup second → first ≡ second }
{}

/// A text has one reading: two documents that it derives have equal events with equal ranges.
pub fn one_block_reading()
    ensures { (text : List ℕ) (options : Options) (lookup : Lookup) (first second : BlockDocument)
        → Derives text options lookup first
        → Derives text options lookup second → block_reading first ≡ block_reading second }
{}

/// The events of a document are balanced: each start has its end after it, with its tag.
pub fn block_reading_is_balanced()
    ensures { (document : BlockDocument) → Balanced (map Ranged.event (block_reading document)) }
{}

/// The blocks do not change if lines are judged one by one, and blank lines wait until a later line shows whether they belong to code.
pub fn lines_give_the_blocks()
    ensures { (options : Options) (text : List ℕ)
        → blocks_by_line options text ≡ blocks options text }
{}

/// A paragraph directly in an item of a tight list is not an element; every other paragraph is one.
pub fn tight_lists_have_tight_paragraphs()
    ensures { (text : List ℕ) (options : Options) (lookup : Lookup) (document : BlockDocument)
        → Derives text options lookup document → HasTightParagraphs false document }
{}

/// Each table has a head and rows, whose number of cells is the table's number of alignments (GFM 4.10).
pub fn tables_are_rectangular()
    ensures { (text : List ℕ) (options : Options) (lookup : Lookup) (document : BlockDocument)
        → Derives text options lookup document → HasRectangularTables document }
{}

/// The first definition of a folded label stays: for each label the table has the definition that is first in the list of all definitions.
pub fn first_definition_stays()
    ensures first { (fold : List ℕ → List ℕ) (folded : List ℕ) (references : List Reference)
        → first_with fold folded (table fold references) ≡ first_with fold folded references }
    ensures once { (fold : List ℕ → List ℕ) (references : List Reference)
        → EachOnce fold (table fold references) }
{}

/// The ranges of a document are in its text: siblings are in order without overlap, and a child is within its parent.
pub fn ranges_are_in_order()
    ensures { (text : List ℕ) (options : Options) (lookup : Lookup) (document : BlockDocument)
        → Derives text options lookup document → InOrder 0 document (length text) }
{}

/// The ranges of a document begin and end at character boundaries.
pub fn ranges_cut_no_character()
    ensures { (text : List ℕ) (options : Options) (lookup : Lookup) (document : BlockDocument)
        → IsUtf8 text → Derives text options lookup document
        → AllAt (IsCharBoundary text) document }
{}

/// A document has at most four nodes for each byte of its text, and 262,144 more for each of its tables: the cells that are filled in.
/// There are no more tables than bytes.
pub fn nodes_are_few()
    ensures nodes { (text : List ℕ) (options : Options) (lookup : Lookup) (document : BlockDocument)
        → Derives text options lookup document
        → count_nodes document ≤ 4 * length text + 262144 * count_tables document }
    ensures tables { (text : List ℕ) (options : Options) (lookup : Lookup)
        (document : BlockDocument) → Derives text options lookup document
        → count_tables document ≤ length text }
{}

/// A text that is not owned, and an HTML line, is the slice of its range.
pub fn texts_are_slices()
    ensures { (text : List ℕ) (options : Options) (lookup : Lookup) (document : BlockDocument)
        → Derives text options lookup document → HasSlices text document }
{}
