//! The kinds of nodes that items of a document's tree are.

ghost use Rattle.std.specs.Prelude.{◌≡◌, ℕ, List};
ghost use Rattle.cmark_block_walk.specs.Walking.{task_body, Drawn, is_list, is_synthesized, own_text_end};
ghost use Rattle.cmark_grammar.specs.BlockDocument.{BlockNode};
ghost use Rattle.cmark_grammar.specs.SpanDocuments.{is_leaf, is_cell};
ghost use Rattle.cmark_values.specs.declared.text.CowStr.{CowStr};
ghost use Rattle.cmark_grammar.specs.BlockReading.{is_title};

use cmark_items::{Item, ItemBody};

// Whether the box of a task marker is checked, if an item is one (GFM 5.3).
#[inline(always)]
pub(crate) fn task_of(item: Item) -> Option<bool>
    ensures { result ≡ task_body item.body }
{
    match item.body {
        ItemBody::TaskListMarker(is_checked) => Some(is_checked),
        _ => None,
    }
}

// Whether an item is a text that does not occur in the source.
#[inline(always)]
pub(crate) fn is_synthesized(item: Item) -> bool
    ensures { result ≡ is_synthesized item.body }
{
    matches!(
        item.body,
        ItemBody::SynthesizeText(_) | ItemBody::SynthesizeChar(_)
    )
}

// Whether an item is a leaf, whose lines have spans (CommonMark 4.2, 4.3 and 4.8, GFM 4.10).
#[inline(always)]
pub(crate) fn is_leaf(item: Item) -> bool
    ensures { (text : List ℕ) (texts : List CowStr) (node : BlockNode) → Drawn text texts item node
        → result ≡ is_leaf node.kind }
{
    match item.body {
        ItemBody::Paragraph => true,
        ItemBody::ParagraphOf(_) => true,
        ItemBody::TightParagraph => true,
        ItemBody::Heading(_) => true,
        ItemBody::AttributedHeading(_, _) => true,
        ItemBody::DefinitionListTitle => true,
        ItemBody::DefinitionListTitleOf(_) => true,
        ItemBody::TableCell => true,
        _ => false,
    }
}

// Whether an item is the cell of a table (GFM 4.10).
#[inline(always)]
pub(crate) fn is_cell(item: Item) -> bool
    ensures { (text : List ℕ) (texts : List CowStr) (node : BlockNode) → Drawn text texts item node
        → result ≡ is_cell node.kind }
{
    match item.body {
        ItemBody::TableCell => true,
        _ => false,
    }
}

// Whether an item is a definition list.
#[inline(always)]
pub(crate) fn is_list(item: Item) -> bool
    ensures { (text : List ℕ) (texts : List CowStr) (node : BlockNode) → Drawn text texts item node
        → result ≡ is_list node.kind }
{
    matches!(item.body, ItemBody::DefinitionList(_))
}

// Whether an item is a title in a definition list.
#[inline(always)]
pub(crate) fn is_title(item: Item) -> bool
    ensures { (text : List ℕ) (texts : List CowStr) (node : BlockNode) → Drawn text texts item node
        → result ≡ is_title node.kind }
{
    matches!(
        item.body,
        ItemBody::DefinitionListTitle | ItemBody::DefinitionListTitleOf(_)
    )
}

// The end of the text of a paragraph or a title that is one node with its only text: a byte offset of the source.
#[inline(always)]
pub(crate) fn own_text_end(item: Item) -> Option<usize>
    ensures { result ≡ own_text_end item.body }
{
    match item.body {
        ItemBody::ParagraphOf(text_end) => Some(text_end),
        ItemBody::DefinitionListTitleOf(text_end) => Some(text_end),
        _ => None,
    }
}
