//! The reading of an item of a document's tree: an event, or the tag and the end of an element.

ghost use Rattle.std.specs.Prelude.{◌≡◌, Bool, true, List, IfOk, option_map, Some};
ghost use Rattle.cmark_tree.specs.Zip.{Zip};
ghost use Rattle.cmark_grammar.specs.BlockDocument.{BlockNode};
ghost use Rattle.cmark_grammar.specs.BlockReading as reads;
ghost use Rattle.cmark_grammar.specs.BlockReading.{read_as};
ghost use Rattle.cmark_block_model.specs.DrawnDocument.{kind_within};
ghost use Rattle.cmark_block_walk.specs.Reads.{tag_in, end_in};
ghost use Rattle.cmark_block_walk.specs.Walking.{Drawn, IsDrawn, Outer, StandsBelow, IsBelow, tight_below, text_of, texts_of, is_synthesized, has_texts};
ghost use Rattle.cmark_text.specs.Shown.{shown, shown_tag, shown_end};
ghost use Rattle.cmark_values.specs.Shown.{level_number};
ghost use Rattle.cmark_text.specs.ZeroCopy.{IsZeroCopy};
ghost use Rattle.cmark_grammar.specs.Attributes.{attributes_of};
ghost use Rattle.cmark_grammar.specs.Tag.{Heading, Table};
ghost use Rattle.cmark_items.specs.ItemNodes.{columns_of, list_number};
ghost use Rattle.cmark_grammar.specs.Tables.{delimiter_row};

use crate::walk::Walk;
use bitflags::Flags;
use cmark_items::{HeadingAttributes, Item, ItemBody};
use cmark_scan_lines::scan_table_head;
use cmark_text::{CodeBlockKind, CowStr, Event, HeadingLevel, Tag, TagEnd};
use std::alloc::{AllocError, Global};

impl<'a> Walk<'a> {
    // The event of a text that does not occur in the source, for example of the spaces that are left of a tab.
    pub(crate) fn synthesized(&self, item: Item) -> Result<Event<'a>, AllocError>
        requires drawn { IsDrawn self.now item }
        requires synthesized { is_synthesized item.body ≡ true }
        ensures value { IfOk result
            (λ made. (tight : Bool) (node : BlockNode)
            → Drawn self.now.text.now (texts_of self.now) item node
            → reads.Alone (shown made) ≡ read_as (kind_within tight node.kind)) }
        ensures lent { IfOk result
            (λ made. IsZeroCopy (text_of self.now) made item.start item.end) }
    {
        let text = match item.body {
            ItemBody::SynthesizeText(index) => self.allocations[index].clone(self.alloc)?,
            ItemBody::SynthesizeChar(c) => CowStr::from(c),
            // The caller passes no other item.
            _ => CowStr::Borrowed(""),
        };
        let part = &self.text[item.start..item.end];
        let Ok(text) = text.lent_by(self.alloc, part) else {
            return Err(AllocError);
        };
        Ok(Event::Text(text))
    }

    // The tag of an element that has a text of its own.
    pub(crate) fn tag_with_texts(&self, item: Item) -> Result<Tag<'a>, AllocError>
        requires below { IsBelow self.now }
        requires drawn { IsDrawn self.now item }
        requires texts { has_texts item.body ≡ true }
        ensures { IfOk result
            (λ tag. (z : Zip Item) (above : List Outer) (node : BlockNode)
            → StandsBelow self.now z above → Drawn self.now.text.now (texts_of self.now) item node
            → Some (shown_tag tag) ≡ tag_in (read_as (kind_within (tight_below above) node.kind))) }
    {
        match item.body {
            ItemBody::AttributedHeading(level, index) => {
                let words = self.allocations[index].as_str();
                heading(self.alloc, level, words)
            }
            ItemBody::FencedCodeBlock(index) => {
                let Ok(info) = self.allocations[index].clone(self.alloc) else {
                    return Err(AllocError);
                };
                Ok(Tag::CodeBlock(CodeBlockKind::Fenced(info)))
            }
            ItemBody::Table(index) => {
                let row = self.allocations[index].as_str();
                table(self.alloc, row)
            }
            ItemBody::FootnoteDefinition(index) => {
                let Ok(label) = self.allocations[index].clone(self.alloc) else {
                    return Err(AllocError);
                };
                Ok(Tag::FootnoteDefinition(label))
            }
            // The caller passes no other item.
            _ => Ok(Tag::Paragraph),
        }
    }

    // The end of an element that has a text of its own.
    #[inline(always)]
    pub(crate) fn end(&self, item: Item) -> Option<TagEnd>
        requires below { IsBelow self.now }
        ensures { (z : Zip Item) (above : List Outer) (node : BlockNode)
            → StandsBelow self.now z above → Drawn self.now.text.now (texts_of self.now) item node
            → option_map shown_end result
            ≡ end_in (read_as (kind_within (tight_below above) node.kind)) }
    {
        match item.body {
            ItemBody::Paragraph | ItemBody::ParagraphOf(_) => {
                if self.is_tight() {
                    None
                } else {
                    Some(TagEnd::Paragraph)
                }
            }
            ItemBody::Heading(level) | ItemBody::AttributedHeading(level, _) => {
                Some(TagEnd::Heading(level))
            }
            ItemBody::IndentCodeBlock => Some(TagEnd::CodeBlock),
            ItemBody::FencedCodeBlock(_) => Some(TagEnd::CodeBlock),
            ItemBody::HtmlBlock => Some(TagEnd::HtmlBlock),
            ItemBody::Table(_) => Some(TagEnd::Table),
            ItemBody::TableHead => Some(TagEnd::TableHead),
            ItemBody::TableRow => Some(TagEnd::TableRow),
            ItemBody::TableCell => Some(TagEnd::TableCell),
            ItemBody::MetadataBlock(kind) => Some(TagEnd::MetadataBlock(kind)),
            ItemBody::BlockQuote(kind) => Some(TagEnd::BlockQuote(kind)),
            ItemBody::List(_, delimiter, number) => {
                Some(TagEnd::List(first_number(delimiter, number).is_some()))
            }
            ItemBody::ListItem(_) => Some(TagEnd::Item),
            ItemBody::DefinitionList(_) => Some(TagEnd::DefinitionList),
            ItemBody::DefinitionListTitle | ItemBody::DefinitionListTitleOf(_) => {
                Some(TagEnd::DefinitionListTitle)
            }
            ItemBody::DefinitionListDefinition(_) => Some(TagEnd::DefinitionListDefinition),
            ItemBody::FootnoteDefinition(_) => Some(TagEnd::FootnoteDefinition),
            _ => None,
        }
    }

    // Whether a paragraph among the current siblings is directly in an item or a definition of a tight list (CommonMark 5.3). In a document
    // the parent of these is a list, so only two nodes are examined.
    #[inline(always)]
    pub(crate) fn is_tight(&self) -> bool
        requires { IsBelow self.now }
        ensures { (z : Zip Item) (above : List Outer) → StandsBelow self.now z above
            → result ≡ tight_below above }
    {
        let mut parents = self.tree.walk_spine();
        while let Some(ix) = parents.next_back() {
            match self.tree.item(*ix).body {
                ItemBody::List(flags, _, _) => return flags.bits() % 2 == 1,
                ItemBody::DefinitionList(flags) => return flags.bits() % 2 == 1,
                ItemBody::ListItem(_) | ItemBody::DefinitionListDefinition(_) => {}
                _ => return false,
            }
        }
        false
    }
}

// The tag of a heading with these words between the braces of its attributes.
fn heading<'a>(alloc: Global, level: HeadingLevel, words: &str) -> Result<Tag<'a>, AllocError>
    ensures { IfOk result
        (λ tag. shown_tag tag ≡ Heading (level_number level) (attributes_of words.now)) }
{
    let HeadingAttributes { id, classes, attrs } = HeadingAttributes::read(alloc, words)?;
    Ok(Tag::Heading {
        level,
        id,
        classes,
        attrs,
    })
}

// The tag of a table with this delimiter row (GFM 4.10).
fn table<'a>(alloc: Global, row: &str) -> Result<Tag<'a>, AllocError>
    ensures { IfOk result (λ tag. shown_tag tag ≡ Table (columns_of (delimiter_row row.now))) }
{
    match scan_table_head(alloc, row.as_bytes())? {
        Some(alignments) => Ok(Tag::Table(alignments)),
        None => Ok(Tag::Table(Vec::new(alloc))),
    }
}

// The number of the first item of a list with this character, if it is ordered (CommonMark 5.2).
#[inline(always)]
pub(crate) fn first_number(delimiter: u8, number: u64) -> Option<u64>
    ensures { result ≡ list_number delimiter number }
{
    if delimiter == b'.' || delimiter == b')' {
        Some(number)
    } else {
        None
    }
}
