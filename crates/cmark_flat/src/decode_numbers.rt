//! The values that the numbers in a record stand for.

ghost use Rattle.std.specs.Prelude.{option_map};
ghost use Rattle.cmark_flat.specs.Decode.{alignment_of, flag_of, level_of, link_of, metadata_of, plain_end, plain_tag, quote_of};
ghost use Rattle.cmark_flat.specs.Gives.{Reads};
ghost use Rattle.cmark_text.specs.Shown.{shown_end, shown_tag};
ghost use Rattle.cmark_values.specs.Shown.{level_number, shown_alignment, shown_block_quote_kind, shown_link_type, shown_metadata_block_kind};

use crate::numbers::*;
use cmark_text::{
    Alignment, BlockQuoteKind, HeadingLevel, LinkType, MetadataBlockKind, Tag, TagEnd,
};

/// A truth value.
pub fn flag_of(number: u8) -> Option<bool>
    ensures { Reads (λ x. x) result (flag_of number) }
{
    match number {
        NO => Some(false),
        YES => Some(true),
        _ => None,
    }
}

/// The level of a heading.
pub fn level_of(number: u8) -> Option<HeadingLevel>
    ensures { Reads level_number result (level_of number) }
{
    match number {
        1 => Some(HeadingLevel::H1),
        2 => Some(HeadingLevel::H2),
        3 => Some(HeadingLevel::H3),
        4 => Some(HeadingLevel::H4),
        5 => Some(HeadingLevel::H5),
        6 => Some(HeadingLevel::H6),
        _ => None,
    }
}

/// The alignment of a column.
pub fn alignment_of(number: u8) -> Option<Alignment>
    ensures { Reads shown_alignment result (alignment_of number) }
{
    match number {
        UNALIGNED_COLUMN => Some(Alignment::None),
        LEFT_COLUMN => Some(Alignment::Left),
        CENTER_COLUMN => Some(Alignment::Center),
        RIGHT_COLUMN => Some(Alignment::Right),
        _ => None,
    }
}

/// The kind of a block quote.
pub fn quote_of(number: u8) -> Option<Option<BlockQuoteKind>>
    ensures { Reads (λ x. option_map shown_block_quote_kind x) result (quote_of number) }
{
    match number {
        NO_ALERT_QUOTE => Some(None),
        NOTE_QUOTE => Some(Some(BlockQuoteKind::Note)),
        TIP_QUOTE => Some(Some(BlockQuoteKind::Tip)),
        IMPORTANT_QUOTE => Some(Some(BlockQuoteKind::Important)),
        WARNING_QUOTE => Some(Some(BlockQuoteKind::Warning)),
        CAUTION_QUOTE => Some(Some(BlockQuoteKind::Caution)),
        _ => None,
    }
}

/// The kind of a metadata block.
pub fn metadata_of(number: u8) -> Option<MetadataBlockKind>
    ensures { Reads shown_metadata_block_kind result (metadata_of number) }
{
    match number {
        YAML_METADATA => Some(MetadataBlockKind::YamlStyle),
        PLUSES_METADATA => Some(MetadataBlockKind::PlusesStyle),
        _ => None,
    }
}

/// The link type of a link or an image.
pub fn link_of(number: u8) -> Option<LinkType>
    ensures { Reads shown_link_type result (link_of number) }
{
    match number {
        INLINE_LINK => Some(LinkType::Inline),
        REFERENCE_LINK => Some(LinkType::Reference),
        REFERENCE_UNKNOWN_LINK => Some(LinkType::ReferenceUnknown),
        COLLAPSED_LINK => Some(LinkType::Collapsed),
        COLLAPSED_UNKNOWN_LINK => Some(LinkType::CollapsedUnknown),
        SHORTCUT_LINK => Some(LinkType::Shortcut),
        SHORTCUT_UNKNOWN_LINK => Some(LinkType::ShortcutUnknown),
        AUTOLINK_LINK => Some(LinkType::Autolink),
        EMAIL_LINK => Some(LinkType::Email),
        WIKILINK_LINK => Some(LinkType::WikiLink { has_pothole: false }),
        WIKILINK_WITH_POTHOLE_LINK => Some(LinkType::WikiLink { has_pothole: true }),
        _ => None,
    }
}

/// An element that has nothing but its tag.
pub fn plain_tag<'a>(number: u8) -> Option<Tag<'a>>
    ensures { Reads shown_tag result (plain_tag number) }
{
    match number {
        PARAGRAPH_TAG => Some(Tag::Paragraph),
        HTML_BLOCK_TAG => Some(Tag::HtmlBlock),
        ITEM_TAG => Some(Tag::Item),
        DEFINITION_LIST_TAG => Some(Tag::DefinitionList),
        DEFINITION_LIST_TITLE_TAG => Some(Tag::DefinitionListTitle),
        DEFINITION_LIST_DEFINITION_TAG => Some(Tag::DefinitionListDefinition),
        TABLE_HEAD_TAG => Some(Tag::TableHead),
        TABLE_ROW_TAG => Some(Tag::TableRow),
        TABLE_CELL_TAG => Some(Tag::TableCell),
        EMPHASIS_TAG => Some(Tag::Emphasis),
        STRONG_TAG => Some(Tag::Strong),
        STRIKETHROUGH_TAG => Some(Tag::Strikethrough),
        SUPERSCRIPT_TAG => Some(Tag::Superscript),
        SUBSCRIPT_TAG => Some(Tag::Subscript),
        HIGHLIGHT_TAG => Some(Tag::Highlight),
        _ => None,
    }
}

/// An end that has nothing but its tag.
pub fn plain_end(number: u8) -> Option<TagEnd>
    ensures { Reads shown_end result (plain_end number) }
{
    match number {
        PARAGRAPH_TAG => Some(TagEnd::Paragraph),
        CODE_BLOCK_TAG => Some(TagEnd::CodeBlock),
        HTML_BLOCK_TAG => Some(TagEnd::HtmlBlock),
        ITEM_TAG => Some(TagEnd::Item),
        FOOTNOTE_DEFINITION_TAG => Some(TagEnd::FootnoteDefinition),
        DEFINITION_LIST_TAG => Some(TagEnd::DefinitionList),
        DEFINITION_LIST_TITLE_TAG => Some(TagEnd::DefinitionListTitle),
        DEFINITION_LIST_DEFINITION_TAG => Some(TagEnd::DefinitionListDefinition),
        TABLE_TAG => Some(TagEnd::Table),
        TABLE_HEAD_TAG => Some(TagEnd::TableHead),
        TABLE_ROW_TAG => Some(TagEnd::TableRow),
        TABLE_CELL_TAG => Some(TagEnd::TableCell),
        EMPHASIS_TAG => Some(TagEnd::Emphasis),
        STRONG_TAG => Some(TagEnd::Strong),
        STRIKETHROUGH_TAG => Some(TagEnd::Strikethrough),
        SUPERSCRIPT_TAG => Some(TagEnd::Superscript),
        SUBSCRIPT_TAG => Some(TagEnd::Subscript),
        HIGHLIGHT_TAG => Some(TagEnd::Highlight),
        LINK_TAG => Some(TagEnd::Link),
        IMAGE_TAG => Some(TagEnd::Image),
        _ => None,
    }
}
