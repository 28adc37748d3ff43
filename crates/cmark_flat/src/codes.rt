//! The numbers of an event's parts.

ghost use Rattle.std.specs.Prelude.{◌≡◌, option_map};
ghost use Rattle.cmark_flat.specs.Flat.{alignment_number, code_number, end_datum, end_number, event_datum, event_tag, kind_number, link_number, list_number, metadata_number, quote_number, tag_datum, tag_number, yes_or_no};
ghost use Rattle.cmark_grammar.specs.LinkType.{WikiLink};
ghost use Rattle.cmark_text.specs.Short.{shown_plain};
ghost use Rattle.cmark_text.specs.Shown.{shown, shown_end, shown_tag};
ghost use Rattle.cmark_values.specs.Shown.{level_number, shown_alignment, shown_block_quote_kind, shown_code_block_kind, shown_link_type, shown_metadata_block_kind};

use crate::numbers::*;
use cmark_text::{
    Alignment, BlockQuoteKind, CodeBlockKind, Event, HeadingLevel, LinkType, MetadataBlockKind,
    PlainTag, Tag, TagEnd,
};

/// The kind of an event's record.
pub fn kind_number(event: &Event<'_>) -> u8
    ensures { result ≡ kind_number (shown event.now) }
{
    match event {
        Event::Start(_) => START_KIND,
        Event::End(_) => END_KIND,
        Event::Text(_) => TEXT_KIND,
        Event::Code(_) => CODE_KIND,
        Event::InlineMath(_) => INLINE_MATH_KIND,
        Event::DisplayMath(_) => DISPLAY_MATH_KIND,
        Event::Html(_) => HTML_KIND,
        Event::InlineHtml(_) => INLINE_HTML_KIND,
        Event::FootnoteReference(_) => FOOTNOTE_REFERENCE_KIND,
        Event::SoftBreak => SOFT_BREAK_KIND,
        Event::HardBreak => HARD_BREAK_KIND,
        Event::Rule => RULE_KIND,
        Event::TaskListMarker(_) => TASK_LIST_MARKER_KIND,
    }
}

/// The tag of an element.
pub fn tag_number(tag: &Tag<'_>) -> u8
    ensures { result ≡ tag_number (shown_tag tag.now) }
{
    match tag {
        Tag::Paragraph => PARAGRAPH_TAG,
        Tag::Heading { .. } => HEADING_TAG,
        Tag::BlockQuote(_) => BLOCK_QUOTE_TAG,
        Tag::CodeBlock(_) => CODE_BLOCK_TAG,
        Tag::HtmlBlock => HTML_BLOCK_TAG,
        Tag::List(_) => LIST_TAG,
        Tag::Item => ITEM_TAG,
        Tag::FootnoteDefinition(_) => FOOTNOTE_DEFINITION_TAG,
        Tag::DefinitionList => DEFINITION_LIST_TAG,
        Tag::DefinitionListTitle => DEFINITION_LIST_TITLE_TAG,
        Tag::DefinitionListDefinition => DEFINITION_LIST_DEFINITION_TAG,
        Tag::Table(_) => TABLE_TAG,
        Tag::TableHead => TABLE_HEAD_TAG,
        Tag::TableRow => TABLE_ROW_TAG,
        Tag::TableCell => TABLE_CELL_TAG,
        Tag::Emphasis => EMPHASIS_TAG,
        Tag::Strong => STRONG_TAG,
        Tag::Strikethrough => STRIKETHROUGH_TAG,
        Tag::Superscript => SUPERSCRIPT_TAG,
        Tag::Subscript => SUBSCRIPT_TAG,
        Tag::Highlight => HIGHLIGHT_TAG,
        Tag::Link { .. } => LINK_TAG,
        Tag::Image { .. } => IMAGE_TAG,
        Tag::MetadataBlock(_) => METADATA_BLOCK_TAG,
    }
}

/// The data of an element's start.
pub fn tag_datum(tag: &Tag<'_>) -> u8
    ensures { result ≡ tag_datum (shown_tag tag.now) }
{
    match tag {
        Tag::Heading { level, .. } => level_number(*level),
        Tag::BlockQuote(kind) => quote_number(*kind),
        Tag::CodeBlock(kind) => code_number(kind),
        Tag::List(first) => list_number(*first),
        Tag::Link { link_type, .. } => link_number(*link_type),
        Tag::Image { link_type, .. } => link_number(*link_type),
        Tag::MetadataBlock(kind) => metadata_number(*kind),
        _ => NO_DATA,
    }
}

/// The tag of an element that has no text of its own.
pub fn plain_number(tag: PlainTag) -> u8
    ensures { result ≡ tag_number (shown_plain tag) }
{
    match tag {
        PlainTag::Paragraph => PARAGRAPH_TAG,
        PlainTag::Heading(_) => HEADING_TAG,
        PlainTag::BlockQuote(_) => BLOCK_QUOTE_TAG,
        PlainTag::IndentedCode => CODE_BLOCK_TAG,
        PlainTag::HtmlBlock => HTML_BLOCK_TAG,
        PlainTag::List(_) => LIST_TAG,
        PlainTag::Item => ITEM_TAG,
        PlainTag::DefinitionList => DEFINITION_LIST_TAG,
        PlainTag::DefinitionListTitle => DEFINITION_LIST_TITLE_TAG,
        PlainTag::DefinitionListDefinition => DEFINITION_LIST_DEFINITION_TAG,
        PlainTag::TableHead => TABLE_HEAD_TAG,
        PlainTag::TableRow => TABLE_ROW_TAG,
        PlainTag::TableCell => TABLE_CELL_TAG,
        PlainTag::Emphasis => EMPHASIS_TAG,
        PlainTag::Strong => STRONG_TAG,
        PlainTag::Strikethrough => STRIKETHROUGH_TAG,
        PlainTag::Superscript => SUPERSCRIPT_TAG,
        PlainTag::Subscript => SUBSCRIPT_TAG,
        PlainTag::Highlight => HIGHLIGHT_TAG,
        PlainTag::MetadataBlock(_) => METADATA_BLOCK_TAG,
    }
}

/// The data of the start of an element that has no text of its own.
pub fn plain_datum(tag: PlainTag) -> u8
    ensures { result ≡ tag_datum (shown_plain tag) }
{
    match tag {
        PlainTag::Heading(level) => level_number(level),
        PlainTag::BlockQuote(kind) => quote_number(kind),
        PlainTag::IndentedCode => INDENTED_BLOCK,
        PlainTag::List(first) => list_number(first),
        PlainTag::MetadataBlock(kind) => metadata_number(kind),
        _ => NO_DATA,
    }
}

/// The tag of an element's end.
pub fn end_number(end: TagEnd) -> u8
    ensures { result ≡ end_number (shown_end end) }
{
    match end {
        TagEnd::Paragraph => PARAGRAPH_TAG,
        TagEnd::Heading(_) => HEADING_TAG,
        TagEnd::BlockQuote(_) => BLOCK_QUOTE_TAG,
        TagEnd::CodeBlock => CODE_BLOCK_TAG,
        TagEnd::HtmlBlock => HTML_BLOCK_TAG,
        TagEnd::List(_) => LIST_TAG,
        TagEnd::Item => ITEM_TAG,
        TagEnd::FootnoteDefinition => FOOTNOTE_DEFINITION_TAG,
        TagEnd::DefinitionList => DEFINITION_LIST_TAG,
        TagEnd::DefinitionListTitle => DEFINITION_LIST_TITLE_TAG,
        TagEnd::DefinitionListDefinition => DEFINITION_LIST_DEFINITION_TAG,
        TagEnd::Table => TABLE_TAG,
        TagEnd::TableHead => TABLE_HEAD_TAG,
        TagEnd::TableRow => TABLE_ROW_TAG,
        TagEnd::TableCell => TABLE_CELL_TAG,
        TagEnd::Emphasis => EMPHASIS_TAG,
        TagEnd::Strong => STRONG_TAG,
        TagEnd::Strikethrough => STRIKETHROUGH_TAG,
        TagEnd::Superscript => SUPERSCRIPT_TAG,
        TagEnd::Subscript => SUBSCRIPT_TAG,
        TagEnd::Highlight => HIGHLIGHT_TAG,
        TagEnd::Link => LINK_TAG,
        TagEnd::Image => IMAGE_TAG,
        TagEnd::MetadataBlock(_) => METADATA_BLOCK_TAG,
    }
}

/// The data of an element's end.
pub fn end_datum(end: TagEnd) -> u8
    ensures { result ≡ end_datum (shown_end end) }
{
    match end {
        TagEnd::Heading(level) => level_number(level),
        TagEnd::BlockQuote(kind) => quote_number(kind),
        TagEnd::List(is_ordered) => yes_or_no(is_ordered),
        TagEnd::MetadataBlock(kind) => metadata_number(kind),
        _ => NO_DATA,
    }
}

/// The tag of an event's record.
pub fn event_tag(event: &Event<'_>) -> u8
    ensures { result ≡ event_tag (shown event.now) }
{
    match event {
        Event::Start(tag) => tag_number(tag),
        Event::End(end) => end_number(*end),
        _ => NO_TAG,
    }
}

/// The data of an event's record.
pub fn event_datum(event: &Event<'_>) -> u8
    ensures { result ≡ event_datum (shown event.now) }
{
    match event {
        Event::Start(tag) => tag_datum(tag),
        Event::End(end) => end_datum(*end),
        Event::TaskListMarker(is_checked) => yes_or_no(*is_checked),
        _ => NO_DATA,
    }
}

/// The number of an alignment.
pub fn alignment_number(alignment: Alignment) -> u8
    ensures { result ≡ alignment_number (shown_alignment alignment) }
{
    match alignment {
        Alignment::None => UNALIGNED_COLUMN,
        Alignment::Left => LEFT_COLUMN,
        Alignment::Center => CENTER_COLUMN,
        Alignment::Right => RIGHT_COLUMN,
    }
}

/// The number of a level.
fn level_number(level: HeadingLevel) -> u8
    ensures { result ≡ level_number level }
{
    match level {
        HeadingLevel::H1 => 1,
        HeadingLevel::H2 => 2,
        HeadingLevel::H3 => 3,
        HeadingLevel::H4 => 4,
        HeadingLevel::H5 => 5,
        HeadingLevel::H6 => 6,
    }
}

/// The number of a block quote's kind.
fn quote_number(kind: Option<BlockQuoteKind>) -> u8
    ensures { result ≡ quote_number (option_map shown_block_quote_kind kind) }
{
    let Some(kind) = kind else {
        return NO_ALERT_QUOTE;
    };
    match kind {
        BlockQuoteKind::Note => NOTE_QUOTE,
        BlockQuoteKind::Tip => TIP_QUOTE,
        BlockQuoteKind::Important => IMPORTANT_QUOTE,
        BlockQuoteKind::Warning => WARNING_QUOTE,
        BlockQuoteKind::Caution => CAUTION_QUOTE,
    }
}

/// The number of a code block's kind.
fn code_number(kind: &CodeBlockKind<'_>) -> u8
    ensures { result ≡ code_number (shown_code_block_kind kind.now) }
{
    match kind {
        CodeBlockKind::Indented => INDENTED_BLOCK,
        CodeBlockKind::Fenced(_) => FENCED_BLOCK,
    }
}

/// The number of a list that has this first number, or none.
fn list_number(first: Option<u64>) -> u8
    ensures { result ≡ list_number first }
{
    match first {
        None => NO,
        Some(_) => YES,
    }
}

/// The number of a truth value.
fn yes_or_no(is_so: bool) -> u8
    ensures { result ≡ yes_or_no is_so }
{
    if is_so { YES } else { NO }
}

/// The number of a metadata block's kind.
fn metadata_number(kind: MetadataBlockKind) -> u8
    ensures { result ≡ metadata_number (shown_metadata_block_kind kind) }
{
    match kind {
        MetadataBlockKind::YamlStyle => YAML_METADATA,
        MetadataBlockKind::PlusesStyle => PLUSES_METADATA,
    }
}

/// The number of a link type.
pub fn link_number(link_type: LinkType) -> u8
    ensures { result ≡ link_number (shown_link_type link_type) }
{
    match link_type {
        LinkType::Inline => INLINE_LINK,
        LinkType::Reference => REFERENCE_LINK,
        LinkType::ReferenceUnknown => REFERENCE_UNKNOWN_LINK,
        LinkType::Collapsed => COLLAPSED_LINK,
        LinkType::CollapsedUnknown => COLLAPSED_UNKNOWN_LINK,
        LinkType::Shortcut => SHORTCUT_LINK,
        LinkType::ShortcutUnknown => SHORTCUT_UNKNOWN_LINK,
        LinkType::Autolink => AUTOLINK_LINK,
        LinkType::Email => EMAIL_LINK,
        LinkType::WikiLink { has_pothole } => wikilink_number(has_pothole),
    }
}

/// The number of a wikilink.
fn wikilink_number(has_pothole: bool) -> u8
    ensures { result ≡ link_number (WikiLink has_pothole) }
{
    if has_pothole {
        WIKILINK_WITH_POTHOLE_LINK
    } else {
        WIKILINK_LINK
    }
}
