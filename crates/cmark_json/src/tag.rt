//! Tags and their ends as JSON.

ghost use Rattle.std.specs.Prelude.{◌≡◌, IfOk, codes, option_map};
ghost use Rattle.cmark_text.specs.Short.{shown_plain};
ghost use Rattle.cmark_text.specs.Shown.{shown_end, shown_tag};
ghost use Rattle.cmark_values.specs.Shown.{level_number, shown_attributes, shown_block_quote_kind, shown_code_block_kind, shown_linked};
ghost use Rattle.cmark_json.specs.EventData.{code_kind_data, end_data, heading, linked, named, quote_kind_data, tag_data, with_one};
ghost use Rattle.serde_json.specs.View.{view};

use crate::leaf;
use cmark_text::{
    BlockQuoteKind, CodeBlockKind, CowStr, HeadingLevel, LinkType, PlainTag, Tag, TagEnd,
};
use serde_json::Value;
use std::alloc::{AllocError, Global};

/// A tag.
pub fn tag_value(alloc: Global, tag: &Tag<'_>) -> Result<Value, AllocError>
    ensures { IfOk result (λ v. view v ≡ tag_data (shown_tag tag.now)) }
{
    if let Some(plain) = tag.plain() {
        return plain_value(alloc, plain);
    }
    match tag {
        Tag::Heading {
            level,
            id,
            classes,
            attrs,
        } => heading_value(alloc, *level, id, classes.as_slice(), attrs.as_slice()),
        Tag::CodeBlock(kind) => code_block_value(alloc, kind),
        Tag::FootnoteDefinition(label) => {
            leaf::with_text(alloc, "FootnoteDefinition", label.as_str())
        }
        Tag::Table(columns) => {
            let columns = leaf::alignments(alloc, columns.as_slice())?;
            leaf::with_one(alloc, "Table", columns)
        }
        Tag::Link {
            link_type,
            dest_url,
            title,
            id,
        } => linked_value(alloc, "Link", *link_type, dest_url, title, id),
        Tag::Image {
            link_type,
            dest_url,
            title,
            id,
        } => linked_value(alloc, "Image", *link_type, dest_url, title, id),
        _ => unreachable!(),
    }
}

/// The tag of an element that has no text of its own.
fn plain_value(alloc: Global, tag: PlainTag) -> Result<Value, AllocError>
    ensures { IfOk result (λ v. view v ≡ tag_data (shown_plain tag)) }
{
    match tag {
        PlainTag::Paragraph => leaf::alone(alloc, "Paragraph"),
        PlainTag::Heading(level) => heading_value(alloc, level, &None, &[], &[]),
        PlainTag::BlockQuote(kind) => block_quote_value(alloc, kind),
        PlainTag::IndentedCode => code_block_value(alloc, &CodeBlockKind::Indented),
        PlainTag::HtmlBlock => leaf::alone(alloc, "HtmlBlock"),
        PlainTag::List(first) => leaf::with_one(alloc, "List", leaf::number_or_null(first)),
        PlainTag::Item => leaf::alone(alloc, "Item"),
        PlainTag::DefinitionList => leaf::alone(alloc, "DefinitionList"),
        PlainTag::DefinitionListTitle => leaf::alone(alloc, "DefinitionListTitle"),
        PlainTag::DefinitionListDefinition => leaf::alone(alloc, "DefinitionListDefinition"),
        PlainTag::TableHead => leaf::alone(alloc, "TableHead"),
        PlainTag::TableRow => leaf::alone(alloc, "TableRow"),
        PlainTag::TableCell => leaf::alone(alloc, "TableCell"),
        PlainTag::Emphasis => leaf::alone(alloc, "Emphasis"),
        PlainTag::Strong => leaf::alone(alloc, "Strong"),
        PlainTag::Strikethrough => leaf::alone(alloc, "Strikethrough"),
        PlainTag::Superscript => leaf::alone(alloc, "Superscript"),
        PlainTag::Subscript => leaf::alone(alloc, "Subscript"),
        PlainTag::Highlight => leaf::alone(alloc, "Highlight"),
        PlainTag::MetadataBlock(kind) => {
            leaf::with_text(alloc, "MetadataBlock", leaf::metadata_kind_name(kind))
        }
    }
}

/// The tag of a block quote, or its end.
fn block_quote_value(alloc: Global, kind: Option<BlockQuoteKind>) -> Result<Value, AllocError>
    ensures { let quote = quote_kind_data (option_map shown_block_quote_kind kind) in
        IfOk result (λ v. view v ≡ with_one (codes "BlockQuote") quote) }
{
    let kind = leaf::quote_kind(alloc, kind)?;
    leaf::with_one(alloc, "BlockQuote", kind)
}

/// The tag of a code block.
fn code_block_value(alloc: Global, kind: &CodeBlockKind<'_>) -> Result<Value, AllocError>
    ensures { let code = code_kind_data (shown_code_block_kind kind.now) in
        IfOk result (λ v. view v ≡ with_one (codes "CodeBlock") code) }
{
    let kind = leaf::code_kind(alloc, kind)?;
    leaf::with_one(alloc, "CodeBlock", kind)
}

/// The tag of a heading.
fn heading_value(
    alloc: Global,
    level: HeadingLevel,
    id: &Option<CowStr<'_>>,
    classes: &[CowStr<'_>],
    attrs: &[(CowStr<'_>, Option<CowStr<'_>>)],
) -> Result<Value, AllocError>
    ensures { let attributes = shown_attributes id.now classes.now attrs.now in
        IfOk result (λ v. view v
        ≡ named (codes "Heading") (heading (level_number level) attributes)) }
{
    // Each part is pushed as soon as it is made, so that only one value has to be dropped if memory is refused.
    let mut parts = Vec::new(alloc);
    leaf::push_text(&mut parts, alloc, "Heading")?;
    leaf::push(&mut parts, Value::from(level_value(level)))?;
    leaf::push(&mut parts, leaf::text_or_null(alloc, id)?)?;
    leaf::push(&mut parts, leaf::texts(alloc, classes)?)?;
    leaf::push(&mut parts, leaf::attributes(alloc, attrs)?)?;
    Ok(Value::Array(parts))
}

/// The number of a level.
fn level_value(level: HeadingLevel) -> u64
    ensures { result ≡ level_number level }
{
    match level {
        HeadingLevel::H1 => 1,
        HeadingLevel::H2 => 2,
        HeadingLevel::H3 => 3,
        HeadingLevel::H4 => 4,
        HeadingLevel::H5 => 5,
        HeadingLevel::H6 => 6,
    }
}

/// The tag of a link or an image.
fn linked_value(
    alloc: Global,
    name: &str,
    link_type: LinkType,
    dest_url: &CowStr<'_>,
    title: &CowStr<'_>,
    id: &CowStr<'_>,
) -> Result<Value, AllocError>
    ensures { IfOk result (λ v. view v
        ≡ named name.now (linked (shown_linked link_type dest_url.now title.now id.now))) }
{
    let mut parts = Vec::new(alloc);
    leaf::push_text(&mut parts, alloc, name)?;
    leaf::push(&mut parts, leaf::link_type(alloc, link_type)?)?;
    leaf::push_text(&mut parts, alloc, dest_url.as_str())?;
    leaf::push_text(&mut parts, alloc, title.as_str())?;
    leaf::push_text(&mut parts, alloc, id.as_str())?;
    Ok(Value::Array(parts))
}

/// The end of a tag.
pub fn end_value(alloc: Global, tag: TagEnd) -> Result<Value, AllocError>
    ensures { IfOk result (λ v. view v ≡ end_data (shown_end tag)) }
{
    match tag {
        TagEnd::Paragraph => leaf::alone(alloc, "Paragraph"),
        TagEnd::Heading(level) => {
            leaf::with_one(alloc, "Heading", Value::from(level_value(level)))
        }
        TagEnd::BlockQuote(kind) => block_quote_value(alloc, kind),
        TagEnd::CodeBlock => leaf::alone(alloc, "CodeBlock"),
        TagEnd::HtmlBlock => leaf::alone(alloc, "HtmlBlock"),
        TagEnd::List(is_ordered) => leaf::with_one(alloc, "List", Value::Bool(is_ordered)),
        TagEnd::Item => leaf::alone(alloc, "Item"),
        TagEnd::FootnoteDefinition => leaf::alone(alloc, "FootnoteDefinition"),
        TagEnd::DefinitionList => leaf::alone(alloc, "DefinitionList"),
        TagEnd::DefinitionListTitle => leaf::alone(alloc, "DefinitionListTitle"),
        TagEnd::DefinitionListDefinition => leaf::alone(alloc, "DefinitionListDefinition"),
        TagEnd::Table => leaf::alone(alloc, "Table"),
        TagEnd::TableHead => leaf::alone(alloc, "TableHead"),
        TagEnd::TableRow => leaf::alone(alloc, "TableRow"),
        TagEnd::TableCell => leaf::alone(alloc, "TableCell"),
        TagEnd::Emphasis => leaf::alone(alloc, "Emphasis"),
        TagEnd::Strong => leaf::alone(alloc, "Strong"),
        TagEnd::Strikethrough => leaf::alone(alloc, "Strikethrough"),
        TagEnd::Superscript => leaf::alone(alloc, "Superscript"),
        TagEnd::Subscript => leaf::alone(alloc, "Subscript"),
        TagEnd::Highlight => leaf::alone(alloc, "Highlight"),
        TagEnd::Link => leaf::alone(alloc, "Link"),
        TagEnd::Image => leaf::alone(alloc, "Image"),
        TagEnd::MetadataBlock(kind) => {
            leaf::with_text(alloc, "MetadataBlock", leaf::metadata_kind_name(kind))
        }
    }
}
