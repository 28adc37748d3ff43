//! The contents of tags and events as JSON.

ghost use Rattle.std.specs.Prelude.{◌≡◌, ◌∷◌, [], ◌++◌, map, option_map, IfOk, OnOk};
ghost use Rattle.cmark_values.specs.Shown.{shown_attribute, shown_alignment, shown_block_quote_kind, shown_code_block_kind, shown_link_type, shown_metadata_block_kind, text_bytes};
ghost use Rattle.cmark_json.specs.EventData.{alone, with_one, text_or_null, number_or_null, attribute_data, alignment_data, alignment_name, quote_kind_data, code_kind_data, metadata_kind_name, link_type_data};
ghost use Rattle.serde_json.specs.Data.{array, string};
ghost use Rattle.serde_json.specs.View.{items_of, view};

use cmark_text::{Alignment, BlockQuoteKind, CodeBlockKind, CowStr, LinkType, MetadataBlockKind};
use serde_json::{Value, json};
use std::alloc::{AllocError, Global};

/// A name alone.
pub fn alone(alloc: Global, name: &str) -> Result<Value, AllocError>
    ensures { IfOk result (λ v. view v ≡ alone name.now) }
{
    json!(in alloc; [name])
}

/// A name with its data.
pub fn with_one(alloc: Global, name: &str, value: Value) -> Result<Value, AllocError>
    ensures { IfOk result (λ v. view v ≡ with_one name.now (view value)) }
{
    json!(in alloc; [name, value])
}

/// A name with a text.
pub fn with_text(alloc: Global, name: &str, text: &str) -> Result<Value, AllocError>
    ensures { IfOk result (λ v. view v ≡ with_one name.now (string text.now)) }
{
    json!(in alloc; [name, text])
}

/// Appends a value to the elements of an array.
pub fn push(values: &mut Vec<Value>, value: Value) -> Result<(), AllocError>
    ensures { OnOk result
        (map view values.new.items ≡ map view values.old.items ++ (view value ∷ [])) }
{
    values.push(value)?;
    Ok(())
}

/// Appends a text to the elements of an array.
pub fn push_text(values: &mut Vec<Value>, alloc: Global, text: &str) -> Result<(), AllocError>
    ensures { OnOk result
        (map view values.new.items ≡ map view values.old.items ++ (string text.now ∷ [])) }
{
    push(values, Value::try_from_str(alloc, text)?)
}

/// A text, if there is one.
pub fn text_or_null(alloc: Global, text: &Option<CowStr<'_>>) -> Result<Value, AllocError>
    ensures { IfOk result (λ v. view v ≡ text_or_null (option_map text_bytes text.now)) }
{
    match text {
        Some(text) => Value::try_from_str(alloc, text.as_str()),
        None => Ok(Value::Null),
    }
}

/// A number, if there is one.
pub fn number_or_null(number: Option<u64>) -> Value
    ensures { view result ≡ number_or_null number }
{
    match number {
        Some(number) => Value::from(number),
        None => Value::Null,
    }
}

/// Texts in an array.
pub fn texts(alloc: Global, texts: &[CowStr<'_>]) -> Result<Value, AllocError>
    ensures { IfOk result (λ v. view v ≡ array (items_of (map string (map text_bytes texts.now)))) }
{
    let mut values = Vec::new(alloc);
    for text in texts {
        values.push(Value::try_from_str(alloc, text.as_str())?)?;
    }
    Ok(Value::Array(values))
}

/// Attributes in an array.
pub fn attributes(
    alloc: Global,
    attributes: &[(CowStr<'_>, Option<CowStr<'_>>)],
) -> Result<Value, AllocError>
    ensures { IfOk result
        (λ v. view v ≡ array (items_of (map attribute_data (map shown_attribute attributes.now)))) }
{
    let mut values = Vec::new(alloc);
    for attribute in attributes {
        values.push(attribute_value(alloc, attribute)?)?;
    }
    Ok(Value::Array(values))
}

/// An attribute's name with its value, if it has one.
fn attribute_value(
    alloc: Global,
    attribute: &(CowStr<'_>, Option<CowStr<'_>>),
) -> Result<Value, AllocError>
    ensures { IfOk result (λ v. view v ≡ attribute_data (shown_attribute attribute.now)) }
{
    let mut parts = Vec::new(alloc);
    push_text(&mut parts, alloc, attribute.0.as_str())?;
    push(&mut parts, text_or_null(alloc, &attribute.1)?)?;
    Ok(Value::Array(parts))
}

/// The alignments of a table's columns in an array.
pub fn alignments(alloc: Global, columns: &[Alignment]) -> Result<Value, AllocError>
    ensures { IfOk result
        (λ v. view v ≡ array (items_of (map alignment_data (map shown_alignment columns.now)))) }
{
    let mut values = Vec::new(alloc);
    for column in columns {
        values.push(Value::try_from_str(alloc, alignment_name(*column))?)?;
    }
    Ok(Value::Array(values))
}

/// The name of an alignment.
fn alignment_name(alignment: Alignment) -> &'static str
    ensures { result.now ≡ alignment_name (shown_alignment alignment) }
{
    match alignment {
        Alignment::None => "None",
        Alignment::Left => "Left",
        Alignment::Center => "Center",
        Alignment::Right => "Right",
    }
}

/// The kind of a block quote, if it is an alert.
pub fn quote_kind(alloc: Global, kind: Option<BlockQuoteKind>) -> Result<Value, AllocError>
    ensures { IfOk result (λ v. view v ≡ quote_kind_data (option_map shown_block_quote_kind kind)) }
{
    let Some(kind) = kind else {
        return Ok(Value::Null);
    };
    match kind {
        BlockQuoteKind::Note => Value::try_from_str(alloc, "Note"),
        BlockQuoteKind::Tip => Value::try_from_str(alloc, "Tip"),
        BlockQuoteKind::Important => Value::try_from_str(alloc, "Important"),
        BlockQuoteKind::Warning => Value::try_from_str(alloc, "Warning"),
        BlockQuoteKind::Caution => Value::try_from_str(alloc, "Caution"),
    }
}

/// The kind of a code block.
pub fn code_kind(alloc: Global, kind: &CodeBlockKind<'_>) -> Result<Value, AllocError>
    ensures { IfOk result (λ v. view v ≡ code_kind_data (shown_code_block_kind kind.now)) }
{
    match kind {
        CodeBlockKind::Indented => alone(alloc, "Indented"),
        CodeBlockKind::Fenced(info) => with_text(alloc, "Fenced", info.as_str()),
    }
}

/// The name of a metadata block's kind.
pub fn metadata_kind_name(kind: MetadataBlockKind) -> &'static str
    ensures { result.now ≡ metadata_kind_name (shown_metadata_block_kind kind) }
{
    match kind {
        MetadataBlockKind::YamlStyle => "YamlStyle",
        MetadataBlockKind::PlusesStyle => "PlusesStyle",
    }
}

/// How a link or an image is written.
pub fn link_type(alloc: Global, link_type: LinkType) -> Result<Value, AllocError>
    ensures { IfOk result (λ v. view v ≡ link_type_data (shown_link_type link_type)) }
{
    match link_type {
        LinkType::Inline => Value::try_from_str(alloc, "Inline"),
        LinkType::Reference => Value::try_from_str(alloc, "Reference"),
        LinkType::ReferenceUnknown => Value::try_from_str(alloc, "ReferenceUnknown"),
        LinkType::Collapsed => Value::try_from_str(alloc, "Collapsed"),
        LinkType::CollapsedUnknown => Value::try_from_str(alloc, "CollapsedUnknown"),
        LinkType::Shortcut => Value::try_from_str(alloc, "Shortcut"),
        LinkType::ShortcutUnknown => Value::try_from_str(alloc, "ShortcutUnknown"),
        LinkType::Autolink => Value::try_from_str(alloc, "Autolink"),
        LinkType::Email => Value::try_from_str(alloc, "Email"),
        LinkType::WikiLink { has_pothole } => {
            with_one(alloc, "WikiLink", Value::Bool(has_pothole))
        }
    }
}
