//! The start of a heading with its attributes.

ghost use Rattle.std.specs.Prelude.{◌≡◌, ◌∷◌, [], ◌++◌, codes, map, option_map};
ghost use Rattle.cmark_grammar.specs.Html.{fresh_line, digit, heading_attributes, id_attribute, class_attribute, further_classes, other_attribute, other_attributes};
ghost use Rattle.cmark_text.specs.Appended.{Writes};
ghost use Rattle.cmark_values.specs.Shown.{shown_attributes, shown_attribute, level_number, text_bytes};
ghost use Rattle.cmark_html.specs.Parts.{class_start};

use crate::parts::{Part, append, append_parts, new_line};
use cmark_text::{CowStr, HeadingLevel};
use std::alloc::AllocError;

/// Appends the start of a heading with its attributes.
pub fn append_heading(
    out: &mut String,
    line_start: bool,
    level: HeadingLevel,
    id: &Option<CowStr<'_>>,
    classes: &Vec<CowStr<'_>>,
    attrs: &Vec<(CowStr<'_>, Option<CowStr<'_>>)>,
) -> Result<(), AllocError>
    ensures { let attributes = shown_attributes id.now classes.now.items attrs.now.items in
        Writes out.old out.new result (fresh_line line_start ++ (codes "<h"
        ++ (digit (level_number level) ∷ (heading_attributes attributes ++ codes ">")))) }
{
    append_parts(
        out,
        &[
            Part::Raw(new_line(line_start)),
            Part::Raw(heading_text(level)),
        ],
    )?;
    append_attributes(out, id, classes, attrs)?;
    append(out, ">")
}

/// The tag of a heading up to its attributes.
fn heading_text(level: HeadingLevel) -> &'static str
    ensures { result.now ≡ codes "<h" ++ (digit (level_number level) ∷ []) }
{
    match level {
        HeadingLevel::H1 => "<h1",
        HeadingLevel::H2 => "<h2",
        HeadingLevel::H3 => "<h3",
        HeadingLevel::H4 => "<h4",
        HeadingLevel::H5 => "<h5",
        HeadingLevel::H6 => "<h6",
    }
}

/// Appends the attributes of a heading.
fn append_attributes(
    out: &mut String,
    id: &Option<CowStr<'_>>,
    classes: &Vec<CowStr<'_>>,
    attrs: &Vec<(CowStr<'_>, Option<CowStr<'_>>)>,
) -> Result<(), AllocError>
    ensures { let attributes = shown_attributes id.now classes.now.items attrs.now.items in
        Writes out.old out.new result (heading_attributes attributes) }
{
    append_id(out, id)?;
    append_classes(out, classes.as_slice())?;
    append_others(out, attrs.as_slice())
}

/// Appends the anchor of a heading, if it has one.
fn append_id(out: &mut String, id: &Option<CowStr<'_>>) -> Result<(), AllocError>
    ensures { Writes out.old out.new result (id_attribute (option_map text_bytes id.now)) }
{
    match id {
        Some(id) => append_parts(
            out,
            &[
                Part::Raw(" id"),
                Part::Raw("=\""),
                Part::Value(id.as_str()),
                Part::Raw("\""),
            ],
        ),
        None => Ok(()),
    }
}

/// Appends the classes of a heading, if it has any.
fn append_classes(out: &mut String, classes: &[CowStr<'_>]) -> Result<(), AllocError>
    ensures { Writes out.old out.new result (class_attribute (map text_bytes classes.now)) }
{
    match classes.split_first() {
        Some((first, others)) => append_class_list(out, first.as_str(), others),
        None => Ok(()),
    }
}

/// Appends the attribute of one class or more.
fn append_class_list(out: &mut String, first: &str, others: &[CowStr<'_>]) -> Result<(), AllocError>
    ensures { Writes out.old out.new result
        (class_start first.now ++ (further_classes (map text_bytes others.now) ++ codes "\"")) }
{
    append_parts(out, &[Part::Raw(" class=\""), Part::Value(first)])?;
    append_further_classes(out, others)?;
    append(out, "\"")
}

/// Appends names of classes, each with a space before it.
fn append_further_classes(out: &mut String, names: &[CowStr<'_>]) -> Result<(), AllocError>
    ensures { Writes out.old out.new result (further_classes (map text_bytes names.now)) }
{
    for name in names {
        append_parts(out, &[Part::Raw(" "), Part::Value(name.as_str())])?;
    }
    Ok(())
}

/// Appends the other attributes of a heading.
fn append_others(
    out: &mut String,
    attrs: &[(CowStr<'_>, Option<CowStr<'_>>)],
) -> Result<(), AllocError>
    ensures { Writes out.old out.new result (other_attributes (map shown_attribute attrs.now)) }
{
    for attribute in attrs {
        append_other(out, attribute)?;
    }
    Ok(())
}

/// Appends an attribute; an attribute without a value gets an empty one.
fn append_other(
    out: &mut String,
    attribute: &(CowStr<'_>, Option<CowStr<'_>>),
) -> Result<(), AllocError>
    ensures { Writes out.old out.new result (other_attribute (shown_attribute attribute.now)) }
{
    let value = match &attribute.1 {
        Some(value) => value.as_str(),
        None => "",
    };
    append_parts(
        out,
        &[
            Part::Raw(" "),
            Part::Value(attribute.0.as_str()),
            Part::Raw("=\""),
            Part::Value(value),
            Part::Raw("\""),
        ],
    )
}
