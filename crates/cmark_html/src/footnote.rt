//! The HTML of footnotes.

ghost use Rattle.std.specs.Prelude.{◌++◌};
ghost use Rattle.std.specs.Fmt.{decimal};
ghost use Rattle.cmark_grammar.specs.Html.{alt_footnote_reference, footnote_number, footnote_reference, footnote_start, fresh_line};
ghost use Rattle.cmark_text.specs.Appended.{Writes};
ghost use Rattle.cmark_values.specs.Shown.{text_bytes};
ghost use Rattle.cmark_html.specs.Writer.{shown_names};

use crate::names::FootnoteNames;
use crate::parts::{Part, append_around, append_parts, new_line};
use cmark_text::CowStr;
use itoa::Buffer;
use std::alloc::AllocError;

/// Appends the start of a footnote's definition. `digits` is the footnote's number.
fn append_footnote_start<'x>(
    out: &mut String,
    line_start: bool,
    name: &'x str,
    digits: &'x str,
) -> Result<(), AllocError>
    ensures { Writes out.old out.new result
        (fresh_line line_start ++ footnote_start name.now digits.now) }
{
    append_parts(
        out,
        &[
            Part::Raw(new_line(line_start)),
            Part::Raw("<div class=\"footnote-definition\" id=\""),
            Part::Value(name),
            Part::Raw("\"><sup class=\"footnote-definition-label\">"),
            Part::Raw(digits),
            Part::Raw("</sup>"),
        ],
    )
}

/// Appends a reference to a footnote. `digits` is the footnote's number.
fn append_footnote_reference<'x>(
    out: &mut String,
    name: &'x str,
    digits: &'x str,
) -> Result<(), AllocError>
    ensures { Writes out.old out.new result (footnote_reference name.now digits.now) }
{
    append_parts(
        out,
        &[
            Part::Raw("<sup class=\"footnote-reference\"><a href=\"#"),
            Part::Value(name),
            Part::Raw("\">"),
            Part::Raw(digits),
            Part::Raw("</a></sup>"),
        ],
    )
}

/// Appends a reference to a footnote in an alternative text. `digits` is the footnote's number.
pub fn append_alt_reference(out: &mut String, digits: &str) -> Result<(), AllocError>
    ensures { Writes out.old out.new result (alt_footnote_reference digits.now) }
{
    append_around(out, "[", Part::Raw(digits), "]")
}

/// Appends the start of the definition of the footnote of this name.
#[inline(never)]
pub fn append_numbered_start<'a>(
    out: &mut String,
    line_start: bool,
    names: &FootnoteNames<'a>,
    name: &CowStr<'a>,
) -> Result<(), AllocError>
    ensures { let number = footnote_number (shown_names names.now) (text_bytes name.now) in
        Writes out.old out.new result
        (fresh_line line_start ++ footnote_start (text_bytes name.now) (decimal number)) }
{
    let mut buffer = Buffer::new();
    let digits = buffer.format(names.number(name));
    append_footnote_start(out, line_start, name.as_str(), digits)
}

/// Appends a reference to the footnote of this name.
#[inline(never)]
pub fn append_numbered_reference<'a>(
    out: &mut String,
    names: &FootnoteNames<'a>,
    name: &CowStr<'a>,
) -> Result<(), AllocError>
    ensures { let number = footnote_number (shown_names names.now) (text_bytes name.now) in
        Writes out.old out.new result (footnote_reference (text_bytes name.now) (decimal number)) }
{
    let mut buffer = Buffer::new();
    let digits = buffer.format(names.number(name));
    append_footnote_reference(out, name.as_str(), digits)
}
