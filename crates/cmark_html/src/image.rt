//! Images, with their alternative texts.

ghost use Rattle.std.specs.Prelude.{◌≡◌, ◌==◌, if◌then◌else◌, [], IfOk, Some, None, option_map};
ghost use Rattle.cmark_grammar.specs.Html.{image_start, image_end, alt_text, alt_task_list_marker, piece_inside, deeper, less_deep, still_open};
ghost use Rattle.cmark_text.specs.Appended.{Writes};
ghost use Rattle.cmark_text.specs.Shown.{shown};
ghost use Rattle.cmark_html.specs.Writer.{shown_image, shown_names};

use crate::footnote::append_alt_reference;
use crate::names::FootnoteNames;
use crate::parts::{Part, append, append_around, append_parts};
use crate::state::OpenImage;
use cmark_text::Event;
use cmark_text::escape::escape_html;
use itoa::Buffer;
use std::alloc::AllocError;

/// Appends an image up to its alternative text.
pub fn append_image_start(out: &mut String, dest_url: &str) -> Result<(), AllocError>
    ensures { Writes out.old out.new result (image_start dest_url.now) }
{
    append_parts(
        out,
        &[
            Part::Raw("<img src=\""),
            Part::Href(dest_url),
            Part::Raw("\" alt=\""),
        ],
    )
}

/// Appends the part of an image that follows its alternative text.
pub fn append_image_end(out: &mut String, title: &str) -> Result<(), AllocError>
    ensures { Writes out.old out.new result (image_end title.now) }
{
    if title.is_empty() {
        return append(out, "\" />");
    }
    append_parts(
        out,
        &[
            Part::Raw("\""),
            Part::Raw(" title=\""),
            Part::Value(title),
            Part::Raw("\""),
            Part::Raw(" />"),
        ],
    )
}

/// Appends the HTML of an event inside an image, and returns the image if it is still open.
///
/// If more than `u64::MAX` elements are open in the image, the error is the one for refused memory.
pub fn write_inside<'a>(
    out: &mut String,
    image: OpenImage<'a>,
    names: &FootnoteNames<'a>,
    event: &Event<'a>,
) -> Result<Option<OpenImage<'a>>, AllocError>
    ensures writes { Writes out.old out.new result
        (piece_inside (shown_names names.now) (shown_image image.entry) (shown event.now)) }
    ensures state { IfOk result
        (λ next. option_map shown_image next ≡ still_open (shown_image image.entry) (shown event.now)) }
{
    match event {
        Event::Start(_) => Ok(Some(deepen(image)?)),
        Event::End(_) => write_end_inside(out, image),
        _ => {
            append_alt_text(out, names, event)?;
            Ok(Some(image))
        }
    }
}

/// The image with one more open element.
fn deepen(image: OpenImage<'_>) -> Result<OpenImage<'_>, AllocError>
    ensures { IfOk result (λ next. shown_image next ≡ deeper (shown_image image.entry)) }
{
    let Some(depth) = image.depth.checked_add(1) else {
        return Err(AllocError);
    };
    Ok(OpenImage {
        depth,
        title: image.title,
    })
}

/// Closes the innermost element that is open, which may be the image itself.
fn write_end_inside<'a>(
    out: &mut String,
    image: OpenImage<'a>,
) -> Result<Option<OpenImage<'a>>, AllocError>
    ensures writes { let before = shown_image image.entry in
        Writes out.old out.new result (if before.depth == 0 then image_end before.title else []) }
    ensures state { let before = shown_image image.entry in
        let after = if before.depth == 0 then None else Some (less_deep before) in
        IfOk result (λ next. option_map shown_image next ≡ after) }
{
    if image.depth == 0 {
        append_image_end(out, image.title.as_str())?;
        return Ok(None);
    }
    Ok(Some(OpenImage {
        depth: image.depth - 1,
        title: image.title,
    }))
}

/// Appends the alternative text of an event.
fn append_alt_text<'a>(
    out: &mut String,
    names: &FootnoteNames<'a>,
    event: &Event<'a>,
) -> Result<(), AllocError>
    ensures { Writes out.old out.new result (alt_text (shown_names names.now) (shown event.now)) }
{
    match event {
        Event::Start(_) | Event::End(_) | Event::Html(_) => Ok(()),
        Event::FootnoteReference(name) => {
            append_alt_reference(out, Buffer::new().format(names.number(name)))
        }
        Event::Text(text) | Event::Code(text) | Event::InlineHtml(text) => {
            escape_html(out, text.as_str())
        }
        Event::InlineMath(text) => append_around(out, "$", Part::Value(text.as_str()), "$"),
        Event::DisplayMath(text) => append_around(out, "$$", Part::Value(text.as_str()), "$$"),
        Event::SoftBreak | Event::HardBreak | Event::Rule => append(out, " "),
        Event::TaskListMarker(is_checked) => append(out, alt_task_list_marker_text(*is_checked)),
    }
}

/// The alternative text of a task.
fn alt_task_list_marker_text(is_checked: bool) -> &'static str
    ensures { result.now ≡ alt_task_list_marker is_checked }
{
    if is_checked { "[x]" } else { "[ ]" }
}
