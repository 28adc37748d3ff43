//! The HTML of a text.

ghost use Rattle.std.specs.Prelude.{◌≡◌, [], IfOk, None, OnOk, string_bytes};
ghost use Rattle.cmark_grammar.specs.Headline.{IsHtmlOf, IsHtmlWithin, usual_limit};
ghost use Rattle.cmark_grammar.specs.Html.{moved_outside, piece_outside};
ghost use Rattle.cmark_html.specs.Writer.{writing};
ghost use Rattle.cmark_text.specs.Appended.{Writes};
ghost use Rattle.cmark_text.specs.Short.{shown_short};
ghost use Rattle.cmark_values.specs.Shown.{shown_options};
ghost use Rattle.cmark_parser.specs.Filters.{filtered_by};
ghost use Rattle.cmark_parser.specs.Parsing.{CanGo, IsLong, IsReady};
ghost use Rattle.cmark_parser.specs.Rendering.{IsHtmlBy, IsHtmlOfRest, IsSafeHtmlOf, WritesEvent, WritesLink, WritesLong, WritesNext, WritesRest, written};
ghost use Rattle.cmark_safe.specs.SafeHtml.{IsSafe};

use crate::filter::{Filter, Filtering};
use crate::parse::Parser;
use cmark_event_walk::{ForHtml, WalkStep};
use cmark_html::{Writer, finish, write_event, write_link, write_short};
use cmark_inline::{BrokenLinkCallback, DefaultBrokenLinkCallback};
use cmark_text::{EntityLookup, Options, Short};
use std::alloc::{AllocError, Global};

/// Returns the HTML of a text with these options. `entities` maps entity names to their characters. Fails only if memory is refused.
///
/// ```text
/// to_html(alloc, "hello world", Options::empty(), &BasicEntities)?.as_str() == "<p>hello world</p>\n"
/// ```
pub fn to_html<E: EntityLookup>(
    alloc: Global,
    text: &str,
    options: Options,
    entities: &E,
) -> Result<String, AllocError>
    ensures { IfOk result (λ html. IsHtmlOf text.now
        (shown_options options) (E.replacement entities.now) (string_bytes html)) }
{
    filtered_html(alloc, text, options, entities, &Filtering::AsTheyAre)
}

/// Returns the HTML of a text, with a reference expansion limit of the caller. Once the destinations and titles of references total `limit`
/// bytes, no definition is looked up. Fails only if memory is refused.
///
/// ```text
/// to_html_within(alloc, "[a] [a]\n\n[a]: /u", Options::empty(), &BasicEntities, 1)?.as_str() == "<p><a href=\"/u\">a</a> [a]</p>\n"
/// ```
pub fn to_html_within<E: EntityLookup>(
    alloc: Global,
    text: &str,
    options: Options,
    entities: &E,
    limit: usize,
) -> Result<String, AllocError>
    ensures { IfOk result (λ html. IsHtmlWithin limit text.now
        (shown_options options) (E.replacement entities.now) (string_bytes html)) }
{
    to_filtered_html(alloc, text, options, entities, limit, &Filtering::AsTheyAre)
}

/// Returns the HTML of a text, each event replaced by the filter, with a reference expansion limit of the caller, in bytes. Fails only if
/// memory is refused.
pub fn to_filtered_html<E: EntityLookup>(
    alloc: Global,
    text: &str,
    options: Options,
    entities: &E,
    limit: usize,
    filter: &Filtering<'_>,
) -> Result<String, AllocError>
    ensures { IfOk result (λ html. IsHtmlBy limit (filtered_by filter.now) text.now
        (shown_options options) (E.replacement entities.now) (string_bytes html)) }
{
    let none: Option<DefaultBrokenLinkCallback> = None;
    let mut made = Parser::new_with_expansion_limit(alloc, text, options, entities, none, limit);
    // The parser is lent where it was made, as in `filtered_html`.
    match &mut made {
        Ok(parser) => html_of(alloc, room_of(text), parser, filter),
        Err(_) => Err(AllocError),
    }
}

/// Returns the safe HTML of a text, for a text of a stranger. Raw HTML is shown as text. A heading has no attribute but its anchor. Anchors
/// and names of footnotes begin with `user-content-`. An address is relative, begins with `http:`, `https:` or `mailto:`, or is empty.
/// `further` lists further schemes, with white space between them; `javascript`, `vbscript`, `data` and `file` are never accepted. Fails
/// only if memory is refused.
///
/// A link may still lead to a bad place, and an image may tell a server who looks at it.
///
/// ```text
/// to_safe_html(alloc, "[a](javascript:b)", Options::empty(), &BasicEntities, "")?.as_str() == "<p><a href=\"\">a</a></p>\n"
/// ```
pub fn to_safe_html<E: EntityLookup>(
    alloc: Global,
    text: &str,
    options: Options,
    entities: &E,
    further: &str,
) -> Result<String, AllocError>
    ensures safe { IfOk result (λ html. IsSafe further.now (string_bytes html)) }
    ensures html { IfOk result (λ html. IsSafeHtmlOf text.now
        (shown_options options) (E.replacement entities.now) further.now (string_bytes html)) }
{
    filtered_html(alloc, text, options, entities, &Filtering::Safe(further))
}

// Returns the HTML of a text's events, each replaced by the filter.
fn filtered_html<E: EntityLookup, T: Filter>(
    alloc: Global,
    text: &str,
    options: Options,
    entities: &E,
    filter: &T,
) -> Result<String, AllocError>
    ensures { IfOk result (λ html. IsHtmlBy (usual_limit text.now) (T.filtered filter.now) text.now
        (shown_options options) (E.replacement entities.now) (string_bytes html)) }
{
    let mut made = Parser::new_ext(alloc, text, options, entities);
    // The parser is lent where it was made, since it has almost 1,000 bytes to move. It is also dropped at one place only: each way out of a
    // function drops all that the function owns.
    match &mut made {
        Ok(parser) => html_of(alloc, room_of(text), parser, filter),
        Err(_) => Err(AllocError),
    }
}

// The string for the HTML has room for at least this many bytes more than the text has. Elements are a large part of a short text's HTML.
const ROOM_FOR_ELEMENTS: usize = 256;

// The capacity in bytes of the string for the HTML of a text. It is enough for most texts. A string that has to grow is in memory twice for
// a while.
fn room_of(text: &str) -> usize {
    text.len()
        .saturating_add(text.len() / 8)
        .saturating_add(ROOM_FOR_ELEMENTS)
}

// Returns the HTML of the events that the parser has left, each replaced by the filter. The string begins with a capacity of `room` bytes.
fn html_of<'a, E: EntityLookup, F: BrokenLinkCallback<'a> + Drop, T: Filter>(
    alloc: Global,
    room: usize,
    parser: &mut Parser<'a, E, F>,
    filter: &T,
) -> Result<String, AllocError>
    requires goes { CanGo E.replacement parser.old }
    requires ready { IsReady F.ready parser.old }
    ensures { IfOk result (λ output. IsHtmlOfRest F.answers E.replacement (T.filtered filter.now)
        parser.old parser.new [] (string_bytes output)) }
{
    let mut output = String::with_capacity(alloc, room)?;
    render(&mut output, parser, filter)?;
    Ok(output)
}

// Appends the HTML of the events that the parser has left, each replaced by the filter.
fn render<'a, E: EntityLookup, F: BrokenLinkCallback<'a> + Drop, T: Filter>(
    out: &mut String,
    parser: &mut Parser<'a, E, F>,
    filter: &T,
) -> Result<(), AllocError>
    requires goes { CanGo E.replacement parser.old }
    requires ready { IsReady F.ready parser.old }
    ensures { OnOk result (IsHtmlOfRest F.answers E.replacement (T.filtered filter.now)
        parser.old parser.new (string_bytes out.old) (string_bytes out.new)) }
{
    let mut writer: Writer<'a> = Writer::new(*out.allocator());
    write_all(out, &mut writer, parser, filter)
}

/// Appends the HTML of the events that the parser has left, each replaced by the filter. The writer may continue the HTML of earlier blocks,
/// but no image may be open in it. Fails only if memory is refused; nothing is promised then about `out`, `writer` and `parser`.
pub fn write_rest<'a, E: EntityLookup, F: BrokenLinkCallback<'a> + Drop>(
    out: &mut String,
    writer: &mut Writer<'a>,
    parser: &mut Parser<'a, E, F>,
    filter: &Filtering<'_>,
) -> Result<(), AllocError>
    requires goes { CanGo E.replacement parser.old }
    requires ready { IsReady F.ready parser.old }
    requires closed { (writing writer.old).image ≡ None }
    ensures writes { OnOk result (WritesRest F.answers E.replacement (filtered_by filter.now)
        parser.old (written (writing writer.old) (string_bytes out.old))
        parser.new (written (writing writer.new) (string_bytes out.new))) }
{
    write_all(out, writer, parser, filter)
}

// Appends the HTML of the events that the parser has left, each replaced by the filter. No image is open in the writer. Most events are
// written without an `Event`.
fn write_all<'a, E: EntityLookup, F: BrokenLinkCallback<'a> + Drop, T: Filter>(
    out: &mut String,
    writer: &mut Writer<'a>,
    parser: &mut Parser<'a, E, F>,
    filter: &T,
) -> Result<(), AllocError>
    requires goes { CanGo E.replacement parser.old }
    requires ready { IsReady F.ready parser.old }
    requires closed { (writing writer.old).image ≡ None }
    ensures { OnOk result (WritesRest F.answers E.replacement (T.filtered filter.now)
        parser.old (written (writing writer.old) (string_bytes out.old))
        parser.new (written (writing writer.new) (string_bytes out.new))) }
{
    loop {
        // The text of a metadata block is not written, but a soft break is. So the lines of a text are one text only outside of such a block.
        // With `?` the step would be moved once more.
        let Ok(step) = parser.step::<ForHtml>(!writer.in_metadata) else {
            return Err(AllocError);
        };
        match step {
            // Each of the two calls is inlined for its own events: other events follow a span than follow a block.
            WalkStep::Span(short, _, _) => write_short(out, writer, filter.short_of(short))?,
            WalkStep::Block(short, _, _) => write_short(out, writer, filter.short_of(short))?,
            WalkStep::Lines(text, _, _) => write_lines(out, writer, text)?,
            WalkStep::Long => {
                let is_given = write_long(out, writer, parser, filter)?;
                if !is_given {
                    return finish(out, writer);
                }
            }
            WalkStep::Over => return finish(out, writer),
        }
    }
}

// Appends the HTML of the text of several lines. It is apart from the loop, which is faster with two copies of `write_short` than with three.
#[inline(never)]
fn write_lines<'a>(
    out: &mut String,
    writer: &mut Writer<'a>,
    text: Short<'a>,
) -> Result<(), AllocError>
    requires closed { writer.old.image ≡ None }
    ensures writes { Writes out.old out.new result
        (piece_outside (writing writer.old) (shown_short text.entry)) }
    ensures state { OnOk result
        (writing writer.new ≡ moved_outside (writing writer.old) (shown_short text.entry)) }
{
    write_short(out, writer, text)
}

// Appends the HTML of the next event, which is not short. If it opens an image, the HTML of the events up to the end of the image follows,
// so that no image is open afterwards. Returns false if the events are over before that. The start of a link is written without an `Event`.
fn write_long<'a, E: EntityLookup, F: BrokenLinkCallback<'a> + Drop, T: Filter>(
    out: &mut String,
    writer: &mut Writer<'a>,
    parser: &mut Parser<'a, E, F>,
    filter: &T,
) -> Result<bool, AllocError>
    requires goes { CanGo E.replacement parser.old }
    requires ready { IsReady F.ready parser.old }
    requires long { IsLong parser.old }
    ensures writes { IfOk result
        (λ is_given. WritesLong F.answers E.replacement (T.filtered filter.now) is_given
        parser.old (written (writing writer.old) (string_bytes out.old))
        parser.new (written (writing writer.new) (string_bytes out.new))) }
    ensures ready { IsReady F.ready parser.new }
{
    if write_link_ahead(out, writer, parser, filter)? {
        return Ok(true);
    }
    write_any(out, writer, parser, filter)
}

// Appends the HTML of the start of a link, if that is the next event and no image is open. Returns whether it did. It makes no `Event`,
// since it reads the link that the parser keeps.
fn write_link_ahead<'a, E: EntityLookup, F: BrokenLinkCallback<'a> + Drop, T: Filter>(
    out: &mut String,
    writer: &mut Writer<'a>,
    parser: &mut Parser<'a, E, F>,
    filter: &T,
) -> Result<bool, AllocError>
    requires goes { CanGo E.replacement parser.old }
    requires ready { IsReady F.ready parser.old }
    ensures writes { IfOk result
        (λ is_written. WritesLink F.answers E.replacement (T.filtered filter.now) is_written
        parser.old (written (writing writer.old) (string_bytes out.old))
        parser.new (written (writing writer.new) (string_bytes out.new))) }
    ensures ready { IsReady F.ready parser.new }
{
    if writer.image.is_some() {
        return Ok(false);
    }
    let Some(link) = parser.link_ahead() else {
        return Ok(false);
    };
    write_link(
        out,
        writer,
        link.link_type,
        filter.destination_of(link.dest_url.as_str()),
        link.title.as_str(),
    )?;
    parser.pass_link()?;
    Ok(true)
}

// Does what `write_long` does, but makes an `Event` of each event, even of the start of a link.
fn write_any<'a, E: EntityLookup, F: BrokenLinkCallback<'a> + Drop, T: Filter>(
    out: &mut String,
    writer: &mut Writer<'a>,
    parser: &mut Parser<'a, E, F>,
    filter: &T,
) -> Result<bool, AllocError>
    requires goes { CanGo E.replacement parser.old }
    requires ready { IsReady F.ready parser.old }
    requires long { IsLong parser.old }
    ensures writes { IfOk result
        (λ is_given. WritesLong F.answers E.replacement (T.filtered filter.now) is_given
        parser.old (written (writing writer.old) (string_bytes out.old))
        parser.new (written (writing writer.new) (string_bytes out.new))) }
    ensures ready { IsReady F.ready parser.new }
{
    write_taken(out, writer, parser, filter)?;
    while writer.image.is_some() {
        let is_given = write_next(out, writer, parser, filter)?;
        if !is_given {
            return Ok(false);
        }
    }
    Ok(true)
}

// Appends the HTML of the next event, which is not short. The function is not inlined, because an `Event` needs a large frame, which is
// cleared on entry. So only events that need it pay for it.
#[inline(never)]
fn write_taken<'a, E: EntityLookup, F: BrokenLinkCallback<'a> + Drop, T: Filter>(
    out: &mut String,
    writer: &mut Writer<'a>,
    parser: &mut Parser<'a, E, F>,
    filter: &T,
) -> Result<(), AllocError>
    requires goes { CanGo E.replacement parser.old }
    requires ready { IsReady F.ready parser.old }
    requires long { IsLong parser.old }
    ensures writes { OnOk result
        (WritesEvent F.answers E.replacement (T.filtered filter.now)
        parser.old (written (writing writer.old) (string_bytes out.old))
        parser.new (written (writing writer.new) (string_bytes out.new))) }
    ensures ready { IsReady F.ready parser.new }
{
    let given = parser.take_long()?;
    let event = filter.event_of(*out.allocator(), given.event)?;
    write_event(out, writer, event)
}

// Appends the HTML of the next event, of any kind, and returns whether there was one. It serves the inside of an image, and is not inlined
// for the reason above.
#[inline(never)]
fn write_next<'a, E: EntityLookup, F: BrokenLinkCallback<'a> + Drop, T: Filter>(
    out: &mut String,
    writer: &mut Writer<'a>,
    parser: &mut Parser<'a, E, F>,
    filter: &T,
) -> Result<bool, AllocError>
    requires goes { CanGo E.replacement parser.old }
    requires ready { IsReady F.ready parser.old }
    ensures writes { IfOk result
        (λ is_given. WritesNext F.answers E.replacement (T.filtered filter.now) is_given
        parser.old (written (writing writer.old) (string_bytes out.old))
        parser.new (written (writing writer.new) (string_bytes out.new))) }
    ensures ready { IsReady F.ready parser.new }
{
    match parser.advance() {
        Some(Ok(given)) => {
            let event = filter.event_of(*out.allocator(), given.event)?;
            write_event(out, writer, event)?;
            Ok(true)
        }
        Some(Err(error)) => Err(error),
        None => Ok(false),
    }
}
