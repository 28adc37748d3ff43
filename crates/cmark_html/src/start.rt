//! The HTML of starts.

ghost use Rattle.std.specs.Prelude.{◌≡◌, ◌++◌, ◌∷◌, codes, option_map, take_while};
ghost use Rattle.cmark_grammar.specs.Html.{Writing, digit, start_piece, line_start_after_start, block_quote_start, code_block_start, fresh_line, is_within_word, language_start, list_start, link_start, scheme, title_attribute};
ghost use Rattle.cmark_text.specs.Appended.{Writes};
ghost use Rattle.cmark_text.specs.Short.{shown_plain};
ghost use Rattle.cmark_text.specs.Shown.{shown_tag};
ghost use Rattle.cmark_values.specs.Shown.{level_number, shown_block_quote_kind, shown_code_block_kind, shown_link_type};
ghost use Rattle.cmark_html.specs.Parts.{linked};
ghost use Rattle.cmark_html.specs.Starts.{started};
ghost use Rattle.cmark_html.specs.Writer.{writing};

use crate::footnote::append_numbered_start;
use crate::heading::append_heading;
use crate::image::append_image_start;
use crate::parts::{Part, append, append_on_line, append_parts, new_line};
use crate::state::Writer;
use cmark_text::escape::{escape_href, escape_html};
use cmark_text::{BlockQuoteKind, CodeBlockKind, HeadingLevel, LinkType, PlainTag, Tag};
use itoa::Buffer;
use memchr::memchr;
use std::alloc::AllocError;

/// Appends the HTML of a start.
pub fn append_start<'a>(
    out: &mut String,
    writer: &Writer<'a>,
    tag: &Tag<'a>,
) -> Result<(), AllocError>
    ensures { Writes out.old out.new result (start_piece (writing writer.now) (shown_tag tag.now)) }
{
    if let Some(plain) = tag.plain() {
        return append_plain_start(out, writer, plain);
    }
    let line_start = writer.line_start;
    match tag {
        Tag::Heading {
            level,
            id,
            classes,
            attrs,
        } => append_heading(out, line_start, *level, id, classes, attrs),
        Tag::CodeBlock(kind) => append_code_block(out, line_start, kind),
        Tag::Link {
            link_type,
            dest_url,
            title,
            id: _,
        } => append_link(out, *link_type, dest_url.as_str(), title.as_str()),
        Tag::Image { dest_url, .. } => append_image_start(out, dest_url.as_str()),
        Tag::Table(_) => append(out, "<table>"),
        Tag::FootnoteDefinition(name) => append_numbered_start(
            out,
            line_start,
            &writer.names,
            name,
        ),
        _ => unreachable!(),
    }
}

/// The form of the HTML that starts an element without a text of its own.
enum Start {
    /// A text on a line of its own.
    OnLine(&'static str),
    /// A text at the writer's position.
    Here(&'static str),
    /// A list, with its first number if it is ordered.
    Listing(Option<u64>),
    /// A cell of a table.
    Cell,
}

/// The form of the start of this element.
#[inline(always)]
fn start_of(tag: PlainTag) -> Start
    ensures { (w : Writing) → started w result ≡ start_piece w (shown_plain tag) }
{
    match tag {
        PlainTag::Paragraph => Start::OnLine("<p>"),
        PlainTag::Heading(level) => Start::OnLine(heading_start_text(level)),
        PlainTag::BlockQuote(kind) => Start::OnLine(block_quote_text(kind)),
        PlainTag::IndentedCode => Start::OnLine("<pre><code>"),
        PlainTag::List(first) => Start::Listing(first),
        PlainTag::Item => Start::OnLine("<li>"),
        PlainTag::DefinitionList => Start::OnLine("<dl>\n"),
        PlainTag::DefinitionListTitle => Start::OnLine("<dt>"),
        PlainTag::DefinitionListDefinition => Start::OnLine("<dd>"),
        PlainTag::TableHead => Start::Here("<thead><tr>"),
        PlainTag::TableRow => Start::Here("<tr>"),
        PlainTag::TableCell => Start::Cell,
        PlainTag::Emphasis => Start::Here("<em>"),
        PlainTag::Strong => Start::Here("<strong>"),
        PlainTag::Strikethrough => Start::Here("<del>"),
        PlainTag::Superscript => Start::Here("<sup>"),
        PlainTag::Subscript => Start::Here("<sub>"),
        PlainTag::Highlight => Start::Here("<mark>"),
        PlainTag::HtmlBlock | PlainTag::MetadataBlock(_) => Start::Here(""),
    }
}

/// Appends the start of an element that has no text of its own.
#[inline(always)]
pub fn append_plain_start(
    out: &mut String,
    writer: &Writer<'_>,
    tag: PlainTag,
) -> Result<(), AllocError>
    ensures { Writes out.old out.new result (start_piece (writing writer.now) (shown_plain tag)) }
{
    let line_start = writer.line_start;
    // Most starts are those of paragraphs, whose text has a length that is known here.
    if let PlainTag::Paragraph = tag {
        if line_start {
            return append(out, "<p>");
        }
    }
    match start_of(tag) {
        Start::OnLine(text) if !line_start => append_on_line(out, line_start, text),
        Start::OnLine(text) | Start::Here(text) => append(out, text),
        Start::Listing(first) => append_list(out, line_start, first),
        Start::Cell => writer.table.append_cell_start(out),
    }
}

/// Whether the writer is at a line start after the start of this element.
#[inline(always)]
pub fn line_start_after_plain(line_start: bool, tag: PlainTag) -> bool
    ensures { result ≡ line_start_after_start line_start (shown_plain tag) }
{
    match tag {
        PlainTag::BlockQuote(_) | PlainTag::List(_) | PlainTag::DefinitionList => true,
        PlainTag::HtmlBlock | PlainTag::MetadataBlock(_) => line_start,
        PlainTag::Paragraph
        | PlainTag::Heading(_)
        | PlainTag::IndentedCode
        | PlainTag::Item
        | PlainTag::DefinitionListTitle
        | PlainTag::DefinitionListDefinition
        | PlainTag::TableHead
        | PlainTag::TableRow
        | PlainTag::TableCell
        | PlainTag::Emphasis
        | PlainTag::Strong
        | PlainTag::Strikethrough
        | PlainTag::Superscript
        | PlainTag::Subscript
        | PlainTag::Highlight => false,
    }
}

/// Whether the writer is at a line start after a start.
pub fn line_start_after_start(line_start: bool, tag: &Tag<'_>) -> bool
    ensures { result ≡ line_start_after_start line_start (shown_tag tag.now) }
{
    match tag.plain() {
        Some(plain) => line_start_after_plain(line_start, plain),
        None => false,
    }
}

/// The start of a heading without attributes.
fn heading_start_text(level: HeadingLevel) -> &'static str
    ensures { result.now ≡ codes "<h" ++ (digit (level_number level) ∷ codes ">") }
{
    match level {
        HeadingLevel::H1 => "<h1>",
        HeadingLevel::H2 => "<h2>",
        HeadingLevel::H3 => "<h3>",
        HeadingLevel::H4 => "<h4>",
        HeadingLevel::H5 => "<h5>",
        HeadingLevel::H6 => "<h6>",
    }
}

/// The start of a block quote.
fn block_quote_text(kind: Option<BlockQuoteKind>) -> &'static str
    ensures { result.now ≡ block_quote_start (option_map shown_block_quote_kind kind) }
{
    match kind {
        None => "<blockquote>\n",
        Some(BlockQuoteKind::Note) => "<blockquote class=\"markdown-alert-note\">\n",
        Some(BlockQuoteKind::Tip) => "<blockquote class=\"markdown-alert-tip\">\n",
        Some(BlockQuoteKind::Important) => "<blockquote class=\"markdown-alert-important\">\n",
        Some(BlockQuoteKind::Warning) => "<blockquote class=\"markdown-alert-warning\">\n",
        Some(BlockQuoteKind::Caution) => "<blockquote class=\"markdown-alert-caution\">\n",
    }
}

/// Appends the start of a code block. The first word of the info string names the language (CommonMark 4.5).
#[inline(never)]
fn append_code_block(
    out: &mut String,
    line_start: bool,
    kind: &CodeBlockKind<'_>,
) -> Result<(), AllocError>
    ensures { Writes out.old out.new result
        (fresh_line line_start ++ code_block_start (shown_code_block_kind kind.now)) }
{
    match kind {
        CodeBlockKind::Indented => append_on_line(out, line_start, "<pre><code>"),
        CodeBlockKind::Fenced(info) => append_fenced(out, line_start, first_word(info.as_str())),
    }
}

/// Appends the start of a fenced code block in this language, which may be empty.
fn append_fenced(out: &mut String, line_start: bool, language: &str) -> Result<(), AllocError>
    ensures { Writes out.old out.new result (fresh_line line_start ++ language_start language.now) }
{
    if language.is_empty() {
        return append_on_line(out, line_start, "<pre><code>");
    }
    append_parts(
        out,
        &[
            Part::Raw(new_line(line_start)),
            Part::Raw("<pre><code class=\"language-"),
            Part::Value(language),
            Part::Raw("\">"),
        ],
    )
}

/// The text up to its first space.
fn first_word(text: &str) -> &str
    ensures { result.now ≡ take_while is_within_word text.now }
{
    match memchr(b' ', text.as_bytes()) {
        Some(end) => &text[..end],
        None => text,
    }
}

/// Appends the start of a list, with its first number if that is not 1 (CommonMark 5.3).
#[inline(never)]
fn append_list(out: &mut String, line_start: bool, first: Option<u64>) -> Result<(), AllocError>
    ensures { Writes out.old out.new result (fresh_line line_start ++ list_start first) }
{
    let Some(number) = first else {
        return append_on_line(out, line_start, "<ul>\n");
    };
    if number == 1 {
        return append_on_line(out, line_start, "<ol>\n");
    }
    let mut buffer = Buffer::new();
    append_numbered(out, line_start, buffer.format(number))
}

/// Appends the start of a list whose first number is not 1. `digits` is that number.
fn append_numbered(out: &mut String, line_start: bool, digits: &str) -> Result<(), AllocError>
    ensures { Writes out.old out.new result
        (fresh_line line_start ++ (codes "<ol start=\"" ++ (digits.now ++ codes "\">\n"))) }
{
    append_parts(
        out,
        &[
            Part::Raw(new_line(line_start)),
            Part::Raw("<ol start=\""),
            Part::Raw(digits),
            Part::Raw("\">\n"),
        ],
    )
}

/// Appends the start of a link.
#[inline(never)]
pub fn append_link(
    out: &mut String,
    link_type: LinkType,
    dest_url: &str,
    title: &str,
) -> Result<(), AllocError>
    ensures { Writes out.old out.new result
        (link_start (linked (shown_link_type link_type) dest_url.now title.now)) }
{
    append(out, link_front(link_type))?;
    escape_href(out, dest_url)?;
    append_link_title(out, title)
}

/// Appends the part of a link's start that follows its destination.
fn append_link_title(out: &mut String, title: &str) -> Result<(), AllocError>
    ensures { Writes out.old out.new result
        (codes "\"" ++ (title_attribute title.now ++ codes ">")) }
{
    if title.is_empty() {
        return append(out, "\">");
    }
    append(out, "\" title=\"")?;
    escape_html(out, title)?;
    append(out, "\">")
}

/// The start of a link of this type up to its destination.
fn link_front(link_type: LinkType) -> &'static str
    ensures { result.now ≡ codes "<a href=\"" ++ scheme (shown_link_type link_type) }
{
    match link_type {
        LinkType::Email => "<a href=\"mailto:",
        _ => "<a href=\"",
    }
}
