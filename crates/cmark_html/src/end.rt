//! The pieces of ends.

ghost use Rattle.std.specs.Prelude.{◌≡◌};
ghost use Rattle.cmark_grammar.specs.Html.{end_piece, heading_end, line_start_after_end};
ghost use Rattle.cmark_text.specs.Appended.{Writes};
ghost use Rattle.cmark_text.specs.Shown.{shown_end};
ghost use Rattle.cmark_values.specs.Shown.{level_number};

use crate::parts::append;
use crate::table::cell_end_text;
use cmark_text::{HeadingLevel, TagEnd};
use std::alloc::AllocError;

/// The HTML of an end, in the head of a table or elsewhere.
fn end_text(in_head: bool, tag: TagEnd) -> &'static str
    ensures { result.now ≡ end_piece in_head (shown_end tag) }
{
    match tag {
        TagEnd::Paragraph => "</p>\n",
        TagEnd::Heading(level) => heading_end_text(level),
        TagEnd::BlockQuote(_) => "</blockquote>\n",
        TagEnd::CodeBlock => "</code></pre>\n",
        TagEnd::List(false) => "</ul>\n",
        TagEnd::List(true) => "</ol>\n",
        TagEnd::Item => "</li>\n",
        TagEnd::FootnoteDefinition => "</div>\n",
        TagEnd::DefinitionList => "</dl>\n",
        TagEnd::DefinitionListTitle => "</dt>\n",
        TagEnd::DefinitionListDefinition => "</dd>\n",
        TagEnd::Table => "</tbody></table>\n",
        TagEnd::TableHead => "</tr></thead><tbody>\n",
        TagEnd::TableRow => "</tr>\n",
        TagEnd::TableCell => cell_end_text(in_head),
        TagEnd::Emphasis => "</em>",
        TagEnd::Strong => "</strong>",
        TagEnd::Strikethrough => "</del>",
        TagEnd::Superscript => "</sup>",
        TagEnd::Subscript => "</sub>",
        TagEnd::Highlight => "</mark>",
        TagEnd::Link => "</a>",
        TagEnd::HtmlBlock | TagEnd::Image | TagEnd::MetadataBlock(_) => "",
    }
}

/// The HTML of the end of a heading.
fn heading_end_text(level: HeadingLevel) -> &'static str
    ensures { result.now ≡ heading_end (level_number level) }
{
    match level {
        HeadingLevel::H1 => "</h1>\n",
        HeadingLevel::H2 => "</h2>\n",
        HeadingLevel::H3 => "</h3>\n",
        HeadingLevel::H4 => "</h4>\n",
        HeadingLevel::H5 => "</h5>\n",
        HeadingLevel::H6 => "</h6>\n",
    }
}

/// Appends the HTML of an end, in the head of a table or elsewhere.
#[inline(always)]
pub fn append_end(out: &mut String, in_head: bool, tag: TagEnd) -> Result<(), AllocError>
    ensures { Writes out.old out.new result (end_piece in_head (shown_end tag)) }
{
    // Most ends are those of paragraphs, whose text has a length that is known here.
    if let TagEnd::Paragraph = tag {
        return append(out, "</p>\n");
    }
    append(out, end_text(in_head, tag))
}

/// Whether the writer is at a line start after an end.
#[inline(always)]
pub fn line_start_after_end(line_start: bool, tag: TagEnd) -> bool
    ensures { result ≡ line_start_after_end line_start (shown_end tag) }
{
    match tag {
        TagEnd::Paragraph
        | TagEnd::Heading(_)
        | TagEnd::BlockQuote(_)
        | TagEnd::CodeBlock
        | TagEnd::List(_)
        | TagEnd::Item
        | TagEnd::FootnoteDefinition
        | TagEnd::DefinitionList
        | TagEnd::DefinitionListTitle
        | TagEnd::DefinitionListDefinition
        | TagEnd::Table
        | TagEnd::TableHead
        | TagEnd::TableRow => true,
        TagEnd::TableCell
        | TagEnd::Emphasis
        | TagEnd::Strong
        | TagEnd::Strikethrough
        | TagEnd::Superscript
        | TagEnd::Subscript
        | TagEnd::Highlight
        | TagEnd::Link => false,
        TagEnd::HtmlBlock | TagEnd::Image | TagEnd::MetadataBlock(_) => line_start,
    }
}
