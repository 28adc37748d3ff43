//! The opening of a line: the block that it begins (CommonMark 3 to 5).

ghost use Rattle.std.specs.Prelude.{◌≡◌, ◌==◌, ◌&&◌, not, ℕ, List, IfSome, option_map};
ghost use Rattle.cmark_grammar.specs.Characters.{left_bracket};
ghost use Rattle.cmark_grammar.specs.Footnotes.{are_read, footnotes_in, is_footnote_label};
ghost use Rattle.cmark_grammar.specs.Letters.{is_letter, first_is};
ghost use Rattle.cmark_grammar.specs.Rows.{Row, words_of, indent_of};
ghost use Rattle.cmark_grammar.specs.Containers.{begins_with};
ghost use Rattle.cmark_grammar.specs.Metadata.{metadata_kind};
ghost use Rattle.cmark_grammar.specs.Openings.{opens, or_else, metadata_begun, leaf_of, begins_no_link};
ghost use Rattle.cmark_line_rules.specs.Rests.{row_of, CutsNoCharacter, IsIn};
ghost use Rattle.cmark_values.specs.Shown.{shown_options, level_number};
ghost use Rattle.cmark_grammar.specs.HtmlBlocks.{html_kind};
ghost use Rattle.cmark_grammar.specs.Leaves.{is_thematic_break, fence_of};
ghost use Rattle.cmark_scan_lines.specs.HtmlLines.{kind_number};
ghost use Rattle.cmark_scan_lines.specs.LeafLines.{atx_level, shown_fence, HasPlace};
ghost use Rattle.cmark_line_rules.specs.Opened.{opened, HasInside, IsMarked, InsideIsShorter, HasInfo, HasBracket, InsideIsIn, InfoIsIn};

use crate::container::{ContainerStart, container_start};
use crate::footnotes::reads_footnotes;
use crate::interrupt::begins_with_letter;
use crate::line_rest::LineRest;
use cmark_scan_lines::{
    CodeFence, HtmlKind, html_kind, scan_atx_heading, scan_code_fence, scan_hrule,
};
use cmark_values::{HeadingLevel, Options};

/// The opening of a line that lacks no prefix of the containers around it, except metadata.
#[derive(Clone, Copy)]
pub enum Opening<'a> {
    /// A blank line.
    Blank,
    /// A container (CommonMark 5).
    Nests(ContainerStart<'a>),
    /// An indented code block (CommonMark 4.4).
    IndentedCode,
    /// An HTML block (CommonMark 4.6).
    Html(HtmlKind),
    /// A thematic break (CommonMark 4.1).
    ThematicBreak,
    /// An ATX heading (CommonMark 4.2).
    AtxHeading(HeadingLevel),
    /// A fenced code block (CommonMark 4.5).
    FencedCode {
        /// The number of columns by which the fence is indented, 0 to 3.
        indent: usize,
        /// The fence; its places are byte offsets from the line's words.
        fence: CodeFence,
    },
    /// No other kind of opening, and the words begin with `[`. It is a link reference definition (CommonMark 4.7), if this line and those
    /// ahead form one, and else a table or a paragraph.
    Bracket,
    /// A table (GFM 4.10), if this line is its head, and else a paragraph (CommonMark 4.8).
    Plain,
}

/// The opening of the line, if it begins no metadata. A line that is indented by four columns or more begins an indented code block,
/// unless it is blank. With less indent, a container's marker comes first, then the leaf blocks.
pub fn what_opens<'a>(rest: LineRest<'a>, options: Options) -> Opening<'a>
    ensures opens { (ahead : List Row)
        → opens (shown_options options) (row_of rest.entry) ahead
        ≡ or_else (metadata_begun (metadata_kind (shown_options options) (row_of rest.entry)) ahead)
        (opened (shown_options options) result (row_of rest.entry) ahead) }
    ensures inside { HasInside result (row_of rest.entry) }
    ensures shorter { InsideIsShorter result (row_of rest.entry) }
    ensures marker { IsMarked result (row_of rest.entry) }
    ensures info { HasInfo result (row_of rest.entry) }
    ensures bracket { HasBracket result (row_of rest.entry) }
    ensures placed { (text : List ℕ) → IsIn text rest.entry → InsideIsIn text result }
    ensures info_placed { (text : List ℕ) → IsIn text rest.entry
        → InfoIsIn text result (row_of rest.entry) }
{
    let Some((indent, words)) = rest.indent_and_words() else {
        return Opening::Blank;
    };
    if indent == 4 {
        return Opening::IndentedCode;
    }
    if begins_with_letter(words) {
        return Opening::Plain;
    }
    if let Some(start) = container_start(rest, words, options) {
        return Opening::Nests(start);
    }
    leaf_opening(words, indent, options)
}

/// The leaf that the words of a line with this indent begin, if they begin no container.
fn leaf_opening<'a>(words: &[u8], indent: usize, options: Options) -> Opening<'a>
    ensures opens { (r : Row) (ahead : List Row) → words_of r ≡ words.now → indent_of r ≡ indent
        → leaf_of (shown_options options) r ahead ≡ opened (shown_options options) result r ahead }
    ensures inside { (r : Row) → HasInside result r × InsideIsShorter result r }
    ensures marker { (r : Row) → IsMarked result r }
    ensures info { (r : Row) → words_of r ≡ words.now → HasInfo result r }
    ensures bracket { (r : Row) → words_of r ≡ words.now → HasBracket result r }
    ensures placed { (text : List ℕ) → InsideIsIn text result }
    ensures info_placed { (text : List ℕ) (r : Row) → words_of r ≡ words.now
        → CutsNoCharacter text r → InfoIsIn text result r }
{
    if may_begin_link(words, options) {
        return Opening::Bracket;
    }
    if let Some(kind) = html_in(words) {
        return Opening::Html(kind);
    }
    if is_break(words) {
        return Opening::ThematicBreak;
    }
    if let Some(level) = heading_in(words) {
        return Opening::AtxHeading(level);
    }
    if let Some(fence) = fence_in(words) {
        return Opening::FencedCode { indent, fence };
    }
    Opening::Plain
}

/// The kind of the HTML block that the words of a line begin, if they begin one.
#[inline(always)]
pub(crate) fn html_in(words: &[u8]) -> Option<HtmlKind>
    ensures { option_map kind_number result ≡ html_kind words.now }
{
    match words {
        [b'<', ..] => html_kind(words),
        _ => None,
    }
}

/// Whether the words of a line are a thematic break.
#[inline(always)]
pub(crate) fn is_break(words: &[u8]) -> bool
    ensures { result ≡ is_thematic_break words.now }
{
    match words {
        [b'*' | b'-' | b'_' | b' ' | b'\t', ..] => scan_hrule(words),
        _ => false,
    }
}

/// The level of the ATX heading that the words of a line are, if they are one.
#[inline(always)]
pub(crate) fn heading_in(words: &[u8]) -> Option<HeadingLevel>
    ensures { option_map level_number result ≡ atx_level words.now }
{
    match words {
        [b'#', ..] => scan_atx_heading(words),
        _ => None,
    }
}

/// The code fence that the words of a line are, if they open a code block.
#[inline(always)]
pub(crate) fn fence_in(words: &[u8]) -> Option<CodeFence>
    ensures fence { (indent : ℕ)
        → option_map (shown_fence indent words.now) result ≡ fence_of indent words.now }
    ensures place { IfSome result (HasPlace words.now) }
{
    match words {
        [b'`' | b'~', ..] => scan_code_fence(words),
        _ => None,
    }
}

/// Whether the words of a line begin with an opening bracket that may belong to a link's label. With footnotes on, a label that begins with
/// `^` and has more bytes is not a link's.
#[inline]
fn may_begin_link(words: &[u8], options: Options) -> bool
    ensures { result
        ≡
        (begins_with left_bracket words.now && not
        (begins_no_link (footnotes_in (shown_options options)) words.now)) }
{
    begins_with_bracket(words) && !(reads_footnotes(options) && begins_footnote_label(words))
}

/// Whether the words of a line begin with an opening bracket.
#[inline]
fn begins_with_bracket(words: &[u8]) -> bool
    ensures { result ≡ begins_with left_bracket words.now }
{
    match words {
        [first, ..] => *first == b'[',
        [] => false,
    }
}

/// Whether the words of a line begin with `[^`, and the label continues after that.
fn begins_footnote_label(words: &[u8]) -> bool
    ensures { result ≡ is_footnote_label words.now }
{
    match words {
        [b'[', b'^', b']', ..] => false,
        [b'[', b'^', ..] => true,
        _ => false,
    }
}

/// Whether a line begins with an ASCII letter, without indent. If no definition may begin, such a line begins a table or a paragraph.
#[inline]
pub fn begins_with_text(rest: LineRest<'_>) -> bool
    ensures { result
        ≡
        ((indent_of (row_of rest.entry) == 0) && first_is is_letter
        (words_of (row_of rest.entry))) }
{
    match rest.words_without_indent() {
        Some(words) => begins_with_letter(words),
        None => false,
    }
}

/// Whether a line begins with an opening bracket, without indent, and footnotes are off. Such a line begins a link reference definition, a
/// table or a paragraph.
#[inline]
pub fn begins_with_label(rest: LineRest<'_>, options: Options) -> bool
    ensures { result
        ≡
        ((indent_of (row_of rest.entry) == 0) &&
        (begins_with left_bracket (words_of (row_of rest.entry)) && not
        (are_read (footnotes_in (shown_options options))))) }
{
    match rest.words_without_indent() {
        Some(words) => begins_with_bracket(words) && !reads_footnotes(options),
        None => false,
    }
}
