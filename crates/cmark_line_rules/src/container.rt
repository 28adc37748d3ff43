//! Containers: the lines that they keep, and the lines that begin them (CommonMark 5).

ghost use Rattle.std.specs.Prelude.{◌≡◌, ℕ, List, true, false, option_map, IfSome};
ghost use Rattle.cmark_grammar.specs.Characters.{greater_than_sign};
ghost use Rattle.cmark_grammar.specs.Containers as grammar;
ghost use Rattle.cmark_grammar.specs.Containers.{begins_with, keeps};
ghost use Rattle.cmark_grammar.specs.Letters.{first_is};
ghost use Rattle.cmark_grammar.specs.Rows.{words_of};
ghost use Rattle.cmark_grammar.specs.Options as profile;
ghost use Rattle.cmark_line_rules.specs.Rests.{row_of, IsIn};
ghost use Rattle.cmark_values.specs.Shown.{shown_options};
ghost use Rattle.cmark_line_rules.specs.Starts.{Shows, shown_start, begun_container, begun_footnote, begun_marked, begins_item, Enters, HasMarker};

use crate::footnotes::{reads_footnotes, reads_old_footnotes};
use crate::line_rest::LineRest;
use cmark_values::Options;

/// A container block, with the data that decide which later lines it keeps.
#[derive(Clone, Copy)]
pub enum Container {
    /// A block quote (CommonMark 5.1).
    BlockQuote,
    /// A list item (CommonMark 5.2).
    Item {
        /// The number of columns of the prefix of its later lines.
        width: usize,
    },
    /// A footnote definition (this profile's own).
    Footnote {
        /// Whether it is in the old style, and not in GitHub's.
        old: bool,
    },
    /// A definition of a definition list (this profile's own).
    Definition {
        /// The number of columns of the prefix of its later lines.
        width: usize,
    },
}

/// A list item, by its first line (CommonMark 5.2).
#[derive(Clone, Copy)]
pub struct ItemStart {
    /// The bullet, or the byte after the number: `.` or `)`.
    pub delimiter: u8,
    /// The number of an ordered item; `None` for a bullet.
    pub number: Option<u64>,
    /// The number of columns of the prefix of its later lines.
    pub width: usize,
}

/// A footnote definition, by its first line (this profile's own).
#[derive(Clone, Copy)]
pub struct FootnoteStart {
    /// The number of bytes of the label. It begins after the first two bytes of the line's words, and a bracket follows it.
    pub label_size: usize,
    /// Whether it is in the old style, and not in GitHub's.
    pub old: bool,
}

/// A container that a line begins, and the line after the container's marker.
#[derive(Clone, Copy)]
pub enum ContainerStart<'a> {
    /// A block quote; [`LineRest::alert_kind`] tells whether it is an alert.
    BlockQuote(LineRest<'a>),
    /// A list item.
    Item(ItemStart, LineRest<'a>),
    /// A footnote definition (this profile's own), and the line after the blanks that follow its marker.
    Footnote(FootnoteStart, LineRest<'a>),
}

impl Container {
    /// The line after this container's prefix, if the container keeps the line (CommonMark 5). A block quote keeps the lines with its
    /// marker. An item and a definition keep blank lines and the lines that are indented by their width. A footnote definition keeps blank
    /// lines and the lines that are indented by four columns; in the old style, all lines that are not blank. `bare`: the line before was
    /// the first line of an item or a definition, and blank after the marker; then a blank line ends the container (CommonMark 5.2).
    #[inline(always)]
    pub fn keeps<'a>(self, bare: bool, rest: LineRest<'a>) -> Option<LineRest<'a>>
        ensures row { (k : grammar.Container) → Shows self k
            → option_map row_of result ≡ keeps k bare (row_of rest.entry) }
        ensures placed { (text : List ℕ) → IsIn text rest.entry → IfSome result (IsIn text) }
    {
        if bare && rest.is_blank() {
            return None;
        }
        match self {
            Container::BlockQuote => rest.after_block_quote(),
            Container::Item { width } => rest.after_width(width),
            Container::Footnote { old } => rest.after_footnote(old),
            Container::Definition { width } => rest.after_width(width),
        }
    }
}

/// The container that the line begins, indented by at most three columns, and the line after its marker. With footnotes on, a footnote
/// definition comes first. `words` are the line's words.
#[inline(always)]
pub(crate) fn container_start<'a>(
    rest: LineRest<'a>,
    words: &[u8],
    options: Options,
) -> Option<ContainerStart<'a>>
    requires { words.now ≡ words_of (row_of rest) }
    ensures container { option_map (shown_start (shown_options options) (row_of rest.entry)) result
        ≡ begun_container (shown_options options) (row_of rest.entry) }
    ensures inside { IfSome result (Enters (row_of rest.entry)) }
    ensures marker { IfSome result (HasMarker (row_of rest.entry)) }
{
    if let Some(start) = footnote_start(rest, options) {
        return Some(start);
    }
    marker_start(rest, words)
}

/// The footnote definition that the line begins, indented by at most three columns, and the line after the blanks that follow its marker
/// (this profile's own).
#[inline(always)]
fn footnote_start<'a>(rest: LineRest<'a>, options: Options) -> Option<ContainerStart<'a>>
    ensures container { option_map (shown_start (shown_options options) (row_of rest.entry)) result
        ≡ begun_footnote (shown_options options) (row_of rest.entry) }
    ensures inside { IfSome result (Enters (row_of rest.entry)) }
    ensures marker { IfSome result (HasMarker (row_of rest.entry)) }
{
    if !reads_footnotes(options) {
        return None;
    }
    let (label_size, inside) = rest.after_footnote_marker()?;
    let old = reads_old_footnotes(options);
    Some(ContainerStart::Footnote(FootnoteStart { label_size, old }, inside))
}

/// The list item or block quote that the line with these words begins, indented by at most three columns, and the line after its marker.
#[inline(always)]
fn marker_start<'a>(rest: LineRest<'a>, words: &[u8]) -> Option<ContainerStart<'a>>
    requires { words.now ≡ words_of (row_of rest) }
    ensures container { (options : profile.Options)
        → option_map (shown_start options (row_of rest.entry)) result
        ≡ begun_marked options (row_of rest.entry) }
    ensures inside { IfSome result (Enters (row_of rest.entry)) }
    ensures marker { IfSome result (HasMarker (row_of rest.entry)) }
{
    if begins_with_quote_mark(words) {
        return block_quote_start(rest);
    }
    if !may_begin_item(words) {
        return None;
    }
    item_start(rest)
}

/// The block quote that a line begins whose words begin with its marker, indented by at most three columns, and the line after the marker.
#[inline(always)]
fn block_quote_start<'a>(rest: LineRest<'a>) -> Option<ContainerStart<'a>>
    requires { begins_with greater_than_sign (words_of (row_of rest)) ≡ true }
    ensures container { (options : profile.Options)
        → option_map (shown_start options (row_of rest.entry)) result
        ≡ begun_marked options (row_of rest.entry) }
    ensures inside { IfSome result (Enters (row_of rest.entry)) }
    ensures marker { IfSome result (HasMarker (row_of rest.entry)) }
{
    let inside = rest.after_block_quote()?;
    Some(ContainerStart::BlockQuote(inside))
}

/// The list item that a line begins, indented by at most three columns, and the line after its marker. The line's words do not begin with
/// the marker of a block quote.
#[inline(always)]
fn item_start<'a>(rest: LineRest<'a>) -> Option<ContainerStart<'a>>
    requires { begins_with greater_than_sign (words_of (row_of rest)) ≡ false }
    ensures container { (options : profile.Options)
        → option_map (shown_start options (row_of rest.entry)) result
        ≡ begun_marked options (row_of rest.entry) }
    ensures inside { IfSome result (Enters (row_of rest.entry)) }
    ensures marker { IfSome result (HasMarker (row_of rest.entry)) }
{
    let (item, inside) = rest.after_item()?;
    Some(ContainerStart::Item(item, inside))
}

/// Whether the words of a line begin with the marker of a block quote.
#[inline]
pub(crate) fn begins_with_quote_mark(words: &[u8]) -> bool
    ensures { result ≡ begins_with greater_than_sign words.now }
{
    match words {
        [first, ..] => *first == b'>',
        [] => false,
    }
}

/// Whether the first byte of a line's words may begin the marker of a list item.
#[inline]
pub(crate) fn may_begin_item(words: &[u8]) -> bool
    ensures { result ≡ first_is begins_item words.now }
{
    match words {
        [b'-' | b'+' | b'*' | b'0'..=b'9', ..] => true,
        [..] => false,
    }
}
