//! The lines that end a paragraph (CommonMark 4.3 and 4.8).

ghost use Rattle.std.specs.Prelude.{◌≡◌, ℕ, List, option_map};
ghost use Rattle.cmark_grammar.specs.Footnotes.{footnotes_in};
ghost use Rattle.cmark_grammar.specs.Letters.{is_letter, first_is};
ghost use Rattle.cmark_grammar.specs.Rows.{Row, words_of};
ghost use Rattle.cmark_grammar.specs.Leaves.{is_atx_heading, fence_of, underlines};
ghost use Rattle.cmark_grammar.specs.Containers.{is_block_quote};
ghost use Rattle.cmark_grammar.specs.Openings.{interrupts, footnote_interrupts, is_one, item_interrupts, is_some_fence, html_interrupts};
ghost use Rattle.cmark_grammar.specs.HtmlBlocks.{html_kind};
ghost use Rattle.cmark_values.specs.Shown.{level_number, shown_options};
ghost use Rattle.cmark_line_rules.specs.Rests.{row_of};
ghost use Rattle.cmark_line_rules.specs.Starts.{begun_item, is_letter_or_pipe};
ghost use Rattle.cmark_line_rules.specs.Opened.{leaf_interrupts};

use crate::container::{begins_with_quote_mark, may_begin_item};
use crate::footnotes::reads_gfm_footnotes;
use crate::line_rest::LineRest;
use crate::opening::{fence_in, heading_in, html_in, is_break};
use cmark_scan_lines::{HtmlKind, scan_setext_heading};
use cmark_values::{HeadingLevel, Options};

/// Whether the line interrupts a paragraph (CommonMark 4.8). With `same` the paragraph is in the same container; else it is further inside,
/// so that the line lacks a prefix there. An HTML block of kind 7 never interrupts. An item that is blank after its marker, or whose number
/// is not 1, does not interrupt a paragraph of the same container. A footnote definition interrupts only in GitHub's style. The block that
/// the line would begin can differ: lines with four columns of indent and HTML blocks of kind 7 begin blocks, but interrupt no paragraph.
pub fn interrupts(rest: LineRest<'_>, same: bool, options: Options) -> bool
    ensures { (ahead : List Row)
        → result ≡ interrupts (shown_options options) same (row_of rest.entry) ahead }
{
    let words = rest.words();
    if begins_with_letter_or_pipe(words) {
        return false;
    }
    rest.is_blank()
        || footnote_interrupts(rest, options)
        || (rest.indent_upto(4) < 4
            && (is_block_quote(rest, words)
                || item_interrupts(rest, words, same)
                || leaf_interrupts(words)))
}

/// Whether the line begins a footnote definition that interrupts a paragraph (this profile's own).
#[inline]
fn footnote_interrupts(rest: LineRest<'_>, options: Options) -> bool
    ensures { result
        ≡ footnote_interrupts (footnotes_in (shown_options options)) (row_of rest.entry) }
{
    reads_gfm_footnotes(options) && rest.after_footnote_marker().is_some()
}

/// Whether the words of a line begin with an ASCII letter. Most lines of prose do, and such a line is always text.
#[inline]
pub(crate) fn begins_with_letter(words: &[u8]) -> bool
    ensures { result ≡ first_is is_letter words.now }
{
    match words {
        [first, ..] => first.is_ascii_alphabetic(),
        [] => false,
    }
}

/// Whether the words of a line begin with an ASCII letter or a pipe, as rows of a table do. Such a line can interrupt a paragraph only as a
/// table.
#[inline]
fn begins_with_letter_or_pipe(words: &[u8]) -> bool
    ensures { result ≡ first_is is_letter_or_pipe words.now }
{
    match words {
        [first, ..] => first.is_ascii_alphabetic() || *first == b'|',
        [] => false,
    }
}

/// Whether the line with these words begins a block quote.
#[inline]
fn is_block_quote(rest: LineRest<'_>, words: &[u8]) -> bool
    requires { words.now ≡ words_of (row_of rest) }
    ensures { result ≡ is_block_quote (row_of rest.entry) }
{
    begins_with_quote_mark(words) && rest.after_block_quote().is_some()
}

/// Whether the line with these words begins a list item that interrupts a paragraph.
#[inline]
fn item_interrupts(rest: LineRest<'_>, words: &[u8], same: bool) -> bool
    requires { words.now ≡ words_of (row_of rest) }
    ensures { result ≡ item_interrupts same (row_of rest.entry) (begun_item (row_of rest.entry)) }
{
    may_begin_item(words) && marked_item_interrupts(rest, same)
}

/// Whether the line begins a list item that interrupts a paragraph, whatever the first byte of its words.
#[inline]
fn marked_item_interrupts(rest: LineRest<'_>, same: bool) -> bool
    ensures { result ≡ item_interrupts same (row_of rest.entry) (begun_item (row_of rest.entry)) }
{
    match rest.after_item() {
        Some((item, inside)) => !same || (is_one(item.number) && !inside.is_blank()),
        None => false,
    }
}

/// Whether an item of this number begins a list that interrupts a paragraph: a bullet, or number 1.
#[inline]
fn is_one(number: Option<u64>) -> bool
    ensures { result ≡ is_one number }
{
    match number {
        Some(number) => number == 1,
        None => true,
    }
}

/// Whether the words of a line begin a leaf block that interrupts a paragraph.
fn leaf_interrupts(words: &[u8]) -> bool
    ensures { (indent : ℕ) → result ≡ leaf_interrupts indent words.now }
{
    is_break(words) || is_atx_heading(words) || is_code_fence(words) || html_interrupts(words)
}

/// Whether the words of a line are an ATX heading.
#[inline]
fn is_atx_heading(words: &[u8]) -> bool
    ensures { result ≡ is_atx_heading words.now }
{
    heading_in(words).is_some()
}

/// Whether the words of a line are a code fence that opens a block.
#[inline]
fn is_code_fence(words: &[u8]) -> bool
    ensures { (indent : ℕ) → result ≡ is_some_fence (fence_of indent words.now) }
{
    fence_in(words).is_some()
}

/// Whether the words of a line begin an HTML block that interrupts a paragraph: one of kinds 1 to 6.
#[inline]
fn html_interrupts(words: &[u8]) -> bool
    ensures { result ≡ html_interrupts (html_kind words.now) }
{
    match html_in(words) {
        Some(kind) => kind != HtmlKind::Tag,
        None => false,
    }
}

/// The level of the heading that the line makes of the paragraph before it, if it is a setext heading underline (CommonMark 4.3). An
/// underline is a run of `=` or of `-`, indented by at most three columns, and then only blanks. The line must be in the same container as
/// the paragraph: a line that lacks a prefix underlines nothing.
#[inline]
#[tactic(auto, unfolding(cmark_grammar::specs::Leaves::underlines, crate::specs::Rests::row_of))]
pub fn underlines(rest: LineRest<'_>) -> Option<HeadingLevel>
    ensures { option_map level_number result ≡ underlines (row_of rest.entry) }
{
    let level = scan_setext_heading(rest.words())?;
    if rest.indent_upto(4) < 4 {
        Some(level)
    } else {
        None
    }
}
