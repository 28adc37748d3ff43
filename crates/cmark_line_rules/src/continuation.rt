//! Code and HTML blocks, line by line (CommonMark 4.4 to 4.6).

ghost use Rattle.std.specs.Prelude.{◌≡◌, ◌&&◌, ℕ, List, nat_le};
ghost use Rattle.cmark_grammar.specs.Rows.{words_of};
ghost use Rattle.cmark_grammar.specs.HtmlBlocks.{html_continuation, holds_end};
ghost use Rattle.cmark_grammar.specs.Leaves.{code_continuation};
ghost use Rattle.cmark_block_model.specs.BlocksByLine.{continuation_in};
ghost use Rattle.cmark_scan_lines.specs.HtmlLines.{kind_number};
ghost use Rattle.cmark_line_rules.specs.Rests.{row_of};
ghost use Rattle.cmark_line_rules.specs.Continuations.{shown_code_or_html, shown_continuation, fenced_continuation};

use crate::line_rest::LineRest;
use cmark_scan_lines::{HtmlKind, holds_end, scan_closing_code_fence};

/// An open leaf block whose lines are literal.
#[derive(Clone, Copy)]
pub enum CodeOrHtml {
    /// An indented code block (CommonMark 4.4).
    Indented,
    /// A fenced code block (CommonMark 4.5).
    Fenced {
        /// The fence's character, a backtick or a tilde.
        delimiter: u8,
        /// The length of the opening fence.
        run_length: usize,
        /// The number of columns by which the opening fence is indented.
        indent: usize,
    },
    /// An HTML block (CommonMark 4.6).
    Html(HtmlKind),
}

/// The effect of the next line on an open code or HTML block.
#[derive(Clone, Copy, PartialEq, Eq)]
pub enum Continuation {
    /// It belongs to the block, which continues.
    GoesOn,
    /// It belongs to the block, and ends it.
    Closes,
    /// It belongs to the block only if a later line does.
    Waits,
    /// The block has ended before it.
    Stops,
}

impl CodeOrHtml {
    /// The effect of the line on this block. The line must have the prefixes of the containers around the block: a line that lacks one ends
    /// the block.
    #[inline(always)]
    pub fn continuation(self, rest: LineRest<'_>) -> Continuation
        ensures { (info : List ℕ)
            → shown_continuation result
            ≡ continuation_in (shown_code_or_html info self) (row_of rest.entry) }
    {
        match self {
            CodeOrHtml::Indented => code_continuation(rest),
            CodeOrHtml::Fenced {
                delimiter,
                run_length,
                ..
            } => fence_continuation(rest, delimiter, run_length),
            CodeOrHtml::Html(kind) => html_continuation(rest, kind),
        }
    }
}

/// The effect of the line on an indented code block: blank lines belong to it only between indented ones (CommonMark 4.4).
#[inline]
fn code_continuation(rest: LineRest<'_>) -> Continuation
    ensures { shown_continuation result ≡ code_continuation (row_of rest.entry) }
{
    if rest.is_blank() {
        Continuation::Waits
    } else if rest.indent_upto(4) == 4 {
        Continuation::GoesOn
    } else {
        Continuation::Stops
    }
}

/// The effect of the line on a code block whose fence has `run_length` of this byte (CommonMark 4.5).
#[inline]
fn fence_continuation(rest: LineRest<'_>, delimiter: u8, run_length: usize) -> Continuation
    ensures { shown_continuation result
        ≡ fenced_continuation delimiter run_length (row_of rest.entry) }
{
    if rest.indent_upto(4) < 4 && scan_closing_code_fence(rest.words(), delimiter, run_length) {
        Continuation::Closes
    } else {
        Continuation::GoesOn
    }
}

/// The effect of the line on an HTML block of this kind. A block of kinds 1 to 5 ends with a line that contains its end; one of kinds 6 and
/// 7 ends before a blank line (CommonMark 4.6).
#[inline]
fn html_continuation(rest: LineRest<'_>, kind: HtmlKind) -> Continuation
    ensures { shown_continuation result ≡ html_continuation (kind_number kind) (row_of rest.entry) }
{
    match kind {
        HtmlKind::Block | HtmlKind::Tag => {
            if rest.is_blank() {
                Continuation::Stops
            } else {
                Continuation::GoesOn
            }
        }
        _ => {
            if holds_end(rest.bytes(), kind) {
                Continuation::Closes
            } else {
                Continuation::GoesOn
            }
        }
    }
}

/// Whether an HTML block of this kind ends on the line that begins it, because the line contains its end. Blocks of kinds 6 and 7 end only
/// before a later line (CommonMark 4.6).
#[inline]
pub fn ends_at_once(kind: HtmlKind, rest: LineRest<'_>) -> bool
    ensures { result
        ≡
        (nat_le (kind_number kind) 5 && holds_end (kind_number kind)
        (words_of (row_of rest.entry))) }
{
    holds_end(rest.words(), kind)
}
