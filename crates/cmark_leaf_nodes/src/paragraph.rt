//! The lines of paragraphs and of setext headings (CommonMark 4.8). Touching lines, each of which begins after the line ending of the one
//! before, are one node.

ghost use Rattle.std.specs.Prelude.{◌≡◌, ℕ, List, OnOk};
ghost use Rattle.cmark_items.specs.Tables.{defined};
ghost use Rattle.cmark_grammar.specs.BlockDocument.{Nil};
ghost use Rattle.cmark_grammar.specs.Tokens.{words_end, stretch_then};
ghost use Rattle.cmark_block_model.specs.Drawing.{Drawing, closed_at, drawn, texts_cut};
ghost use Rattle.cmark_builder.specs.Drawn.{Draws};
ghost use Rattle.cmark_line_rules.specs.Rests.{row_of};

use crate::words::draw_words;
use cmark_builder::Builder;
use cmark_line_rules::LineRest;
use cmark_scan_bytes::bytes::without_trailing_blanks;
use std::alloc::AllocError;

/// The end of a line's words, without the blanks after them: a byte offset of the text.
#[inline(always)]
fn words_end(rest: LineRest<'_>) -> usize
    ensures { result ≡ words_end (row_of rest.entry) }
{
    let words = rest.words();
    rest.content_end() - (words.len() - without_trailing_blanks(words).len())
}

/// Adds the last touching lines of a paragraph as a node after the last sibling, unless they are empty. They are the bytes from offset
/// `from` to the end of the last line's words. If memory is refused, the tree is unchanged.
#[inline(always)]
pub fn draw_last_lines(
    builder: &mut Builder<'_>,
    from: usize,
    last: LineRest<'_>,
) -> Result<(), AllocError>
    ensures drawn { OnOk result
        ((text : List ℕ) (d : Drawing) → Draws text builder.old d
        → Draws text builder.new
        (drawn (stretch_then text from (words_end (row_of last.entry)) Nil) d)) }
    ensures definitions { defined builder.new.allocations ≡ defined builder.old.allocations }
{
    draw_words(builder, from, words_end(last))
}

/// Closes the open paragraph at byte offset `end`, after its last touching lines, from byte offset `from` to the end of the last line's
/// words. If they are all of it, the paragraph and they become one node. If memory is refused, the tree is unchanged.
#[inline(always)]
pub fn close_lines(
    builder: &mut Builder<'_>,
    from: usize,
    last: LineRest<'_>,
    end: usize,
) -> Result<(), AllocError>
    ensures drawn { OnOk result
        ((text : List ℕ) (d : Drawing) → Draws text builder.old d
        → Draws text builder.new
        (closed_at end (drawn (stretch_then text from (words_end (row_of last.entry)) Nil) d))) }
    ensures definitions { defined builder.new.allocations ≡ defined builder.old.allocations }
{
    let text_end = words_end(last);
    if from < text_end && builder.close_whole(from, text_end, end) {
        return Ok(());
    }
    draw_words(builder, from, text_end)?;
    builder.close(end);
    Ok(())
}

/// Adds touching lines of a paragraph, from byte offset `from` to the end of the last line's ending, as a node after the last sibling,
/// unless they are empty. Further lines follow that do not touch them. If memory is refused, the tree is unchanged.
pub fn draw_lines(
    builder: &mut Builder<'_>,
    from: usize,
    last: LineRest<'_>,
) -> Result<(), AllocError>
    ensures drawn { OnOk result
        ((text : List ℕ) (d : Drawing) → Draws text builder.old d
        → Draws text builder.new
        (drawn (stretch_then text from (row_of last.entry).line_end Nil) d)) }
    ensures definitions { defined builder.new.allocations ≡ defined builder.old.allocations }
{
    draw_words(builder, from, last.line_end())
}

/// Cuts the texts inside the open node at this byte offset, which becomes the end of the last remaining text. The time is proportional to
/// the number of texts. If memory is refused, that last text may be missing.
pub fn cut_lines(builder: &mut Builder<'_>, at: usize) -> Result<(), AllocError>
    ensures drawn { OnOk result ((text : List ℕ) (d : Drawing) → Draws text builder.old d
        → Draws text builder.new (texts_cut text at d)) }
    ensures definitions { defined builder.new.allocations ≡ defined builder.old.allocations }
{
    match builder.cut(at) {
        Some(start) => draw_words(builder, start, at),
        None => Ok(()),
    }
}
