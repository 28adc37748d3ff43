//! The lines of HTML blocks (CommonMark 4.6).

ghost use Rattle.std.specs.Prelude.{◌≡◌, ℕ, List, [], OnOk};
ghost use Rattle.cmark_items.specs.Tables.{defined};
ghost use Rattle.cmark_grammar.specs.BlockDocument.{Nil};
ghost use Rattle.cmark_grammar.specs.Rows.{begin_of};
ghost use Rattle.cmark_grammar.specs.Tokens.{piece_if, spaces_if, left_columns, verbatim_line, html_then};
ghost use Rattle.cmark_block_model.specs.Drawing.{Drawing, drawn};
ghost use Rattle.cmark_builder.specs.Drawn.{Draws};
ghost use Rattle.cmark_line_rules.specs.Rests.{row_of};

use crate::stretch::{Stretch, draw_spaces, stretches_of};
use cmark_builder::Builder;
use cmark_items::ItemBody;
use cmark_line_rules::LineRest;
use std::alloc::AllocError;

/// Adds a stretch of HTML as a node after the last sibling, unless it is empty.
fn draw_html(builder: &mut Builder<'_>, stretch: Stretch) -> Result<(), AllocError>
    ensures drawn { OnOk result
        ((text : List ℕ) (d : Drawing) → Draws text builder.old d
        → Draws text builder.new
        (drawn (html_then (piece_if text stretch.start stretch.end []) Nil) d)) }
    ensures definitions { defined builder.new.allocations ≡ defined builder.old.allocations }
{
    if stretch.start == stretch.end {
        return Ok(());
    }
    builder.add(stretch.start, stretch.end, ItemBody::Html)
}

/// Adds the columns at the beginning that are left of a tab, as a node of spaces after the last sibling.
fn draw_left_columns(builder: &mut Builder<'_>, rest: LineRest<'_>) -> Result<(), AllocError>
    ensures drawn { OnOk result
        ((text : List ℕ) (d : Drawing) → Draws text builder.old d
        → Draws text builder.new
        (drawn
        (html_then
        (spaces_if (left_columns (row_of rest.entry).columns) (begin_of (row_of rest.entry)) [])
        Nil) d)) }
    ensures definitions { defined builder.new.allocations ≡ defined builder.old.allocations }
{
    let count = rest.remaining_space();
    if count == 0 {
        return Ok(());
    }
    draw_spaces(builder, count, rest.begin())
}

/// Adds a line of an HTML block as a node after the last sibling. Columns that are left of a tab are spaces, in a node of their own before
/// it. If the line ends in CR LF, the line feed is a node of its own after it, and the CR is left out. If memory is refused, some of the
/// nodes may have been added.
pub fn draw_html_line(builder: &mut Builder<'_>, rest: LineRest<'_>) -> Result<(), AllocError>
    ensures drawn { OnOk result
        ((text : List ℕ) (d : Drawing) → Draws text builder.old d
        → Draws text builder.new
        (drawn (html_then (verbatim_line text (row_of rest.entry).columns (row_of rest.entry)) Nil)
        d)) }
    ensures definitions { defined builder.new.allocations ≡ defined builder.old.allocations }
{
    draw_left_columns(builder, rest)?;
    let (content, ending) = stretches_of(rest);
    draw_html(builder, content)?;
    draw_html(builder, ending)
}
