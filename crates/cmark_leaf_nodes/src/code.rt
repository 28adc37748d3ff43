//! The lines of code blocks (CommonMark 4.4 and 4.5). Touching pieces of the text are one node, so a stretch of the text waits until the
//! next piece is known.

ghost use Rattle.std.specs.Prelude.{◌≡◌, ℕ, List, [], Some, MatchOption, IfOk, OnOk};
ghost use Rattle.cmark_items.specs.Tables.{defined};
ghost use Rattle.cmark_grammar.specs.Rows.{begin_of};
ghost use Rattle.cmark_grammar.specs.Tokens.{piece_if, spaces_if, left_columns};
ghost use Rattle.cmark_block_model.specs.Drawing.{Drawing, drawn};
ghost use Rattle.cmark_block_model.specs.CodeLines.{add_to, code_line, rest_of, texts_of};
ghost use Rattle.cmark_builder.specs.Drawn.{Draws};
ghost use Rattle.cmark_line_rules.specs.Rests.{row_of};
ghost use Rattle.cmark_leaf_nodes.specs.Stretches.{shown_stretch, shown_waits, run_of, Goes};

use crate::stretch::{Stretch, draw_spaces, stretches_of};
use cmark_builder::Builder;
use cmark_items::ItemBody;
use cmark_line_rules::LineRest;
use std::alloc::AllocError;

/// Adds the stretch that waits, if there is one, as a node after the last sibling.
pub fn draw_stretch(builder: &mut Builder<'_>, waits: Option<Stretch>) -> Result<(), AllocError>
    ensures drawn { OnOk result ((text : List ℕ) (d : Drawing) → Draws text builder.old d
        → Draws text builder.new (drawn (texts_of (rest_of (shown_waits text waits))) d)) }
    ensures definitions { defined builder.new.allocations ≡ defined builder.old.allocations }
{
    match waits {
        Some(stretch) => builder.add(
            stretch.start,
            stretch.end,
            ItemBody::Text {
                backslash_escaped: false,
            },
        ),
        None => Ok(()),
    }
}

/// The stretch that the waiting one and the next one form, if they touch.
fn joined(waits: Option<Stretch>, next: Stretch) -> Option<Stretch>
    ensures { (text : List ℕ)
        → MatchOption result
        (add_to [] (shown_waits text waits) (shown_stretch text next)
        ≡
        record { done = rest_of (shown_waits text waits); waits = Some (shown_stretch text next) })
        (λ both. add_to [] (shown_waits text waits) (shown_stretch text next)
        ≡ run_of text (Some both)) }
{
    let stretch = waits?;
    if stretch.end != next.start {
        return None;
    }
    Some(Stretch {
        start: stretch.start,
        end: next.end,
    })
}

/// Adds another stretch, which may be empty. If it touches the stretch that waits, it extends that one; else that one becomes a node, and
/// the new one waits.
fn add_stretch(
    builder: &mut Builder<'_>,
    waits: Option<Stretch>,
    next: Stretch,
) -> Result<Option<Stretch>, AllocError>
    ensures goes { IfOk result
        (λ left. (text : List ℕ)
        → Goes text builder.old builder.new waits left (piece_if text next.start next.end [])) }
    ensures definitions { defined builder.new.allocations ≡ defined builder.old.allocations }
{
    if next.start == next.end {
        return Ok(waits);
    }
    if let Some(both) = joined(waits, next) {
        return Ok(Some(both));
    }
    draw_stretch(builder, waits)?;
    Ok(Some(next))
}

/// Adds the columns at the beginning that are left of a tab, as spaces; before them the stretch that waits becomes a node.
fn add_left_columns(
    builder: &mut Builder<'_>,
    waits: Option<Stretch>,
    rest: LineRest<'_>,
) -> Result<Option<Stretch>, AllocError>
    ensures goes { IfOk result
        (λ left. (text : List ℕ)
        → Goes text builder.old builder.new waits left
        (spaces_if (left_columns (row_of rest.entry).columns) (begin_of (row_of rest.entry)) [])) }
    ensures definitions { defined builder.new.allocations ≡ defined builder.old.allocations }
{
    let count = rest.remaining_space();
    if count == 0 {
        return Ok(waits);
    }
    draw_stretch(builder, waits)?;
    draw_spaces(builder, count, rest.begin())?;
    Ok(None)
}

/// Adds a line of code, without at most `most` columns of indent, as nodes after the last sibling. `waits` is the stretch that waits from
/// the lines before. Returns the stretch that waits afterwards: the next line or `draw_stretch` draws it. If the line ends in CR LF, the CR
/// is left out. If memory is refused, some of the nodes may have been added.
pub fn draw_code_line(
    builder: &mut Builder<'_>,
    rest: LineRest<'_>,
    most: usize,
    waits: Option<Stretch>,
) -> Result<Option<Stretch>, AllocError>
    ensures drawn { OnOk result
        ((text : List ℕ) (d : Drawing) → Draws text builder.old d
        → Draws text builder.new
        (drawn (texts_of (code_line text most (row_of rest.entry) (shown_waits text waits)).done)
        d)) }
    ensures waits { IfOk result
        (λ left. (text : List ℕ)
        → shown_waits text left
        ≡ (code_line text most (row_of rest.entry) (shown_waits text waits)).waits) }
    ensures definitions { defined builder.new.allocations ≡ defined builder.old.allocations }
{
    let rest = rest.without_indent_upto(most);
    let waits = add_left_columns(builder, waits, rest)?;
    let (content, ending) = stretches_of(rest);
    let waits = add_stretch(builder, waits, content)?;
    let waits = add_stretch(builder, waits, ending)?;
    Ok(waits)
}
