//! The rows of tables, cell by cell (GFM 4.10).

ghost use Rattle.std.specs.Prelude.{◌≡◌, ◌<◌, ◌≤◌, ◌+◌, ◌-◌, ◌^◌, ℕ, suc, List, length, IfOk, OnOk};
ghost use Rattle.cmark_items.specs.Tables.{defined};
ghost use Rattle.cmark_grammar.specs.BlockDocument.{TableHead, TableRow, TableCell, Node, Nil, node};
ghost use Rattle.cmark_grammar.specs.Rows.{start_of};
ghost use Rattle.cmark_grammar.specs.TableRows.{count_missing};
ghost use Rattle.cmark_grammar.specs.TableTokens.{cell_tokens, cells_then, row_cells};
ghost use Rattle.cmark_block_model.specs.Drawing.{Drawing, drawn};
ghost use Rattle.cmark_builder.specs.Drawn.{Draws};
ghost use Rattle.cmark_line_rules.specs.Rests.{row_of};
ghost use Rattle.cmark_scan_lines.specs.TableCells.{cells_after};

use crate::words::draw_words;
use cmark_builder::Builder;
use cmark_items::ItemBody;
use cmark_line_rules::LineRest;
use cmark_scan_bytes::bytes::{count_blanks, without_trailing_blanks};
use cmark_scan_lines::{cells_in_row, next_cell};
use std::alloc::AllocError;

/// Adds a cell of these bytes, which are at a byte offset of the text, as a node after the last sibling. Its text is without the spaces and
/// tabs at both ends.
fn draw_cell(builder: &mut Builder<'_>, at: usize, cell: &[u8]) -> Result<(), AllocError>
    requires small { at + length cell.now < 2 ^ 64 }
    ensures drawn { OnOk result
        ((text : List ℕ) (d : Drawing) → Draws text builder.old d
        → Draws text builder.new
        (drawn (Node (node TableCell at (at + length cell.now)) (cell_tokens text at cell.now) Nil)
        d)) }
    ensures definitions { defined builder.new.allocations ≡ defined builder.old.allocations }
{
    builder.open(at, ItemBody::TableCell)?;
    let start = at + count_blanks(cell);
    let end = at + without_trailing_blanks(cell).len();
    draw_words(builder, start, end)?;
    builder.close(at + cell.len());
    Ok(())
}

/// Adds the next cell of a row as a node after the last sibling. `cells` are the bytes that are left of the row, up to byte offset
/// `content_end` of the text. If no cell is left, an empty one is filled in at the row's end, `line_end`. Returns the bytes after the cell,
/// and the number of cells filled in, 0 or 1.
fn draw_next_cell<'a>(
    builder: &mut Builder<'_>,
    cells: &'a [u8],
    content_end: usize,
    line_end: usize,
) -> Result<(&'a [u8], usize), AllocError>
    requires within { length cells.now ≤ content_end }
    ensures within { IfOk result (λ next. length next.0.now ≤ content_end) }
    ensures drawn { IfOk result
        (λ next. (text : List ℕ) (left : ℕ) (d : Drawing) → Draws text builder.old d
        → (e : Drawing) × Draws text builder.new e
        ×
        (drawn
        (cells_then text (suc left) (content_end - length cells.now) line_end
        (cells_after cells.now)) d
        ≡ drawn
        (cells_then text left (content_end - length next.0.now) line_end (cells_after next.0.now))
        e)) }
    ensures filled { IfOk result
        (λ next. (left : ℕ)
        → next.1 + (left - length (cells_after next.0.now))
        ≡ suc left - length (cells_after cells.now)) }
    ensures few { IfOk result (λ next. next.1 ≤ 1) }
    ensures definitions { defined builder.new.allocations ≡ defined builder.old.allocations }
{
    match next_cell(cells) {
        Some((size, following)) => {
            draw_cell(builder, content_end - cells.len(), &cells[..size])?;
            Ok((following, 0))
        }
        None => {
            builder.add(line_end, line_end, ItemBody::TableCell)?;
            Ok((cells, 1))
        }
    }
}

/// Adds `columns` cells of a line as nodes after the last sibling: further cells are left out, missing ones filled in. Returns the number
/// of cells filled in.
fn draw_cells(
    builder: &mut Builder<'_>,
    rest: LineRest<'_>,
    columns: usize,
) -> Result<usize, AllocError>
    ensures drawn { OnOk result ((text : List ℕ) (d : Drawing) → Draws text builder.old d
        → Draws text builder.new (drawn (row_cells text columns (row_of rest.entry)) d)) }
    ensures filled { IfOk result (λ filled. filled ≡ count_missing columns (row_of rest.entry)) }
    ensures definitions { defined builder.new.allocations ≡ defined builder.old.allocations }
{
    let content_end = rest.content_end();
    let line_end = rest.line_end();
    let mut cells = cells_in_row(rest.words());
    let mut left = columns;
    let mut filled = 0;
    while left > 0 {
        let (following, more) = draw_next_cell(builder, cells, content_end, line_end)?;
        cells = following;
        filled += more;
        left -= 1;
    }
    Ok(filled)
}

/// Adds the head of a table with `columns` columns as a node after the last sibling.
pub fn draw_head(
    builder: &mut Builder<'_>,
    rest: LineRest<'_>,
    columns: usize,
) -> Result<(), AllocError>
    ensures drawn { OnOk result
        ((text : List ℕ) (d : Drawing) → Draws text builder.old d
        → Draws text builder.new
        (drawn
        (Node (node TableHead (start_of (row_of rest.entry)) (row_of rest.entry).line_end)
        (row_cells text columns (row_of rest.entry)) Nil) d)) }
    ensures definitions { defined builder.new.allocations ≡ defined builder.old.allocations }
{
    builder.open(rest.words_begin(), ItemBody::TableHead)?;
    draw_cells(builder, rest, columns)?;
    builder.close(rest.line_end());
    Ok(())
}

/// Adds a row of a table with `columns` columns as a node after the last sibling. Returns the number of cells filled in at its end.
pub fn draw_row(
    builder: &mut Builder<'_>,
    rest: LineRest<'_>,
    columns: usize,
) -> Result<usize, AllocError>
    ensures drawn { OnOk result
        ((text : List ℕ) (d : Drawing) → Draws text builder.old d
        → Draws text builder.new
        (drawn
        (Node (node TableRow (start_of (row_of rest.entry)) (row_of rest.entry).line_end)
        (row_cells text columns (row_of rest.entry)) Nil) d)) }
    ensures filled { IfOk result (λ filled. filled ≡ count_missing columns (row_of rest.entry)) }
    ensures definitions { defined builder.new.allocations ≡ defined builder.old.allocations }
{
    builder.open(rest.words_begin(), ItemBody::TableRow)?;
    let filled = draw_cells(builder, rest, columns)?;
    builder.close(rest.line_end());
    Ok(filled)
}
