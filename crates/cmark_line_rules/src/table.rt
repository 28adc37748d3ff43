//! The heads and rows of tables (GFM 4.10).

ghost use Rattle.std.specs.Prelude.{◌≡◌, ◌&&◌, ◌∷◌, List, Some, None, if◌then◌else◌, nat_le};
ghost use Rattle.cmark_grammar.specs.Rows.{Row, indent_of, words_of};
ghost use Rattle.cmark_grammar.specs.TableRows as grammar;
ghost use Rattle.cmark_grammar.specs.TableRows.{holds_pipe, count_cells, is_some_head, delimited_ahead};
ghost use Rattle.cmark_line_rules.specs.Rests.{row_of};

use crate::line_rest::LineRest;
use cmark_scan_lines::{count_cells, count_delimiter_cells, holds_pipe};

/// The number of cells of the line, if it may be a table's head: if it contains a pipe that separates cells.
pub fn head_cells(rest: LineRest<'_>) -> Option<usize>
    ensures { result
        ≡
        (if holds_pipe (words_of (row_of rest.entry)) then Some (count_cells (row_of rest.entry))
        else None) }
{
    let words = rest.words();
    if holds_pipe(words) {
        Some(count_cells(words))
    } else {
        None
    }
}

/// Whether the line is the delimiter row of a table with `columns` columns, indented by at most three columns.
pub fn is_delimiter_row(rest: LineRest<'_>, columns: usize) -> bool
    ensures { (ahead : List Row)
        → result ≡ is_some_head (delimited_ahead columns (row_of rest.entry ∷ ahead)) }
{
    if rest.indent_upto(4) == 4 {
        return false;
    }
    match count_delimiter_cells(rest.words()) {
        Some(cells) => cells == columns,
        None => false,
    }
}

/// Whether the line begins with a pipe, indented by at most three columns, so that a table with this head interrupts a paragraph.
pub fn begins_with_pipe(rest: LineRest<'_>) -> bool
    ensures { result
        ≡
        (nat_le (indent_of (row_of rest.entry)) 3 && grammar.begins_with_pipe
        (words_of (row_of rest.entry))) }
{
    rest.indent_upto(4) < 4 && matches!(rest.words(), [b'|', ..])
}

/// The number of cells that are filled in at the line's end, if it is a row of a table with `columns` columns.
pub fn count_missing(rest: LineRest<'_>, columns: usize) -> usize
    ensures { result ≡ grammar.count_missing columns (row_of rest.entry) }
{
    columns.saturating_sub(count_cells(rest.words()))
}
