//! The rows of a table, cell by cell (GFM 4.10). Lines are passed without their indent and their ending.

ghost use Rattle.std.specs.Prelude.{◌≡◌, ◌≤◌, ◌<◌, ◌+◌, ◌⊎◌, suc, [], false, length, IfSome, option_map};
ghost use Rattle.cmark_grammar.specs.TableRows.{parts, cells_of, holds_pipe};
ghost use Rattle.cmark_grammar.specs.Tables.{without_first_pipe};
ghost use Rattle.cmark_scan_lines.specs.TableCells.{cells_after, cells_cut, parts_at};

use crate::bytes::are_blank;
use crate::table::without_first_pipe;
use cmark_search::find_pipe as next_pipe;

/// The number of bytes before the first pipe that separates cells. A pipe directly after a backslash does not.
fn find_pipe(bytes: &[u8]) -> Option<usize>
    ensures value { parts false bytes.now ≡ parts_at bytes.now result }
    ensures within { IfSome result (λ at. at < length bytes.now) }
{
    let mut from = 0;
    while let Some(ahead) = next_pipe(&bytes[from..]) {
        let at = from + ahead;
        if ahead == 0 || bytes[at - 1] != b'\\' {
            return Some(at);
        }
        from = at + 1;
    }
    None
}

/// Whether the line contains a pipe that separates cells.
pub fn holds_pipe(words: &[u8]) -> bool
    ensures { result ≡ holds_pipe words.now }
{
    find_pipe(words).is_some()
}

/// The line from its first cell on: without a pipe at its beginning.
#[inline]
pub fn cells_in_row(words: &[u8]) -> &[u8]
    ensures cells { cells_after result.now ≡ cells_of words.now }
    ensures value { result.now ≡ without_first_pipe words.now }
    ensures within { length result.now ≤ length words.now }
{
    without_first_pipe(words)
}

/// The number of bytes of the first cell of a row that continues with these bytes, and the bytes after the pipe that follows the cell.
/// `None` if only spaces and tabs are left.
pub fn next_cell(bytes: &[u8]) -> Option<(usize, &[u8])>
    ensures cells { cells_after bytes.now
        ≡ cells_cut bytes.now (option_map (λ cut. (cut.0, cut.1.now)) result) }
    ensures within { IfSome result (λ cut. cut.0 ≤ length bytes.now) }
    ensures following { IfSome result
        (λ cut. (cut.1.now ≡ []) ⊎ (length cut.1.now + suc cut.0 ≡ length bytes.now)) }
{
    match find_pipe(bytes) {
        Some(at) => Some((at, &bytes[at + 1..])),
        None if are_blank(bytes) => None,
        None => Some((bytes.len(), &[])),
    }
}

/// The number of cells of a line, as a row of a table.
pub fn count_cells(words: &[u8]) -> usize
    ensures { result ≡ length (cells_of words.now) }
{
    let mut cells = 0;
    let mut rest = cells_in_row(words);
    while let Some(at) = find_pipe(rest) {
        cells += 1;
        rest = &rest[at + 1..];
    }
    if are_blank(rest) { cells } else { cells + 1 }
}
