//! The delimiter row of a table (GFM 4.10).

ghost use Rattle.std.specs.Prelude.{◌≡◌, ◌≤◌, map, length, option_map, IfOk};
ghost use Rattle.cmark_grammar.specs.Tables.{aligned, hyphens, alignment_of, alignments, cells, without_first_pipe, without_last_pipe, delimiter_row};
ghost use Rattle.cmark_values.specs.Shown.{shown_alignment};

use crate::bytes::{count_leading, trimmed};
use cmark_values::Alignment;
use memchr::memchr;
use std::alloc::{AllocError, Global};

/// The alignments of a table's columns, if the line is a delimiter row. Its cells are hyphens, each with an optional colon before and after
/// them and with blanks around it; pipes separate them. There must be at least one pipe (this profile's own); a pipe may also precede and
/// follow the cells. The line is passed without its ending. Fails only if memory is refused.
pub fn scan_table_head(alloc: Global, line: &[u8]) -> Result<Option<Vec<Alignment>>, AllocError>
    ensures { IfOk result
        (λ row. option_map (λ columns. map shown_alignment columns.items) row
        ≡ delimiter_row line.now) }
{
    if memchr(b'|', line).is_none() {
        return Ok(None);
    }
    scan_cells(alloc, without_last_pipe(without_first_pipe(trimmed(line))))
}

/// The number of columns of the table, if the line is a delimiter row. The line is passed without its ending.
pub fn count_delimiter_cells(line: &[u8]) -> Option<usize>
    ensures { result ≡ option_map length (delimiter_row line.now) }
{
    memchr(b'|', line)?;
    count_columns(without_last_pipe(without_first_pipe(trimmed(line))))
}

/// The number of cells between pipes, if each is a delimiter cell.
fn count_columns(row: &[u8]) -> Option<usize>
    ensures { result ≡ option_map length (alignments (cells row.now)) }
{
    let mut columns = 0;
    let mut rest = row;
    while let Some(at) = memchr(b'|', rest) {
        let (cell, following) = rest.split_at(at);
        scan_cell(trimmed(cell))?;
        columns += 1;
        rest = &following[1..];
    }
    scan_cell(trimmed(rest))?;
    Some(columns + 1)
}

/// The alignments of the cells between pipes, if each is a delimiter cell.
fn scan_cells(alloc: Global, row: &[u8]) -> Result<Option<Vec<Alignment>>, AllocError>
    ensures { IfOk result
        (λ found. option_map (λ columns. map shown_alignment columns.items) found
        ≡ alignments (cells row.now)) }
{
    let mut columns = Vec::new(alloc);
    let mut rest = row;
    while let Some(at) = memchr(b'|', rest) {
        let (cell, following) = rest.split_at(at);
        let Some(alignment) = scan_cell(trimmed(cell)) else {
            return Ok(None);
        };
        columns.push(alignment)?;
        rest = &following[1..];
    }
    let Some(alignment) = scan_cell(trimmed(rest)) else {
        return Ok(None);
    };
    columns.push(alignment)?;
    Ok(Some(columns))
}

/// The bytes after a pipe at the beginning; if there is no pipe, all bytes.
#[inline]
pub(crate) fn without_first_pipe(bytes: &[u8]) -> &[u8]
    ensures value { result.now ≡ without_first_pipe bytes.now }
    ensures within { length result.now ≤ length bytes.now }
{
    match bytes {
        [b'|', rest @ ..] => rest,
        _ => bytes,
    }
}

/// The bytes before a pipe at the end; if there is no pipe, all bytes.
#[inline]
fn without_last_pipe(bytes: &[u8]) -> &[u8]
    ensures { result.now ≡ without_last_pipe bytes.now }
{
    let len = bytes.len();
    if len > 0 && bytes[len - 1] == b'|' {
        &bytes[..len - 1]
    } else {
        bytes
    }
}

/// The alignment of a delimiter cell without blanks at its ends.
fn scan_cell(cell: &[u8]) -> Option<Alignment>
    ensures { option_map shown_alignment result ≡ alignment_of cell.now }
{
    match cell {
        [b':', rest @ ..] => scan_hyphens(true, rest),
        _ => scan_hyphens(false, cell),
    }
}

/// The alignment of a delimiter cell that continues with these bytes: one or more hyphens, and a colon or the end.
fn scan_hyphens(before: bool, bytes: &[u8]) -> Option<Alignment>
    ensures { option_map shown_alignment result ≡ hyphens before bytes.now }
{
    let size = count_leading(bytes, b'-');
    if size == 0 {
        return None;
    }
    match &bytes[size..] {
        [] => Some(aligned(before, false)),
        [b':'] => Some(aligned(before, true)),
        _ => None,
    }
}

/// The alignment by a colon before the hyphens and one after them.
#[inline]
fn aligned(before: bool, following: bool) -> Alignment
    ensures { shown_alignment result ≡ aligned before following }
{
    match (before, following) {
        (true, true) => Alignment::Center,
        (true, false) => Alignment::Left,
        (false, true) => Alignment::Right,
        (false, false) => Alignment::None,
    }
}
