//! Tables: the names and alignments of their cells.

ghost use Rattle.std.specs.Prelude.{◌≡◌, ◌++◌, ◌↔◌, codes, OnOk, IfOk, IsTrue, option_map};
ghost use Rattle.std.specs.List.{slice_get};
ghost use Rattle.cmark_grammar.specs.Html.{alignment_style, cell_tag, cell_start, cell_end, no_table, table_after_end};
ghost use Rattle.cmark_text.specs.Appended.{Writes};
ghost use Rattle.cmark_text.specs.Shown.{shown_end};
ghost use Rattle.cmark_values.specs.Shown.{shown_alignment};
ghost use Rattle.cmark_html.specs.Writer.{shown_table};

use crate::parts::append;
use cmark_text::{Alignment, TagEnd};
use std::alloc::{AllocError, Global};

/// The state on which the HTML of cells depends.
#[derive(Drop)]
pub struct TableState {
    /// Whether the cells are cells of a head: from the start of a head to its end.
    pub in_head: bool,
    /// The alignments of the table's columns.
    pub alignments: Vec<Alignment>,
    /// How many cells of the row have ended.
    pub column: usize,
}

impl TableState {
    /// The state outside of every table.
    pub fn new(alloc: Global) -> TableState
        ensures { shown_table result ≡ no_table }
    {
        TableState {
            in_head: true,
            alignments: Vec::new(alloc),
            column: 0,
        }
    }

    /// Whether this is the state outside of every table.
    pub fn is_new(&self) -> bool
        ensures { IsTrue result ↔ (shown_table self.now ≡ no_table) }
    {
        self.in_head && self.alignments.is_empty() && self.column == 0
    }

    /// This state in a value of its own. Fails only if memory is refused.
    pub fn clone(&self, alloc: Global) -> Result<TableState, AllocError>
        ensures { IfOk result (λ copy. shown_table copy ≡ shown_table self.now) }
    {
        let mut alignments = Vec::new(alloc);
        alignments.extend_from_slice(self.alignments.as_slice())?;
        Ok(TableState {
            in_head: self.in_head,
            alignments,
            column: self.column,
        })
    }

    /// The alignment of the next cell; `None` past the last column.
    fn alignment(&self) -> Option<Alignment>
        ensures { let table = shown_table self.now in
            option_map shown_alignment result ≡ slice_get table.alignments table.column }
    {
        self.alignments.get(self.column).copied()
    }

    /// Appends the start of a cell.
    pub fn append_cell_start(&self, out: &mut String) -> Result<(), AllocError>
        ensures { Writes out.old out.new result (cell_start (shown_table self.now)) }
    {
        append(out, cell_start_text(self.in_head, self.alignment()))
    }

    /// Takes account of an end: a cell moves on by one column, and a head or the table ends.
    ///
    /// If more than `usize::MAX` cells of a row have ended, the error is the one for refused memory.
    pub fn end(&mut self, tag: TagEnd) -> Result<(), AllocError>
        ensures { OnOk result
            (shown_table self.new ≡ table_after_end (shown_table self.old) (shown_end tag)) }
    {
        match tag {
            TagEnd::Table => {
                self.in_head = true;
                self.alignments.clear();
                self.column = 0;
            }
            TagEnd::TableHead => self.in_head = false,
            TagEnd::TableCell => {
                let Some(column) = self.column.checked_add(1) else {
                    return Err(AllocError);
                };
                self.column = column;
            }
            _ => {}
        }
        Ok(())
    }
}

/// The start of a cell with this alignment.
fn cell_start_text(in_head: bool, alignment: Option<Alignment>) -> &'static str
    ensures { let style = alignment_style (option_map shown_alignment alignment) in
        result.now ≡ cell_tag in_head ++ (style ++ codes ">") }
{
    match (in_head, alignment) {
        (true, None | Some(Alignment::None)) => "<th>",
        (true, Some(Alignment::Left)) => "<th style=\"text-align: left\">",
        (true, Some(Alignment::Center)) => "<th style=\"text-align: center\">",
        (true, Some(Alignment::Right)) => "<th style=\"text-align: right\">",
        (false, None | Some(Alignment::None)) => "<td>",
        (false, Some(Alignment::Left)) => "<td style=\"text-align: left\">",
        (false, Some(Alignment::Center)) => "<td style=\"text-align: center\">",
        (false, Some(Alignment::Right)) => "<td style=\"text-align: right\">",
    }
}

/// The end of a cell.
pub fn cell_end_text(in_head: bool) -> &'static str
    ensures { result.now ≡ cell_end in_head }
{
    if in_head { "</th>" } else { "</td>" }
}
