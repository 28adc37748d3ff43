//! Tables (GFM 4.10): their heads and their rows.

ghost use Rattle.std.specs.Prelude.{◌≡◌, ◌≤◌, List, ℕ, Some, false, length, nat_lt, OnOk, IfOk, IfSome};
ghost use Rattle.cmark_block_model.specs.BlockPass.{is_row};
ghost use Rattle.cmark_block_model.specs.Drawing.{Drawing};
ghost use Rattle.cmark_builder.specs.Drawn.{Draws};
ghost use Rattle.cmark_grammar.specs.BlockDocument.{Table};
ghost use Rattle.cmark_grammar.specs.TableRows.{count_missing};
ghost use Rattle.cmark_grammar.specs.Tables.{delimiter_row};
ghost use Rattle.cmark_items.specs.ItemNodes.{columns_of, kind_of, shape};
ghost use Rattle.cmark_items.specs.Tables.{defined};
ghost use Rattle.cmark_line_rules.specs.Rests.{row_of};
ghost use Rattle.cmark_values.specs.Shown.{shown_options};
ghost use Rattle.cmark_blocks.specs.TableHeads.{may_head};

use crate::gathered::words_in;
use crate::state::{OpenLeaf, Pass};
use bitflags::Flags;
use cmark_builder::Builder;
use cmark_items::ItemBody;
use cmark_leaf_nodes::{draw_head, draw_row};
use cmark_line_rules::{
    LineRest, begins_definition, begins_with_pipe, count_missing, head_cells, interrupts,
    is_delimiter_row,
};
use cmark_values::{CowStr, EntityLookup, Options};
use std::alloc::AllocError;

/// The largest number of filled cells in one table (this profile's own).
const MOST_FILLED: usize = 262_144;

/// Whether tables are read.
#[inline]
fn reads_tables(options: Options) -> bool
    ensures { result ≡ (shown_options options).tables }
{
    options.contains(Options::ENABLE_TABLES)
}

/// Whether the line may interrupt a paragraph as the head of a table, which the next line tells: tables are read, and it begins with a pipe.
#[inline]
pub(crate) fn may_head_table(rest: LineRest<'_>, options: Options) -> bool
    ensures { result ≡ may_head (shown_options options) (row_of rest.entry) }
{
    reads_tables(options) && begins_with_pipe(rest)
}

/// Whether the line, as a row of a table with `columns` columns, needs more than the `left` cells that may still be filled in. A row needs
/// at most `columns` cells, so for most rows they need not be counted.
#[inline]
fn misses_too_many(row: LineRest<'_>, columns: usize, left: usize) -> bool
    ensures { result ≡ nat_lt left (count_missing columns (row_of row.entry)) }
{
    columns > left && count_missing(row, columns) > left
}

/// Whether the line is another row of a table with `columns` columns, in which `left` cells may still be filled in.
#[inline]
pub(crate) fn is_row(rest: LineRest<'_>, columns: usize, left: usize, options: Options) -> bool
    ensures { result ≡ is_row (shown_options options) columns left (row_of rest.entry) }
{
    !interrupts(rest, false, options) && !misses_too_many(rest, columns, left)
}

/// The body of a table with this delimiter row, which is kept in the table of texts.
fn table_body<'a>(builder: &mut Builder<'a>, row: &'a str) -> Result<ItemBody, AllocError>
    ensures kind { IfOk result
        (λ body. kind_of builder.new.allocations.texts (shape body)
        ≡ Some (Table (columns_of (delimiter_row row.entry.now)))) }
    ensures drawn { OnOk result
        ((text : List ℕ) (d : Drawing) → Draws text builder.old d → Draws text builder.new d) }
    ensures tree { builder.new.tree ≡ builder.old.tree }
    ensures definitions { defined builder.new.allocations ≡ defined builder.old.allocations }
{
    let index = builder.allocations.allocate_cow(CowStr::Borrowed(row))?;
    Ok(ItemBody::Table(index))
}

/// The head of a table: what its line and the next one tell.
#[derive(Clone, Copy)]
pub(crate) struct TableHead<'a> {
    /// The number of columns.
    pub(crate) columns: usize,
    /// The delimiter row.
    pub(crate) delimiter: LineRest<'a>,
}

impl<'a, E: EntityLookup> Pass<'a, E> {
    ghost use Rattle.cmark_blocks.specs.declared.state.OpenLeaf.TheVariants as leaf;
    ghost use Rattle.cmark_leaf_nodes.specs.TextColumns.{IsRead};
    ghost use Rattle.cmark_blocks.specs.Steps.{BeginsText, FeedsLeaf};
    ghost use Rattle.cmark_blocks.specs.TablesAhead.{TellsHead, TellsInterrupts, TellsBlock, BeginsTable};

    /// The table whose head this line is; `None` if it is not a head. The line and those ahead are seen from inside the `count` outermost
    /// containers.
    #[inline]
    pub(crate) fn table_head(&self, count: usize, rest: LineRest<'a>) -> Option<TableHead<'a>>
        requires line { IsRead self.now.text.now rest }
        requires few { count ≤ length self.now.outer.items }
        ensures tells { TellsHead E.replacement self.now count rest.entry result }
        ensures line { IfSome result (λ head. IsRead self.now.text.now head.delimiter) }
    {
        if !reads_tables(self.options) {
            return None;
        }
        let columns = head_cells(rest)?;
        let next = self.line_after(count, rest)?;
        if is_delimiter_row(next, columns) {
            Some(TableHead {
                columns,
                delimiter: next,
            })
        } else {
            None
        }
    }

    /// Whether the line begins a table that interrupts a paragraph: it begins with a pipe. The line and those ahead are seen from inside
    /// the `count` outermost containers.
    #[inline]
    pub(crate) fn table_interrupts(&self, count: usize, rest: LineRest<'a>) -> bool
        requires line { IsRead self.now.text.now rest }
        requires few { count ≤ length self.now.outer.items }
        ensures { TellsInterrupts E.replacement self.now count rest.entry result }
    {
        may_head_table(rest, self.options) && self.table_head(count, rest).is_some()
    }

    /// Whether the line interrupts a paragraph as the head of a table, or by a definition's marker. The line and those ahead are seen from
    /// inside the `count` outermost containers.
    #[inline]
    pub(crate) fn block_interrupts(&self, count: usize, rest: LineRest<'a>) -> bool
        requires line { IsRead self.now.text.now rest }
        requires few { count ≤ length self.now.outer.items }
        ensures { TellsBlock E.replacement self.now count rest.entry result }
    {
        self.table_interrupts(count, rest) || begins_definition(rest, self.options)
    }

    /// Begins a table on the line that is its head, with no leaf open.
    pub(crate) fn begin_table(
        &mut self,
        head: TableHead<'a>,
        rest: LineRest<'a>,
    ) -> Result<(), AllocError>
        requires delimiter { IsRead self.old.text.now head.delimiter }
        requires closed { self.old.leaf ≡ leaf.Closed }
        requires bare { self.old.bare ≡ false }
        ensures runs { OnOk result
            (BeginsTable E.replacement head.entry rest.entry self.old self.new) }
        ensures text { self.new.text ≡ self.old.text }
    {
        let TableHead { columns, delimiter } = head;
        let row = words_in(self.text, delimiter);
        self.begin_block();
        let body = table_body(&mut self.builder, row)?;
        self.builder.open(rest.words_begin(), body)?;
        draw_head(&mut self.builder, rest, columns)?;
        self.leaf = OpenLeaf::Table {
            columns,
            left: MOST_FILLED,
            has_delimiter: false,
        };
        Ok(())
    }

    /// Begins a table on a line, or else a paragraph, with no leaf open.
    #[inline(always)]
    pub(crate) fn begin_text(&mut self, rest: LineRest<'a>) -> Result<(), AllocError>
        requires line { IsRead self.old.text.now rest }
        requires closed { self.old.leaf ≡ leaf.Closed }
        requires bare { self.old.bare ≡ false }
        ensures runs { OnOk result (BeginsText E.replacement rest.entry self.old self.new) }
        ensures text { self.new.text ≡ self.old.text }
    {
        if !reads_tables(self.options) {
            return self.begin_paragraph(rest);
        }
        self.begin_table_or_text(rest)
    }

    /// Begins a table on a line, or else a paragraph; tables may be read or not.
    #[inline(never)]
    fn begin_table_or_text(&mut self, rest: LineRest<'a>) -> Result<(), AllocError>
        requires line { IsRead self.old.text.now rest }
        requires closed { self.old.leaf ≡ leaf.Closed }
        requires bare { self.old.bare ≡ false }
        ensures runs { OnOk result (BeginsText E.replacement rest.entry self.old self.new) }
        ensures text { self.new.text ≡ self.old.text }
    {
        match self.table_head(self.outer.len(), rest) {
            Some(head) => self.begin_table(head, rest),
            None => self.begin_paragraph(rest),
        }
    }

    /// Feeds a line after the head of a table: the delimiter row, which is drawn nowhere, another row, or a line after the table.
    pub(crate) fn feed_table(
        &mut self,
        columns: usize,
        left: usize,
        has_delimiter: bool,
        rest: LineRest<'a>,
    ) -> Result<(), AllocError>
        requires line { IsRead self.old.text.now rest }
        requires is { self.old.leaf ≡ leaf.Table columns left has_delimiter }
        requires bare { self.old.bare ≡ false }
        ensures runs { OnOk result (FeedsLeaf E.replacement rest.entry self.old self.new) }
        ensures text { self.new.text ≡ self.old.text }
    {
        if !has_delimiter {
            self.leaf = OpenLeaf::Table {
                columns,
                left,
                has_delimiter: true,
            };
            return Ok(());
        }
        if !is_row(rest, columns, left, self.options) {
            return self.begin_anew(rest);
        }
        let filled = draw_row(&mut self.builder, rest, columns)?;
        self.leaf = OpenLeaf::Table {
            columns,
            left: left - filled,
            has_delimiter: true,
        };
        Ok(())
    }
}
