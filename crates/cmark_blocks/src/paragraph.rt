//! Paragraphs: their beginnings, their lines, and their ends (CommonMark 4.8).

ghost use Rattle.std.specs.Prelude.{true, ◌≡◌, List, ℕ, map, OnOk};
ghost use Rattle.cmark_block_model.specs.BlockPass.{kept_lines};
ghost use Rattle.cmark_leaf_nodes.specs.Contents.{AreRead};
ghost use Rattle.cmark_leaf_nodes.specs.TextColumns.{IsRead};
ghost use Rattle.cmark_line_rules.specs.Rests.{row_of};
ghost use Rattle.cmark_values.specs.Shown.{shown_options};
ghost use Rattle.cmark_blocks.specs.TableHeads.{may_head};

use crate::heading::reads_attributes;
use crate::state::{OpenLeaf, Pass};
use crate::table::may_head_table;
use cmark_items::ItemBody;
use cmark_leaf_nodes::{close_lines, draw_lines};
use cmark_line_rules::{LineRest, begins_definition, interrupts, underlines};
use cmark_values::EntityLookup;
use std::alloc::AllocError;

/// Keeps an earlier line of a paragraph, if attributes of headings are read: the paragraph may become a heading.
fn keep_line<'a>(
    lines: &mut Vec<LineRest<'a>>,
    attributes: bool,
    last: LineRest<'a>,
) -> Result<(), AllocError>
    ensures kept { OnOk result
        (map row_of lines.new.items
        ≡ kept_lines attributes (map row_of lines.old.items) (row_of last.entry)) }
    ensures read { (text : List ℕ) → AreRead text lines.old.items → IsRead text last.entry
        → AreRead text lines.new.items }
{
    if !attributes {
        return Ok(());
    }
    lines.push(last)?;
    Ok(())
}

impl<'a, E: EntityLookup> Pass<'a, E> {
    ghost use Rattle.cmark_blocks.specs.declared.state.OpenLeaf.TheVariants as leaf;
    ghost use Rattle.cmark_blocks.specs.Steps.{IsAfterParagraph, AddsLine, BeginsParagraph, FeedsLeaf, ClosesLeaf};

    /// Begins a paragraph on a line, with no leaf open.
    #[inline(always)]
    pub(crate) fn begin_paragraph(&mut self, rest: LineRest<'a>) -> Result<(), AllocError>
        requires line { IsRead self.old.text.now rest }
        requires closed { self.old.leaf ≡ leaf.Closed }
        ensures runs { OnOk result (BeginsParagraph E.replacement rest.entry self.old self.new) }
        ensures text { self.new.text ≡ self.old.text }
        ensures bare { self.new.bare ≡ self.old.bare }
    {
        self.begin_text_block();
        let begin = rest.words_begin();
        self.builder.open(begin, ItemBody::Paragraph)?;
        self.leaf = OpenLeaf::Paragraph(begin, rest);
        Ok(())
    }

    /// Adds a line to a paragraph. If it does not touch the last one, the lines that do, from this byte offset on, become a node.
    #[inline(always)]
    pub(crate) fn add_to_paragraph(
        &mut self,
        from: usize,
        last: LineRest<'a>,
        rest: LineRest<'a>,
    ) -> Result<(), AllocError>
        requires line { IsRead self.old.text.now rest }
        requires is { self.old.leaf ≡ leaf.Paragraph from last }
        ensures runs { OnOk result
            (AddsLine E.replacement from last.entry rest.entry self.old self.new) }
        ensures text { self.new.text ≡ self.old.text }
    {
        let attributes = reads_attributes(self.options);
        keep_line(&mut self.blank_lines, attributes, last)?;
        let begin = rest.begin();
        if begin == last.line_end() {
            self.leaf = OpenLeaf::Paragraph(from, rest);
            return Ok(());
        }
        draw_lines(&mut self.builder, from, last)?;
        self.leaf = OpenLeaf::Paragraph(begin, rest);
        Ok(())
    }

    /// Feeds a line after a paragraph with this last line, whose touching lines begin at this byte offset. The line is an underline, text
    /// of the paragraph, or ends it.
    #[inline(always)]
    pub(crate) fn feed_paragraph(
        &mut self,
        from: usize,
        last: LineRest<'a>,
        rest: LineRest<'a>,
    ) -> Result<(), AllocError>
        requires following { IsAfterParagraph self.old from last rest }
        ensures runs { OnOk result (FeedsLeaf E.replacement rest.entry self.old self.new) }
        ensures text { self.new.text ≡ self.old.text }
    {
        if rest.begins_with_letter() {
            return self.add_to_paragraph(from, last, rest);
        }
        if rest.is_blank() {
            self.close_paragraph(from, last)?;
            self.pass_blank_line(false);
            return Ok(());
        }
        self.feed_marked(from, last, rest)
    }

    /// Feeds a line that is not blank after a paragraph. It is a separate function because most lines do not reach it, and the locals of a
    /// function are cleared with each call.
    #[inline(never)]
    fn feed_marked(
        &mut self,
        from: usize,
        last: LineRest<'a>,
        rest: LineRest<'a>,
    ) -> Result<(), AllocError>
        requires following { IsAfterParagraph self.old from last rest }
        ensures runs { OnOk result (FeedsLeaf E.replacement rest.entry self.old self.new) }
        ensures text { self.new.text ≡ self.old.text }
    {
        if let Some(level) = underlines(rest) {
            return self.underline(from, last, level, rest);
        }
        if interrupts(rest, true, self.options) || begins_definition(rest, self.options) {
            return self.begin_anew(rest);
        }
        if may_head_table(rest, self.options) {
            return self.feed_piped(from, last, rest);
        }
        self.add_to_paragraph(from, last, rest)
    }

    /// Feeds a line that begins with a pipe after a paragraph: the head of a table, which begins at once, or text of the paragraph. It is a
    /// separate function so that the room of its locals is cleared for such lines only.
    #[inline(never)]
    fn feed_piped(
        &mut self,
        from: usize,
        last: LineRest<'a>,
        rest: LineRest<'a>,
    ) -> Result<(), AllocError>
        requires following { IsAfterParagraph self.old from last rest }
        requires piped { may_head (shown_options self.old.options) (row_of rest) ≡ true }
        ensures runs { OnOk result (FeedsLeaf E.replacement rest.entry self.old self.new) }
        ensures text { self.new.text ≡ self.old.text }
    {
        let Some(head) = self.table_head(self.outer.len(), rest) else {
            return self.add_to_paragraph(from, last, rest);
        };
        self.close_paragraph(from, last)?;
        self.begin_table(head, rest)
    }

    /// Closes a paragraph with this last line; the lines that touch it begin at this byte offset.
    #[inline(always)]
    pub(crate) fn close_paragraph(
        &mut self,
        from: usize,
        last: LineRest<'a>,
    ) -> Result<(), AllocError>
        requires is { self.old.leaf ≡ leaf.Paragraph from last }
        ensures runs { OnOk result (ClosesLeaf E.replacement self.old self.new) }
        ensures closed { OnOk result (self.new.leaf ≡ leaf.Closed) }
        ensures text { self.new.text ≡ self.old.text }
        ensures bare { self.new.bare ≡ self.old.bare }
    {
        close_lines(&mut self.builder, from, last, self.line_end)?;
        self.blank_lines.clear();
        self.leaf = OpenLeaf::Closed;
        Ok(())
    }
}
