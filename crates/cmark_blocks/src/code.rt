//! Code blocks: their beginnings, their lines, and their ends (CommonMark 4.4 and 4.5).

ghost use Rattle.std.specs.Prelude.{◌≡◌, List, ℕ, Option, OnOk, IfOk, false, map, slice_range};
ghost use Rattle.cmark_items.specs.Tables.{defined};
ghost use Rattle.cmark_grammar.specs.Leaves as grammar;
ghost use Rattle.cmark_grammar.specs.Leaves.{code_continuation};
ghost use Rattle.cmark_line_rules.specs.Rests.{row_of};
ghost use Rattle.cmark_blocks.specs.IndentedLines.{DrawsLines};
ghost use Rattle.cmark_grammar.specs.Openings.{IndentedCode, FencedCode};
ghost use Rattle.cmark_grammar.specs.Rows.{words_of};
ghost use Rattle.cmark_grammar.specs.Tokens.{resolved};
ghost use Rattle.cmark_line_rules.specs.Opened.{InfoStands};
ghost use Rattle.cmark_values.specs.Shown.{text_bytes};
ghost use Rattle.cmark_scan_lines.specs.LeafLines.{shown_fence};
ghost use Rattle.cmark_block_model.specs.BlockPass.{is_some};

use crate::state::{OpenLeaf, Pass};
use cmark_builder::Builder;
use cmark_items::ItemBody;
use cmark_leaf_nodes::{Stretch, draw_code_line, draw_stretch};
use cmark_line_rules::{CodeFence, CodeOrHtml, Continuation, LineRest};
use cmark_scan_bytes::unescape;
use cmark_values::{CowStr, EntityLookup};
use std::alloc::AllocError;

/// Whether there is a line.
fn has_lines(lines: &[LineRest<'_>]) -> bool
    ensures { result ≡ is_some (map row_of lines.now) }
{
    match lines {
        [] => false,
        [_, ..] => true,
    }
}

/// Adds blank lines that belong to indented code, as nodes after the last sibling. `waits` is the stretch that waits from the lines before;
/// returns the stretch that waits afterwards.
fn draw_blank_lines(
    builder: &mut Builder<'_>,
    lines: &[LineRest<'_>],
    waits: Option<Stretch>,
) -> Result<Option<Stretch>, AllocError>
    ensures lines { IfOk result
        (λ left. (text : List ℕ)
        → DrawsLines text builder.old builder.new (map row_of lines.now) waits left) }
    ensures definitions { defined builder.new.allocations ≡ defined builder.old.allocations }
{
    let mut left = waits;
    for line in lines {
        left = draw_code_line(builder, *line, 4, left)?;
    }
    Ok(left)
}

impl<'a, E: EntityLookup> Pass<'a, E> {
    ghost use Rattle.cmark_blocks.specs.declared.state.OpenLeaf.TheVariants as leaf;
    ghost use Rattle.cmark_leaf_nodes.specs.TextColumns.{IsRead};
    ghost use Rattle.cmark_blocks.specs.Steps.{FeedsLeaf, BeginsLeaf, ClosesLeaf};

    /// Begins indented code on a line, after four columns of indent (CommonMark 4.4).
    pub(crate) fn begin_indented(&mut self, rest: LineRest<'a>) -> Result<(), AllocError>
        requires closed { self.old.leaf ≡ leaf.Closed }
        ensures runs { OnOk result
            ((more : ℕ) → BeginsLeaf E.replacement IndentedCode more rest.entry self.old self.new) }
        ensures text { self.new.text ≡ self.old.text }
    {
        self.begin_block();
        let code = rest.without_indent_upto(4);
        self.builder.open(code.begin(), ItemBody::IndentCodeBlock)?;
        let waits = draw_code_line(&mut self.builder, rest, 4, None)?;
        self.leaf = OpenLeaf::Indented(waits, rest.line_end());
        Ok(())
    }

    /// The info string of a fence on a line, with escapes and entities resolved (CommonMark 4.5).
    fn info_string(&self, fence: CodeFence, rest: LineRest<'a>) -> Result<CowStr<'a>, AllocError>
        requires line { IsRead self.now.text.now rest }
        requires stands { InfoStands self.now.text.now (row_of rest) fence }
        ensures { IfOk result
            (λ info. text_bytes info
            ≡ resolved (E.replacement self.now.entities.now)
            (slice_range (words_of (row_of rest.entry)) fence.info_start fence.info_end)) }
    {
        let words = rest.words_begin();
        let info = &self.text[words + fence.info_start..words + fence.info_end];
        unescape(self.alloc, CowStr::Borrowed(info), false, self.entities)
    }

    /// Begins fenced code: the line is its opening fence, with this indent in columns (CommonMark 4.5).
    pub(crate) fn begin_fenced(
        &mut self,
        indent: usize,
        fence: CodeFence,
        rest: LineRest<'a>,
    ) -> Result<(), AllocError>
        requires closed { self.old.leaf ≡ leaf.Closed }
        requires line { IsRead self.old.text.now rest }
        requires stands { InfoStands self.old.text.now (row_of rest) fence }
        ensures runs { OnOk result
            ((more : ℕ)
            → BeginsLeaf E.replacement
            (FencedCode (shown_fence indent (words_of (row_of rest.entry)) fence)) more rest.entry
            self.old self.new) }
        ensures text { self.new.text ≡ self.old.text }
    {
        let info = self.info_string(fence, rest)?;
        self.begin_block();
        let builder = &mut self.builder;
        let index = builder.allocations.allocate_cow(info)?;
        let body = ItemBody::FencedCodeBlock(index);
        builder.open(rest.words_begin(), body)?;
        self.leaf = OpenLeaf::Fenced(fence.delimiter, fence.run_length, indent, None);
        Ok(())
    }

    /// Feeds a line after an opening fence: the closing fence, or a line of code.
    pub(crate) fn feed_fenced(
        &mut self,
        delimiter: u8,
        run_length: usize,
        indent: usize,
        waits: Option<Stretch>,
        rest: LineRest<'a>,
    ) -> Result<(), AllocError>
        requires is { self.old.leaf ≡ leaf.Fenced delimiter run_length indent waits }
        ensures runs { OnOk result (FeedsLeaf E.replacement rest.entry self.old self.new) }
        ensures text { self.new.text ≡ self.old.text }
    {
        let fence = CodeOrHtml::Fenced {
            delimiter,
            run_length,
            indent,
        };
        if let Continuation::Closes = fence.continuation(rest) {
            draw_stretch(&mut self.builder, waits)?;
            self.builder.close(rest.line_end());
            self.leaf = OpenLeaf::Closed;
            return Ok(());
        }
        let left = draw_code_line(&mut self.builder, rest, indent, waits)?;
        self.leaf = OpenLeaf::Fenced(delimiter, run_length, indent, left);
        Ok(())
    }

    /// Feeds another line of indented code: the blank lines before it belong to the code too.
    fn add_to_indented(
        &mut self,
        waits: Option<Stretch>,
        end: usize,
        rest: LineRest<'a>,
    ) -> Result<(), AllocError>
        requires is { self.old.leaf ≡ leaf.Indented waits end }
        requires goes_on { code_continuation (row_of rest) ≡ grammar.GoesOn }
        ensures runs { OnOk result (FeedsLeaf E.replacement rest.entry self.old self.new) }
        ensures text { self.new.text ≡ self.old.text }
    {
        let waits = draw_blank_lines(&mut self.builder, &self.blank_lines, waits)?;
        let left = draw_code_line(&mut self.builder, rest, 4, waits)?;
        self.blank_lines.clear();
        self.leaf = OpenLeaf::Indented(left, rest.line_end());
        Ok(())
    }

    /// Feeds a blank line after indented code: it belongs to the code only if a later line does.
    fn keep_blank_line(&mut self, rest: LineRest<'a>) -> Result<(), AllocError>
        requires line { IsRead self.old.text.now rest }
        requires is { (waits : Option Stretch) × (end : ℕ)
            × (self.old.leaf ≡ leaf.Indented waits end) }
        requires waits { code_continuation (row_of rest) ≡ grammar.Waits }
        ensures runs { OnOk result (FeedsLeaf E.replacement rest.entry self.old self.new) }
        ensures text { self.new.text ≡ self.old.text }
    {
        self.blank_lines.push(rest)?;
        Ok(())
    }

    /// Feeds a line after open indented code.
    pub(crate) fn feed_indented(
        &mut self,
        waits: Option<Stretch>,
        end: usize,
        rest: LineRest<'a>,
    ) -> Result<(), AllocError>
        requires is { self.old.leaf ≡ leaf.Indented waits end }
        requires line { IsRead self.old.text.now rest }
        requires bare { self.old.bare ≡ false }
        ensures runs { OnOk result (FeedsLeaf E.replacement rest.entry self.old self.new) }
        ensures text { self.new.text ≡ self.old.text }
    {
        match CodeOrHtml::Indented.continuation(rest) {
            Continuation::GoesOn => { self.add_to_indented(waits, end, rest) }
            Continuation::Waits => { self.keep_blank_line(rest) }
            Continuation::Closes | Continuation::Stops => { self.begin_anew(rest) }
        }
    }

    /// Closes indented code at the end of its last line. Blank lines after that do not belong to it.
    pub(crate) fn close_indented(
        &mut self,
        waits: Option<Stretch>,
        end: usize,
    ) -> Result<(), AllocError>
        requires is { self.old.leaf ≡ leaf.Indented waits end }
        ensures runs { OnOk result (ClosesLeaf E.replacement self.old self.new) }
        ensures closed { OnOk result (self.new.leaf ≡ leaf.Closed) }
        ensures text { self.new.text ≡ self.old.text }
        ensures bare { self.new.bare ≡ self.old.bare }
    {
        draw_stretch(&mut self.builder, waits)?;
        self.builder.close(end);
        self.inner.blank = has_lines(&self.blank_lines);
        self.blank_lines.clear();
        self.leaf = OpenLeaf::Closed;
        Ok(())
    }
}
