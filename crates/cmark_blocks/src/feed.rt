//! Feeding a line to the block pass.

ghost use Rattle.std.specs.Prelude.{true, ◌≡◌, ◌≤◌, ◌<◌, ◌&&◌, OnOk, false, length};
ghost use Rattle.cmark_line_rules.specs.Rests.{row_of};
ghost use Rattle.cmark_grammar.specs.Containers as grammar;
ghost use Rattle.cmark_grammar.specs.DefinitionLists.{begins_definition, is_definition};
ghost use Rattle.cmark_line_rules.specs.Starts.{Shows};
ghost use Rattle.cmark_values.specs.Shown.{shown_options};
ghost use Rattle.cmark_blocks.specs.LineByLine.{TakesLazy};
ghost use Rattle.cmark_blocks.specs.TableHeads.{may_head};

use crate::state::{OpenLeaf, Pass};
use crate::table::may_head_table;
use cmark_line_rules::{Container, LineRest, begins_definition, interrupts};
use cmark_values::{EntityLookup, Options};
use std::alloc::AllocError;

/// Whether a lazy line may follow the leaf: a paragraph, a link reference definition, after which a paragraph may begin (CommonMark 4.7 and
/// 4.8), or an alert's tag (this profile's own).
fn takes_lazy(leaf: OpenLeaf<'_>) -> bool
    ensures { TakesLazy leaf.entry result }
{
    match leaf {
        OpenLeaf::Paragraph(_, _) | OpenLeaf::Definition(_) | OpenLeaf::AfterTag => true,
        OpenLeaf::Closed
        | OpenLeaf::Table { .. }
        | OpenLeaf::Indented(_, _)
        | OpenLeaf::Fenced(_, _, _, _)
        | OpenLeaf::Html(_)
        | OpenLeaf::Metadata(_, _) => false,
    }
}

/// Whether a container is a definition of a definition list (this profile's own).
fn is_definition(container: Container) -> bool
    ensures { (k : grammar.Container) → Shows container k → result ≡ is_definition k }
{
    matches!(container, Container::Definition { .. })
}

/// Whether the line begins another definition after this one, which is a container that does not keep the line.
fn begins_another(container: Container, rest: LineRest<'_>, options: Options) -> bool
    ensures { (k : grammar.Container) → Shows container k
        → result
        ≡
        (is_definition k && begins_definition (shown_options options) (row_of rest.entry)) }
{
    is_definition(container) && begins_definition(rest, options)
}

impl<'a, E: EntityLookup> Pass<'a, E> {
    ghost use Rattle.cmark_blocks.specs.declared.state.OpenLeaf.TheVariants as leaf;
    ghost use Rattle.cmark_leaf_nodes.specs.TextColumns.{IsRead};
    ghost use Rattle.cmark_blocks.specs.Steps.{FeedsLeaf, FeedsLazily};
    ghost use Rattle.cmark_blocks.specs.LineByLine.{IsLazy, MayBeLazy, FeedsRest, Feeds};

    /// Feeds a line that lacks no prefix, after the open leaf.
    #[inline(always)]
    fn feed_leaf(&mut self, rest: LineRest<'a>) -> Result<(), AllocError>
        requires line { IsRead self.old.text.now rest }
        requires bare { self.old.bare ≡ false }
        ensures runs { OnOk result (FeedsLeaf E.replacement rest.entry self.old self.new) }
        ensures text { self.new.text ≡ self.old.text }
    {
        match self.leaf {
            OpenLeaf::Closed => self.begin(rest),
            OpenLeaf::Paragraph(from, last) => self.feed_paragraph(from, last, rest),
            _ => self.feed_other_leaf(rest),
        }
    }

    /// Feeds a line that lacks no prefix to a leaf other than a paragraph. It passes the line to a function that is not inlined: Rattle
    /// clears the locals of a function on entry, so that their room is cleared only for such leaves.
    #[inline(always)]
    fn feed_other_leaf(&mut self, rest: LineRest<'a>) -> Result<(), AllocError>
        requires line { IsRead self.old.text.now rest }
        requires bare { self.old.bare ≡ false }
        ensures runs { OnOk result (FeedsLeaf E.replacement rest.entry self.old self.new) }
        ensures text { self.new.text ≡ self.old.text }
    {
        self.feed_any_leaf(rest)
    }

    /// Feeds a line that lacks no prefix, by the kind of the open leaf.
    #[inline(never)]
    fn feed_any_leaf(&mut self, rest: LineRest<'a>) -> Result<(), AllocError>
        requires line { IsRead self.old.text.now rest }
        requires bare { self.old.bare ≡ false }
        ensures runs { OnOk result (FeedsLeaf E.replacement rest.entry self.old self.new) }
        ensures text { self.new.text ≡ self.old.text }
    {
        match self.leaf {
            OpenLeaf::Closed => self.begin(rest),
            OpenLeaf::AfterTag => self.begin_anew(rest),
            OpenLeaf::Paragraph(from, last) => self.feed_paragraph(from, last, rest),
            OpenLeaf::Definition(left) => self.feed_definition(left, rest),
            OpenLeaf::Table {
                columns,
                left,
                has_delimiter,
            } => self.feed_table(columns, left, has_delimiter, rest),
            OpenLeaf::Indented(waits, end) => self.feed_indented(waits, end, rest),
            OpenLeaf::Fenced(delimiter, run_length, indent, waits) => {
                self.feed_fenced(delimiter, run_length, indent, waits, rest)
            }
            OpenLeaf::Html(kind) => self.feed_html(kind, rest),
            OpenLeaf::Metadata(kind, waits) => self.feed_metadata(kind, waits, rest),
        }
    }

    /// Feeds a lazy line: it continues a paragraph, or begins one after a link reference definition (CommonMark 4.7 and 4.8) or an alert's
    /// tag (this profile's own).
    fn feed_lazily(&mut self, rest: LineRest<'a>) -> Result<(), AllocError>
        requires line { IsRead self.old.text.now rest }
        ensures runs { OnOk result (FeedsLazily E.replacement rest.entry self.old self.new) }
        ensures text { self.new.text ≡ self.old.text }
    {
        match self.leaf {
            OpenLeaf::Paragraph(from, last) => self.add_to_paragraph(from, last, rest),
            OpenLeaf::Definition(_) | OpenLeaf::AfterTag => {
                self.close_leaf()?;
                self.begin_paragraph(rest)
            }
            OpenLeaf::Closed
            | OpenLeaf::Table { .. }
            | OpenLeaf::Indented(_, _)
            | OpenLeaf::Fenced(_, _, _, _)
            | OpenLeaf::Html(_)
            | OpenLeaf::Metadata(_, _) => Ok(()),
        }
    }

    /// Whether this line, which only the `kept` outermost containers keep, continues the open leaf as a lazy line (CommonMark 5.1), unless it
    /// is the head of a table that interrupts a paragraph.
    fn may_be_lazy(&self, kept: usize, rest: LineRest<'a>) -> bool
        requires { kept < length self.now.outer.items }
        ensures { MayBeLazy E.replacement self.now kept rest.entry result }
    {
        takes_lazy(self.leaf)
            && !interrupts(rest, false, self.options)
            && !begins_another(self.outer[kept].container, rest, self.options)
    }

    /// Whether this line, which only the `kept` outermost containers keep, continues the open leaf as a lazy line (CommonMark 5.1).
    pub(crate) fn is_lazy(&self, kept: usize, rest: LineRest<'a>) -> bool
        requires line { IsRead self.now.text.now rest }
        requires few { kept < length self.now.outer.items }
        ensures { IsLazy E.replacement self.now kept rest.entry result }
    {
        self.may_be_lazy(kept, rest) && !self.table_interrupts(kept, rest)
    }

    /// Feeds the rest of a line that only the `kept` outermost containers keep.
    fn feed_rest(&mut self, kept: usize, rest: LineRest<'a>) -> Result<(), AllocError>
        requires line { IsRead self.old.text.now rest }
        requires bare { self.old.bare ≡ false }
        requires few { kept ≤ length self.old.outer.items }
        ensures runs { OnOk result (FeedsRest E.replacement kept rest.entry self.old self.new) }
        ensures text { self.new.text ≡ self.old.text }
    {
        if kept == self.outer.len() {
            return self.feed_leaf(rest);
        }
        if self.may_be_lazy(kept, rest) {
            if may_head_table(rest, self.options) {
                return self.feed_piped_lazily(kept, rest);
            }
            return self.feed_lazily(rest);
        }
        self.close_leaf()?;
        self.close_containers(kept);
        self.begin(rest)
    }

    /// Feeds a line that begins with a pipe, which only the `kept` outermost containers keep: the head of a table, which begins at once after
    /// the other containers, or a lazy line. It is a separate function so that the room of its locals is cleared for such lines only.
    #[inline(never)]
    fn feed_piped_lazily(&mut self, kept: usize, rest: LineRest<'a>) -> Result<(), AllocError>
        requires line { IsRead self.old.text.now rest }
        requires bare { self.old.bare ≡ false }
        requires few { kept < length self.old.outer.items }
        requires piped { may_head (shown_options self.old.options) (row_of rest) ≡ true }
        requires lazy { MayBeLazy E.replacement self.old kept rest true }
        ensures runs { OnOk result (FeedsRest E.replacement kept rest.entry self.old self.new) }
        ensures text { self.new.text ≡ self.old.text }
    {
        let Some(head) = self.table_head(kept, rest) else {
            return self.feed_lazily(rest);
        };
        self.close_leaf()?;
        self.close_containers(kept);
        self.begin_table(head, rest)
    }

    /// Feeds a whole line of the text.
    pub(crate) fn feed(&mut self, line: LineRest<'a>) -> Result<(), AllocError>
        requires line { IsRead self.old.text.now line }
        ensures runs { OnOk result (Feeds E.replacement line.entry self.old self.new) }
        ensures text { self.new.text ≡ self.old.text }
        ensures line_end { OnOk result (self.new.line_end ≡ (row_of line.entry).line_end) }
    {
        if self.outer.is_empty() {
            self.bare = false;
            self.feed_leaf(line)?;
            self.line_end = line.line_end();
            return Ok(());
        }
        self.feed_around(line)
    }

    /// Feeds a line inside of containers. It passes the line to a function that is not inlined, so that the room of its locals is cleared
    /// only there.
    #[inline(always)]
    fn feed_around(&mut self, line: LineRest<'a>) -> Result<(), AllocError>
        requires line { IsRead self.old.text.now line }
        ensures runs { OnOk result (Feeds E.replacement line.entry self.old self.new) }
        ensures text { self.new.text ≡ self.old.text }
        ensures line_end { OnOk result (self.new.line_end ≡ (row_of line.entry).line_end) }
    {
        self.feed_inside(line)
    }

    /// Feeds a line inside of containers: determines which of them keep it, and feeds the rest.
    #[inline(never)]
    fn feed_inside(&mut self, line: LineRest<'a>) -> Result<(), AllocError>
        requires line { IsRead self.old.text.now line }
        ensures runs { OnOk result (Feeds E.replacement line.entry self.old self.new) }
        ensures text { self.new.text ≡ self.old.text }
        ensures line_end { OnOk result (self.new.line_end ≡ (row_of line.entry).line_end) }
    {
        let (kept, rest) = self.kept_by(line);
        self.bare = false;
        self.feed_rest(kept, rest)?;
        self.line_end = line.line_end();
        Ok(())
    }
}
