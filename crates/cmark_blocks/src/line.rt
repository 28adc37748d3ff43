//! The blocks that a line begins: containers, and then a leaf (CommonMark 3 to 5).

ghost use Rattle.std.specs.Prelude.{true, ◌≡◌, ◌<◌, false, length, OnOk, IfOk, IfSome};
ghost use Rattle.cmark_values.specs.Shown.{shown_options};
ghost use Rattle.cmark_line_rules.specs.Opened.{InfoIsIn};
ghost use Rattle.cmark_line_rules.specs.Rests.{row_of};
ghost use Rattle.cmark_blocks.specs.Entered.{OpensAs, IsNoContainer};

use crate::state::Pass;
use cmark_line_rules::{LineRest, Opening, begins_with_label, begins_with_text, what_opens};
use cmark_values::EntityLookup;
use std::alloc::AllocError;

impl<'a, E: EntityLookup> Pass<'a, E> {
    ghost use Rattle.cmark_blocks.specs.declared.state.OpenLeaf.TheVariants as leaf;
    ghost use Rattle.cmark_blocks.specs.Runs.{CanBegin};
    ghost use Rattle.cmark_leaf_nodes.specs.TextColumns.{IsRead};
    ghost use Rattle.cmark_blocks.specs.Steps.{Steps, Begins, BeginsAnew};
    ghost use Rattle.cmark_blocks.specs.Entered.{BeginsAs, BeginsFirst};

    /// Feeds a blank line, which begins nothing. `bare`: it is the rest of the line after an item's marker.
    pub(crate) fn pass_blank_line(&mut self, bare: bool)
        ensures runs { Steps E.replacement self.old self.new
            (λ p. record p
            { inner = record p.inner { has_line = true; blank = p.inner.has_line }; bare = bare }) }
        ensures text { self.new.text ≡ self.old.text }
    {
        self.inner.blank = self.inner.has_line;
        self.inner.has_line = true;
        self.bare = bare;
    }

    /// Begins the block of a line, with no leaf open, if that is not a container.
    fn begin_leaf(
        &mut self,
        opening: Opening<'a>,
        rest: LineRest<'a>,
        bare: bool,
    ) -> Result<(), AllocError>
        requires line { IsRead self.old.text.now rest }
        requires closed { self.old.leaf ≡ leaf.Closed }
        requires bare { self.old.bare ≡ false }
        requires opens { OpensAs (shown_options self.old.options) opening (row_of rest) }
        requires leaf { IsNoContainer opening }
        requires info_placed { InfoIsIn self.old.text.now opening (row_of rest) }
        ensures runs { OnOk result
            (BeginsAs E.replacement opening.entry bare rest.entry self.old self.new) }
        ensures text { self.new.text ≡ self.old.text }
    {
        match opening {
            Opening::Blank => {
                self.pass_blank_line(bare);
                Ok(())
            }
            Opening::Nests(_) => Ok(()),
            Opening::IndentedCode => self.begin_indented(rest),
            Opening::Html(kind) => self.begin_html(kind, rest),
            Opening::ThematicBreak => self.begin_thematic_break(rest),
            Opening::AtxHeading(level) => self.begin_heading(level, rest),
            Opening::FencedCode { indent, fence } => self.begin_fenced(indent, fence, rest),
            Opening::Bracket => self.begin_bracket(rest),
            Opening::Plain => self.begin_text(rest),
        }
    }

    /// Begins the first block of a line, with no leaf open. For a container, returns the line after its marker, and whether the container
    /// is an item. Returns `None` if nothing of the line is left to begin. `bare`: this is the rest of a line after an item's marker.
    #[inline(always)]
    fn begin_first(
        &mut self,
        rest: LineRest<'a>,
        bare: bool,
    ) -> Result<Option<(LineRest<'a>, bool)>, AllocError>
        requires line { IsRead self.old.text.now rest }
        requires closed { self.old.leaf ≡ leaf.Closed }
        requires bare { self.old.bare ≡ false }
        ensures runs { IfOk result
            (λ entered. BeginsFirst E.replacement bare rest.entry entered self.old self.new) }
        ensures line { IfOk result
            (λ entered. IfSome entered (λ inside. IsRead self.old.text.now inside.0)) }
        ensures shorter { IfOk result
            (λ entered. IfSome entered
            (λ inside. length (row_of inside.0).columns < length (row_of rest.entry).columns)) }
        ensures text { self.new.text ≡ self.old.text }
        ensures can { IfOk result (λ entered. IfSome entered (λ inside. CanBegin self.new)) }
    {
        if let Some((width, inside)) = self.definition_begun(rest) {
            self.begin_list_definition(width, rest.begin())?;
            return Ok(Some((inside, true)));
        }
        if let Some(kind) = self.metadata_begun(rest) {
            self.begin_metadata(kind, rest)?;
            return Ok(None);
        }
        let opening = what_opens(rest, self.options);
        if let Opening::Nests(start) = opening {
            let entered = self.begin_container(start, rest)?;
            return Ok(entered);
        }
        self.begin_leaf(opening, rest, bare)?;
        Ok(None)
    }

    /// Begins all blocks of a line, with no leaf open.
    #[inline(always)]
    pub(crate) fn begin(&mut self, line: LineRest<'a>) -> Result<(), AllocError>
        requires line { IsRead self.old.text.now line }
        requires closed { self.old.leaf ≡ leaf.Closed }
        requires bare { self.old.bare ≡ false }
        ensures runs { OnOk result (Begins E.replacement line.entry self.old self.new) }
        ensures text { self.new.text ≡ self.old.text }
    {
        if line.is_blank() {
            self.pass_blank_line(false);
            return Ok(());
        }
        if begins_with_text(line) {
            return self.begin_text(line);
        }
        if begins_with_label(line, self.options) {
            return self.begin_bracket(line);
        }
        self.begin_blocks(line)
    }

    /// Begins all blocks of a line, with no leaf open: each container, and the block after the last one's marker.
    #[inline(never)]
    fn begin_blocks(&mut self, line: LineRest<'a>) -> Result<(), AllocError>
        requires line { IsRead self.old.text.now line }
        requires closed { self.old.leaf ≡ leaf.Closed }
        requires bare { self.old.bare ≡ false }
        ensures runs { OnOk result (Begins E.replacement line.entry self.old self.new) }
        ensures text { self.new.text ≡ self.old.text }
    {
        let mut rest = line;
        let mut bare = false;
        while let Some((inside, item)) = self.begin_first(rest, bare)? {
            rest = inside;
            bare = item;
        }
        Ok(())
    }

    /// Closes the open leaf, and begins all blocks of the line after it.
    pub(crate) fn begin_anew(&mut self, rest: LineRest<'a>) -> Result<(), AllocError>
        requires line { IsRead self.old.text.now rest }
        requires bare { self.old.bare ≡ false }
        ensures runs { OnOk result (BeginsAnew E.replacement rest.entry self.old self.new) }
        ensures text { self.new.text ≡ self.old.text }
    {
        self.close_leaf()?;
        self.begin(rest)
    }
}
