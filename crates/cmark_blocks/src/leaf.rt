//! The end of the open leaf, of any kind (CommonMark 4).

ghost use Rattle.std.specs.Prelude.{◌≡◌, OnOk};

use crate::state::{OpenLeaf, Pass};
use cmark_leaf_nodes::{Stretch, draw_stretch};
use cmark_values::EntityLookup;
use std::alloc::AllocError;

impl<'a, E: EntityLookup> Pass<'a, E> {
    ghost use Rattle.cmark_blocks.specs.declared.state.OpenLeaf.TheVariants as leaf;
    ghost use Rattle.cmark_blocks.specs.Runs.{IsVerbatim};
    ghost use Rattle.cmark_blocks.specs.Steps.{ClosesLeaf};

    /// Closes fenced code, HTML, metadata or a table at the end of the last line.
    fn close_verbatim(&mut self, waits: Option<Stretch>) -> Result<(), AllocError>
        requires is { IsVerbatim self.old.leaf waits }
        ensures runs { OnOk result (ClosesLeaf E.replacement self.old self.new) }
        ensures closed { OnOk result (self.new.leaf ≡ leaf.Closed) }
        ensures text { self.new.text ≡ self.old.text }
        ensures bare { self.new.bare ≡ self.old.bare }
    {
        draw_stretch(&mut self.builder, waits)?;
        self.builder.close(self.line_end);
        self.leaf = OpenLeaf::Closed;
        Ok(())
    }

    /// Closes the open leaf, if any.
    #[inline(always)]
    pub(crate) fn close_leaf(&mut self) -> Result<(), AllocError>
        ensures runs { OnOk result (ClosesLeaf E.replacement self.old self.new) }
        ensures closed { OnOk result (self.new.leaf ≡ leaf.Closed) }
        ensures text { self.new.text ≡ self.old.text }
        ensures bare { self.new.bare ≡ self.old.bare }
    {
        match self.leaf {
            OpenLeaf::Closed => Ok(()),
            OpenLeaf::Paragraph(from, last) => self.close_paragraph(from, last),
            OpenLeaf::Definition(_) | OpenLeaf::AfterTag => {
                self.leaf = OpenLeaf::Closed;
                Ok(())
            }
            OpenLeaf::Indented(waits, end) => self.close_indented(waits, end),
            OpenLeaf::Fenced(_, _, _, waits) => self.close_verbatim(waits),
            OpenLeaf::Html(_) | OpenLeaf::Table { .. } => self.close_verbatim(None),
            OpenLeaf::Metadata(_, waits) => self.close_verbatim(waits),
        }
    }
}
