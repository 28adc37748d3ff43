//! Metadata blocks (this profile's own).

ghost use Rattle.std.specs.Prelude.{◌≡◌, ℕ, OnOk, false, option_map};
ghost use Rattle.cmark_grammar.specs.Openings.{MetadataBlock};
ghost use Rattle.cmark_line_rules.specs.Rests.{IsIn};
ghost use Rattle.cmark_values.specs.Shown.{shown_metadata_block_kind};

use crate::state::{OpenLeaf, Pass};
use cmark_items::ItemBody;
use cmark_leaf_nodes::{Stretch, draw_code_line, draw_stretch};
use cmark_line_rules::{LineRest, ends_metadata, metadata_kind};
use cmark_values::{EntityLookup, MetadataBlockKind};
use std::alloc::AllocError;

impl<'a, E: EntityLookup> Pass<'a, E> {
    ghost use Rattle.cmark_blocks.specs.declared.state.OpenLeaf.TheVariants as leaf;
    ghost use Rattle.cmark_blocks.specs.Entered.{HoldsMetadata, TellsMetadata};
    ghost use Rattle.cmark_blocks.specs.Steps.{BeginsLeaf, FeedsLeaf};

    /// Whether the lines after this line form a metadata block of this kind: a later line ends it, and the first one is not blank and does
    /// not end it. If no line ends a block, none later begins one, so that the lines of a text are read only once for this.
    fn holds_metadata(&self, kind: MetadataBlockKind, rest: LineRest<'a>) -> bool
        requires bare { self.now.bare ≡ false }
        requires within { IsIn self.now.text.now rest }
        ensures { HoldsMetadata E.replacement self.now (shown_metadata_block_kind kind) rest.entry
            result }
    {
        let Some(first) = self.line_ahead(rest) else {
            return false;
        };
        if first.is_blank() || ends_metadata(first, kind) {
            return false;
        }
        let mut last = first;
        while let Some(next) = self.line_ahead(last) {
            if ends_metadata(next, kind) {
                return true;
            }
            last = next;
        }
        false
    }

    /// The kind of the metadata block that the line begins, if it begins one.
    #[inline]
    pub(crate) fn metadata_begun(&self, rest: LineRest<'a>) -> Option<MetadataBlockKind>
        requires bare { self.now.bare ≡ false }
        requires within { IsIn self.now.text.now rest }
        ensures { TellsMetadata E.replacement self.now rest.entry
            (option_map shown_metadata_block_kind result) }
    {
        let kind = metadata_kind(rest, self.options)?;
        if self.holds_metadata(kind, rest) {
            Some(kind)
        } else {
            None
        }
    }

    /// Begins a metadata block on a line.
    pub(crate) fn begin_metadata(
        &mut self,
        kind: MetadataBlockKind,
        rest: LineRest<'a>,
    ) -> Result<(), AllocError>
        requires closed { self.old.leaf ≡ leaf.Closed }
        ensures runs { OnOk result
            ((more : ℕ)
            → BeginsLeaf E.replacement (MetadataBlock (shown_metadata_block_kind kind)) more
            rest.entry self.old self.new) }
        ensures text { self.new.text ≡ self.old.text }
    {
        self.begin_block();
        self.builder
            .open(rest.words_begin(), ItemBody::MetadataBlock(kind))?;
        self.leaf = OpenLeaf::Metadata(kind, None);
        Ok(())
    }

    /// Feeds a line of a metadata block: the line that ends it, or a literal one.
    pub(crate) fn feed_metadata(
        &mut self,
        kind: MetadataBlockKind,
        waits: Option<Stretch>,
        rest: LineRest<'a>,
    ) -> Result<(), AllocError>
        requires is { self.old.leaf ≡ leaf.Metadata kind waits }
        ensures runs { OnOk result (FeedsLeaf E.replacement rest.entry self.old self.new) }
        ensures text { self.new.text ≡ self.old.text }
    {
        if ends_metadata(rest, kind) {
            draw_stretch(&mut self.builder, waits)?;
            self.builder.close(rest.line_end());
            self.leaf = OpenLeaf::Closed;
            return Ok(());
        }
        let left = draw_code_line(&mut self.builder, rest, 0, waits)?;
        self.leaf = OpenLeaf::Metadata(kind, left);
        Ok(())
    }
}
