//! HTML blocks: their beginnings and their lines (CommonMark 4.6).

ghost use Rattle.std.specs.Prelude.{◌≡◌, ℕ, OnOk, false};
ghost use Rattle.cmark_grammar.specs.Openings.{HtmlBlock};
ghost use Rattle.cmark_scan_lines.specs.HtmlLines.{kind_number};

use crate::state::{OpenLeaf, Pass};
use cmark_items::ItemBody;
use cmark_leaf_nodes::draw_html_line;
use cmark_line_rules::{CodeOrHtml, Continuation, HtmlKind, LineRest, ends_at_once};
use cmark_values::EntityLookup;
use std::alloc::AllocError;

impl<'a, E: EntityLookup> Pass<'a, E> {
    ghost use Rattle.cmark_blocks.specs.declared.state.OpenLeaf.TheVariants as leaf;
    ghost use Rattle.cmark_leaf_nodes.specs.TextColumns.{IsRead};
    ghost use Rattle.cmark_blocks.specs.Steps.{FeedsLeaf, BeginsLeaf};

    /// Begins HTML on a line, which may also end it (CommonMark 4.6).
    pub(crate) fn begin_html(
        &mut self,
        kind: HtmlKind,
        rest: LineRest<'a>,
    ) -> Result<(), AllocError>
        requires closed { self.old.leaf ≡ leaf.Closed }
        ensures runs { OnOk result
            ((more : ℕ)
            → BeginsLeaf E.replacement (HtmlBlock (kind_number kind)) more rest.entry self.old
            self.new) }
        ensures text { self.new.text ≡ self.old.text }
    {
        self.begin_block();
        self.builder.open(rest.begin(), ItemBody::HtmlBlock)?;
        draw_html_line(&mut self.builder, rest)?;
        if ends_at_once(kind, rest) {
            self.builder.close(rest.line_end());
            self.leaf = OpenLeaf::Closed;
        } else {
            self.leaf = OpenLeaf::Html(kind);
        }
        Ok(())
    }

    /// Feeds a line after an open HTML block: the block continues or ends with it, or has ended before it.
    pub(crate) fn feed_html(&mut self, kind: HtmlKind, rest: LineRest<'a>) -> Result<(), AllocError>
        requires is { self.old.leaf ≡ leaf.Html kind }
        requires line { IsRead self.old.text.now rest }
        requires bare { self.old.bare ≡ false }
        ensures runs { OnOk result (FeedsLeaf E.replacement rest.entry self.old self.new) }
        ensures text { self.new.text ≡ self.old.text }
    {
        let continuation = CodeOrHtml::Html(kind).continuation(rest);
        if let Continuation::Stops = continuation {
            return self.begin_anew(rest);
        }
        draw_html_line(&mut self.builder, rest)?;
        if let Continuation::Closes = continuation {
            self.builder.close(rest.line_end());
            self.leaf = OpenLeaf::Closed;
        }
        Ok(())
    }
}
