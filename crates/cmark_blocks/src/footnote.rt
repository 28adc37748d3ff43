//! The beginning of footnote definitions (this profile's own).

ghost use Rattle.std.specs.Prelude.{◌≡◌, length, OnOk, IfOk};
ghost use Rattle.cmark_grammar.specs.Labels.{normal_form};
ghost use Rattle.cmark_grammar.specs.Rows.{words_of};
ghost use Rattle.cmark_block_model.specs.BlockPass.{container_begun};
ghost use Rattle.cmark_line_rules.specs.Rests.{row_of};
ghost use Rattle.cmark_line_rules.specs.Starts.{shown_footnote};
ghost use Rattle.cmark_scan_bytes.specs.Footnotes.{marked, IsClosed};
ghost use Rattle.cmark_blocks.specs.Footnotes.{KeepsText, Notes};
ghost use Rattle.cmark_leaf_nodes.specs.TextColumns.{IsRead};

use crate::gathered::words_in;
use crate::state::Pass;
use cmark_items::{Allocations, CowIndex, ItemBody};
use cmark_line_rules::{Container, FootnoteStart, LineRest};
use cmark_references::FootnoteDef;
use cmark_values::{CowStr, EntityLookup, FootnoteLabel};
use std::alloc::{AllocError, Global};

/// The label, of `size` bytes, of the footnote definition that a line of this text begins.
fn label_in<'a>(text: &'a str, rest: LineRest<'a>, size: usize) -> &'a str
    requires line { IsRead text.now rest }
    requires closed { IsClosed (words_of (row_of rest)) size }
    ensures { result.now ≡ (marked (words_of (row_of rest.entry)) size).bytes }
{
    let words = words_in(text, rest);
    &words[2..2 + size]
}

/// Keeps a label of a footnote in its normal form, and records that the footnote is defined: the first definition of a label stays.
fn keep_label(
    alloc: Global,
    allocations: &mut Allocations<'_>,
    label: &str,
) -> Result<CowIndex, AllocError>
    ensures index { IfOk result (λ index. index.0 ≡ length allocations.old.texts) }
    ensures kept { OnOk result (KeepsText (normal_form label.now) allocations.old allocations.new) }
    ensures noted { OnOk result
        (Notes label.now allocations.old.footnotes allocations.new.footnotes) }
    ensures references { OnOk result (allocations.new.references ≡ allocations.old.references) }
{
    let label = FootnoteLabel::new(alloc, label)?;
    let name = CowStr::Borrowed(label.as_str()).into_static(alloc)?;
    let index = allocations.allocate_cow(name)?;
    allocations
        .footdefs
        .insert(label, FootnoteDef { use_count: 0 })?;
    Ok(index)
}

impl<'a, E: EntityLookup> Pass<'a, E> {
    ghost use Rattle.cmark_blocks.specs.Steps.{Keeps, Steps};

    /// Begins a footnote definition on a line.
    pub(crate) fn begin_footnote(
        &mut self,
        footnote: FootnoteStart,
        rest: LineRest<'a>,
    ) -> Result<(), AllocError>
        requires line { IsRead self.old.text.now rest }
        requires closed { IsClosed (words_of (row_of rest)) footnote.label_size }
        ensures runs { OnOk result
            (Steps E.replacement self.old self.new
            (container_begun (shown_footnote (row_of rest.entry) footnote.label_size footnote.old)
            (row_of rest.entry))) }
        ensures noted { OnOk result
            (Notes (marked (words_of (row_of rest.entry)) footnote.label_size).bytes
            self.old.builder.allocations.footnotes self.new.builder.allocations.footnotes) }
        ensures keeps { Keeps self.old self.new }
    {
        let label = label_in(self.text, rest, footnote.label_size);
        self.begin_block();
        let builder = &mut self.builder;
        let index = keep_label(self.alloc, &mut builder.allocations, label)?;
        let body = ItemBody::FootnoteDefinition(index);
        builder.open(rest.words_begin(), body)?;
        self.enter(Container::Footnote { old: footnote.old })
    }
}
