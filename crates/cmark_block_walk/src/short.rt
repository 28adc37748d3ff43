//! The steps of a walk over a document's tree, without an `Event`.

ghost use Rattle.std.specs.Prelude.{◌≡◌, List, IfOk, OnErr};
ghost use Rattle.cmark_tree.specs.Zip.{Zip};
ghost use Rattle.cmark_grammar.specs.BlockDocument.{BlockNode};
ghost use Rattle.cmark_grammar.specs.BlockReading.{read_as};
ghost use Rattle.cmark_block_model.specs.DrawnDocument.{kind_within};
ghost use Rattle.cmark_grammar.specs.SpanDocuments.{Segment};
ghost use Rattle.cmark_grammar.specs.Tokens.{slice};
ghost use Rattle.cmark_text.specs.Excerpt.{excerpt_bytes};
ghost use Rattle.cmark_leaf_text.specs.declared.stretch.LeafLine.{LeafLine as LeafLines};
ghost use Rattle.cmark_block_walk.specs.declared.reading.Stage.TheVariants as stage;
ghost use Rattle.cmark_block_walk.specs.Walking.{GoesOn, LeavesTheSame, ComesNearer, Drawn, GivesBrief, GivesStep, GlancesZeroCopy, Goes, IsAt, IsBelow, IsDrawn, IsLongGlance, IsPast, NoEndIsNext, Outer, ReadsAs, Remains, StandsBelow, definitions_of, text_of, texts_of, tight_below};

use crate::item::first_number;
use crate::kind::is_leaf;
use crate::reading::{BlockStep, Glance, Stage};
use crate::walk::Walk;
use cmark_items::{Item, ItemBody};
use cmark_leaf_text::LeafLine;
use cmark_text::{Excerpt, PlainTag, Short};
use cmark_tree::TreeIndex;
use std::alloc::AllocError;

impl<'a> Walk<'a> {
    /// The next event, if it owns nothing, or the next leaf. An event of another kind is reported as `BlockStep::Long` and is still the next
    /// one: [`take_long`](Walk::take_long) returns it. The lines of a leaf replace the content of `lines`: byte offsets of the text, in
    /// order, one line for each stretch of the text without a gap. After the last item the result is `Over`, also in all further calls. If
    /// memory is refused, all events and leaves remain, and the content of `lines` is unspecified.
    #[inline(always)]
    pub fn step(&mut self, lines: &mut Vec<LeafLine>) -> Result<BlockStep<'a>, AllocError>
        requires { Goes self.old }
        ensures given { IfOk result (λ brief. GivesBrief self.old brief lines.new.items self.new) }
        ensures refused { OnErr result
            ((left : List Segment) → Remains self.old left → Remains self.new left) }
        ensures ends { OnErr result (NoEndIsNext self.old) }
        ensures goes { Goes self.new }
        ensures definitions { definitions_of self.new ≡ definitions_of self.old }
        ensures text { text_of self.new ≡ text_of self.old }
    {
        // Only paragraphs of tight lists give nothing, at their start and at their end.
        loop {
            let Ok(step) = self.short_step(lines) else {
                return Err(AllocError);
            };
            if let Some(brief) = step {
                return Ok(brief);
            }
        }
    }

    // Into the focus or past it, or up after the last sibling. `None` if a paragraph of a tight list begins or ends.
    #[inline(always)]
    fn short_step(&mut self, lines: &mut Vec<LeafLine>) -> Result<Option<BlockStep<'a>>, AllocError>
        requires { Goes self.old }
        ensures given { IfOk result
            (λ brief. GivesStep self.old brief lines.new.items self.new) }
        ensures refused { OnErr result (LeavesTheSame self.old self.new) }
        ensures nearer { IfOk result (λ brief. ComesNearer self.old brief self.new) }
        ensures goes_on { GoesOn self.old self.new }
    {
        let Some(ix) = self.tree.cur() else {
            return Ok(Some(self.leave_short()));
        };
        match self.stage {
            Stage::Before => self.enter_short(ix),
            Stage::Lines => {
                let is_cell = self.meet_leaf(ix, lines)?;
                Ok(Some(BlockStep::Leaf { is_cell }))
            }
            Stage::Following => Ok(self.leave_leaf_short(ix)),
            Stage::Marked { .. } | Stage::Listed { .. } => Ok(Some(BlockStep::Long)),
        }
    }

    // Into the focus, or past it if it is one event.
    #[inline(always)]
    fn enter_short(&mut self, ix: TreeIndex) -> Result<Option<BlockStep<'a>>, AllocError>
        requires at { IsAt self.old ix }
        requires before { self.old.stage ≡ stage.Before }
        ensures given { IfOk result
            (λ brief. (lines : List LeafLines) → GivesStep self.old brief lines self.new) }
        ensures refused { OnErr result (LeavesTheSame self.old self.new) }
        ensures nearer { IfOk result (λ brief. ComesNearer self.old brief self.new) }
        ensures goes_on { GoesOn self.old self.new }
    {
        let item = *self.tree.item(ix);
        match self.glance(item) {
            Glance::Around(tag) => {
                if is_leaf(item) {
                    self.stage = Stage::Lines;
                    return Ok(Some(BlockStep::Short(Short::Start(tag), item.start, item.end)));
                }
                self.tree.push()?;
                Ok(Some(BlockStep::Short(Short::Start(tag), item.start, item.end)))
            }
            Glance::Alone(short) => {
                self.tree.next_sibling(ix);
                Ok(Some(BlockStep::Short(short, item.start, item.end)))
            }
            Glance::Inside => {
                self.stage = Stage::Lines;
                Ok(None)
            }
            Glance::Long => Ok(Some(BlockStep::Long)),
        }
    }

    // Out of the leaf in the focus, and past it.
    #[inline(always)]
    fn leave_leaf_short(&mut self, ix: TreeIndex) -> Option<BlockStep<'a>>
        requires at { IsAt self.old ix }
        requires following { self.old.stage ≡ stage.Following }
        ensures given { (lines : List LeafLines) → GivesStep self.old result lines self.new }
        ensures nearer { ComesNearer self.old result self.new }
        ensures goes_on { GoesOn self.old self.new }
    {
        let item = *self.tree.item(ix);
        let end = self.end(item);
        self.tree.next_sibling(ix);
        self.stage = Stage::Before;
        match end {
            Some(end) => Some(BlockStep::Short(Short::End(end), item.start, item.end)),
            None => None,
        }
    }

    // Up after the last sibling, and past the parent.
    #[inline(always)]
    fn leave_short(&mut self) -> BlockStep<'a>
        requires { IsPast self.old }
        ensures given { (lines : List LeafLines) → GivesBrief self.old result lines self.new }
        ensures goes_on { GoesOn self.old self.new }
    {
        let Some(ix) = self.tree.pop() else {
            return BlockStep::Over;
        };
        let item = *self.tree.item(ix);
        let end = self.end(item);
        self.tree.next_sibling(ix);
        match end {
            Some(end) => BlockStep::Short(Short::End(end), item.start, item.end),
            None => unreachable!(),
        }
    }

    // The reading of an item among the current siblings, if it has no text of its own.
    #[inline(always)]
    pub(crate) fn glance(&self, item: Item) -> Glance<'a>
        requires below { IsBelow self.now }
        requires drawn { IsDrawn self.now item }
        ensures value { (z : Zip Item) (above : List Outer) (node : BlockNode)
            → StandsBelow self.now z above → Drawn self.now.text.now (texts_of self.now) item node
            → ReadsAs result (read_as (kind_within (tight_below above) node.kind)) }
        ensures lent { GlancesZeroCopy (text_of self.now) item result }
        ensures long { IsLongGlance result item.body }
    {
        match item.body {
            ItemBody::Text { .. } => Glance::Alone(Short::Text(self.excerpt(item))),
            ItemBody::Html => Glance::Alone(Short::Html(self.part(item))),
            ItemBody::Rule => Glance::Alone(Short::Rule),
            ItemBody::Paragraph | ItemBody::ParagraphOf(_) => {
                if self.is_tight() {
                    Glance::Inside
                } else {
                    Glance::Around(PlainTag::Paragraph)
                }
            }
            ItemBody::Heading(level) => Glance::Around(PlainTag::Heading(level)),
            ItemBody::IndentCodeBlock => Glance::Around(PlainTag::IndentedCode),
            ItemBody::HtmlBlock => Glance::Around(PlainTag::HtmlBlock),
            ItemBody::TableHead => Glance::Around(PlainTag::TableHead),
            ItemBody::TableRow => Glance::Around(PlainTag::TableRow),
            ItemBody::TableCell => Glance::Around(PlainTag::TableCell),
            ItemBody::MetadataBlock(kind) => Glance::Around(PlainTag::MetadataBlock(kind)),
            ItemBody::BlockQuote(kind) => Glance::Around(PlainTag::BlockQuote(kind)),
            ItemBody::List(_, delimiter, number) => {
                Glance::Around(PlainTag::List(first_number(delimiter, number)))
            }
            ItemBody::ListItem(_) => Glance::Around(PlainTag::Item),
            ItemBody::DefinitionList(_) => Glance::Around(PlainTag::DefinitionList),
            ItemBody::DefinitionListTitle | ItemBody::DefinitionListTitleOf(_) => {
                Glance::Around(PlainTag::DefinitionListTitle)
            }
            ItemBody::DefinitionListDefinition(_) => {
                Glance::Around(PlainTag::DefinitionListDefinition)
            }
            ItemBody::AttributedHeading(_, _)
            | ItemBody::FencedCodeBlock(_)
            | ItemBody::Table(_)
            | ItemBody::FootnoteDefinition(_)
            | ItemBody::SynthesizeText(_)
            | ItemBody::SynthesizeChar(_)
            | ItemBody::TaskListMarker(_) => Glance::Long,
            _ => Glance::Inside,
        }
    }

    // The part of the text in an item's range.
    #[inline(always)]
    fn part(&self, item: Item) -> &'a str
        requires { IsDrawn self.now item }
        ensures { result.now ≡ slice self.now.text.now item.start item.end }
    {
        &self.text[item.start..item.end]
    }

    // The part of the text in an item's range, and the text after it.
    #[inline(always)]
    fn excerpt(&self, item: Item) -> Excerpt<'a>
        requires { IsDrawn self.now item }
        ensures { excerpt_bytes result ≡ slice self.now.text.now item.start item.end }
    {
        let ahead = &self.text[item.start..];
        Excerpt::new(ahead, item.end - item.start)
    }
}
