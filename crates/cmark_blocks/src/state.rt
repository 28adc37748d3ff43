//! The state of the block pass.

ghost use Rattle.std.specs.Prelude.{IfOk};
ghost use Rattle.std.specs.Str.{IsCharBoundary};
ghost use Rattle.cmark_leaf_nodes.specs.Contents.{AreRead};
ghost use Rattle.cmark_leaf_nodes.specs.ReadFacts.{AreRead-prop};
ghost use Rattle.cmark_values.specs.Shown.{shown_options};
ghost use Rattle.cmark_blocks.specs.EmptyLines.{KeepEmptyFrom, KeepEmptyFrom-prop};
ghost use Rattle.cmark_blocks.specs.FootnoteRuns.{AreRuns, AreRuns-prop};
ghost use Rattle.cmark_blocks.specs.LastLines.{IsLastRead, IsLastRead-prop};

use crate::siblings::Siblings;
use cmark_builder::Builder;
use cmark_leaf_nodes::Stretch;
use cmark_line_rules::{Container, HtmlKind, LineRest};
use cmark_values::{EntityLookup, MetadataBlockKind, Options};
use std::alloc::{AllocError, Global};

/// The open leaf, if any.
#[derive(Clone, Copy)]
pub(crate) enum OpenLeaf<'a> {
    /// No leaf is open.
    Closed,
    /// No leaf is open yet, directly after an alert's tag.
    AfterTag,
    /// A paragraph: the byte offset of the first line that touches the last one, and the last line. They become a node when the next line
    /// shows whether they continue.
    Paragraph(usize, LineRest<'a>),
    /// A link reference definition, and the number of its lines to come.
    Definition(usize),
    /// A table: the number of its columns, the number of cells that may still be filled in, and whether its delimiter row was fed.
    Table {
        columns: usize,
        left: usize,
        has_delimiter: bool,
    },
    /// Indented code: the stretch of the text that waits, and the end of its last line, a byte offset.
    Indented(Option<Stretch>, usize),
    /// Fenced code: its fence's character, length and indent in columns, and the stretch of the text that waits.
    Fenced(u8, usize, usize, Option<Stretch>),
    /// HTML.
    Html(HtmlKind),
    /// Metadata: its kind, and the stretch of the text that waits.
    Metadata(MetadataBlockKind, Option<Stretch>),
}

/// An open container, with the siblings before it.
#[derive(Clone, Copy)]
pub(crate) struct OpenContainer {
    pub container: Container,
    pub around: Siblings,
}

// A text may have an open container for each of its bytes.
const _: () = prove!(size_of::<OpenContainer>() == 56);

/// A run of footnote definitions in the old style that are open, each directly inside the one before.
#[derive(Clone, Copy)]
pub(crate) struct FootnoteRun {
    /// The index of its first container.
    pub start: usize,
    /// The index after its last container.
    pub end: usize,
}

/// The block pass between two lines.
#[derive(Drop)]
pub(crate) struct Pass<'a, E> {
    pub alloc: Global,
    pub text: &'a str,
    pub options: Options,
    pub entities: &'a E,
    /// The tree so far, and its tables.
    pub builder: Builder<'a>,
    /// The blocks of the innermost container.
    pub inner: Siblings,
    /// The open containers, the outermost first.
    pub outer: Vec<OpenContainer>,
    /// The number of open containers up to the innermost one that does not keep every empty line. Those after it do.
    pub strict: usize,
    /// The runs of footnote definitions in the old style among the open containers, the outermost first.
    pub footnote_runs: Vec<FootnoteRun>,
    /// Whether the last line was the blank first line of an item, which is the innermost container.
    pub bare: bool,
    pub leaf: OpenLeaf<'a>,
    /// The blank lines after indented code, or, if attributes of headings are read, the earlier lines of a paragraph.
    pub blank_lines: Vec<LineRest<'a>>,
    /// The byte offset at which the next line begins.
    pub line_end: usize,
    /// A string that is reused for the text of a paragraph; its content is irrelevant.
    pub room: String,
    ghost begins: { IsCharBoundary text.now line_end },
    ghost lines: { AreRead text.now blank_lines.items } by { AreRead-prop text.now blank_lines.items },
    ghost last: { IsLastRead text.now leaf } by { IsLastRead-prop text.now leaf },
    ghost empties: { KeepEmptyFrom strict outer.items } by { KeepEmptyFrom-prop strict outer.items },
    ghost footnotes: { AreRuns outer.items 0 footnote_runs.items } by { AreRuns-prop outer.items 0 footnote_runs.items },
}

// A text with fewer bytes than this mostly has few nodes.
const SHORT: usize = 512;

// The number of nodes for which the tree of a text of `len` bytes makes room at once. It is enough for most short texts, which then ask for
// their memory once. The C library keeps freed memory of up to 1,024 bytes in its quickest lists, so a text of a few lines asks for no more.
fn room_for(len: usize) -> usize {
    if len < SHORT { 32 } else { 128 }
}

impl<'a, E: EntityLookup> Pass<'a, E> {
    ghost use Rattle.cmark_block_model.specs.OpenBlocks.{at_start};
    ghost use Rattle.cmark_blocks.specs.Runs.{Runs};
    ghost use Rattle.cmark_values.specs.Shown.{shown_options};

    /// The state before the first line of this text, with these options.
    #[tactic(auto, using(crate::proofs::ReferenceSteps::no_reference))]
    pub(crate) fn new(
        alloc: Global,
        text: &'a str,
        options: Options,
        entities: &'a E,
    ) -> Result<Pass<'a, E>, AllocError>
        ensures runs { IfOk result
            (Runs E.replacement text.entry.now (shown_options options)
            (E.replacement entities.entry.now) at_start) }
    {
        let builder = Builder::new(alloc, room_for(text.len()))?;
        Ok(Pass {
            alloc,
            text,
            options,
            entities,
            builder,
            inner: Siblings::none(),
            outer: Vec::new(alloc),
            strict: 0,
            footnote_runs: Vec::new(alloc),
            bare: false,
            leaf: OpenLeaf::Closed,
            blank_lines: Vec::new(alloc),
            line_end: 0,
            room: String::new(alloc),
        })
    }
}
