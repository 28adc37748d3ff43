//! The items of the tree.

ghost use Rattle.cmark_items.specs.Spans.{spans};

use crate::allocations::{CowIndex, HeadingIndex, LinkIndex};
use crate::list_flags::ListFlags;
use cmark_tree::TreeSpan;
use cmark_values::{BlockQuoteKind, HeadingLevel, MetadataBlockKind};

/// A node of the tree: its body, and its range in the text, from byte offset `start` up to `end`.
#[derive(Clone, Copy, PartialEq, Eq)]
pub struct Item {
    /// The start of its range, a byte offset of the text.
    pub start: usize,
    /// The end of its range, a byte offset of the text.
    pub end: usize,
    /// The kind of node, with its data.
    pub body: ItemBody,
}

impl TreeSpan for Item {
    ghost spans = { spans };

    fn start(&self) -> usize {
        self.start
    }

    fn end(&self) -> usize {
        self.end
    }

    fn escaped(&self) -> bool {
        match self.body {
            ItemBody::Text { backslash_escaped } => backslash_escaped,
            _ => false,
        }
    }

    fn set_range(&mut self, start: usize, end: usize) {
        self.start = start;
        self.end = end;
    }
}

// In each variant the order of the fields keeps the size at 16 bytes or less with the tag: a node of the tree is as large as its largest
// variant.
/// The kinds of items. Those that begin with `Maybe` are tokens: the pass over the leaf around them decides whether they form anything.
#[derive(Clone, Copy, Default, PartialEq, Eq)]
pub enum ItemBody {
    /// A byte of a run of `*`, `_`, `~` or `^`: whether it can open and close, and the run's length from here on
    /// (CommonMark 6.2).
    MaybeEmphasis(bool, bool, usize),
    /// A `$`: whether it can open and close, and the context of braces around it (this profile's own).
    MaybeMath(bool, bool, u8),
    /// A quotation mark, and whether it can open and close (this profile's own).
    MaybeSmartQuote(u8, bool, bool),
    /// A run of backticks: whether a backslash precedes it, and its length (CommonMark 6.1).
    MaybeCode(bool, usize),
    /// A `<` (CommonMark 6.5, 6.6).
    MaybeHtml,
    /// A `[` (CommonMark 6.3).
    MaybeLinkOpen,
    /// A `]`, and whether it may still close a reference.
    MaybeLinkClose(bool),
    /// A `![` (CommonMark 6.4).
    MaybeImage,

    /// Emphasis (CommonMark 6.2).
    Emphasis,
    /// Strong emphasis (CommonMark 6.2).
    Strong,
    /// Strikethrough (GFM 6.5).
    Strikethrough,
    /// Superscript (this profile's own).
    Superscript,
    /// Subscript (this profile's own).
    Subscript,
    /// Highlight (this project's own).
    Highlight,
    /// A formula: whether it is displayed, and its text (this profile's own).
    Math(bool, CowIndex),
    /// A code span (CommonMark 6.1).
    Code(CowIndex),
    /// A footnote reference (this profile's own).
    FootnoteReference(CowIndex),
    /// A tag over several lines (CommonMark 6.6).
    OwnedInlineHtml(CowIndex),
    /// A text that differs from the source.
    SynthesizeText(CowIndex),
    /// A link (CommonMark 6.3).
    Link(LinkIndex),
    /// An image (CommonMark 6.4).
    Image(LinkIndex),
    /// The marker of a task list item, and whether it is checked (GFM 5.3).
    TaskListMarker(bool),
    /// HTML as in the source (CommonMark 6.6).
    InlineHtml,
    /// A character that differs from the source.
    SynthesizeChar(char),
    /// A line of an HTML block (CommonMark 4.6).
    Html,
    /// A text as in the source.
    Text {
        /// A backslash before its first byte escapes it.
        backslash_escaped: bool,
    },
    /// A line ending (CommonMark 6.8).
    SoftBreak,
    /// A hard line break (CommonMark 6.7), and whether a backslash makes it.
    HardBreak(bool),

    /// No node of the document.
    #[default]
    Root,
    /// A paragraph (CommonMark 4.8).
    Paragraph,
    /// A paragraph that contains only one text, as one node: the text begins where the paragraph begins and ends before this byte offset of
    /// the source.
    ParagraphOf(usize),
    /// A paragraph directly in an item of a tight list (CommonMark 5.3).
    TightParagraph,
    /// A thematic break (CommonMark 4.1).
    Rule,
    /// A heading (CommonMark 4.2, 4.3).
    Heading(HeadingLevel),
    /// A heading with attributes, and the words between their braces (this profile's own).
    AttributedHeading(HeadingLevel, HeadingIndex),
    /// A fenced code block (CommonMark 4.5), and its info string.
    FencedCodeBlock(CowIndex),
    /// An indented code block (CommonMark 4.4).
    IndentCodeBlock,
    /// An HTML block (CommonMark 4.6).
    HtmlBlock,
    /// A block quote (CommonMark 5.1), and its kind if it is an alert.
    BlockQuote(Option<BlockQuoteKind>),
    /// A list (CommonMark 5.3): its flags, its character, and its first item's number.
    List(ListFlags, u8, u64),
    /// An item (CommonMark 5.2), and the width of its prefix in columns.
    ListItem(usize),
    /// A footnote definition (this profile's own).
    FootnoteDefinition(CowIndex),
    /// A metadata block (this profile's own).
    MetadataBlock(MetadataBlockKind),
    /// A definition list (this profile's own).
    DefinitionList(ListFlags),
    /// A paragraph that is a title if a definition follows.
    MaybeDefinitionListTitle,
    /// The title of definitions.
    DefinitionListTitle,
    /// The title of definitions that contains only one text, as one node: the text begins where the title begins and ends before this byte
    /// offset of the source.
    DefinitionListTitleOf(usize),
    /// A definition, and the width of its prefix in columns.
    DefinitionListDefinition(usize),
    /// A table (GFM 4.10), and its delimiter row.
    Table(CowIndex),
    /// A table's head.
    TableHead,
    /// A table's row.
    TableRow,
    /// A table's cell.
    TableCell,
}
