//! Events and tags.

ghost use Rattle.std.specs.Prelude.{◌≡◌};
ghost use Rattle.cmark_grammar.specs.TagEnd.{end_of};
ghost use Rattle.cmark_text.specs.Shown.{shown_tag, shown_end};

use cmark_values::{
    Alignment, BlockQuoteKind, CodeBlockKind, CowStr, HeadingLevel, LinkType, MetadataBlockKind,
};

/// An element that has a start and an end. A value has 128 bytes, because a link has three texts.
#[derive(Debug, Drop, PartialEq, Eq)]
pub enum Tag<'a> {
    /// A paragraph (CommonMark 4.8).
    Paragraph,
    /// A heading (CommonMark 4.2 and 4.3) with its attributes (this profile's own).
    Heading {
        /// The level of the heading in the outline.
        level: HeadingLevel,
        /// The anchor of the heading, for links to it.
        id: Option<CowStr<'a>>,
        /// The classes, in the order of the text.
        classes: Vec<CowStr<'a>>,
        /// The other attributes, each with its value if it has one, in the order of the text.
        attrs: Vec<(CowStr<'a>, Option<CowStr<'a>>)>,
    },
    /// A block quote (CommonMark 5.1), or with a kind an alert.
    BlockQuote(Option<BlockQuoteKind>),
    /// A code block (CommonMark 4.4 and 4.5).
    CodeBlock(CodeBlockKind<'a>),
    /// An HTML block (CommonMark 4.6).
    HtmlBlock,
    /// A list, with its first number if it is ordered (CommonMark 5.3).
    List(Option<u64>),
    /// An item of a list (CommonMark 5.2).
    Item,
    /// The definition of the footnote with this label (this profile's own).
    FootnoteDefinition(CowStr<'a>),
    /// A definition list: terms and their definitions (this profile's own).
    DefinitionList,
    /// A term of a definition list.
    DefinitionListTitle,
    /// A definition of the terms before it.
    DefinitionListDefinition,
    /// A table, with an alignment for each column (GFM 4.10).
    Table(Vec<Alignment>),
    /// The head of a table, which has its cells.
    TableHead,
    /// A row of a table below its head.
    TableRow,
    /// A cell of a table.
    TableCell,
    /// Emphasis (CommonMark 6.2).
    Emphasis,
    /// Strong emphasis (CommonMark 6.2).
    Strong,
    /// Text that is struck through (GFM 6.5).
    Strikethrough,
    /// Superscript (this profile's own).
    Superscript,
    /// Subscript (this profile's own).
    Subscript,
    /// Highlighted text (this project's own).
    Highlight,
    /// A link (CommonMark 6.3).
    Link {
        /// How it is written.
        link_type: LinkType,
        /// The destination.
        dest_url: CowStr<'a>,
        /// Its title, which may be empty.
        title: CowStr<'a>,
        /// The label of a reference, and otherwise empty.
        id: CowStr<'a>,
    },
    /// An image (CommonMark 6.4); its content is the description.
    Image {
        /// How it is written.
        link_type: LinkType,
        /// The address of the image.
        dest_url: CowStr<'a>,
        /// Its title, which may be empty.
        title: CowStr<'a>,
        /// The label of a reference, and otherwise empty.
        id: CowStr<'a>,
    },
    /// A metadata block (this profile's own).
    MetadataBlock(MetadataBlockKind),
}

const _: () = prove!(size_of::<Tag<'static>>() == 128);

impl<'a> Tag<'a> {
    /// The end of this element.
    pub fn to_end(&self) -> TagEnd
        ensures { shown_end result ≡ end_of (shown_tag self.now) }
    {
        match self {
            Tag::Paragraph => TagEnd::Paragraph,
            Tag::Heading { level, .. } => TagEnd::Heading(*level),
            Tag::BlockQuote(kind) => TagEnd::BlockQuote(*kind),
            Tag::CodeBlock(_) => TagEnd::CodeBlock,
            Tag::HtmlBlock => TagEnd::HtmlBlock,
            Tag::List(first) => TagEnd::List(first.is_some()),
            Tag::Item => TagEnd::Item,
            Tag::FootnoteDefinition(_) => TagEnd::FootnoteDefinition,
            Tag::DefinitionList => TagEnd::DefinitionList,
            Tag::DefinitionListTitle => TagEnd::DefinitionListTitle,
            Tag::DefinitionListDefinition => TagEnd::DefinitionListDefinition,
            Tag::Table(_) => TagEnd::Table,
            Tag::TableHead => TagEnd::TableHead,
            Tag::TableRow => TagEnd::TableRow,
            Tag::TableCell => TagEnd::TableCell,
            Tag::Emphasis => TagEnd::Emphasis,
            Tag::Strong => TagEnd::Strong,
            Tag::Strikethrough => TagEnd::Strikethrough,
            Tag::Superscript => TagEnd::Superscript,
            Tag::Subscript => TagEnd::Subscript,
            Tag::Highlight => TagEnd::Highlight,
            Tag::Link { .. } => TagEnd::Link,
            Tag::Image { .. } => TagEnd::Image,
            Tag::MetadataBlock(kind) => TagEnd::MetadataBlock(*kind),
        }
    }
}

/// The end of an element.
#[derive(Clone, Copy, Debug, PartialEq, Eq)]
pub enum TagEnd {
    /// The end of a paragraph.
    Paragraph,
    /// The end of a heading.
    Heading(HeadingLevel),
    /// The end of a block quote.
    BlockQuote(Option<BlockQuoteKind>),
    /// The end of a code block.
    CodeBlock,
    /// The end of an HTML block.
    HtmlBlock,
    /// The end of a list; `true` if the list is ordered.
    List(bool),
    /// The end of an item.
    Item,
    /// The end of a footnote's definition.
    FootnoteDefinition,
    /// The end of a definition list.
    DefinitionList,
    /// The end of a term.
    DefinitionListTitle,
    /// The end of a definition of terms.
    DefinitionListDefinition,
    /// The end of a table.
    Table,
    /// The end of a table's head.
    TableHead,
    /// The end of a row.
    TableRow,
    /// The end of a cell.
    TableCell,
    /// The end of emphasis.
    Emphasis,
    /// The end of strong emphasis.
    Strong,
    /// The end of text that is struck through.
    Strikethrough,
    /// The end of superscript.
    Superscript,
    /// The end of subscript.
    Subscript,
    /// The end of highlighted text.
    Highlight,
    /// The end of a link.
    Link,
    /// The end of an image.
    Image,
    /// The end of a metadata block.
    MetadataBlock(MetadataBlockKind),
}

impl From<Tag<'_>> for TagEnd {
    ghost from_gives = { λ tag end. shown_end end ≡ end_of (shown_tag tag) };

    /// The end of this element, as `to_end` returns it.
    fn from(tag: Tag<'_>) -> TagEnd {
        let end = tag.to_end();
        drop(tag);
        end
    }
}

/// The events of a document, in order. A value has 136 bytes, eight more than a tag.
#[derive(Debug, Drop, PartialEq, Eq)]
pub enum Event<'a> {
    /// The start of an element; its content follows, and then its `End`.
    Start(Tag<'a>),
    /// The end of the innermost open element.
    End(TagEnd),
    /// Text. A paragraph's text may be split over several events.
    Text(CowStr<'a>),
    /// A code span (CommonMark 6.1).
    Code(CowStr<'a>),
    /// A formula inside a line (this profile's own).
    InlineMath(CowStr<'a>),
    /// A formula that is shown by itself (this profile's own).
    DisplayMath(CowStr<'a>),
    /// A part of an HTML block (CommonMark 4.6).
    Html(CowStr<'a>),
    /// Raw HTML inside a line (CommonMark 6.6).
    InlineHtml(CowStr<'a>),
    /// A reference to the footnote of this label (this profile's own).
    FootnoteReference(CowStr<'a>),
    /// A line ending inside a paragraph (CommonMark 6.8).
    SoftBreak,
    /// A hard line break (CommonMark 6.7).
    HardBreak,
    /// A thematic break (CommonMark 4.1).
    Rule,
    /// The marker of a task; `true` if the task is done (GFM 5.3).
    TaskListMarker(bool),
}

const _: () = prove!(size_of::<Event<'static>>() == 136);
