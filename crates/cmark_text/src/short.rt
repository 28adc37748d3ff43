//! Events that own nothing, and so need no more room than a part of a text.

ghost use Rattle.std.specs.Prelude.{◌≡◌};
ghost use Rattle.cmark_text.specs.Short.{shown_plain, shown_short};
ghost use Rattle.cmark_text.specs.Shown.{shown, shown_tag};

use crate::event::{Event, Tag, TagEnd};
use crate::excerpt::Excerpt;
use cmark_values::{BlockQuoteKind, CodeBlockKind, CowStr, HeadingLevel, MetadataBlockKind};
use std::alloc::Global;

/// The tag of an element that has no text of its own.
#[derive(Clone, Copy, Debug)]
pub enum PlainTag {
    /// A paragraph (CommonMark 4.8).
    Paragraph,
    /// A heading without attributes (CommonMark 4.2 and 4.3).
    Heading(HeadingLevel),
    /// A block quote (CommonMark 5.1), or with a kind an alert.
    BlockQuote(Option<BlockQuoteKind>),
    /// An indented code block (CommonMark 4.4).
    IndentedCode,
    /// An HTML block (CommonMark 4.6).
    HtmlBlock,
    /// A list, with its first number if it is ordered (CommonMark 5.3).
    List(Option<u64>),
    /// An item of a list (CommonMark 5.2).
    Item,
    /// A definition list: terms and their definitions (this profile's own).
    DefinitionList,
    /// A term of a definition list.
    DefinitionListTitle,
    /// A definition of the terms before it.
    DefinitionListDefinition,
    /// The head of a table, which has its cells.
    TableHead,
    /// A row of a table below its head.
    TableRow,
    /// A cell of a table.
    TableCell,
    /// Emphasis (CommonMark 6.2).
    Emphasis,
    /// Strong emphasis (CommonMark 6.2).
    Strong,
    /// Text that is struck through (GFM 6.5).
    Strikethrough,
    /// Superscript (this profile's own).
    Superscript,
    /// Subscript (this profile's own).
    Subscript,
    /// Highlighted text (this project's own).
    Highlight,
    /// A metadata block (this profile's own).
    MetadataBlock(MetadataBlockKind),
}

impl PlainTag {
    /// The tag, as a `Tag`.
    pub fn tag<'a>(self, alloc: Global) -> Tag<'a>
        ensures { shown_tag result ≡ shown_plain self }
    {
        match self {
            PlainTag::Paragraph => Tag::Paragraph,
            PlainTag::Heading(level) => Tag::Heading {
                level,
                id: None,
                classes: Vec::new(alloc),
                attrs: Vec::new(alloc),
            },
            PlainTag::BlockQuote(kind) => Tag::BlockQuote(kind),
            PlainTag::IndentedCode => Tag::CodeBlock(CodeBlockKind::Indented),
            PlainTag::HtmlBlock => Tag::HtmlBlock,
            PlainTag::List(first) => Tag::List(first),
            PlainTag::Item => Tag::Item,
            PlainTag::DefinitionList => Tag::DefinitionList,
            PlainTag::DefinitionListTitle => Tag::DefinitionListTitle,
            PlainTag::DefinitionListDefinition => Tag::DefinitionListDefinition,
            PlainTag::TableHead => Tag::TableHead,
            PlainTag::TableRow => Tag::TableRow,
            PlainTag::TableCell => Tag::TableCell,
            PlainTag::Emphasis => Tag::Emphasis,
            PlainTag::Strong => Tag::Strong,
            PlainTag::Strikethrough => Tag::Strikethrough,
            PlainTag::Superscript => Tag::Superscript,
            PlainTag::Subscript => Tag::Subscript,
            PlainTag::Highlight => Tag::Highlight,
            PlainTag::MetadataBlock(kind) => Tag::MetadataBlock(kind),
        }
    }
}

impl<'a> Tag<'a> {
    ghost use Rattle.std.specs.Prelude.{MatchOption};
    ghost use Rattle.cmark_text.specs.Short.{MayOwn};

    /// The tag as a `PlainTag`, or `None` if the element may have a text or a list of its own, such as a heading with its attributes.
    pub fn plain(&self) -> Option<PlainTag>
        ensures { MatchOption result (MayOwn self.now)
            (λ plain. shown_plain plain ≡ shown_tag self.now) }
    {
        match self {
            Tag::Paragraph => Some(PlainTag::Paragraph),
            Tag::BlockQuote(kind) => Some(PlainTag::BlockQuote(*kind)),
            Tag::HtmlBlock => Some(PlainTag::HtmlBlock),
            Tag::List(first) => Some(PlainTag::List(*first)),
            Tag::Item => Some(PlainTag::Item),
            Tag::DefinitionList => Some(PlainTag::DefinitionList),
            Tag::DefinitionListTitle => Some(PlainTag::DefinitionListTitle),
            Tag::DefinitionListDefinition => Some(PlainTag::DefinitionListDefinition),
            Tag::TableHead => Some(PlainTag::TableHead),
            Tag::TableRow => Some(PlainTag::TableRow),
            Tag::TableCell => Some(PlainTag::TableCell),
            Tag::Emphasis => Some(PlainTag::Emphasis),
            Tag::Strong => Some(PlainTag::Strong),
            Tag::Strikethrough => Some(PlainTag::Strikethrough),
            Tag::Superscript => Some(PlainTag::Superscript),
            Tag::Subscript => Some(PlainTag::Subscript),
            Tag::Highlight => Some(PlainTag::Highlight),
            Tag::MetadataBlock(kind) => Some(PlainTag::MetadataBlock(*kind)),
            Tag::Heading { .. }
            | Tag::CodeBlock(_)
            | Tag::FootnoteDefinition(_)
            | Tag::Table(_)
            | Tag::Link { .. }
            | Tag::Image { .. } => None,
        }
    }
}

/// An event that owns nothing. A value has 32 bytes; an `Event` has 136.
#[derive(Clone, Copy, Debug)]
pub enum Short<'a> {
    /// The start of an element that has no text of its own.
    Start(PlainTag),
    /// The end of the innermost open element.
    End(TagEnd),
    /// Text, together with the text after it in its source.
    Text(Excerpt<'a>),
    /// A code span (CommonMark 6.1).
    Code(&'a str),
    /// A part of an HTML block (CommonMark 4.6).
    Html(&'a str),
    /// HTML inside a line (CommonMark 6.6).
    InlineHtml(&'a str),
    /// A line ending that is no hard line break (CommonMark 6.8).
    SoftBreak,
    /// A hard line break (CommonMark 6.7).
    HardBreak,
    /// A thematic break (CommonMark 4.1).
    Rule,
}

impl<'a> Short<'a> {
    /// The event, as an `Event`.
    pub fn event(self, alloc: Global) -> Event<'a>
        ensures { shown result ≡ shown_short self.entry }
    {
        match self {
            Short::Start(tag) => Event::Start(tag.tag(alloc)),
            Short::End(tag) => Event::End(tag),
            Short::Text(text) => Event::Text(CowStr::Borrowed(text.as_str())),
            Short::Code(text) => Event::Code(CowStr::Borrowed(text)),
            Short::Html(text) => Event::Html(CowStr::Borrowed(text)),
            Short::InlineHtml(text) => Event::InlineHtml(CowStr::Borrowed(text)),
            Short::SoftBreak => Event::SoftBreak,
            Short::HardBreak => Event::HardBreak,
            Short::Rule => Event::Rule,
        }
    }
}

/// The next step of a walk that builds no `Event`.
#[derive(Clone, Copy, Debug)]
pub enum Step<'a> {
    /// An event that owns nothing, and its range in byte offsets of the text.
    Short(Short<'a>, usize, usize),
    /// An event of another kind, which has not been given yet.
    Long,
    /// The end of the text: no event is left.
    Over,
}
