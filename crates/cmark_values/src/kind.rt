//! Kinds of blocks, links and headings.

ghost use Rattle.std.specs.Prelude.{◌≡◌, ◌<◌, ◌⊎◌, ◌∷◌, [], ◌+◌, Some, MatchResult, IfOk, IsOk};
ghost use Rattle.std.specs.Fmt.{padded};
ghost use Rattle.cmark_grammar.specs.LinkType.{to_unknown};
ghost use Rattle.cmark_values.specs.InPlace.{KindCopiesInPlace, KindStaysInPlace};
ghost use Rattle.cmark_values.specs.Shown.{level_number, shown_code_block_kind, shown_link_type};
ghost use Rattle.cmark_values.specs.CodeBlockKinds.{is_fenced, is_indented};

use crate::text::CowStr;
use std::alloc::{AllocError, Global};
use std::fmt::{self, Display, Formatter, Write};

/// How the cells of a table's column are aligned (GFM 4.10).
#[derive(Clone, Copy, Debug, PartialEq, Eq)]
pub enum Alignment {
    /// The delimiter row does not say.
    None,
    /// To the left.
    Left,
    /// In the middle.
    Center,
    /// To the right.
    Right,
}

/// The kind of an alert, a block quote whose first line is a tag such as `[!NOTE]` (this profile's own).
#[derive(Clone, Copy, Debug, PartialEq, Eq)]
pub enum BlockQuoteKind {
    /// `[!NOTE]`
    Note,
    /// `[!TIP]`
    Tip,
    /// `[!IMPORTANT]`
    Important,
    /// `[!WARNING]`
    Warning,
    /// `[!CAUTION]`
    Caution,
}

/// The kind of a metadata block (this profile's own).
#[derive(Clone, Copy, Debug, PartialEq, Eq)]
pub enum MetadataBlockKind {
    /// Between lines of `---`.
    YamlStyle,
    /// Between lines of `+++`.
    PlusesStyle,
}

/// The kind of a code block.
#[derive(Debug, Drop, PartialEq, Eq)]
pub enum CodeBlockKind<'a> {
    /// Indented by four columns or more (CommonMark 4.4).
    Indented,
    /// Between fences, with the info string of the first one, which may be empty (CommonMark 4.5).
    Fenced(CowStr<'a>),
}

impl<'a> CodeBlockKind<'a> {
    /// Whether the block is indented.
    pub fn is_indented(&self) -> bool
        ensures { result ≡ is_indented (shown_code_block_kind self.now) }
    {
        matches!(self, CodeBlockKind::Indented)
    }

    /// Whether the block is fenced.
    pub fn is_fenced(&self) -> bool
        ensures { result ≡ is_fenced (shown_code_block_kind self.now) }
    {
        matches!(self, CodeBlockKind::Fenced(_))
    }

    /// A copy of the kind. Memory is taken only for an owned info string that does not fit into an `InlineStr`.
    pub fn clone(&self, alloc: Global) -> Result<CodeBlockKind<'a>, AllocError>
        ensures value { IfOk result
            (λ copy. shown_code_block_kind copy ≡ shown_code_block_kind self.now) }
        ensures succeeds { KindCopiesInPlace self.now → IsOk result }
    {
        match self {
            CodeBlockKind::Indented => Ok(CodeBlockKind::Indented),
            CodeBlockKind::Fenced(info) => Ok(CodeBlockKind::Fenced(info.clone(alloc)?)),
        }
    }

    /// This kind as a value that borrows nothing.
    pub fn into_static(self, alloc: Global) -> Result<CodeBlockKind<'static>, AllocError>
        ensures value { IfOk result
            (λ made. shown_code_block_kind made ≡ shown_code_block_kind self.entry) }
        ensures succeeds { KindStaysInPlace self.entry → IsOk result }
    {
        match self {
            CodeBlockKind::Indented => Ok(CodeBlockKind::Indented),
            CodeBlockKind::Fenced(info) => Ok(CodeBlockKind::Fenced(info.into_static(alloc)?)),
        }
    }
}

/// The level of a heading (CommonMark 4.2 and 4.3). The highest, `H1`, is the least. As a number it is 1 to 6.
#[derive(Clone, Copy, Debug, PartialEq, Eq, PartialOrd, Ord)]
pub enum HeadingLevel {
    H1 = 1,
    H2,
    H3,
    H4,
    H5,
    H6,
}

const _: () = prove!(HeadingLevel::H1 as usize == 1 && HeadingLevel::H6 as usize == 6);

/// The error for a number that is not a heading level: the levels are 1 to 6.
#[derive(Clone, Copy, Debug, PartialEq, Eq)]
pub struct InvalidHeadingLevel(pub usize);

impl TryFrom<usize> for HeadingLevel {
    type Error = InvalidHeadingLevel;

    ghost try_from_gives = { λ number made. MatchResult made
        (λ level. level_number level ≡ number)
        (λ error. (error.0 ≡ number) × ((number ≡ 0) ⊎ (6 < number))) };

    /// The level with this number, which has to be one of 1 to 6.
    fn try_from(number: usize) -> Result<HeadingLevel, InvalidHeadingLevel> {
        match number {
            1 => Ok(HeadingLevel::H1),
            2 => Ok(HeadingLevel::H2),
            3 => Ok(HeadingLevel::H3),
            4 => Ok(HeadingLevel::H4),
            5 => Ok(HeadingLevel::H5),
            6 => Ok(HeadingLevel::H6),
            _ => Err(InvalidHeadingLevel(number)),
        }
    }
}

impl Display for HeadingLevel {
    ghost output = { λ level. Some (104 ∷ (48 + level_number level) ∷ []) };

    ghost styled_output = { λ level spec. Some (padded spec (104 ∷ (48 + level_number level) ∷ [])) };

    /// `h1` to `h6`.
    fn fmt<W: Write>(&self, f: &mut Formatter<W>) -> fmt::Result {
        let name = match self {
            HeadingLevel::H1 => "h1",
            HeadingLevel::H2 => "h2",
            HeadingLevel::H3 => "h3",
            HeadingLevel::H4 => "h4",
            HeadingLevel::H5 => "h5",
            HeadingLevel::H6 => "h6",
        };
        f.pad(name)
    }
}

/// How a link or an image is written.
#[derive(Clone, Copy, Debug, PartialEq, Eq)]
pub enum LinkType {
    /// `[text](url)`
    Inline,
    /// `[text][label]`
    Reference,
    /// `[text][label]` with a label that has no definition; the callback gave the destination.
    ReferenceUnknown,
    /// `[label][]`
    Collapsed,
    /// `[label][]` with a label that has no definition; the callback gave the destination.
    CollapsedUnknown,
    /// `[label]`
    Shortcut,
    /// `[label]` with a label that has no definition; the callback gave the destination.
    ShortcutUnknown,
    /// `<https://example.com>`
    Autolink,
    /// `<address@example.com>`
    Email,
    /// `[[page]]`, or with a pothole `[[page|text]]` (this profile's own).
    WikiLink {
        /// Whether a text of its own, written after `|`, is shown.
        has_pothole: bool,
    },
}

impl LinkType {
    /// The type of this reference if its label has no definition. Other types are returned as they are.
    pub fn to_unknown(self) -> LinkType
        ensures { shown_link_type result ≡ to_unknown (shown_link_type self) }
    {
        match self {
            LinkType::Reference => LinkType::ReferenceUnknown,
            LinkType::Collapsed => LinkType::CollapsedUnknown,
            LinkType::Shortcut => LinkType::ShortcutUnknown,
            other => other,
        }
    }
}
