//! The reading of an item, and the result of a walk's step.

use cmark_text::{PlainTag, Short};

/// The next item of a walk, without an `Event`.
#[derive(Clone, Copy)]
pub enum BlockStep<'a> {
    /// An event that owns nothing, and its range in byte offsets of the text.
    Short(Short<'a>, usize, usize),
    /// The content of a leaf, whose lines are passed separately.
    Leaf {
        /// Whether it is a table cell.
        is_cell: bool,
    },
    /// An event of another kind, which is still the next one: `take_long` returns it.
    Long,
    /// Nothing: the document has ended.
    Over,
}

/// The progress of a walk at the node in its focus. All lines of a leaf are met at once, so the walk moves past them without visiting them.
#[derive(Clone, Copy)]
pub(crate) enum Stage {
    /// Before it.
    Before,
    /// In it, a paragraph or a heading, before its task marker and its lines (GFM 5.3).
    Marked {
        /// Whether the marker's box is checked.
        is_checked: bool,
        /// The byte offset at which the marker begins.
        start: usize,
        /// The byte offset after it.
        end: usize,
    },
    /// In it, a definition list, before its first title and that title's task marker (GFM 5.3). The marker was in the paragraph that became
    /// the title.
    Listed {
        /// Whether the marker's box is checked.
        is_checked: bool,
        /// The byte offset at which the marker begins.
        start: usize,
        /// The byte offset after it.
        end: usize,
    },
    /// In it, a leaf, before its lines.
    Lines,
    /// In it, a leaf, after its lines.
    Following,
}

/// The reading of an item, without building an `Event`.
#[derive(Clone, Copy)]
pub(crate) enum Glance<'a> {
    /// Its start, the events inside it, and its end.
    Around(PlainTag),
    /// One event.
    Alone(Short<'a>),
    /// The events inside it.
    Inside,
    /// An event that has a text of its own, or a task marker.
    Long,
}
