//! An event with its range in the source.

use crate::event::Event;
use std::ops::Range;

/// An event, with its range in the source. A start and its end have the range of the whole element.
#[derive(Debug, Drop)]
pub struct Ranged<'a> {
    /// The event.
    pub event: Event<'a>,
    /// The byte offsets of the range in the text; the end is exclusive.
    pub range: Range<usize>,
}
