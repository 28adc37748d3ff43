//! The items of a document's tree, and the tables that they point into. The definitions of links and footnotes are in `cmark_references`.
#![tactic(auto)]

mod allocations;
mod heading;
mod item;
mod list_flags;

pub use allocations::{AlignmentIndex, Allocations, CowIndex, HeadingIndex, LinkIndex};
pub use cmark_references::{FootnoteDef, FootnoteDefs, Link, LinkDef, RefDefs, RefDefsIter};
pub use heading::HeadingAttributes;
pub use item::{Item, ItemBody};
pub use list_flags::ListFlags;
