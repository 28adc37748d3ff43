//! The text of a leaf block, and the offsets of its bytes in the source.
#![tactic(auto)]

mod leaf_text;
mod stretch;

pub use leaf_text::LeafText;
pub use stretch::LeafLine;
