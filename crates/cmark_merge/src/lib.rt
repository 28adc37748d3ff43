//! Merges text events that follow each other.
#![tactic(auto)]

pub mod laws;
mod offset;
mod stream;

pub use offset::TextMergeWithOffset;
pub use stream::TextMergeStream;
