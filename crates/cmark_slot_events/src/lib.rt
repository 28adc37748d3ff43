//! The events of a leaf, read from its slots one after the other, with their ranges in the source (CommonMark 6).
#![tactic(auto)]

mod content;
mod event;
mod leaf_events;
mod link_start;
mod short;

pub use leaf_events::LeafEvents;
