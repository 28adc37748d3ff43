//! The events of a document with the spans of its leaves.
#![tactic(auto)]

mod callback;
mod plain;
mod span_walk;
mod walk_step;

pub use callback::OptionalCallback;
pub use span_walk::SpanWalk;
pub use walk_step::{ForHtml, ForItems, ForShorts, WalkStep};
