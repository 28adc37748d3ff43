//! From the tree of a document to the events of its blocks and the lines of its leaves, in preorder.
#![tactic(auto)]

mod item;
mod kind;
pub mod laws;
mod leaf;
mod marker;
mod reading;
mod short;
mod walk;

pub use reading::BlockStep;
pub use walk::Walk;
