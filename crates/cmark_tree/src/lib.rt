//! An ordered forest, stored in vectors, with a path down into it and a focus: the tree of a document.
#![tactic(auto)]

mod links;
mod nodes;
mod tree;
mod tree_index;
mod truncate;

pub use tree::Tree;
pub use tree_index::TreeIndex;
pub use truncate::TreeSpan;
