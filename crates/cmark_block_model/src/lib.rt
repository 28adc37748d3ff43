//! The block grammar as functions, and the block pass as steps on a document that is being drawn.
//!
//! - [`block_laws`]: the block grammar. Each text derives exactly one document, which is the model's.
//! - [`laws`]: the block pass. Its steps over the lines of a text draw this document. The code of the pass is proved to make these steps.
#![tactic(auto)]

pub mod block_laws;
pub mod laws;
