//! Links, and the tables that they refer to: link reference definitions and footnotes.
#![tactic(auto)]

mod definitions;
mod footnotes;
mod link;

pub use definitions::{LinkDef, RefDefs, RefDefsIter};
pub use footnotes::{FootnoteDef, FootnoteDefs};
pub use link::Link;
