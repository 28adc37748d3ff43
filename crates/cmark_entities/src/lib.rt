//! All entity names of the HTML Standard.
#![tactic(auto)]

mod names;
mod table;

pub use names::AllEntities;
