//! The block pass (CommonMark 3 to 5): from a text to the tree of its blocks, with the texts of their leaves, and the table of its
//! link reference definitions.
#![tactic(auto)]

mod ahead;
mod code;
mod containers;
mod cuts;
mod definition;
mod feed;
mod first_pass;
mod footnote;
mod gathered;
mod heading;
mod html;
pub mod laws;
mod leaf;
mod line;
mod list;
mod list_facts;
mod metadata;
mod paragraph;
mod prefixes;
mod rest;
mod siblings;
mod state;
mod table;
mod thematic_break;
mod undecided;

pub use cmark_span_scan::{LoopInstruction, iterate_special_bytes, special_bytes};
pub use cuts::last_cut;
pub use first_pass::{FirstPass, run_first_pass};
pub use prefixes::{scan_containers, skip_container_prefixes};
pub use rest::run_first_pass_from;
