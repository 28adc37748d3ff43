//! Link reference definitions (CommonMark 4.7): scanning the text of a paragraph for them, and preparing them for a table.
#![tactic(auto)]

mod definition;
mod reference;
mod settled;

pub use definition::{Definition, scan_definition};
pub use reference::link_definition;
pub use settled::is_settled;
