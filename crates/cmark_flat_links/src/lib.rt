//! Link reference definitions as flat records, and a callback that answers from a caller's records and keeps its questions as records.
#![tactic(auto)]

mod answering;
mod definitions;
mod table;

pub use answering::Answering;
pub use definitions::append_definitions;
pub use table::AnswerTable;
