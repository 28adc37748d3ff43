//! Writes events as JSON: one line for each event with its range.
#![tactic(auto)]

mod event;
mod leaf;
mod line;
mod tag;

pub use line::append_given;
