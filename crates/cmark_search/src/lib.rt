//! Searches for ASCII bytes, sixteen bytes a step.
#![tactic(auto)]

mod search;

pub use search::{
    AsciiSet, find_backtick, find_escape, find_first, find_first_within, find_line_end,
    find_line_end_within, find_pipe,
};
