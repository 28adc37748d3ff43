//! The parser for C; `include/pulldown_cmark.h` is its header.
#![tactic(auto)]

mod export;
mod flat;
mod links;
mod options;
mod safe_flat;
mod stream;
mod within;
