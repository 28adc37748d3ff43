//! The parser: from a text to the events of its document, and to their HTML.
#![tactic(auto)]

mod event;
mod filter;
mod html;
mod parse;
mod rest;
mod undefined;

pub use filter::Filtering;
pub use html::{to_filtered_html, to_html, to_html_within, to_safe_html, write_rest};
pub use parse::{OffsetIter, Parser};
pub use rest::parse_rest;
pub use undefined::parse_undefined;
