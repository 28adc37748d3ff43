//! The HTML of events, and of a text.

pub use cmark_html::push_html;
pub use cmark_parser::{to_html, to_html_within, to_safe_html};
