//! Scanners of constructs inside a line: entities, destinations, autolinks, tags and other inline HTML.
#![tactic(auto)]

pub mod bytes;
mod closed;
mod count;
mod destination;
mod email;
mod entity;
mod escapes;
mod find;
mod footnote_marker;
mod inline_html;
mod label_text;
mod link;
mod pipes;
mod tag;

pub use closed::{Step, closed_size, closed_step};
pub use count::{scan_rev_while, scan_while};
pub use destination::scan_link_dest;
pub use entity::{Entity, scan_entity};
pub use escapes::unescape;
pub use footnote_marker::scan_footnote_marker;
pub use inline_html::{
    HtmlFind, HtmlScanGuard, scan_inline_html_comment, scan_inline_html_processing,
};
pub use label_text::{begins_character, is_label};
pub use link::{Cut, has_scheme, scan_autolink, scan_wikilink_pipe};
pub use pipes::{with_literal_pipes, without_pipe_escapes};
pub use tag::{after_tag, scan_tag, without_prefix};
