//! The scanners of constructs that may span several lines of the source: the label of a link, and an HTML tag. Their later lines begin
//! after the prefixes of containers. The caller's handler returns the number of prefix bytes after a line ending.
//!
//! The crate also gives one name to the other scanners and to the tree of a document: the columns of a line and the scanners of leaf
//! blocks (`cmark_scan_lines`), the scanners of constructs within a line (`cmark_scan_bytes`), and the tree (`cmark_tree`).
#![tactic(auto)]

mod label;
mod owned;

pub use cmark_scan_bytes::{
    Cut, Entity, HtmlFind, HtmlScanGuard, scan_autolink, scan_entity, scan_inline_html_comment,
    scan_inline_html_processing, scan_link_dest, scan_rev_while, scan_tag, scan_while,
    scan_wikilink_pipe, unescape,
};
pub use cmark_scan_lines::{
    CodeFence, HtmlKind, LineStart, cells_in_row, count_cells, count_delimiter_cells, holds_end,
    holds_pipe, html_kind, next_cell, scan_atx_heading, scan_closing_code_fence,
    scan_closing_metadata_fence, scan_code_fence, scan_hrule, scan_metadata_fence,
    scan_setext_heading, scan_table_head,
};
pub use cmark_tree::{Tree, TreeIndex, TreeSpan};
pub use label::{LinkLabelRest, scan_link_label_rest};
pub use owned::{HtmlTag, scan_html_block_inner};
