//! The columns of a line, markers of containers, and the scanners of leaf blocks.
#![tactic(auto)]

mod bytes;
mod html_block;
mod leaf;
mod line_start;
mod marker;
mod metadata;
mod table;
mod table_row;

pub use html_block::{HtmlKind, holds_end, html_kind};
pub use leaf::{
    CodeFence, scan_atx_heading, scan_closing_code_fence, scan_code_fence, scan_hrule,
    scan_setext_heading,
};
pub use line_start::LineStart;
pub use metadata::{scan_closing_metadata_fence, scan_metadata_fence};
pub use table::{count_delimiter_cells, scan_table_head};
pub use table_row::{cells_in_row, count_cells, holds_pipe, next_cell};
