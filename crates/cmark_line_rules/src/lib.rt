//! Lines after the prefixes of the containers around them. The functions return the containers that keep a line, the block that it begins,
//! whether it interrupts a paragraph, and its effect on a code, HTML or metadata block. Each result is that of the grammar's definitions.
#![tactic(auto)]

mod container;
mod continuation;
mod definition;
mod footnotes;
mod interrupt;
mod line_rest;
mod metadata;
mod opening;
mod table;

pub use cmark_scan_lines::{CodeFence, HtmlKind};
pub use container::{Container, ContainerStart, FootnoteStart, ItemStart};
pub use continuation::{CodeOrHtml, Continuation, ends_at_once};
pub use definition::{begins_definition, definition_start, reads_definition_lists};
pub use interrupt::{interrupts, underlines};
pub use line_rest::LineRest;
pub use metadata::{ends_metadata, metadata_kind};
pub use opening::{Opening, begins_with_label, begins_with_text, what_opens};
pub use table::{begins_with_pipe, count_missing, head_cells, is_delimiter_row};
