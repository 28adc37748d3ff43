//! The lines of leaf blocks as nodes of a document's tree: texts of the source, code, HTML.
#![tactic(auto)]

mod code;
mod heading;
mod html;
mod paragraph;
mod setext;
mod stretch;
mod table;
mod words;

pub use code::{draw_code_line, draw_stretch};
pub use heading::{draw_heading, find_attributes};
pub use html::draw_html_line;
pub use paragraph::{close_lines, cut_lines, draw_last_lines, draw_lines};
pub use setext::{SetextAttributes, find_setext_attributes};
pub use stretch::Stretch;
pub use table::{draw_head, draw_row};
