//! Searches in the text of a leaf (CommonMark 6): code spans, inline HTML, formulas, and the bytes at which a span may begin or end.
//! `cmark_link_scan` finds links and line breaks.
//!
//! The text of a leaf consists of its lines, one after the other, without the prefixes of containers. It includes the line endings between
//! them and the blanks before later lines. Inline HTML other than tags is searched in the source itself. Offsets are byte offsets of the
//! text that is passed in.
#![tactic(auto)]

mod backtick_runs;
mod braces;
mod code;
mod dollars;
mod html;
mod line_end;
mod special;

pub use backtick_runs::BacktickRuns;
pub use code::{CodeSpan, code_part, code_span, code_text};
pub use dollars::{Dollars, Formula};
pub use html::{inline_html, inline_markup};
pub use line_end::has_line_ending;
pub use special::{LoopInstruction, iterate_special_bytes, next_special, special_bytes};
