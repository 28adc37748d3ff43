//! The parts of links and of link reference definitions (CommonMark 4.7 and 6.3): labels, destinations, titles, and the part of a link
//! after its brackets. Also the breaks between lines (CommonMark 6.7 and 6.8), which are read with these functions too.
//!
//! Places are byte offsets of the text that is passed. A function that reads a part at the beginning of a text also returns the rest of it.
#![tactic(auto)]

mod blank;
mod breaks;
mod label;
mod link;
mod part;
mod place;
mod title;

pub use blank::{after_byte, after_ending, after_leading_blanks, after_separator, is_line_done};
pub use breaks::{LineBreak, line_break};
pub use label::{ReferenceLabel, collapsed_end, is_bracketed_label, label_in, reference_label};
pub use link::{LinkTail, link_tail};
pub use part::{Part, destination_in, title_in};
pub use title::{title_lines, title_text};
