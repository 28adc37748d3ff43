//! Slots: the parts of a leaf's text, one after the other; and the opening brackets, delimiter runs and quotes among them while the text is
//! read (CommonMark 6).
#![tactic(auto)]

pub mod bracket;
pub mod delimiter;
mod pair;
pub mod quote;
pub mod slot;
pub mod text;
