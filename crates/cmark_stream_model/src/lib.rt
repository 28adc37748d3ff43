//! A text that grows at its end: which blocks and events stay, whatever follows. The theorems are about the definitions of
//! `cmark_grammar`; the crate names no code.
#![tactic(auto)]

pub mod laws;
