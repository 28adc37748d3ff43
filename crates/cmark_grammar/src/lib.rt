//! The definitions that a reader has to believe: lines, columns, documents, the documents that a text derives, their events, and their
//! HTML. All of them are in `specs/`, over lists of bytes. `proofs/` has their computed samples. The theorems over the definitions are in
//! `cmark_block_model` and `cmark_inline_model`.
#![tactic(auto)]
