//! The spans of a leaf by one pass, and the theorems about them. A text has a reading for each plan of answers, and only one reading for
//! each list of answers. The theorems are contracts of functions that do nothing.
//!
//! - [`laws`]: the inline grammar.
//! - [`reading_laws`]: readings of whole texts.
//! - [`slots`]: siblings as a row of slots.
//! - [`row_laws`], [`pass_laws`] and [`display_laws`]: the row of the parts of a pass.
//! - [`token_laws`]: the tokens of a leaf.
//! - [`first_laws`]: the first event of a leaf.
//! - [`walk_laws`]: the events of a walk over a document.
#![tactic(auto)]

pub mod display_laws;
pub mod first_laws;
pub mod laws;
pub mod pass_laws;
pub mod reading_laws;
pub mod row_laws;
pub mod slots;
pub mod token_laws;
pub mod walk_laws;
