//! A document's tree while it is built: its nodes are added in the order of the text, and each is closed when its end is known.
#![tactic(auto)]

mod builder;

pub use builder::Builder;
