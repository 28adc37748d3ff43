//! A text that grows at its end, with its HTML.
#![tactic(auto)]

mod bytes;
mod fault;
pub mod laws;
mod part;
mod rest;
mod stream;

pub use fault::StreamFault;
pub use rest::{Rest, read_from};
pub use stream::{Change, Stream};
