//! Events whose HTML is safe to show.
#![tactic(auto)]

mod filter;
pub mod laws;
mod scheme;
mod stream;

pub use filter::{is_raw, safe_destination, safe_event, safe_short};
pub use stream::{SafeEvents, SafeItem};
