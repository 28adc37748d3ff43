//! Events with their ranges as flat records, and back.
#![tactic(auto)]

mod codes;
mod decode_numbers;
mod definitions;
mod error;
mod events;
mod html;
mod laws;
mod numbers;
mod parts;
mod put;
mod questions;
mod read;
mod record;
mod replies;
mod short;

pub use definitions::append_definition;
pub use error::DecodeError;
pub use events::decode;
pub use html::{render, render_safe};
pub use laws::{flat_definitions_are_decoded, flat_events_are_decoded, flat_replies_are_decoded};
pub use put::{append_event, append_given};
pub use questions::append_question;
pub use replies::{Answer, Reply, decode_replies};
pub use short::append_short;
