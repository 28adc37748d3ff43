//! The spans of a leaf's text: code, links and images, autolinks, inline HTML, emphasis, entities, escapes and line breaks
//! (CommonMark 6).
#![tactic(auto)]

mod bracket;
mod callback;
mod closing;
pub mod display_laws;
mod footnote;
mod formula;
pub mod laws;
mod link;
mod markup;
pub mod pass_laws;
mod place;
mod read;
mod reference;
mod run;
mod smart;
mod span;
mod special;
mod state;
mod step;
mod steps;
mod text;
mod wikilink;

pub use callback::{
    BrokenLink, BrokenLinkCallback, DefaultBrokenLinkCallback, FnCallback, OwnedLinkCallback,
};
pub use read::Reader;
pub use special::{SpecialBytes, special_bytes};
pub use state::{InlineState, LEAST_REFERENCE_EXPANSION_LIMIT};
pub use steps::Steps;
