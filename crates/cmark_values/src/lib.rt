//! The vocabulary that tags and events are built from: texts, kinds of blocks and links, options, labels and the look-up of entities.
#![tactic(auto)]

mod entity;
mod inline;
mod kind;
mod label;
mod lending;
mod options;
mod text;

pub use entity::{BasicEntities, EntityLookup};
pub use inline::{InlineStr, StringTooLongError};
pub use kind::{
    Alignment, BlockQuoteKind, CodeBlockKind, HeadingLevel, InvalidHeadingLevel, LinkType,
    MetadataBlockKind,
};
pub use label::{FootnoteLabel, LinkLabel};
pub use options::Options;
pub use text::CowStr;
