//! The vocabulary of the library: texts, events and their tags, options, the look-up of entities, labels, and the escapes of texts in HTML.
//! The parts that tags and events are built from are re-exported from `cmark_values`.
#![tactic(auto)]

mod copies;
pub mod escape;
mod event;
mod excerpt;
mod ranged;
mod short;

pub use cmark_values::{
    Alignment, BasicEntities, BlockQuoteKind, CodeBlockKind, CowStr, EntityLookup, FootnoteLabel,
    HeadingLevel, InlineStr, InvalidHeadingLevel, LinkLabel, LinkType, MetadataBlockKind, Options,
    StringTooLongError,
};
pub use escape::{escape_href, escape_html, escape_html_body_text};
pub use event::{Event, Tag, TagEnd};
pub use excerpt::Excerpt;
pub use ranged::Ranged;
pub use short::{PlainTag, Short, Step};
