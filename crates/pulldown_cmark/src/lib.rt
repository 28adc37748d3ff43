//! A pull parser for Markdown: it turns a text into the events of its document, and events into HTML.
#![tactic(auto)]

pub mod html;
pub mod laws;
pub mod stream;

pub use cmark_inline::{
    BrokenLink, BrokenLinkCallback, DefaultBrokenLinkCallback, FnCallback, OwnedLinkCallback, Steps,
};
pub use cmark_merge::{TextMergeStream, TextMergeWithOffset};
pub use cmark_parser::{OffsetIter, Parser};
pub use cmark_references::{LinkDef, RefDefs, RefDefsIter};
pub use cmark_safe::{SafeEvents, SafeItem, safe_event};
pub use cmark_stream::Stream;
pub use cmark_text::{
    Alignment, BasicEntities, BlockQuoteKind, CodeBlockKind, CowStr, EntityLookup, Event,
    HeadingLevel, InlineStr, InvalidHeadingLevel, LinkType, MetadataBlockKind, Options,
    StringTooLongError, Tag, TagEnd,
};
