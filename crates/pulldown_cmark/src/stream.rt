//! A text that grows at its end, with its HTML.

pub use cmark_stream::{Change, Stream, StreamFault};
