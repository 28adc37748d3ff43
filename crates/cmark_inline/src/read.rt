//! The context in which a leaf's text is read.

use crate::special::SpecialBytes;
use cmark_references::RefDefs;
use cmark_text::Options;

/// The context in which the texts of all leaves of a source are read.
#[derive(Drop)]
pub struct Reader<'p, 'a, E> {
    /// The look-up of entity names.
    pub entities: &'p E,
    /// The link reference definitions of the source.
    pub references: &'p RefDefs<'a>,
    /// The enabled extensions.
    pub options: Options,
    /// The bytes that may begin a span with these options, as `special_bytes` returns them.
    pub special: &'p SpecialBytes,
}
