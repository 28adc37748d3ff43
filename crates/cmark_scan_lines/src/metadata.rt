//! The lines at the beginning and the end of metadata blocks (this profile's own). They are passed whole, without their ending.

ghost use Rattle.std.specs.Prelude.{◌≡◌, option_map};
ghost use Rattle.cmark_grammar.specs.Metadata.{is_line_of, metadata_of, closes_metadata};
ghost use Rattle.cmark_values.specs.Shown.{shown_metadata_block_kind};

use crate::bytes::{are_blank, starts};
use cmark_values::MetadataBlockKind;

/// The kind of the metadata block that the line begins, if a later line ends it: `---` or `+++`, and blanks.
#[inline]
pub fn scan_metadata_fence(line: &[u8]) -> Option<MetadataBlockKind>
    ensures { option_map shown_metadata_block_kind result ≡ metadata_of line.now }
{
    if is_line_of(line, b"---") {
        Some(MetadataBlockKind::YamlStyle)
    } else if is_line_of(line, b"+++") {
        Some(MetadataBlockKind::PlusesStyle)
    } else {
        None
    }
}

/// Whether the line ends a metadata block of this kind: `---` or `...` and blanks, or `+++` and blanks.
#[inline]
pub fn scan_closing_metadata_fence(line: &[u8], kind: MetadataBlockKind) -> bool
    ensures { result ≡ closes_metadata (shown_metadata_block_kind kind) line.now }
{
    match kind {
        MetadataBlockKind::YamlStyle => is_line_of(line, b"---") || is_line_of(line, b"..."),
        MetadataBlockKind::PlusesStyle => is_line_of(line, b"+++"),
    }
}

/// Whether the line is exactly these bytes, and then only blanks.
#[inline]
fn is_line_of(line: &[u8], delimiter: &[u8]) -> bool
    ensures { result ≡ is_line_of delimiter.now line.now }
{
    starts(line, delimiter) && are_blank(&line[delimiter.len()..])
}
