//! The first and the last line of a metadata block (this profile's own).

ghost use Rattle.std.specs.Prelude.{◌≡◌, Option, None, false, option_map};
ghost use Rattle.cmark_grammar.specs.Metadata.{has_metadata, metadata_if, metadata_kind, ends_metadata};
ghost use Rattle.cmark_grammar.specs.MetadataBlockKind as grammar;
ghost use Rattle.cmark_values.specs.Shown.{shown_options, shown_metadata_block_kind};
ghost use Rattle.cmark_line_rules.specs.Rests.{row_of};

use crate::line_rest::LineRest;
use bitflags::Flags;
use cmark_scan_lines::{scan_closing_metadata_fence, scan_metadata_fence};
use cmark_values::{MetadataBlockKind, Options};

/// The kind of the metadata block that the line begins, if the lines after it are those of a metadata block. The option for the kind must
/// be on. The line is in no container, and consists of `---` or `+++` from its first column on, and then only blanks.
#[inline]
pub fn metadata_kind(rest: LineRest<'_>, options: Options) -> Option<MetadataBlockKind>
    ensures { option_map shown_metadata_block_kind result
        ≡ metadata_kind (shown_options options) (row_of rest.entry) }
{
    if !reads_metadata(options) || !rest.is_whole() {
        return None;
    }
    let kind = scan_metadata_fence(rest.bytes())?;
    if has_metadata(options, kind) {
        Some(kind)
    } else {
        None
    }
}

/// Whether the line ends a metadata block of this kind: the closing delimiter from its first column on, and then only blanks.
#[inline]
pub fn ends_metadata(rest: LineRest<'_>, kind: MetadataBlockKind) -> bool
    ensures { result ≡ ends_metadata (shown_metadata_block_kind kind) (row_of rest.entry) }
{
    scan_closing_metadata_fence(rest.bytes(), kind)
}

/// Whether metadata blocks of any kind are read.
#[inline]
fn reads_metadata(options: Options) -> bool
    ensures { (kind : Option grammar.MetadataBlockKind) → result ≡ false
        → metadata_if (shown_options options) kind ≡ None }
{
    options.contains(Options::ENABLE_YAML_STYLE_METADATA_BLOCKS)
        || options.contains(Options::ENABLE_PLUSES_DELIMITED_METADATA_BLOCKS)
}

/// Whether metadata blocks of this kind are read.
#[inline]
fn has_metadata(options: Options, kind: MetadataBlockKind) -> bool
    ensures { result ≡ has_metadata (shown_options options) (shown_metadata_block_kind kind) }
{
    match kind {
        MetadataBlockKind::YamlStyle => {
            options.contains(Options::ENABLE_YAML_STYLE_METADATA_BLOCKS)
        }
        MetadataBlockKind::PlusesStyle => {
            options.contains(Options::ENABLE_PLUSES_DELIMITED_METADATA_BLOCKS)
        }
    }
}
