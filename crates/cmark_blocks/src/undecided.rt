//! Metadata that the lines so far leave undecided, in the search for cuts.

ghost use Rattle.std.specs.Prelude.{◌≡◌};
ghost use Rattle.cmark_grammar.specs.Metadata.{metadata_kind};
ghost use Rattle.cmark_line_rules.specs.Rests.{row_of};
ghost use Rattle.cmark_stream_model.specs.Undecided.{begun_by, is_nothing, left_open, undecided_after};
ghost use Rattle.cmark_values.specs.Shown.{shown_metadata_block_kind, shown_options};
ghost use Rattle.cmark_blocks.specs.Cuts.{shown_undecided};

use cmark_line_rules::{LineRest, ends_metadata, metadata_kind};
use cmark_values::{MetadataBlockKind, Options};

/// What the lines so far leave undecided about metadata. The end of metadata is searched for in all later lines. So if an end may still come,
/// all lines after the first one of the metadata may change.
#[derive(Clone, Copy)]
pub(crate) enum Undecided {
    /// Nothing.
    Nothing,
    /// The last line may begin metadata of this kind.
    Begun(MetadataBlockKind),
    /// An earlier line may begin metadata of this kind, and no line so far ends it.
    Open(MetadataBlockKind),
    /// An earlier line may begin metadata, and its end is not in the text.
    Forever,
}

/// What a line leaves undecided if nothing was undecided before it.
fn begun_by(line: LineRest<'_>, begins: bool, options: Options) -> Undecided
    ensures { shown_undecided result
        ≡ begun_by begins (metadata_kind (shown_options options) (row_of line.entry)) }
{
    if !begins {
        return Undecided::Nothing;
    }
    match metadata_kind(line, options) {
        Some(kind) => Undecided::Begun(kind),
        None => Undecided::Nothing,
    }
}

/// What a further line of what may be metadata leaves undecided. If the line begins a block, the block pass has found no end of the metadata.
fn left_open(kind: MetadataBlockKind, begins: bool, ends: bool) -> Undecided
    ensures { shown_undecided result ≡ left_open begins ends (shown_metadata_block_kind kind) }
{
    if begins {
        return Undecided::Forever;
    }
    if ends {
        Undecided::Nothing
    } else {
        Undecided::Open(kind)
    }
}

impl Undecided {
    /// Whether the lines so far decide by themselves which of them begin metadata.
    pub(crate) fn is_nothing(self) -> bool
        ensures { result ≡ is_nothing (shown_undecided self) }
    {
        matches!(self, Undecided::Nothing)
    }

    /// What is undecided after the next line. `begins`: the line begins a block after all open ones.
    pub(crate) fn after(self, line: LineRest<'_>, begins: bool, options: Options) -> Undecided
        ensures { shown_undecided result
            ≡
            undecided_after (shown_options options) begins (row_of line.entry)
            (shown_undecided self) }
    {
        match self {
            Undecided::Nothing => begun_by(line, begins, options),
            Undecided::Begun(kind) => {
                if line.is_blank() || ends_metadata(line, kind) {
                    begun_by(line, begins, options)
                } else {
                    left_open(kind, begins, false)
                }
            }
            Undecided::Open(kind) => left_open(kind, begins, ends_metadata(line, kind)),
            Undecided::Forever => Undecided::Forever,
        }
    }
}
