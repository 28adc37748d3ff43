//! Whether footnotes are read, and in which style (this profile's own).

ghost use Rattle.std.specs.Prelude.{◌≡◌};
ghost use Rattle.cmark_grammar.specs.Footnotes.{footnotes_in, are_read, do_interrupt};
ghost use Rattle.cmark_values.specs.Shown.{shown_options};

use bitflags::Flags;
use cmark_values::Options;

/// Whether footnotes are read.
#[inline]
pub(crate) fn reads_footnotes(options: Options) -> bool
    ensures { result ≡ are_read (footnotes_in (shown_options options)) }
{
    options.contains(Options::ENABLE_FOOTNOTES)
}

/// Whether footnotes are read in GitHub's style: then their definitions interrupt paragraphs.
#[inline]
pub(crate) fn reads_gfm_footnotes(options: Options) -> bool
    ensures { result ≡ do_interrupt (footnotes_in (shown_options options)) }
{
    options.has_gfm_footnotes()
}

/// Whether the options ask for footnotes in the old style.
#[inline]
pub(crate) fn reads_old_footnotes(options: Options) -> bool
    ensures { result ≡ (shown_options options).old_footnotes }
{
    options.contains(Options::ENABLE_OLD_FOOTNOTES)
}
