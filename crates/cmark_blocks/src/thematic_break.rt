//! Thematic breaks (CommonMark 4.1).

ghost use Rattle.std.specs.Prelude.{◌≡◌, OnOk};
ghost use Rattle.cmark_grammar.specs.Openings.{ThematicBreak};

use crate::state::Pass;
use cmark_items::ItemBody;
use cmark_line_rules::LineRest;
use cmark_values::EntityLookup;
use std::alloc::AllocError;

impl<'a, E: EntityLookup> Pass<'a, E> {
    ghost use Rattle.cmark_blocks.specs.Steps.{BeginsLeaf};

    /// Adds a thematic break, which is a line of its own (CommonMark 4.1).
    pub(crate) fn begin_thematic_break(&mut self, rest: LineRest<'a>) -> Result<(), AllocError>
        ensures runs { OnOk result
            (BeginsLeaf E.replacement ThematicBreak 0 rest.entry self.old self.new) }
        ensures text { self.new.text ≡ self.old.text }
    {
        self.begin_block();
        self.builder
            .add(rest.words_begin(), rest.line_end(), ItemBody::Rule)
    }
}
