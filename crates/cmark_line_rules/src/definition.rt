//! Definitions of definition lists (this profile's own).

ghost use Rattle.std.specs.Prelude.{◌≡◌, ℕ, List, IfSome, option_map};
ghost use Rattle.cmark_grammar.specs.DefinitionLists.{begins_definition, definition_marker};
ghost use Rattle.cmark_line_rules.specs.Definitions.{width_of, EntersDefinition};
ghost use Rattle.cmark_line_rules.specs.Rests.{row_of, IsIn};
ghost use Rattle.cmark_values.specs.Shown.{shown_options};

use crate::line_rest::LineRest;
use bitflags::Flags;
use cmark_values::Options;

/// Whether definition lists are read.
#[inline]
pub fn reads_definition_lists(options: Options) -> bool
    ensures { result ≡ (shown_options options).definition_list }
{
    options.contains(Options::ENABLE_DEFINITION_LIST)
}

/// The width in columns of the prefix that a definition's later lines have, and the line after its marker. `None` unless definition lists
/// are read, and the line lacks no prefix, is indented by at most three columns and begins with the marker. Such a line begins a definition
/// only after a paragraph or another definition.
#[inline(always)]
pub fn definition_start<'a>(rest: LineRest<'a>, options: Options) -> Option<(usize, LineRest<'a>)>
    ensures width { option_map width_of result
        ≡ definition_marker (shown_options options) (row_of rest.entry) }
    ensures inside { IfSome result (EntersDefinition (row_of rest.entry)) }
    ensures placed { (text : List ℕ) → IsIn text rest.entry
        → IfSome result (λ begun. IsIn text begun.1) }
{
    if !reads_definition_lists(options) {
        return None;
    }
    rest.after_definition()
}

/// Whether a definition's marker on the line interrupts a paragraph, which then is the definition's title.
#[inline]
pub fn begins_definition(rest: LineRest<'_>, options: Options) -> bool
    ensures { result ≡ begins_definition (shown_options options) (row_of rest.entry) }
{
    definition_start(rest, options).is_some()
}
