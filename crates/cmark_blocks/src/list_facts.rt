//! What a line says about lists, in the search for cuts.

ghost use Rattle.std.specs.Prelude.{◌≡◌, ◌&&◌, not, true, false, ℕ, List, Option};
ghost use Rattle.cmark_grammar.specs.DefinitionLists.{begins_definition};
ghost use Rattle.cmark_grammar.specs.Openings.{opens_at};
ghost use Rattle.cmark_grammar.specs.Places.{Apart};
ghost use Rattle.cmark_grammar.specs.Rows.{Row};
ghost use Rattle.cmark_line_rules.specs.Rests.{row_of};
ghost use Rattle.cmark_stream_model.specs.Growth.{HasNoMetadata, is_outside_of_lists, may_continue};
ghost use Rattle.cmark_values.specs.Shown.{shown_options};
ghost use Rattle.cmark_blocks.specs.Cuts.{is_apart, is_outside};

use cmark_line_rules::{
    ContainerStart, LineRest, Opening, begins_definition, reads_definition_lists, what_opens,
};
use cmark_values::Options;

/// Whether a line with this opening begins no item of a list.
fn is_outside(opening: Opening<'_>) -> bool
    ensures { result ≡ is_outside opening.entry }
{
    match opening {
        Opening::Blank => false,
        Opening::Nests(start) => !matches!(start, ContainerStart::Item(_, _)),
        Opening::IndentedCode
        | Opening::Html(_)
        | Opening::ThematicBreak
        | Opening::AtxHeading(_)
        | Opening::FencedCode { .. }
        | Opening::Bracket
        | Opening::Plain => true,
    }
}

/// Whether a line with this opening begins a block that continues no list. `titles`: a paragraph may be a title, which may continue a
/// definition list.
fn is_apart(opening: Opening<'_>, titles: bool) -> bool
    ensures { result ≡ is_apart titles opening.entry }
{
    match opening {
        Opening::Blank => false,
        Opening::Nests(start) => !matches!(start, ContainerStart::Item(_, _)),
        Opening::IndentedCode
        | Opening::Html(_)
        | Opening::ThematicBreak
        | Opening::AtxHeading(_)
        | Opening::FencedCode { .. } => true,
        Opening::Bracket | Opening::Plain => !titles,
    }
}

/// Whether a line with this opening begins neither an item nor a definition.
fn is_unlisted(opening: Opening<'_>, is_marked: bool) -> bool
    ensures { result ≡ (is_outside opening.entry && not is_marked) }
{
    is_outside(opening) && !is_marked
}

/// What a line says about lists, if it begins a block after all open ones.
#[derive(Clone, Copy)]
pub(crate) struct ListFacts {
    /// Whether it has a definition's marker.
    pub(crate) is_marked: bool,
    /// Whether it begins neither an item nor a definition.
    pub(crate) is_outside: bool,
    /// Whether it continues no list, whatever list comes before it.
    pub(crate) is_apart: bool,
}

/// What the line says about lists, whatever lines are ahead.
pub(crate) fn list_facts(line: LineRest<'_>, options: Options) -> ListFacts
    ensures is_marked { result.is_marked
        ≡ begins_definition (shown_options options) (row_of line.entry) }
    ensures none { HasNoMetadata (shown_options options) → (ahead : List Row)
        → result.is_outside
        ≡
        (is_outside_of_lists (opens_at (shown_options options) Apart (row_of line.entry) ahead) &&
        not (begins_definition (shown_options options) (row_of line.entry))) }
    ensures is_outside { result.is_outside ≡ true → (ahead : List Row)
        → is_outside_of_lists (opens_at (shown_options options) Apart (row_of line.entry) ahead)
        ≡ true }
    ensures is_unmarked { result.is_outside ≡ true
        → begins_definition (shown_options options) (row_of line.entry) ≡ false }
    ensures is_apart { result.is_apart ≡ true → (list : Option ℕ) (ahead : List Row)
        → may_continue (shown_options options).definition_list list
        (opens_at (shown_options options) Apart (row_of line.entry) ahead)
        ≡ false }
{
    let opening = what_opens(line, options);
    let is_marked = begins_definition(line, options);
    let is_outside = is_unlisted(opening, is_marked);
    let is_apart = is_apart(opening, reads_definition_lists(options));
    ListFacts {
        is_marked,
        is_outside,
        is_apart,
    }
}
