//! The records of all definitions of a text.

ghost use Rattle.std.specs.Prelude.{◌≡◌, ◌++◌, map, All, OnOk, Some};
ghost use Rattle.cmark_flat.specs.Definitions.{flat_definitions};
ghost use Rattle.cmark_references.specs.Definitions.{entry_of, shown_entry};
ghost use Rattle.cmark_values.specs.Labelled.{link_key};

use cmark_flat::append_definition;
use cmark_references::RefDefs;
use std::alloc::AllocError;

/// Appends the records of all definitions of a table, in the order of the table. If memory is refused, a beginning of them may have been
/// appended. Each definition is the one that its label finds in the table (`found`).
pub fn append_definitions(out: &mut Vec<u8>, definitions: &RefDefs<'_>) -> Result<(), AllocError>
    ensures written { OnOk result
        (out.new.items ≡ out.old.items ++ flat_definitions (map shown_entry definitions.now)) }
    ensures found { All (λ e. entry_of definitions.now (link_key e.0) ≡ Some e) definitions.now }
{
    for (label, definition) in definitions.iter() {
        let title = definition.title.as_ref().map(|title| title.as_str());
        let destination = definition.dest.as_str();
        append_definition(out, label, destination, title, &definition.span)?;
    }
    Ok(())
}
