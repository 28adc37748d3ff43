//! Link reference definitions in the form of the table.

ghost use Rattle.std.specs.Prelude.{◌≡◌, IfOk, option_map, option_copied};
ghost use Rattle.cmark_grammar.specs.Derivation.{title_of, reference_of};
ghost use Rattle.cmark_grammar.specs.Labels.{fold};
ghost use Rattle.cmark_grammar.specs.Tokens.{resolved};
ghost use Rattle.cmark_references.specs.Definitions.{shown_entry};
ghost use Rattle.cmark_values.specs.Labelled.{link_key};
ghost use Rattle.cmark_values.specs.Shown.{text_bytes};
ghost use Rattle.cmark_link_definitions.specs.Shown.{written};

use crate::definition::Definition;
use cmark_link_scan::title_lines;
use cmark_references::LinkDef;
use cmark_scan_bytes::unescape;
use cmark_values::{CowStr, EntityLookup, LinkLabel};
use std::alloc::{AllocError, Global};
use std::ops::Range;

/// A text without its escapes and entities, in a value that borrows nothing.
fn owned_text<E: EntityLookup>(
    alloc: Global,
    text: CowStr<'_>,
    entities: &E,
) -> Result<CowStr<'static>, AllocError>
    ensures { IfOk result
        (λ made. text_bytes made ≡ resolved (E.replacement entities.now) (text_bytes text.entry)) }
{
    unescape(alloc, text, false, entities)?.into_static(alloc)
}

/// A title with its lines, escapes and entities resolved.
fn owned_title<E: EntityLookup>(
    alloc: Global,
    title: Option<&str>,
    entities: &E,
) -> Result<Option<CowStr<'static>>, AllocError>
    ensures { IfOk result
        (λ made. option_map text_bytes made
        ≡ title_of (E.replacement entities.now) (option_copied title.entry)) }
{
    let Some(title) = title else {
        return Ok(None);
    };
    let lines = CowStr::from_string(title_lines(alloc, title)?)?;
    Ok(Some(owned_text(alloc, lines, entities)?))
}

/// A definition in the form of the table, with its label. The label is in its normal form; escapes and entities in the destination and the
/// title are resolved. In the title each line ending, with the blanks after it, is one line feed. `span` is the definition's range in the
/// text, in bytes, from its opening bracket up to its last line ending. All texts are owned. Fails only if memory is refused.
pub fn link_definition<E: EntityLookup>(
    alloc: Global,
    definition: &Definition<'_>,
    span: Range<usize>,
    entities: &E,
) -> Result<(LinkLabel, LinkDef<'static>), AllocError>
    ensures value { IfOk result
        (λ made. shown_entry made
        ≡ reference_of (E.replacement entities.now) (written definition.now) span.start span.end) }
    ensures key { IfOk result (λ made. link_key made.0 ≡ fold definition.now.label.now) }
{
    let label = LinkLabel::new(alloc, definition.label)?;
    let dest = owned_text(alloc, CowStr::Borrowed(definition.destination), entities)?;
    let title = owned_title(alloc, definition.title, entities)?;
    Ok((label, LinkDef { dest, title, span }))
}
