//! Definitions before and between the events, and ranges from the middle of a text.

ghost use Rattle.cmark_grammar.specs.Entities.{basic_entity};
ghost use Rattle.cmark_parser.specs.Parsing.{CanGo, CanGoRanged, IsRangedReady, IsReady};
ghost use Rattle.std.specs.Prelude.{⊤};

use pulldown_cmark::{BasicEntities, OffsetIter, Parser, RefDefs};
use std::alloc::AllocError;

// Appends the destination and the range of a label's definition, as one line.
fn write_definition(
    out: &mut String,
    definitions: &RefDefs<'_>,
    label: &str,
) -> Result<(), AllocError> {
    match definitions.get(label)? {
        Some(def) => {
            let dest = def.dest.as_str();
            write!(
                out,
                "{label}: {dest} {}..{}\n",
                def.span.start, def.span.end
            )
        }
        None => write!(out, "{label}: no definition\n"),
    }
}

// Reads the next four events.
fn pass_four_events(parser: &mut Parser<'_, BasicEntities>)
    requires goes { CanGo (λ _. basic_entity) parser.old }
    requires ready { IsReady (λ _. ⊤) parser.old }
    ensures goes { CanGo (λ _. basic_entity) parser.new }
    ensures ready { IsReady (λ _. ⊤) parser.new }
{
    for _ in 0..4 {
        let _given = parser.next();
    }
}

/// Appends the definition of a label before the next event, and the same after four events.
pub fn write_definitions(
    out: &mut String,
    parser: &mut Parser<'_, BasicEntities>,
    label: &str,
) -> Result<(), AllocError>
    requires goes { CanGo (λ _. basic_entity) parser.old }
    requires ready { IsReady (λ _. ⊤) parser.old }
    ensures goes { CanGo (λ _. basic_entity) parser.new }
    ensures ready { IsReady (λ _. ⊤) parser.new }
{
    write_definition(out, parser.reference_definitions(), label)?;
    pass_four_events(parser);
    write_definition(out, parser.reference_definitions(), label)
}

/// Appends the ranges of the events that are left, each as a line.
pub fn write_ranges(
    out: &mut String,
    iter: &mut OffsetIter<'_, BasicEntities>,
) -> Result<(), AllocError>
    requires goes { CanGoRanged (λ _. basic_entity) iter.old }
    requires ready { IsRangedReady (λ _. ⊤) iter.old }
{
    for item in iter {
        let (_event, range) = item?;
        write!(out, "{}..{}\n", range.start, range.end)?;
    }
    Ok(())
}
