//! The records of link reference definitions.

ghost use Rattle.std.specs.Prelude.{option_map};
ghost use Rattle.cmark_flat.specs.Appended.{AppendsOnOk};
ghost use Rattle.cmark_flat.specs.Definitions.{definition_records, title_parts};
ghost use Rattle.cmark_flat.specs.Records.{spelled};

use crate::numbers::*;
use crate::put::put_part;
use crate::record::{Record, put};
use std::alloc::AllocError;
use std::ops::Range;

/// Appends the records of a link reference definition. `label` is its label, and `range` its range in the text. If memory is refused, a
/// beginning of them may have been appended.
pub fn append_definition(
    out: &mut Vec<u8>,
    label: &str,
    destination: &str,
    title: Option<&str>,
    range: &Range<usize>,
) -> Result<(), AllocError>
    ensures { AppendsOnOk out.old out.new result (spelled (definition_records (record {
      label = label.now;
      destination = destination.now;
      title = option_map (λ t. t.now) title.entry;
      start = range.now.start;
      end = range.now.end;
    }))) }
{
    let own = Record {
        kind: DEFINITION_KIND,
        tag: NO_TAG,
        datum: NO_DATA,
        start: range.start as u64,
        end: range.end as u64,
        text: destination,
    };
    put(out, own)?;
    put_title(out, title)?;
    put_part(out, LABEL_PART, label)
}

/// Appends the title of a definition, if it has one.
fn put_title(out: &mut Vec<u8>, title: Option<&str>) -> Result<(), AllocError>
    ensures { AppendsOnOk out.old out.new result
        (spelled (title_parts (option_map (λ t. t.now) title.entry))) }
{
    match title {
        None => Ok(()),
        Some(title) => put_part(out, TITLE_PART, title),
    }
}
