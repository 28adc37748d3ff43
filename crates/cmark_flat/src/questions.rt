//! The records of questions about links without a definition.

ghost use Rattle.cmark_flat.specs.Appended.{AppendsOnOk};
ghost use Rattle.cmark_flat.specs.Questions.{question_record};
ghost use Rattle.cmark_flat.specs.Records.{record_bytes};
ghost use Rattle.cmark_values.specs.Shown.{shown_link_type};

use crate::codes::link_number;
use crate::numbers::*;
use crate::record::{Record, put};
use cmark_text::LinkType;
use std::alloc::AllocError;
use std::ops::Range;

/// Appends the record of a question: the range and the written form of a link, and the normal form of its label, which no definition has. If
/// memory is refused, a beginning of it may have been appended.
pub fn append_question(
    out: &mut Vec<u8>,
    link_type: LinkType,
    label: &str,
    range: &Range<usize>,
) -> Result<(), AllocError>
    ensures { AppendsOnOk out.old out.new result (record_bytes (question_record (record {
      start = range.now.start;
      end = range.now.end;
      link_type = shown_link_type link_type;
      reference = label.now;
    }))) }
{
    let own = Record {
        kind: QUESTION_KIND,
        tag: NO_TAG,
        datum: link_number(link_type.to_unknown()),
        start: range.start as u64,
        end: range.end as u64,
        text: label,
    };
    put(out, own)
}
