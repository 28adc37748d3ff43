//! Lines of JSON.

ghost use Rattle.std.specs.Prelude.{◌≡◌, ◌++◌, OnOk, decimal, string_bytes};
ghost use Rattle.cmark_text.specs.Shown.{shown};
ghost use Rattle.cmark_json.specs.Lines.{line, line_around};

use crate::event::event_value;
use cmark_text::Event;
use itoa::Buffer;
use std::alloc::{AllocError, Global};
use std::ops::Range;

/// Appends the line of an event with its range, and drops the event. If memory is refused, a beginning of the line may have been appended.
pub fn append_given(
    out: &mut String,
    alloc: Global,
    event: Event<'_>,
    range: Range<usize>,
) -> Result<(), AllocError>
    ensures { OnOk result (string_bytes out.new ≡ string_bytes out.old
        ++ line (record { event = shown event.entry; start = range.start; end = range.end })) }
{
    let written = append_line(out, alloc, &event, &range);
    drop(event);
    written
}

/// Appends the line of an event with its range. If memory is refused, a beginning of the line may have been appended.
fn append_line(
    out: &mut String,
    alloc: Global,
    event: &Event<'_>,
    range: &Range<usize>,
) -> Result<(), AllocError>
    ensures { OnOk result
        (string_bytes out.new
        ≡ string_bytes out.old ++ line
        (record { event = shown event.now; start = range.now.start; end = range.now.end })) }
{
    let json = event_value(alloc, event)?.to_string(alloc)?;
    append_around(out, range, json.as_str())?;
    Ok(())
}

/// Appends the line: the JSON of an event, inside the object with its range.
fn append_around(out: &mut String, range: &Range<usize>, json: &str) -> Result<(), AllocError>
    ensures { OnOk result (string_bytes out.new ≡ string_bytes out.old
        ++ line_around range.now.start range.now.end json.now) }
{
    out.push_str("{\"range\":[")?;
    append_number(out, range.start)?;
    out.push_str(",")?;
    append_number(out, range.end)?;
    out.push_str("],\"event\":")?;
    out.push_str(json)?;
    out.push_str("}\n")?;
    Ok(())
}

/// Appends the digits of a number.
fn append_number(out: &mut String, number: usize) -> Result<(), AllocError>
    ensures { OnOk result (string_bytes out.new ≡ string_bytes out.old ++ decimal number) }
{
    let mut buffer = Buffer::new();
    out.push_str(buffer.format(number))?;
    Ok(())
}
