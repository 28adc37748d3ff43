//! Records as bytes.

ghost use Rattle.std.specs.Prelude.{◌≡◌, ◌≤◌, length, take, drop};
ghost use Rattle.cmark_flat.specs.Appended.{AppendsOnOk};
ghost use Rattle.cmark_flat.specs.Records.{head, record_bytes, shown_record, wide};

use std::alloc::AllocError;

/// A record with its text.
#[derive(Clone, Copy)]
pub struct Record<'a> {
    pub kind: u8,
    pub tag: u8,
    pub datum: u8,
    pub start: u64,
    pub end: u64,
    pub text: &'a str,
}

/// The first bytes of a record, before its range.
#[derive(Clone, Copy)]
pub struct Mark {
    pub kind: u8,
    pub tag: u8,
    pub datum: u8,
}

/// Appends a number as eight bytes.
#[tactic(auto, unfolding(crate::specs::Records::wide))]
fn put_wide(out: &mut Vec<u8>, number: u64) -> Result<(), AllocError>
    ensures { AppendsOnOk out.old out.new result (wide number) }
{
    out.extend_from_slice(&number.to_le_bytes())
}

/// Appends the head of a record whose text has `size` bytes.
pub fn put_head(
    out: &mut Vec<u8>,
    mark: Mark,
    start: u64,
    end: u64,
    size: usize,
) -> Result<(), AllocError>
    ensures { AppendsOnOk out.old out.new result
        (head mark.kind mark.tag mark.datum start end size) }
{
    out.extend_from_slice(&[mark.kind, mark.tag, mark.datum, 0, 0, 0, 0, 0])?;
    put_wide(out, start)?;
    put_wide(out, end)?;
    put_wide(out, size as u64)
}

/// Appends a record.
pub fn put(out: &mut Vec<u8>, given: Record<'_>) -> Result<(), AllocError>
    ensures { AppendsOnOk out.old out.new result (record_bytes (shown_record given.entry)) }
{
    let mark = Mark {
        kind: given.kind,
        tag: given.tag,
        datum: given.datum,
    };
    put_head(out, mark, given.start, given.end, given.text.len())?;
    out.extend_from_slice(given.text.as_bytes())
}

/// The records from this place on.
pub fn rest_from<'a, 'b>(records: &'b [Record<'a>], at: usize) -> &'b [Record<'a>]
    requires { at ≤ length records.now }
    ensures { result.now ≡ drop at records.now }
{
    &records[at..]
}

/// The first `count` records.
pub fn front_of<'a, 'b>(records: &'b [Record<'a>], count: usize) -> &'b [Record<'a>]
    requires { count ≤ length records.now }
    ensures { result.now ≡ take count records.now }
{
    &records[..count]
}
