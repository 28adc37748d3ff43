//! Records from bytes.

ghost use Rattle.std.specs.Prelude.{◌<◌, ◌≤◌, length, map, IfSome};
ghost use Rattle.std.specs.Str.{is_utf8};
ghost use Rattle.cmark_flat.specs.Decode.{byte_at, record_at, records_of, some_if, text_at, unused_at, wide_at, zero_at};
ghost use Rattle.cmark_flat.specs.Gives.{Gives, Reads};
ghost use Rattle.cmark_flat.specs.Records.{shown_record};

use crate::error::DecodeError;
use crate::record::Record;
use std::alloc::Global;

/// The records that bytes stand for, all of the bytes.
pub fn records_of(alloc: Global, bytes: &[u8]) -> Result<Vec<Record<'_>>, DecodeError>
    ensures { Gives (λ v. map shown_record v.items) result (records_of bytes.now) }
{
    let mut records = Vec::new(alloc);
    let mut rest = bytes;
    while !rest.is_empty() {
        let Some((first, after)) = record_at(rest) else {
            return Err(DecodeError::Malformed);
        };
        records.push(first)?;
        rest = after;
    }
    Ok(records)
}

/// The record that comes first, and the bytes after it.
#[tactic(auto, unfolding(crate::specs::Decode::record_at))]
fn record_at(bytes: &[u8]) -> Option<(Record<'_>, &[u8])>
    ensures reads { Reads (λ x. (shown_record x.0, x.1.now)) result (record_at bytes.now) }
    ensures shorter { IfSome result (λ x. length x.1.now < length bytes.now) }
{
    let (kind, rest) = byte_at(bytes)?;
    let (tag, rest) = byte_at(rest)?;
    let (datum, rest) = byte_at(rest)?;
    let rest = unused_at(rest)?;
    let (start, rest) = wide_at(rest)?;
    let (end, rest) = wide_at(rest)?;
    let (size, rest) = wide_at(rest)?;
    let (text, rest) = text_at(size, rest)?;
    let first = Record {
        kind,
        tag,
        datum,
        start,
        end,
        text,
    };
    Some((first, rest))
}

/// The byte that comes first, and the bytes after it.
fn byte_at(bytes: &[u8]) -> Option<(u8, &[u8])>
    ensures reads { Reads (λ x. (x.0, x.1.now)) result (byte_at bytes.now) }
    ensures shorter { IfSome result (λ x. length x.1.now < length bytes.now) }
{
    match bytes {
        [first, rest @ ..] => Some((*first, rest)),
        [] => None,
    }
}

/// The bytes after one that is 0.
fn zero_at(bytes: &[u8]) -> Option<&[u8]>
    ensures reads { Reads (λ x. x.now) result (zero_at bytes.now) }
    ensures shorter { IfSome result (λ x. length x.now ≤ length bytes.now) }
{
    match bytes {
        [0, rest @ ..] => Some(rest),
        _ => None,
    }
}

/// The bytes after those of a head that have no meaning.
#[tactic(auto, unfolding(crate::specs::Decode::unused_at))]
fn unused_at(bytes: &[u8]) -> Option<&[u8]>
    ensures reads { Reads (λ x. x.now) result (unused_at bytes.now) }
    ensures shorter { IfSome result (λ x. length x.now ≤ length bytes.now) }
{
    let rest = zero_at(bytes)?;
    let rest = zero_at(rest)?;
    let rest = zero_at(rest)?;
    let rest = zero_at(rest)?;
    zero_at(rest)
}

/// The number of eight bytes that comes first, and the bytes after it.
fn wide_at(bytes: &[u8]) -> Option<(u64, &[u8])>
    ensures reads { Reads (λ x. (x.0, x.1.now)) result (wide_at bytes.now) }
    ensures shorter { IfSome result (λ x. length x.1.now ≤ length bytes.now) }
{
    if bytes.len() < 8 {
        return None;
    }
    let (front, rest) = bytes.split_at(8);
    let number = u64::from_le_bytes([
        front[0], front[1], front[2], front[3], front[4], front[5], front[6], front[7],
    ]);
    Some((number, rest))
}

/// The text of this many bytes that comes first, and the bytes after it.
fn text_at(size: u64, bytes: &[u8]) -> Option<(&str, &[u8])>
    ensures reads { Reads (λ x. (x.0.now, x.1.now)) result (text_at size bytes.now) }
    ensures shorter { IfSome result (λ x. length x.1.now ≤ length bytes.now) }
{
    let size = size as usize;
    if bytes.len() < size {
        return None;
    }
    let (text, rest) = bytes.split_at(size);
    let text = utf8(text)?;
    Some((text, rest))
}

/// These bytes as a text, if they are UTF-8.
fn utf8(bytes: &[u8]) -> Option<&str>
    ensures { Reads (λ x. x.now) result (some_if (is_utf8 bytes.now) bytes.now) }
{
    match str::from_utf8(bytes) {
        Ok(text) => Some(text),
        Err(_) => None,
    }
}
