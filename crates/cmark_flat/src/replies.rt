//! Replies to questions from records.

ghost use Rattle.std.specs.Prelude.{map};
ghost use Rattle.cmark_flat.specs.Decode.{each, groups};
ghost use Rattle.cmark_flat.specs.Gives.{Gives, Reads};
ghost use Rattle.cmark_flat.specs.Questions.{answer_of, decode_replies, reply_of};
ghost use Rattle.cmark_flat.specs.Records.{shown_record};
ghost use Rattle.cmark_flat.specs.Replies.{reply_at, shown_answer, shown_reply};

use crate::error::DecodeError;
use crate::events::parts_len;
use crate::numbers::*;
use crate::parts::part_text;
use crate::read::records_of;
use crate::record::{Record, front_of, rest_from};
use std::alloc::Global;

/// Where a link leads.
#[derive(Clone, Copy)]
pub struct Answer<'a> {
    /// The destination.
    pub dest_url: &'a str,
    /// The title; empty if it has none.
    pub title: &'a str,
}

/// What a caller says of the question with this range of byte offsets.
#[derive(Clone, Copy)]
pub struct Reply<'a> {
    pub start: u64,
    pub end: u64,
    /// Where the link leads; `None` if it is no link.
    pub answer: Option<Answer<'a>>,
}

/// The replies that bytes stand for, in their order. The texts are borrowed from the bytes.
///
/// Fails with [`DecodeError::Malformed`] if the bytes are not the records of replies, and with
/// [`DecodeError::NoMemory`] if memory is refused.
pub fn decode_replies(alloc: Global, bytes: &[u8]) -> Result<Vec<Reply<'_>>, DecodeError>
    ensures { Gives (λ v. map shown_reply v.items) result (decode_replies bytes.now) }
{
    let records = records_of(alloc, bytes)?;
    replies_of(alloc, records.as_slice())
}

/// The replies that records stand for.
fn replies_of<'a>(alloc: Global, records: &[Record<'a>]) -> Result<Vec<Reply<'a>>, DecodeError>
    ensures { Gives (λ v. map shown_reply v.items) result
        (each reply_of (groups (map shown_record records.now))) }
{
    let mut replies = Vec::new(alloc);
    let mut at = 0;
    while at < records.len() {
        let Some(reply) = reply_at(rest_from(records, at)) else {
            return Err(DecodeError::Malformed);
        };
        replies.push(reply)?;
        at += 1 + parts_len(rest_from(records, at + 1));
    }
    Ok(replies)
}

/// The reply of the record that comes first and its further records.
fn reply_at<'a>(records: &[Record<'a>]) -> Option<Reply<'a>>
    ensures { Reads shown_reply result (reply_at (map shown_record records.now)) }
{
    let (own, after) = records.split_first()?;
    let count = parts_len(after);
    reply_of(own, front_of(after, count))
}

/// The reply of a record and its further records.
fn reply_of<'a>(own: &Record<'a>, parts: &[Record<'a>]) -> Option<Reply<'a>>
    ensures { Reads shown_reply result
        (reply_of (record { own = shown_record own.now; parts = map shown_record parts.now })) }
{
    if own.kind != ANSWER_KIND || own.tag != NO_TAG {
        return None;
    }
    let answer = answer_of(own, parts)?;
    Some(Reply {
        start: own.start,
        end: own.end,
        answer,
    })
}

/// The answer of a record and its further records.
fn answer_of<'a>(own: &Record<'a>, parts: &[Record<'a>]) -> Option<Option<Answer<'a>>>
    ensures { Reads shown_answer result
        (answer_of (shown_record own.now) (map shown_record parts.now)) }
{
    match parts {
        [] if own.datum == NO && own.text.is_empty() => Some(None),
        [title] if own.datum == YES => {
            let title = part_text(TITLE_PART, title)?;
            Some(Some(Answer {
                dest_url: own.text,
                title,
            }))
        }
        _ => None,
    }
}
