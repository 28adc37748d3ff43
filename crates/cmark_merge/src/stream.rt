//! Text events merged, without ranges.

ghost use Rattle.std.specs.Prelude.{◌≡◌, false, None};
ghost use Rattle.cmark_merge.specs.Reading.{CanGo, items_left};
ghost use Rattle.cmark_merge.specs.Streams.{Gives, ahead, dummy_iter, dummy_steps, with_range};

use crate::offset::TextMergeWithOffset;
use cmark_text::Event;
use std::alloc::{AllocError, Global};
use std::ops::Range;

/// The events of an iterator, in which each longest run of two or more [`Event::Text`] becomes one event, whose text is owned. If all texts
/// of a run are empty, the run gives no event.
///
/// All other items, and a single text, are passed on as they are. An error item ends a run.
///
/// If memory for a merged text is refused, the next item is an error item, and only `None` follows. The iterator is not called again after
/// its `None`.
///
/// ```text
/// for event in TextMergeStream::new(alloc, Parser::new(alloc, "a&b", &BasicEntities)?) {
///     let event = event?;
/// }
/// ```
#[derive(Drop)]
pub struct TextMergeStream<'a, I> {
    inner: TextMergeWithOffset<'a, DummyOffsets<I>>,
}

impl<'a, I> TextMergeStream<'a, I>
where
    I: Iterator<Item = Result<Event<'a>, AllocError>>,
{
    /// The merged events of an iterator, of which nothing is read yet. `alloc` provides the memory of merged texts.
    pub fn new(alloc: Global, iter: I) -> TextMergeStream<'a, I>
        ensures iter { (ahead result).iter ≡ iter }
        ensures nothing_held { (ahead result).held ≡ None }
        ensures not_over { (ahead result).is_over ≡ false }
    {
        TextMergeStream {
            inner: TextMergeWithOffset::new(alloc, DummyOffsets { iter }),
        }
    }
}

impl<'a, I> Iterator for TextMergeStream<'a, I>
where
    I: Iterator<Item = Result<Event<'a>, AllocError>>,
{
    type Item = Result<Event<'a>, AllocError>;

    ghost can_next = { λ s. CanGo I.can_next I.remaining (ahead s) };

    ghost next_gives = { Gives I.next_gives };

    ghost remaining = { λ s. items_left I.remaining (ahead s) };

    fn next(&mut self) -> Option<Result<Event<'a>, AllocError>> {
        let Some(item) = self.inner.next() else {
            return None;
        };
        match item {
            Ok(item) => Some(Ok(item.0)),
            Err(error) => Some(Err(error)),
        }
    }

    fn size_hint(&self) -> (usize, Option<usize>) {
        (0, None)
    }
}

/// An item that can be given an empty range.
trait WithDummyOffset {
    type Ranged;

    ghost with_range: { Self → Self.Ranged };

    fn with_dummy_offset(self) -> Self::Ranged
        ensures { result ≡ with_range self };
}

impl<'a> WithDummyOffset for Result<Event<'a>, AllocError> {
    type Ranged = Result<(Event<'a>, Range<usize>), AllocError>;

    ghost with_range = { with_range };

    fn with_dummy_offset(self) -> Result<(Event<'a>, Range<usize>), AllocError> {
        match self {
            Ok(event) => Ok((event, 0..0)),
            Err(error) => Err(error),
        }
    }
}

/// An iterator of events, with an empty range for each event.
#[derive(Drop)]
struct DummyOffsets<I> {
    iter: I,
}

impl<I: Iterator> Iterator for DummyOffsets<I>
where
    I::Item: WithDummyOffset,
{
    type Item = <I::Item as WithDummyOffset>::Ranged;

    ghost can_next = { λ s. I.can_next (dummy_iter s) };

    ghost next_gives = { dummy_steps I.Item.with_range I.next_gives };

    ghost remaining = { λ s. I.remaining (dummy_iter s) };

    fn next(&mut self) -> Option<<I::Item as WithDummyOffset>::Ranged> {
        let item = self.iter.next()?;
        Some(item.with_dummy_offset())
    }

    fn size_hint(&self) -> (usize, Option<usize>) {
        self.iter.size_hint()
    }
}
