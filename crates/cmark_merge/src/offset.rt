//! Text events merged, with their ranges.

ghost use Rattle.std.specs.Prelude.{◌≡◌, ◌<◌, ◌≤◌, ◌++◌, false, IfErr, IfOk, None, OnErr, OnOk, OnSome, string_bytes};
ghost use Rattle.std.specs.Iterator.{size};
ghost use Rattle.cmark_values.specs.Shown.{text_bytes};
ghost use Rattle.cmark_merge.specs.Reading.{CanGo, items_left};
ghost use Rattle.cmark_merge.specs.Steps.{IsNoText, Joins, Merges, ReadsOne, ReadsText, ReadsTexts, Takes};
ghost use Rattle.cmark_merge.specs.Streams.{GivesRanged, ranged_ahead, string_at, text_item};

use cmark_text::{CowStr, Event};
use std::alloc::{AllocError, Global};
use std::ops::Range;

/// The events of an iterator with their ranges, in which each longest run of two or more [`Event::Text`] becomes one event. Its text is
/// owned, and its range goes from the start of the first to the end of the last. If all texts of a run are empty, the run gives no event.
///
/// All other items, and a single text, are passed on as they are. An error item ends a run.
///
/// If memory for a merged text is refused, the next item is an error item, and only `None` follows. The iterator is not called again after
/// its `None`.
///
/// ```text
/// for item in TextMergeWithOffset::new(alloc, parser.into_offset_iter()) {
///     let (event, range) = item?;
/// }
/// ```
#[derive(Drop)]
pub struct TextMergeWithOffset<'a, I> {
    alloc: Global,
    iter: I,
    /// The item that was read after a text and has not been returned yet.
    held: Option<Result<(Event<'a>, Range<usize>), AllocError>>,
    /// Whether the iterator is not called any more.
    is_over: bool,
}

/// The text of an item with its range, or `Err` with the item itself if it is not a text.
fn text_of<'a>(
    item: Result<(Event<'a>, Range<usize>), AllocError>,
) -> Result<(CowStr<'a>, Range<usize>), Result<(Event<'a>, Range<usize>), AllocError>>
    ensures text { IfOk result (λ text. item.entry ≡ text_item text) }
    ensures other { IfErr result (λ other. (other ≡ item.entry) × IsNoText other) }
{
    match item {
        Ok(item) => {
            let (event, range) = item;
            match event {
                Event::Text(text) => Ok((text, range)),
                event => Err(Ok((event, range))),
            }
        }
        Err(error) => Err(Err(error)),
    }
}

/// Appends a text and drops it. The drop is in this call because the compiler repeats an implicit drop at each exit.
fn push_text(text: &mut String, more: CowStr<'_>) -> Result<(), AllocError>
    ensures { OnOk result (string_bytes text.new ≡ string_bytes text.old ++ text_bytes more.entry) }
{
    let pushed = text.push_str(more.as_str());
    drop(more);
    pushed
}

impl<'a, I> TextMergeWithOffset<'a, I>
where
    I: Iterator<Item = Result<(Event<'a>, Range<usize>), AllocError>>,
{
    /// The merged events of an iterator, of which nothing is read yet. `alloc` provides the memory of merged texts.
    pub fn new(alloc: Global, iter: I) -> TextMergeWithOffset<'a, I>
        ensures iter { (ranged_ahead result).iter ≡ iter }
        ensures nothing_held { (ranged_ahead result).held ≡ None }
        ensures not_over { (ranged_ahead result).is_over ≡ false }
    {
        TextMergeWithOffset {
            alloc,
            iter,
            held: None,
            is_over: false,
        }
    }

    /// The next item of the iterator. After its `None` the iterator is not called again.
    fn read(&mut self) -> Option<Result<(Event<'a>, Range<usize>), AllocError>>
        requires { CanGo I.can_next I.remaining (ranged_ahead self.old) }
        ensures reads { ReadsOne I.next_gives
            (ranged_ahead self.old) result (ranged_ahead self.new) }
        ensures held { (ranged_ahead self.new).held ≡ (ranged_ahead self.old).held }
        ensures goes { CanGo I.can_next I.remaining (ranged_ahead self.new) }
        ensures fewer { OnSome result (size (items_left I.remaining (ranged_ahead self.new))
            < size (items_left I.remaining (ranged_ahead self.old))) }
        ensures no_more { size (items_left I.remaining (ranged_ahead self.new))
            ≤ size (items_left I.remaining (ranged_ahead self.old)) }
    {
        if self.is_over {
            return None;
        }
        match self.iter.next() {
            None => {
                self.is_over = true;
                None
            }
            item => item,
        }
    }

    /// The next item: the held one, or else the next of the iterator.
    fn take(&mut self) -> Option<Result<(Event<'a>, Range<usize>), AllocError>>
        requires { CanGo I.can_next I.remaining (ranged_ahead self.old) }
        ensures takes { Takes I.next_gives (ranged_ahead self.old) result (ranged_ahead self.new) }
        ensures goes { CanGo I.can_next I.remaining (ranged_ahead self.new) }
        ensures fewer { OnSome result (size (items_left I.remaining (ranged_ahead self.new))
            < size (items_left I.remaining (ranged_ahead self.old))) }
        ensures no_more { size (items_left I.remaining (ranged_ahead self.new))
            ≤ size (items_left I.remaining (ranged_ahead self.old)) }
    {
        match self.held.take() {
            None => self.read(),
            item => item,
        }
    }

    /// The next item of the iterator if it is a text. Any other item is held, and the result is `None`.
    fn read_text(&mut self) -> Option<(CowStr<'a>, Range<usize>)>
        requires goes { CanGo I.can_next I.remaining (ranged_ahead self.old) }
        requires nothing_held { (ranged_ahead self.old).held ≡ None }
        ensures reads { ReadsText I.next_gives
            (ranged_ahead self.old) result (ranged_ahead self.new) }
        ensures goes { CanGo I.can_next I.remaining (ranged_ahead self.new) }
        ensures fewer { OnSome result (size (items_left I.remaining (ranged_ahead self.new))
            < size (items_left I.remaining (ranged_ahead self.old))) }
        ensures no_more { size (items_left I.remaining (ranged_ahead self.new))
            ≤ size (items_left I.remaining (ranged_ahead self.old)) }
    {
        let Some(item) = self.read() else {
            return None;
        };
        match text_of(item) {
            Ok(text) => Some(text),
            Err(item) => {
                // Nothing was held.
                drop(self.held.replace(item));
                None
            }
        }
    }

    /// These two texts and the texts that follow them, joined.
    fn join(
        &mut self,
        first: (CowStr<'a>, Range<usize>),
        second: (CowStr<'a>, Range<usize>),
    ) -> Result<(String, Range<usize>), AllocError>
        requires goes { CanGo I.can_next I.remaining (ranged_ahead self.old) }
        requires nothing_held { (ranged_ahead self.old).held ≡ None }
        requires not_over { (ranged_ahead self.old).is_over ≡ false }
        ensures joins { IfOk result (λ all. Joins I.next_gives (ranged_ahead self.old)
            first.entry second.entry (string_at all) (ranged_ahead self.new)) }
        ensures refused { OnErr result
            (ReadsTexts I.next_gives (ranged_ahead self.old) (ranged_ahead self.new)) }
        ensures refused_holds_nothing { OnErr result ((ranged_ahead self.new).held ≡ None) }
        ensures goes { CanGo I.can_next I.remaining (ranged_ahead self.new) }
        ensures no_more { size (items_left I.remaining (ranged_ahead self.new))
            ≤ size (items_left I.remaining (ranged_ahead self.old)) }
    {
        let mut text = first.0.into_string(self.alloc)?;
        push_text(&mut text, second.0)?;
        let mut end = second.1.end;
        while let Some((more, range)) = self.read_text() {
            push_text(&mut text, more)?;
            end = range.end;
        }
        Ok((text, first.1.start..end))
    }

    /// The item for these two texts and the texts that follow them; if all are empty, the item after them.
    fn merge(
        &mut self,
        first: (CowStr<'a>, Range<usize>),
        second: (CowStr<'a>, Range<usize>),
    ) -> Option<Result<(Event<'a>, Range<usize>), AllocError>>
        requires goes { CanGo I.can_next I.remaining (ranged_ahead self.old) }
        requires nothing_held { (ranged_ahead self.old).held ≡ None }
        requires not_over { (ranged_ahead self.old).is_over ≡ false }
        ensures merges { Merges I.next_gives (ranged_ahead self.old)
            first.entry second.entry result (ranged_ahead self.new) }
        ensures goes { CanGo I.can_next I.remaining (ranged_ahead self.new) }
        ensures no_more { size (items_left I.remaining (ranged_ahead self.new))
            ≤ size (items_left I.remaining (ranged_ahead self.old)) }
    {
        match self.join(first, second) {
            Ok((text, range)) => {
                if text.as_str().is_empty() {
                    return self.held.take();
                }
                let text = CowStr::Boxed(text.into_boxed_str());
                Some(Ok((Event::Text(text), range)))
            }
            Err(error) => {
                self.is_over = true;
                Some(Err(error))
            }
        }
    }
}

impl<'a, I> Iterator for TextMergeWithOffset<'a, I>
where
    I: Iterator<Item = Result<(Event<'a>, Range<usize>), AllocError>>,
{
    type Item = Result<(Event<'a>, Range<usize>), AllocError>;

    ghost can_next = { λ s. CanGo I.can_next I.remaining (ranged_ahead s) };

    ghost next_gives = { GivesRanged I.next_gives };

    ghost remaining = { λ s. items_left I.remaining (ranged_ahead s) };

    fn next(&mut self) -> Option<Result<(Event<'a>, Range<usize>), AllocError>> {
        let Some(item) = self.take() else {
            return None;
        };
        let first = match text_of(item) {
            Ok(text) => text,
            Err(item) => return Some(item),
        };
        match self.read_text() {
            Some(second) => self.merge(first, second),
            None => Some(Ok((Event::Text(first.0), first.1))),
        }
    }

    fn size_hint(&self) -> (usize, Option<usize>) {
        (0, None)
    }
}
