//! Safe events of any iterator.

ghost use Rattle.std.specs.Prelude.{◌≡◌, ℕ, false, IfErr, IfOk, List};
ghost use Rattle.cmark_safe.specs.Memory.{NeedsMemory};
ghost use Rattle.cmark_safe.specs.Streams.{CanGo, Gives, IsSafeForm, IsSafeRanged, RangedNeedsMemory, items_left};

use crate::filter::safe_event;
use cmark_text::Event;
use std::alloc::{AllocError, Global};
use std::ops::Range;

/// An item of an iterator of events if memory is not refused: an event, or an event with its range.
pub trait SafeItem: Drop {
    /// One is the safe form of another, with these further schemes.
    ghost is_safe_form: { List ℕ → Self → Self → Type 0 };

    /// It has a name of the text's own, for which memory is asked.
    ghost needs_memory: { Self → Type 0 };

    /// The safe form.
    fn safe_form(self, alloc: Global, further: &str) -> Result<Self, AllocError>
        ensures value { IfOk result (is_safe_form further.now self) }
        ensures refused { IfErr result (λ error. needs_memory self) };
}

impl SafeItem for Event<'_> {
    ghost is_safe_form = { IsSafeForm };

    ghost needs_memory = { NeedsMemory };

    fn safe_form(self, alloc: Global, further: &str) -> Result<Self, AllocError> {
        safe_event(alloc, further, self)
    }
}

impl SafeItem for (Event<'_>, Range<usize>) {
    ghost is_safe_form = { IsSafeRanged };

    ghost needs_memory = { RangedNeedsMemory };

    fn safe_form(self, alloc: Global, further: &str) -> Result<Self, AllocError> {
        let (event, range) = self;
        match safe_event(alloc, further, event) {
            Ok(made) => Ok((made, range)),
            Err(error) => Err(error),
        }
    }
}

/// The safe forms of an iterator's events, one for each, with their ranges if it gives ranges. An error item is passed on as it is.
///
/// If memory for a name is refused, the next item is an error item, and only `None` follows.
///
/// ```text
/// for event in SafeEvents::new(alloc, "", Parser::new(alloc, "<b>", &BasicEntities)?) {
///     let event = event?;
/// }
/// ```
#[derive(Drop)]
pub struct SafeEvents<'s, I> {
    alloc: Global,
    further: &'s str,
    iter: I,
    /// Whether no more items are given.
    is_over: bool,
}

impl<'s, I> SafeEvents<'s, I> {
    /// The safe events of an iterator. `further` is a list of further schemes that addresses may have, separated by white space.
    pub fn new(alloc: Global, further: &'s str, iter: I) -> SafeEvents<'s, I>
        ensures iter { result.iter ≡ iter }
        ensures further { result.further.now ≡ further.entry.now }
        ensures not_over { result.is_over ≡ false }
    {
        SafeEvents {
            alloc,
            further,
            iter,
            is_over: false,
        }
    }
}

impl<'s, T: SafeItem, I: Iterator<Item = Result<T, AllocError>>> Iterator for SafeEvents<'s, I> {
    type Item = Result<T, AllocError>;

    ghost can_next = { CanGo I.can_next };

    ghost next_gives = { Gives T.is_safe_form T.needs_memory I.next_gives };

    ghost remaining = { items_left I.remaining };

    fn next(&mut self) -> Option<Result<T, AllocError>> {
        if self.is_over {
            return None;
        }
        match self.iter.next() {
            Some(Ok(item)) => match item.safe_form(self.alloc, self.further) {
                Ok(made) => Some(Ok(made)),
                Err(error) => {
                    self.is_over = true;
                    Some(Err(error))
                }
            },
            other => other,
        }
    }

    fn size_hint(&self) -> (usize, Option<usize>) {
        (0, None)
    }
}
