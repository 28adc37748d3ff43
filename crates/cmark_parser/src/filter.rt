//! Filters, which change events before they are written.

ghost use Rattle.std.specs.Prelude.{◌≡◌, ℕ, List, IfOk};
ghost use Rattle.cmark_grammar.specs.Event.{Event as Shown, SoftBreak, Start, Text};
ghost use Rattle.cmark_grammar.specs.Tag.{Link, Linked};
ghost use Rattle.cmark_text.specs.Short.{shown_short};
ghost use Rattle.cmark_text.specs.Shown.{shown};
ghost use Rattle.cmark_parser.specs.Filters.{filtered_by, keeps_soft_breaks, keeps_texts};
ghost use Rattle.cmark_parser.specs.Rendering.{leads_to};

use cmark_safe::{is_raw, safe_destination, safe_event, safe_short};
use cmark_text::{Event, Short};
use std::alloc::{AllocError, Global};

/// A filter replaces each event by one event before it is written.
pub(crate) trait Filter {
    ghost filtered: { Self → Shown → Shown };

    /// Returns the replacement of an event that owns nothing.
    fn short_of<'a>(&self, short: Short<'a>) -> Short<'a>
        ensures { shown_short result ≡ filtered self.now (shown_short short.entry) };

    /// Returns the destination that replaces `destination` in a link.
    fn destination_of<'x>(&self, destination: &'x str) -> &'x str
        ensures { (link : Linked) → link.destination ≡ destination.entry.now
            → filtered self.now (Start (Link link)) ≡ Start (Link (leads_to result.now link)) };

    /// Returns the replacement of an event of any kind.
    fn event_of<'a>(&self, alloc: Global, event: Event<'a>) -> Result<Event<'a>, AllocError>
        ensures { IfOk result (λ made. shown made ≡ filtered self.now (shown event.entry)) };

    /// A filter leaves texts and soft breaks as they are, so that several lines may be written at once.
    ghost keeps_texts: { (filter : Self) (text : List ℕ) → filtered filter (Text text) ≡ Text text };

    ghost keeps_soft_breaks: { (filter : Self) → filtered filter SoftBreak ≡ SoftBreak };
}

/// The two filters that a writer may have: what replaces each event before it is written. They are one type. With two types there would be two writers, and the compiler would inline the code
/// that they share into neither.
#[derive(Drop)]
pub enum Filtering<'s> {
    /// Leaves each event as it is.
    AsTheyAre,
    /// Replaces each event by its safe form. The text lists further schemes that addresses may have.
    Safe(&'s str),
}

impl Filter for Filtering<'_> {
    ghost filtered = { filtered_by };

    #[inline(always)]
    fn short_of<'a>(&self, short: Short<'a>) -> Short<'a> {
        // Most events do not change in safe HTML, so they are returned before the filter is looked at.
        if !is_raw(&short) {
            return short;
        }
        match self {
            Filtering::AsTheyAre => short,
            Filtering::Safe(_) => safe_short(short),
        }
    }

    #[inline(always)]
    fn destination_of<'x>(&self, destination: &'x str) -> &'x str {
        match self {
            Filtering::AsTheyAre => destination,
            Filtering::Safe(further) => safe_destination(further, destination),
        }
    }

    #[inline(always)]
    fn event_of<'a>(&self, alloc: Global, event: Event<'a>) -> Result<Event<'a>, AllocError> {
        match self {
            Filtering::AsTheyAre => Ok(event),
            Filtering::Safe(further) => safe_event(alloc, further, event),
        }
    }

    ghost keeps_texts = { keeps_texts };

    ghost keeps_soft_breaks = { keeps_soft_breaks };
}
