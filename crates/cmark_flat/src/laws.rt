//! Theorems over flat records. Each is the contract of a function that does nothing.

ghost use Rattle.cmark_flat.specs.Laws.{DefinitionsAreDecoded, FlatIsDecoded, RepliesAreDecoded};

/// Decoding the flat records of proper events gives these events and their ranges.
pub fn flat_events_are_decoded()
    ensures { FlatIsDecoded }
{}

/// Decoding the flat records of proper definitions gives these definitions.
pub fn flat_definitions_are_decoded()
    ensures { DefinitionsAreDecoded }
{}

/// Decoding the flat records of proper replies gives these replies.
pub fn flat_replies_are_decoded()
    ensures { RepliesAreDecoded }
{}
