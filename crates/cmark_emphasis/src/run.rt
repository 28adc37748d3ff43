//! Delimiter runs and their pairs.

/// A delimiter run, or the rest of one (CommonMark 6.2). Each byte of a run has a slot of its own, and an index is that of a slot.
#[derive(Clone, Copy)]
pub struct Run {
    /// The number of bytes of the whole run.
    pub run_length: usize,
    /// The index of the first byte that is left.
    pub at: usize,
    /// The number of bytes that are left.
    pub left: usize,
    /// Its byte: `*`, `_`, `~`, `^` or `=`.
    pub delimiter: u8,
    /// Whether it can open.
    pub opens: bool,
    /// Whether it can close.
    pub closes: bool,
}

// A text may have a run for each two of its bytes, so the fields of one byte are next to each other.
const _: () = prove!(size_of::<Run>() == 32);

/// A whole run in its slots, before it is paired.
#[derive(Clone, Copy)]
pub struct PlacedRun {
    /// The index of its first slot. The slots of its other bytes follow it.
    pub slot: usize,
    /// The number of its bytes.
    pub run_length: usize,
    /// Its byte: `*`, `_`, `~`, `^` or `=`.
    pub delimiter: u8,
    /// Whether it can open.
    pub opens: bool,
    /// Whether it can close.
    pub closes: bool,
}

// All bytes of the run are left, so it needs no number for them.
const _: () = prove!(size_of::<PlacedRun>() == 24);

/// A pair: `count` bytes that open, directly before an index, and as many bytes that close, from an index on.
#[derive(Clone, Copy)]
pub struct Pair {
    /// The byte of the pair: `*`, `_`, `~`, `^` or `=`.
    pub delimiter: u8,
    /// The index after the bytes that open.
    pub from: usize,
    /// The index of the first byte that closes.
    pub to: usize,
    /// The number of bytes that open, and of bytes that close.
    pub count: usize,
}
