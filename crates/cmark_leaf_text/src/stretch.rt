//! Lines of a leaf, and the stretches of the source that they form.

ghost use Rattle.std.specs.Prelude.{◌≡◌, ◌<◌, ◌≤◌, ◌+◌, ◌-◌};

/// A line of a leaf (CommonMark 2.1), or adjacent lines, without the prefixes of its containers: byte offsets of the source.
#[derive(Clone, Copy)]
pub struct LeafLine {
    /// The offset of the first byte of the content.
    pub start: usize,
    /// The end of the content, exclusive. It includes trailing blanks, except in the last line of a leaf.
    pub content_end: usize,
    /// The end of the line ending, exclusive.
    pub line_end: usize,
}

/// A stretch of the source that is in a leaf's text without a gap.
#[derive(Clone, Copy)]
pub(crate) struct Stretch {
    /// The offset of its first byte in the leaf's text.
    pub at: usize,
    /// The offset of its first byte in the source.
    pub start: usize,
    /// Its end in the source, exclusive.
    pub end: usize,
}

impl Stretch {
    // The offset in the source of a byte of the text, if the byte is in the stretch.
    pub fn place(self, at: usize) -> usize
        requires before { self.at ≤ at }
        requires following { at < self.at + (self.end - self.start) }
        ensures { result ≡ self.start + (at - self.at) }
    {
        self.start + (at - self.at)
    }
}
