//! Parts of a text that are passed together with the bytes after them.

ghost use Rattle.std.specs.Prelude.{◌≡◌, take};
ghost use Rattle.std.specs.Str.{IsCharBoundary};

/// A part of a text, together with the text after it. The bytes after it are not part of the value. Because they exist, sixteen bytes can
/// be searched or copied at once even if the part is shorter.
#[derive(Clone, Copy, Debug)]
pub struct Excerpt<'a> {
    /// The text from the start of the part on.
    pub(crate) ahead: &'a str,
    /// The length of the part in bytes.
    pub(crate) len: usize,
    ghost boundary: { IsCharBoundary ahead.now len },
}

impl<'a> Excerpt<'a> {
    ghost use Rattle.cmark_text.specs.Excerpt.{excerpt_bytes};

    /// The first `len` bytes of a text, with the text after them. `len` has to be a character boundary.
    #[inline(always)]
    pub fn new(ahead: &'a str, len: usize) -> Excerpt<'a>
        requires { IsCharBoundary ahead.now len }
        ensures { excerpt_bytes result ≡ take len ahead.entry.now }
    {
        Excerpt { ahead, len }
    }

    /// A whole text, with no text after it.
    #[inline(always)]
    pub fn whole(text: &'a str) -> Excerpt<'a>
        ensures { excerpt_bytes result ≡ text.entry.now }
    {
        let len = text.len();
        Excerpt { ahead: text, len }
    }

    /// The part alone.
    #[inline(always)]
    pub fn as_str(self) -> &'a str
        ensures { result.now ≡ excerpt_bytes self.entry }
    {
        &self.ahead[..self.len]
    }
}
