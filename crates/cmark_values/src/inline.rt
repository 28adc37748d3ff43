//! Short texts that are stored in the value itself.

ghost use Rattle.std.specs.Prelude.{◌≡◌, ◌<◌, ◌≤◌, Some, MatchResult, length, nat_eq, encode_utf8};
ghost use Rattle.std.specs.Cmp.{on_equiv, on_per, partial_equiv_from_equiv};
ghost use Rattle.std.specs.Cmp.Lexicographic.{pointwise, nat_list_eq_equiv};
ghost use Rattle.std.specs.Cmp.Rules.{hashing};
ghost use Rattle.std.specs.Fmt.{padded};
ghost use Rattle.std.specs.Hash as fed;
ghost use Rattle.std.proofs.Common.{rules};
ghost use Rattle.cmark_values.specs.Shown.{inline_bytes};

use arrayvec::ArrayString;
use std::fmt::{self, Debug, Display, Formatter, Write};
use std::hash::{Hash, Hasher};

/// The most bytes that an `InlineStr` holds.
const MAX_INLINE_STR_LEN: usize = 22;

/// The text is longer than 22 bytes.
#[derive(Clone, Copy, Debug, PartialEq, Eq)]
pub struct StringTooLongError;

/// A text of at most 22 bytes, stored in the value itself. A value has 32 bytes and takes no other memory.
#[derive(Drop)]
pub struct InlineStr {
    text: ArrayString<MAX_INLINE_STR_LEN>,
}

const _: () = prove!(size_of::<InlineStr>() == 32);

impl InlineStr {
    /// The text.
    pub fn as_str(&self) -> &str
        ensures value { result.now ≡ inline_bytes self.now }
        ensures fits { length result.now ≤ 22 }
    {
        self.text.as_str()
    }

    /// A copy of the text. It takes no memory.
    pub fn clone(&self) -> InlineStr
        ensures { inline_bytes result ≡ inline_bytes self.now }
    {
        InlineStr { text: self.text }
    }
}

impl TryFrom<&str> for InlineStr {
    type Error = StringTooLongError;

    ghost try_from_gives = { λ text made. MatchResult made
        (λ short. (inline_bytes short ≡ text.now) × (length text.now ≤ 22))
        (λ _. 22 < length text.now) };

    /// A copy of the text, if it has at most 22 bytes.
    fn try_from(text: &str) -> Result<InlineStr, StringTooLongError> {
        match ArrayString::from(text) {
            Ok(text) => Ok(InlineStr { text }),
            Err(_) => Err(StringTooLongError),
        }
    }
}

impl From<char> for InlineStr {
    ghost from_gives = { λ c made. inline_bytes made ≡ encode_utf8 c };

    /// The text of one character.
    fn from(c: char) -> InlineStr {
        let mut text = ArrayString::new();
        text.push(c);
        InlineStr { text }
    }
}

impl PartialEq for InlineStr {
    ghost eq = { λ a b. pointwise nat_eq (inline_bytes a) (inline_bytes b) };

    ghost laws = { on_per inline_bytes (partial_equiv_from_equiv nat_list_eq_equiv) };

    fn eq(&self, other: &InlineStr) -> bool {
        self.as_str() == other.as_str()
    }
}

impl Eq for InlineStr {
    ghost laws = { on_equiv inline_bytes nat_list_eq_equiv };
}

impl Hash for InlineStr {
    ghost hash_input = { λ text. fed.str (inline_bytes text) };

    ghost respects_eq = { Prim.search (hashing, rules) };

    fn hash<H: Hasher>(&self, state: &mut H) {
        self.as_str().hash(state);
    }
}

impl Display for InlineStr {
    ghost output = { λ text. Some (inline_bytes text) };

    ghost styled_output = { λ text spec. Some (padded spec (inline_bytes text)) };

    fn fmt<W: Write>(&self, f: &mut Formatter<W>) -> fmt::Result {
        let text = self.as_str();
        f.pad(text)
    }
}

impl Debug for InlineStr {
    fn fmt<W: Write>(&self, f: &mut Formatter<W>) -> fmt::Result {
        let text = self.as_str();
        Debug::fmt(&text, f)
    }
}
