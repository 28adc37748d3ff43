//! Texts of events.

ghost use Rattle.std.specs.Prelude.{◌≡◌, ◌⊎◌, ◌≤◌, Some, IsOk, IfOk, length, string_bytes, nat_eq, encode_utf8};
ghost use Rattle.std.specs.Cmp.{on_equiv, on_per, partial_equiv_from_equiv};
ghost use Rattle.std.specs.Cmp.Lexicographic.{pointwise, nat_list_eq_equiv};
ghost use Rattle.std.specs.Cmp.Rules.{hashing};
ghost use Rattle.std.specs.Cow.{cow_str_bytes};
ghost use Rattle.std.specs.Fmt.{padded};
ghost use Rattle.std.specs.Hash as fed;
ghost use Rattle.std.proofs.Common.{rules};
ghost use Rattle.cmark_values.specs.Holding.{BecomesCow, ComesFromCow, StaysBorrowed};
ghost use Rattle.cmark_values.specs.InPlace.{CopiesInPlace, StaysInPlace};
ghost use Rattle.cmark_values.specs.Lending.{IsBorrowed};
ghost use Rattle.cmark_values.specs.Shown.{text_bytes, IsBoxed, IsInlined};

use crate::inline::InlineStr;
use std::alloc::{AllocError, Global};
use std::borrow;
use std::boxed::BoxedStr;
use std::fmt::{self, Debug, Display, Formatter, Write};
use std::hash::{Hash, Hasher};

/// A text that an event holds: a part of the parsed text, a short text in the value itself, or an owned text.
///
/// Two values are equal, and have equal hashes, exactly when their texts are equal, however they are held. A value has 40 bytes.
#[derive(Drop)]
pub enum CowStr<'a> {
    /// An owned text.
    Boxed(BoxedStr),
    /// A part of another text, usually of the parsed one.
    Borrowed(&'a str),
    /// A short text.
    Inlined(InlineStr),
}

const _: () = prove!(size_of::<CowStr<'static>>() == 40);

impl<'a> CowStr<'a> {
    /// The text itself.
    pub fn as_str(&self) -> &str
        ensures { result.now ≡ text_bytes self.now }
    {
        match self {
            CowStr::Boxed(text) => text.as_str(),
            CowStr::Borrowed(text) => text,
            CowStr::Inlined(text) => text.as_str(),
        }
    }

    /// A copy of the text. Memory is taken only for an owned text that does not fit into an [`InlineStr`].
    pub fn clone(&self, alloc: Global) -> Result<CowStr<'a>, AllocError>
        ensures value { IfOk result (λ copy. text_bytes copy ≡ text_bytes self.now) }
        ensures held { IfOk result (StaysBorrowed self.now) }
        ensures succeeds { CopiesInPlace self.now → IsOk result }
    {
        match self {
            CowStr::Boxed(text) => own(alloc, text.as_str()),
            CowStr::Borrowed(text) => Ok(CowStr::Borrowed(*text)),
            CowStr::Inlined(text) => Ok(CowStr::Inlined(text.clone())),
        }
    }

    /// The text of a `String`, whose memory it keeps. It takes no memory, so it never fails.
    pub fn from_string(text: String) -> Result<CowStr<'a>, AllocError>
        ensures value { IfOk result (λ made. text_bytes made ≡ string_bytes text) }
        ensures held { IfOk result IsBoxed }
        ensures succeeds { IsOk result }
    {
        Ok(CowStr::Boxed(text.into_boxed_str()))
    }

    /// A `String` of the text. An owned text becomes the `String`; other texts are copied.
    pub fn into_string(self, alloc: Global) -> Result<String, AllocError>
        ensures value { IfOk result (λ made. string_bytes made ≡ text_bytes self.entry) }
        ensures succeeds { IsBoxed self.entry → IsOk result }
    {
        match self {
            CowStr::Boxed(text) => Ok(text.into_string()),
            CowStr::Borrowed(text) => String::from_str(alloc, text),
            CowStr::Inlined(text) => String::from_str(alloc, text.as_str()),
        }
    }

    /// This text as a value that borrows nothing. A borrowed text is copied, into the value itself if it is short.
    pub fn into_static(self, alloc: Global) -> Result<CowStr<'static>, AllocError>
        ensures value { IfOk result (λ made. text_bytes made ≡ text_bytes self.entry) }
        ensures own { IfOk result (λ made. IsBoxed made ⊎ IsInlined made) }
        ensures succeeds { StaysInPlace self.entry → IsOk result }
    {
        match self {
            CowStr::Boxed(text) => Ok(CowStr::Boxed(text)),
            CowStr::Borrowed(text) => own(alloc, text),
            CowStr::Inlined(text) => Ok(CowStr::Inlined(text)),
        }
    }

    /// The text of std's `CowStr`: a borrowed text stays borrowed. It takes no memory, so it never fails.
    pub fn from_cow(text: borrow::CowStr<'a>) -> Result<CowStr<'a>, AllocError>
        ensures value { IfOk result (λ made. text_bytes made ≡ cow_str_bytes text.entry) }
        ensures held { IfOk result (ComesFromCow text.entry) }
        ensures succeeds { IsOk result }
    {
        match text {
            borrow::CowStr::Borrowed(text) => Ok(CowStr::Borrowed(text)),
            borrow::CowStr::Owned(text) => CowStr::from_string(text),
        }
    }

    /// The text as std's `CowStr`: a borrowed text stays borrowed. Memory is taken only for a short text.
    pub fn into_cow(self, alloc: Global) -> Result<borrow::CowStr<'a>, AllocError>
        ensures value { IfOk result (λ made. cow_str_bytes made ≡ text_bytes self.entry) }
        ensures held { IfOk result (BecomesCow self.entry) }
        ensures succeeds { ¬ IsInlined self.entry → IsOk result }
    {
        match self {
            CowStr::Boxed(text) => Ok(borrow::CowStr::Owned(text.into_string())),
            CowStr::Borrowed(text) => Ok(borrow::CowStr::Borrowed(text)),
            CowStr::Inlined(text) => Ok(borrow::CowStr::Owned(String::from_str(
                alloc,
                text.as_str(),
            )?)),
        }
    }
}

/// A copy that borrows nothing, in the value itself if the text is short.
fn own(alloc: Global, text: &str) -> Result<CowStr<'static>, AllocError>
    ensures value { IfOk result (λ made. text_bytes made ≡ text.now) }
    ensures own { IfOk result (λ made. IsBoxed made ⊎ IsInlined made) }
    ensures succeeds { length text.now ≤ 22 → IsOk result }
{
    match InlineStr::try_from(text) {
        Ok(short) => Ok(CowStr::Inlined(short)),
        Err(_) => Ok(CowStr::Boxed(BoxedStr::from_str(alloc, text)?)),
    }
}

impl<'a> From<&'a str> for CowStr<'a> {
    ghost from_gives = { λ text made. (text_bytes made ≡ text.now) × IsBorrowed made };

    fn from(text: &'a str) -> CowStr<'a> {
        CowStr::Borrowed(text)
    }
}

impl From<char> for CowStr<'_> {
    ghost from_gives = { λ c made. text_bytes made ≡ encode_utf8 c };

    fn from(c: char) -> Self {
        CowStr::Inlined(InlineStr::from(c))
    }
}

impl PartialEq for CowStr<'_> {
    ghost eq = { λ a b. pointwise nat_eq (text_bytes a) (text_bytes b) };

    ghost laws = { on_per text_bytes (partial_equiv_from_equiv nat_list_eq_equiv) };

    fn eq(&self, other: &Self) -> bool {
        self.as_str() == other.as_str()
    }
}

impl Eq for CowStr<'_> {
    ghost laws = { on_equiv text_bytes nat_list_eq_equiv };
}

impl Hash for CowStr<'_> {
    ghost hash_input = { λ text. fed.str (text_bytes text) };

    ghost respects_eq = { Prim.search (hashing, rules) };

    fn hash<H: Hasher>(&self, state: &mut H) {
        self.as_str().hash(state);
    }
}

impl Display for CowStr<'_> {
    ghost output = { λ text. Some (text_bytes text) };

    ghost styled_output = { λ text spec. Some (padded spec (text_bytes text)) };

    fn fmt<W: Write>(&self, f: &mut Formatter<W>) -> fmt::Result {
        let text = self.as_str();
        f.pad(text)
    }
}

impl Debug for CowStr<'_> {
    fn fmt<W: Write>(&self, f: &mut Formatter<W>) -> fmt::Result {
        let text = self.as_str();
        Debug::fmt(&text, f)
    }
}
