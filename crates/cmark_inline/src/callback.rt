//! Callbacks for references without a definition.

ghost use Rattle.std.specs.Prelude.{◌≡◌, ⊤, ℕ, List, IfOk, Option, None};
ghost use Rattle.std.specs.DynBox.{dyn_box_with};
ghost use Rattle.cmark_values.specs.Shown.{text_bytes};
ghost use Rattle.cmark_inline.specs.Linked.{IsQuestion};
ghost use Rattle.cmark_values.specs.declared.kind.LinkType.{LinkType as Kind};
ghost use Rattle.cmark_values.specs.declared.text.CowStr.{CowStr};
ghost use Rattle.cmark_inline.specs.declared.callback.BrokenLink.{BrokenLink as Question};

use cmark_text::{CowStr, LinkType};
use std::alloc::{AllocError, Global};
use std::ops::Range;

/// A reference whose label has no definition.
#[derive(Debug, Drop)]
pub struct BrokenLink<'a> {
    /// Its byte range in the source. It begins with the opening bracket, or with the `!` of an image. It ends after the label's closing
    /// bracket, and does not include a `[]` after that.
    pub span: Range<usize>,
    /// How it is written: `Reference`, `Collapsed` or `Shortcut`.
    pub link_type: LinkType,
    /// The normal form of its label (CommonMark 4.7).
    pub reference: CowStr<'a>,
}

impl<'a> BrokenLink<'a> {
    /// Copies the borrowed text, so that the value borrows nothing. Fails only if memory is refused.
    pub fn into_static(self, alloc: Global) -> Result<BrokenLink<'static>, AllocError>
        ensures { IfOk result
            (λ made. IsQuestion self.entry.link_type (text_bytes self.entry.reference)
            self.entry.span.start self.entry.span.end made) }
    {
        let BrokenLink {
            span,
            link_type,
            reference,
        } = self;
        let reference = reference.into_static(alloc)?;
        Ok(BrokenLink {
            span,
            link_type,
            reference,
        })
    }
}

/// A callback that says where references without a definition lead.
pub trait BrokenLinkCallback<'input> {
    // Holds of the callbacks that may be asked.
    ghost ready: { Self → Type 0 } = { λ _. ⊤ };

    // Relates the callback before a call, the question, the answer, and the callback after the call.
    ghost answers: { Self → Question → Option (CowStr × CowStr) → Self → Type 0 };

    /// The destination and the title of the reference `link`; `None` if it is no link.
    fn handle_broken_link(
        &mut self,
        link: BrokenLink<'input>,
    ) -> Option<(CowStr<'input>, CowStr<'input>)>
        requires { ready self.old }
        ensures again { ready self.new }
        ensures answers { answers self.old link.entry result self.new };
}

/// A callback that calls a closure once for each question. The closure must be callable with every question.
///
/// ```text
/// let pages = FnCallback::new(|link| match link.reference.as_str() {
///     "start" => Some((CowStr::Borrowed("/index.html"), CowStr::Borrowed(""))),
///     _ => None,
/// });
/// ```
#[derive(Drop)]
pub struct FnCallback<F>(pub F);

impl<F> FnCallback<F> {
    /// A callback that calls `closure`. The types of the closure's parameter and result can be left out.
    pub fn new<'input>(closure: F) -> FnCallback<F>
    where
        F: FnMut(BrokenLink<'input>) -> Option<(CowStr<'input>, CowStr<'input>)>,
        ensures { result.0 ≡ closure }
    {
        FnCallback(closure)
    }
}

impl<
    'input,
    F: FnMut(BrokenLink<'input>) -> Option<(CowStr<'input>, CowStr<'input>)>,
> BrokenLinkCallback<'input> for FnCallback<F> {
    ghost ready = { λ callback. F.IsAlwaysCallable callback.0 };

    ghost answers = { λ before link answer after. F.step before.0 link answer after.0 };

    fn handle_broken_link(
        &mut self,
        link: BrokenLink<'input>,
    ) -> Option<(CowStr<'input>, CowStr<'input>)> {
        (self.0)(link)
    }
}

/// The callback for which no reference without a definition is a link.
#[derive(Clone, Copy, Debug, Drop)]
pub struct DefaultBrokenLinkCallback;

impl<'input> BrokenLinkCallback<'input> for DefaultBrokenLinkCallback {
    ghost answers = { λ before link answer after. answer ≡ None };

    fn handle_broken_link(
        &mut self,
        _link: BrokenLink<'input>,
    ) -> Option<(CowStr<'input>, CowStr<'input>)> {
        None
    }
}

/// A callback that borrows nothing. A box of it is a callback for every source.
pub trait OwnedLinkCallback: Drop {
    ghost says: { Self → ℕ → ℕ → Kind → List ℕ → Option (CowStr × CowStr) → Self → Type 0 };

    /// The destination and the title of a reference without a definition; `None` if it is no link. The reference is at the byte offsets
    /// from `start` to `end` of the source. `reference` is the normal form of its label.
    fn handle_owned(
        &mut self,
        start: usize,
        end: usize,
        link_type: LinkType,
        reference: &str,
    ) -> Option<(CowStr<'static>, CowStr<'static>)>
        ensures { says self.old start end link_type reference.now result self.new };
}

impl<'input> BrokenLinkCallback<'input> for Box<dyn OwnedLinkCallback> {
    // The answer is the one of the callback in the box, and the box holds this callback as the call leaves it.
    ghost answers = { λ before link answer after. (value : _) × (OwnedLinkCallback-box before).says before.value link.span.start link.span.end link.link_type (text_bytes link.reference) answer value
        × (after ≡ dyn_box_with before before.vtable value) };

    /// Passes both ends of the span, the type and the label's text to the callback in the box, and returns its answer.
    fn handle_broken_link(
        &mut self,
        link: BrokenLink<'input>,
    ) -> Option<(CowStr<'input>, CowStr<'input>)> {
        let BrokenLink {
            span,
            link_type,
            reference,
        } = link;
        self.handle_owned(span.start, span.end, link_type, reference.as_str())
    }
}
