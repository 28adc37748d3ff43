//! A callback that may be absent.

ghost use Rattle.std.specs.Option.{ForSome};
ghost use Rattle.cmark_event_walk.specs.Callback.{AnswersIfAny};

use cmark_inline::{BrokenLink, BrokenLinkCallback};
use cmark_text::CowStr;

/// A callback, or `None`. Without a callback, a reference without a definition is no link.
#[derive(Drop)]
pub struct OptionalCallback<F> {
    /// The callback, if there is one.
    pub callback: Option<F>,
}

impl<'input, F: BrokenLinkCallback<'input>> BrokenLinkCallback<'input> for OptionalCallback<F> {
    ghost ready = { λ optional. ForSome optional.callback F.ready };

    ghost answers = { λ before link answer after. AnswersIfAny F.answers before.callback link answer after.callback };

    fn handle_broken_link(
        &mut self,
        link: BrokenLink<'input>,
    ) -> Option<(CowStr<'input>, CowStr<'input>)> {
        match &mut self.callback {
            Some(callback) => callback.handle_broken_link(link),
            None => None,
        }
    }
}
