//! A callback that answers from a table and keeps its questions.

ghost use Rattle.std.specs.Prelude.{◌≡◌, [], false, IfOk};
ghost use Rattle.cmark_flat_links.specs.Answering.{AnswersFrom};

use crate::table::AnswerTable;
use cmark_flat::append_question;
use cmark_inline::{BrokenLink, BrokenLinkCallback};
use cmark_text::CowStr;
use std::alloc::{AllocError, Global};

/// Answers each question from a table, and keeps the records of the questions in their order.
#[derive(Drop)]
pub struct Answering<'a> {
    answers: AnswerTable<'a>,
    /// The records of the questions so far.
    asked: Vec<u8>,
    /// Whether the record of a question could not be kept, because memory was refused.
    is_refused: bool,
}

impl<'a> Answering<'a> {
    /// A callback that answers from this table and was asked nothing yet.
    pub fn new(alloc: Global, answers: AnswerTable<'a>) -> Answering<'a>
        ensures answers { result.answers ≡ answers.entry }
        ensures asked { result.asked.items ≡ [] }
        ensures kept { result.is_refused ≡ false }
    {
        Answering {
            answers,
            asked: Vec::new(alloc),
            is_refused: false,
        }
    }

    /// The records of the questions so far. Fails if memory was refused for one of them.
    pub fn asked(&self) -> Result<&[u8], AllocError>
        ensures { IfOk result
            (λ records. (records.now ≡ self.now.asked.items) × (self.now.is_refused ≡ false)) }
    {
        match self.is_refused {
            true => Err(AllocError),
            false => Ok(self.asked.as_slice()),
        }
    }
}

impl<'input> BrokenLinkCallback<'input> for Answering<'input> {
    ghost answers = { AnswersFrom };

    fn handle_broken_link(
        &mut self,
        link: BrokenLink<'input>,
    ) -> Option<(CowStr<'input>, CowStr<'input>)> {
        let label = link.reference.as_str();
        if append_question(&mut self.asked, link.link_type, label, &link.span).is_err() {
            self.is_refused = true;
        }
        let answer = self.answers.get(link.span.start, link.span.end)?;
        Some((
            CowStr::Borrowed(answer.dest_url),
            CowStr::Borrowed(answer.title),
        ))
    }
}
