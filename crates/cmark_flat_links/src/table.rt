//! The answers of a caller, by the ranges of their questions.

ghost use Rattle.std.specs.Prelude.{◌≡◌, ℕ, IfOk, map, option_map};
ghost use Rattle.cmark_flat.specs.Questions.{answer_at};
ghost use Rattle.cmark_flat.specs.Replies.{shown_destination, shown_reply};
ghost use Rattle.cmark_flat_links.specs.Table.{answer_in};

use cmark_flat::{Answer, Reply};
use std::alloc::{AllocError, Global};
use std::collections::BTreeMap;

/// The answers of a list of replies: for each range that of the first reply with this range. A look-up takes time by the logarithm of their
/// number.
#[derive(Drop)]
pub struct AnswerTable<'a> {
    answers: BTreeMap<(u64, u64), Option<Answer<'a>>>,
}

impl<'a> AnswerTable<'a> {
    /// The table of these replies. Fails if memory is refused.
    pub fn new(alloc: Global, replies: &[Reply<'a>]) -> Result<AnswerTable<'a>, AllocError>
        ensures { IfOk result (λ table. (start end : ℕ) →
            answer_in table start end ≡ answer_at start end (map shown_reply replies.now)) }
    {
        let mut answers = BTreeMap::new(alloc);
        for reply in replies {
            let range = (reply.start, reply.end);
            if answers.contains_key(&range) {
                continue;
            }
            answers.insert(range, reply.answer)?;
        }
        Ok(AnswerTable { answers })
    }

    /// The answer to the question with this range, if there is one.
    pub fn get(&self, start: usize, end: usize) -> Option<Answer<'a>>
        ensures { option_map shown_destination result ≡ answer_in self.now start end }
    {
        let answer = self.answers.get(&(start as u64, end as u64))?;
        *answer
    }
}
