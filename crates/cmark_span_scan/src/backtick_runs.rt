//! The runs of backticks of a text, so that the text is searched in vain at most once (CommonMark 6.1).

ghost use Rattle.std.specs.Prelude.{◌≡◌, ◌≢◌, ◌≤◌, ◌<◌, ◌+◌, ◌-◌, ◌^◌, ◌==◌, true, false, ℕ, List, None, Some, length, drop, get_or, if◌then◌else◌, IfOk, IfSome, OnErr, OnOk, option_map};
ghost use Rattle.std.specs.Str.{IsCharBoundary};
ghost use Rattle.cmark_grammar.specs.CodeSpans.{code_in};
ghost use Rattle.cmark_span_scan.specs.Backticks.{AreRunsOf, IsListed, IsReached, VisitsOn, end_of, entries_for, may_visit, runs_in};
ghost use Rattle.cmark_span_scan.specs.Shown.{shown_code, IsCodeAt, ClosesFirst};

use crate::code::{CodeSpan, backticks, code_span};
use memchr::memchr;
use std::alloc::{AllocError, Global};

/// The runs of backticks of one text. They are listed after the first search for a code span in vain. From then on it is known which
/// lengths have no closing run, and no search is in vain.
#[derive(Drop)]
pub struct BacktickRuns {
    /// For each length the offset of the last run of exactly this length; 0 if there is none.
    last: Vec<usize>,
    /// The offset after which all runs are listed; `None` as long as no search was in vain.
    from: Option<usize>,
    /// How many runs were looked at, in the text or by their table entry.
    pub visited: u128,
}

impl BacktickRuns {
    /// The runs of a text that was not searched yet. They take no memory.
    pub fn new(alloc: Global) -> BacktickRuns
        ensures runs { (text : List ℕ) → AreRunsOf text result }
        ensures reached { (at : ℕ) → IsReached at result }
        ensures visited { result.visited ≡ 0 }
        ensures from { result.from ≡ None }
    {
        BacktickRuns {
            last: Vec::new(alloc),
            from: None,
            visited: 0,
        }
    }

    /// The code span whose opening run of backticks is at the offset `at`, as `code_span` finds it. All calls have to be made with the same
    /// text. Fails only if memory is refused.
    pub fn code_span(&mut self, text: &str, at: usize) -> Result<Option<CodeSpan>, AllocError>
        requires place { IsCharBoundary text.now at }
        requires runs { AreRunsOf text.now self.old }
        requires room { self.old.visited < 2 ^ 127 }
        ensures runs { AreRunsOf text.now self.new }
        ensures visits { VisitsOn text.now at self.old self.new }
        ensures pays { IsReached at self.old → at < length text.now
            → IfOk result
            (λ found. self.new.visited + may_visit text.now (end_of at found)
            self.new ≤ self.old.visited + may_visit text.now at self.old) }
        ensures least { IfOk result
            (λ found. IfSome found (λ span. self.old.visited < self.new.visited)) }
        ensures value { IfOk result
            (λ found. option_map (shown_code text.now) found ≡ code_in (drop at text.now)) }
        ensures places { IfOk result (λ found. IfSome found (IsCodeAt text.now at)) }
        ensures first { IfOk result (λ found. IfSome found (ClosesFirst text.now at)) }
    {
        if self.lacks(text, at) {
            return Ok(None);
        }
        let found = code_span(text, at, &mut self.visited);
        if found.is_none() {
            self.list(text, at)?;
        }
        Ok(found)
    }

    /// Whether the table shows that no run closes the one at the offset `at`.
    fn lacks(&mut self, text: &str, at: usize) -> bool
        requires place { at ≤ length text.now }
        requires runs { AreRunsOf text.now self.old }
        requires room { self.old.visited < 2 ^ 127 }
        ensures value { result ≡ true → code_in (drop at text.now) ≡ None }
        ensures closes { result ≡ false
            → IfSome self.old.from (λ from. from ≤ at → code_in (drop at text.now) ≢ None) }
        ensures counts { self.new.visited ≡ self.old.visited + entries_for at self.old }
        ensures others { self.new ≡ record self.old { visited = self.new.visited } }
    {
        let Some(from) = self.from else {
            return false;
        };
        if at < from {
            return false;
        }
        self.visited += 1;
        let size = backticks(&text.as_bytes()[at..]);
        size >= self.last.len() || self.last[size] <= at
    }

    /// Lists the runs from the offset `from` on.
    fn list(&mut self, text: &str, from: usize) -> Result<(), AllocError>
        requires within { from ≤ length text.now }
        requires room { self.old.visited + length text.now < 2 ^ 128 }
        ensures runs { AreRunsOf text.now self.new }
        ensures few { self.new.visited ≤ self.old.visited + (length text.now - from) }
        ensures grows { self.old.visited ≤ self.new.visited }
        ensures from { OnOk result (self.new.from ≡ Some from) }
        ensures none { OnErr result (self.new.from ≡ None) }
        ensures counts { OnOk result
            (self.new.visited ≡ self.old.visited + runs_in false (drop from text.now)) }
    {
        self.from = None;
        self.last.clear();
        let bytes = text.as_bytes();
        let mut at = from;
        while let Some(found) = memchr(b'`', &bytes[at..]) {
            let start = at + found;
            let size = backticks(&bytes[start..]);
            self.visited += 1;
            add_run(&mut self.last, start, size)?;
            at = start + size;
        }
        self.from = Some(from);
        Ok(())
    }
}

/// Lists a run of `size` backticks at the offset `start`, which is after all runs that are listed.
fn add_run(last: &mut Vec<usize>, start: usize, size: usize) -> Result<(), AllocError>
    ensures entries { OnOk result
        ((k : ℕ)
        → get_or last.new.items k 0 ≡ (if k == size then start else get_or last.old.items k 0)) }
    ensures added { OnOk result (IsListed last.new.items start size) }
    ensures others { OnOk result
        ((place other : ℕ) → place ≤ start → IsListed last.old.items place other
        → IsListed last.new.items place other) }
{
    while last.len() <= size {
        last.push(0)?;
    }
    last[size] = start;
    Ok(())
}
