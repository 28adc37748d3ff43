//! Counts of the steps that the searches of the inline pass take.

ghost use Rattle.std.specs.Prelude.{◌≡◌, ◌<◌, ◌+◌, ◌^◌};
ghost use Rattle.cmark_inline.specs.Paid.{HasRoom};

use crate::step::Sought;

/// The numbers of steps that searches have taken so far.
#[derive(Clone, Copy, Debug, PartialEq, Eq)]
pub struct Steps {
    /// The number of bytes passed in searches for the ends of comments, processing instructions, declarations and CDATA sections.
    pub html: u128,
    /// The number of open delimiter runs examined for closing ones.
    pub openers: u128,
    /// The number of runs of backticks and of dollar signs visited in searches for closing ones.
    pub closers: u128,
}

impl Steps {
    // Adds the steps of the searches in one leaf, in which `examined` open delimiter runs were examined.
    pub(crate) fn count(&mut self, sought: &Sought, examined: u128)
        requires room { HasRoom self.old }
        requires few { (sought.now.unclosed.passed + sought.now.runs.visited) +
            (sought.now.dollars.visited + examined) < 2 ^ 127 }
        ensures { self.new ≡ record {
          html = self.old.html + sought.now.unclosed.passed;
          openers = self.old.openers + examined;
          closers = self.old.closers + sought.now.runs.visited + sought.now.dollars.visited;
        } }
    {
        self.html += sought.unclosed.passed;
        self.openers += examined;
        self.closers += sought.runs.visited;
        self.closers += sought.dollars.visited;
    }
}
