//! The lines ahead, seen from inside the open containers.

ghost use Rattle.std.specs.Prelude.{◌≡◌, ◌<◌, ◌≤◌, ℕ, List, length, false, IfSome, not, true, ◌&&◌};
ghost use Rattle.cmark_grammar.specs.Leaves.{underlines};
ghost use Rattle.cmark_grammar.specs.Openings.{interrupts, is_none};
ghost use Rattle.cmark_values.specs.Shown.{shown_options};
ghost use Rattle.cmark_grammar.specs.Rows.{Row};
ghost use Rattle.cmark_leaf_nodes.specs.TextColumns.{StandInText};
ghost use Rattle.cmark_line_rules.specs.Rests.{IsIn, row_of};

use crate::state::Pass;
use cmark_line_rules::{LineRest, interrupts, underlines};
use cmark_values::{EntityLookup, Options};

impl<'a, E: EntityLookup> Pass<'a, E> {
    ghost use Rattle.cmark_blocks.specs.Ahead.{SeenInside, SeenInsideFirst, SeesNext, SeesNextInside, GoesOnWith};
    ghost use Rattle.cmark_blocks.specs.KeepingContainers.{IsAfter};

    /// The rest of a line inside all open containers, if they keep it.
    fn inside(&self, line: LineRest<'a>) -> Option<LineRest<'a>>
        requires { self.now.bare ≡ false }
        ensures seen { SeenInside E.replacement self.now line.entry result }
        ensures placed { (text : List ℕ) → IsIn text line.entry → IfSome result (IsIn text) }
        ensures following { IfSome result (IsAfter line.entry) }
    {
        if self.outer.is_empty() {
            return Some(line);
        }
        let (kept, rest) = self.kept_by(line);
        if kept < self.outer.len() {
            return None;
        }
        Some(rest)
    }

    /// The rest of a line inside the `count` outermost open containers, if they keep it.
    fn inside_first(&self, count: usize, line: LineRest<'a>) -> Option<LineRest<'a>>
        requires { count ≤ length self.now.outer.items }
        ensures seen { SeenInsideFirst E.replacement self.now count line.entry result }
        ensures placed { (text : List ℕ) → IsIn text line.entry → IfSome result (IsIn text) }
        ensures following { IfSome result (IsAfter line.entry) }
    {
        let mut at = 0;
        let mut run = 0;
        let mut rest = line;
        while at < count {
            rest = self.outer[at].container.keeps(false, rest)?;
            let (after, next) = self.after_kept(at, run);
            at = after.min(count);
            run = next;
        }
        Some(rest)
    }

    /// The line after this one, inside the `count` outermost open containers, if there is one and they keep it.
    pub(crate) fn line_after(&self, count: usize, last: LineRest<'a>) -> Option<LineRest<'a>>
        requires few { count ≤ length self.now.outer.items }
        requires within { IsIn self.now.text.now last }
        ensures next { SeesNextInside E.replacement self.now count last.entry result }
        ensures placed { IfSome result (IsIn self.now.text.now) }
        ensures in_text { IfSome result
            (λ rest. StandInText self.now.text.now (row_of rest).columns) }
        ensures further { IfSome result
            (λ rest. (row_of last.entry).line_end < (row_of rest).line_end) }
    {
        let start = last.line_end();
        if start == self.text.len() {
            return None;
        }
        let line = LineRest::new(self.text.as_bytes(), start);
        self.inside_first(count, line)
    }

    /// The line after this one, inside all open containers, if there is one and they keep it.
    #[inline]
    pub(crate) fn line_ahead(&self, last: LineRest<'a>) -> Option<LineRest<'a>>
        requires bare { self.now.bare ≡ false }
        requires within { IsIn self.now.text.now last }
        ensures next { SeesNext E.replacement self.now last.entry result }
        ensures placed { IfSome result (IsIn self.now.text.now) }
        ensures in_text { IfSome result
            (λ rest. StandInText self.now.text.now (row_of rest).columns) }
        ensures further { IfSome result
            (λ rest. (row_of last.entry).line_end < (row_of rest).line_end) }
    {
        let start = last.line_end();
        if start == self.text.len() {
            return None;
        }
        let line = LineRest::new(self.text.as_bytes(), start);
        self.inside(line)
    }

    /// The line after this one, inside all open containers, if it continues a paragraph there.
    pub(crate) fn text_ahead(&self, last: LineRest<'a>) -> Option<LineRest<'a>>
        requires bare { self.now.bare ≡ false }
        requires within { IsIn self.now.text.now last }
        ensures next { GoesOnWith E.replacement self.now last.entry result }
        ensures placed { IfSome result (IsIn self.now.text.now) }
        ensures in_text { IfSome result
            (λ rest. StandInText self.now.text.now (row_of rest).columns) }
        ensures further { IfSome result
            (λ rest. (row_of last.entry).line_end < (row_of rest).line_end) }
    {
        let rest = self.line_ahead(last)?;
        if is_text(rest, self.options) && !self.block_interrupts(self.outer.len(), rest) {
            Some(rest)
        } else {
            None
        }
    }
}

/// Whether the line, which lacks no prefix, continues a paragraph as its text.
fn is_text(rest: LineRest<'_>, options: Options) -> bool
    ensures { (ahead : List Row)
        → result
        ≡
        (not (interrupts (shown_options options) true (row_of rest.entry) ahead) && is_none
        (underlines (row_of rest.entry))) }
{
    if interrupts(rest, true, options) {
        return false;
    }
    match underlines(rest) {
        Some(_) => false,
        None => true,
    }
}
