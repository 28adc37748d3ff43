//! How far down the stack the search for an open run goes (`openers_bottom` in the appendix of CommonMark).

ghost use Rattle.std.specs.Prelude.{◌≡◌, ◌+◌, ◌-◌, ◌*◌, ◌<◌, ◌≤◌, true, false, ℕ, List, [], IfSome, length, min, take, ◌⊎◌, if◌then◌else◌};
ghost use Rattle.cmark_grammar.specs.Emphasis as grammar;
ghost use Rattle.cmark_emphasis.specs.Bottoms.{AreBottoms, bottom_of, class_of, active_runs};
ghost use Rattle.cmark_emphasis.specs.Counts.{IsKnown, searches, total_of};
ghost use Rattle.cmark_emphasis.specs.Least.{IsOfKind};
ghost use Rattle.cmark_emphasis.specs.Shown.{shown_run, open_runs};
ghost use Rattle.cmark_emphasis.specs.Stack.{NoneAgree, still_open};

use crate::run::Run;

/// Whether the delimiter is a tilde or a caret.
fn is_tilde_or_caret(delimiter: u8) -> bool
    ensures { result ≡ grammar.is_tilde_or_caret delimiter }
{
    delimiter == b'~' || delimiter == b'^'
}

/// Whether the run, whose search found nothing, makes all open tildes and carets inactive.
#[tactic(auto, unfolding(cmark_grammar::specs::Emphasis::deactivates))]
fn deactivates(closer: Run) -> bool
    ensures { result ≡ grammar.deactivates (shown_run closer) }
{
    closer.closes && closer.left > 0 && is_tilde_or_caret(closer.delimiter)
}

/// The class of a run of `*`, `_` or `=`. An open run agrees with all closing runs of a class, or with none. For `*` and `_` this is
/// because of the rule of three, and for `=` because all runs of `=` agree.
fn class_of(run: Run) -> Option<usize>
    ensures value { result ≡ class_of (shown_run run) }
    ensures within { IfSome result (λ class. class < 13) }
{
    let both = if run.opens && run.closes { 3 } else { 0 };
    let rank = both + run.run_length % 3;
    match run.delimiter {
        b'*' => Some(rank),
        b'_' => Some(6 + rank),
        b'=' if run.run_length == 2 => Some(12),
        _ => None,
    }
}

/// Heights of the stack of open runs below which a search need not look.
#[derive(Clone, Copy)]
pub struct OpenersBottom {
    /// For each class of runs of `*`, `_` or `=` a height of the stack. Below it no open run agrees with a closing run of the class.
    heights: [usize; 13],
    /// A height of the stack. Below it all tildes and carets are inactive: they are on the stack, but no longer open.
    inactive_below: usize,
}

impl OpenersBottom {
    /// The bottoms of an empty stack.
    pub fn new() -> OpenersBottom
        ensures bottoms { AreBottoms result [] }
        ensures total { total_of result ≡ 0 }
    {
        OpenersBottom {
            heights: [0; 13],
            inactive_below: 0,
        }
    }

    /// The height at which the search of this run ends.
    pub fn below(&self, closer: Run) -> usize
        ensures { result ≡ bottom_of self.now (shown_run closer) }
    {
        match class_of(closer) {
            Some(class) => self.heights[class],
            None if is_tilde_or_caret(closer.delimiter) => self.inactive_below,
            None => 0,
        }
    }

    /// Takes account of a stack that was cut to this height.
    pub fn lower(&mut self, height: usize)
        ensures lows { (other : grammar.Run) → bottom_of self.new other ≤ bottom_of self.old other }
        ensures inactive { self.new.inactive_below ≡ min self.old.inactive_below height }
        ensures falls { (stack : List Run) → AreBottoms self.old stack
            → total_of self.old ≤ total_of self.new + 14 * (length stack - height) }
        ensures bottoms { (stack : List Run) → AreBottoms self.old stack
            → AreBottoms self.new (take height stack) }
        ensures opens { (stack : List Run)
            → active_runs self.new.inactive_below (take height stack)
            ≡ active_runs self.old.inactive_below (take height stack) }
    {
        for class in 0..13 {
            self.heights[class] = self.heights[class].min(height);
        }
        self.inactive_below = self.inactive_below.min(height);
    }

    /// Takes account of a search of this run that found no open run. If the run is a tilde or a caret that can close, it makes all open
    /// ones inactive.
    pub fn note(&mut self, closer: Run, stack: &[Run])
        requires bottoms { AreBottoms self.old stack.now }
        requires none { NoneAgree (shown_run closer)
            (open_runs (active_runs self.old.inactive_below stack.now)) }
        ensures rises { IsKnown closer → searches (shown_run closer) ≡ true
            → total_of self.new + bottom_of self.old (shown_run closer)
            ≡ total_of self.old + length stack.now }
        ensures kinds { (other : grammar.Run) (k : ℕ) → k < bottom_of self.new other
            → (k < bottom_of self.old other) ⊎ IsOfKind (shown_run closer) other }
        ensures inactive { self.new.inactive_below
            ≡
            (if grammar.deactivates (shown_run closer) then length stack.now else
            self.old.inactive_below) }
        ensures rests { searches (shown_run closer) ≡ false → self.new ≡ self.old }
        ensures bottoms { AreBottoms self.new stack.now }
        ensures opens { open_runs (active_runs self.new.inactive_below stack.now)
            ≡ still_open (shown_run closer)
            (open_runs (active_runs self.old.inactive_below stack.now)) }
    {
        if deactivates(closer) {
            self.inactive_below = stack.len();
            return;
        }
        if closer.closes && closer.left > 0 {
            if let Some(class) = class_of(closer) {
                self.heights[class] = stack.len();
            }
        }
    }
}
