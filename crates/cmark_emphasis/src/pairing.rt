//! Pairs the delimiter runs of a list of siblings (CommonMark 6.2).

ghost use Rattle.std.specs.Prelude.{◌≡◌, ◌&&◌, ◌++◌, ◌∷◌, ◌+◌, ◌-◌, ◌*◌, ◌^◌, ◌<◌, ◌≤◌, [], nat_lt, if◌then◌else◌, length, List, OnOk, IfOk, MatchOption, All, map};
ghost use Rattle.cmark_grammar.specs.Emphasis.{Sibling, agrees, pair_of, runs_of};
ghost use Rattle.cmark_inline_model.specs.EmphasisModel.{pairs_of};
ghost use Rattle.cmark_grammar.specs.Emphasis as grammar;
ghost use Rattle.cmark_emphasis.specs.Shown.{Fits, IsPlaced, open_runs, pairs_in, shown_pair, shown_placed, shown_run};
ghost use Rattle.cmark_emphasis.specs.Bottoms.{AreBottoms, IsStack, active_runs};
ghost use Rattle.cmark_emphasis.specs.Bottoms.{bottom_of};
ghost use Rattle.cmark_emphasis.specs.Counts.{IsKnown, IsKnownPlaced, examined_of_two, put_back, searches, total_of};
ghost use Rattle.cmark_emphasis.specs.Least.{AreStanding, HasSought, Standing, least_examined};
ghost use Rattle.cmark_emphasis.specs.Nearest.{IsNearest, with_opener, with_rest};
ghost use Rattle.cmark_emphasis.specs.Stack.{NoneAgree, course_from};

use crate::bottom::OpenersBottom;
use crate::run::{Pair, PlacedRun, Run};
use std::alloc::AllocError;

/// The rule of three: if one of the runs can both open and close, the sum of their lengths is not a multiple of 3, unless both lengths are.
/// The sum itself may exceed a `usize`.
fn keeps_rule_of_three(opener: Run, closer: Run) -> bool
    ensures { result ≡ grammar.keeps_rule_of_three (shown_run opener) (shown_run closer) }
{
    let either_can_both = opener.opens && opener.closes || closer.opens && closer.closes;
    !either_can_both || opener.run_length % 3 + closer.run_length % 3 != 3
}

/// Whether the delimiter is a tilde or an equals sign. Only runs of equal length pair for these.
fn is_tilde_or_equals(delimiter: u8) -> bool
    ensures { result ≡ grammar.is_tilde_or_equals delimiter }
{
    delimiter == b'~' || delimiter == b'='
}

/// Whether the run can close the open one.
#[tactic(auto, unfolding(cmark_grammar::specs::Emphasis::agrees))]
fn can_close(opener: Run, closer: Run) -> bool
    ensures { result ≡ agrees (shown_run opener) (shown_run closer) }
{
    closer.closes
        && closer.left > 0
        && opener.delimiter == closer.delimiter
        && (!is_tilde_or_equals(closer.delimiter) || opener.run_length == closer.run_length)
        && keeps_rule_of_three(opener, closer)
}

/// Counts `runs` open runs as examined.
fn count(examined: &mut u128, runs: usize)
    requires { examined.old + runs < 2 ^ 128 }
    ensures { examined.new ≡ examined.old + runs }
{
    *examined += runs as u128;
}

/// The index of the last open run that `closer` can close. The search ends at the bottom of its class, below which no run agrees. Counts
/// the runs that it examines.
fn nearest(
    closer: Run,
    stack: &[Run],
    bottoms: &OpenersBottom,
    examined: &mut u128,
) -> Option<usize>
    requires bottoms { AreBottoms bottoms.now stack.now }
    requires room { examined.old + length stack.now < 2 ^ 128 }
    ensures counts { MatchOption result
        (examined.new
        ≡ examined.old +
        (if searches (shown_run closer) then length stack.now - bottom_of bottoms.now
        (shown_run closer) else 0)) (λ i. examined.new ≡ examined.old + (length stack.now - i)) }
    ensures value { MatchOption result
        (NoneAgree (shown_run closer)
        (open_runs (active_runs bottoms.now.inactive_below stack.now)))
        (IsNearest (shown_run closer) bottoms.now.inactive_below stack.now) }
{
    if !closer.closes {
        return None;
    }
    if closer.left == 0 {
        return None;
    }
    let bottom = bottoms.below(closer);
    let mut i = stack.len();
    while i > bottom {
        i -= 1;
        let opener = stack[i];
        if can_close(opener, closer) {
            count(examined, stack.len() - i);
            return Some(i);
        }
    }
    count(examined, stack.len() - i);
    None
}

/// The run in its slots, with all its bytes left.
fn whole_run(placed: PlacedRun) -> Run
    requires { Fits placed }
    ensures value { shown_run result ≡ shown_placed placed }
    ensures placed { IsPlaced result }
{
    Run {
        run_length: placed.run_length,
        at: placed.slot,
        left: placed.run_length,
        delimiter: placed.delimiter,
        opens: placed.opens,
        closes: placed.closes,
    }
}

/// The pair of an open run and the run that closes it.
#[tactic(auto, unfolding(cmark_grammar::specs::Emphasis::pair_of))]
fn pair_up(opener: Run, closer: Run) -> Pair
    requires opener { IsPlaced opener }
    ensures { shown_pair result ≡ pair_of (shown_run opener) (shown_run closer) }
{
    Pair {
        delimiter: closer.delimiter,
        from: opener.at + opener.left,
        to: closer.at,
        count: opener.left.min(closer.left),
    }
}

/// The rest of the open run.
#[tactic(auto, unfolding(cmark_grammar::specs::Emphasis::rest_of_opener))]
fn rest_of_opener(opener: Run, closer: Run) -> Run
    requires opener { IsPlaced opener }
    ensures value { shown_run result
        ≡ grammar.rest_of_opener (shown_run opener) (shown_run closer) }
    ensures placed { IsPlaced result }
{
    Run {
        left: opener.left - opener.left.min(closer.left),
        ..opener
    }
}

/// The rest of the closing run.
#[tactic(auto, unfolding(cmark_grammar::specs::Emphasis::rest_of_closer))]
fn rest_of_closer(opener: Run, closer: Run) -> Run
    requires closer { IsPlaced closer }
    ensures value { shown_run result
        ≡ grammar.rest_of_closer (shown_run opener) (shown_run closer) }
    ensures placed { IsPlaced result }
{
    let count = opener.left.min(closer.left);
    Run {
        at: closer.at + count,
        left: closer.left - count,
        ..closer
    }
}

/// Puts the rest of a run on the stack, unless it is empty.
fn put_on(stack: &mut Vec<Run>, run: Run) -> Result<(), AllocError>
    requires run { IsPlaced run }
    requires stack { All IsPlaced stack.old.items }
    ensures placed { OnOk result (All IsPlaced stack.new.items) }
    ensures value { OnOk result (stack.new.items ≡ with_rest run stack.old.items) }
{
    if run.left == 0 {
        return Ok(());
    }
    stack.push(run)?;
    Ok(())
}

/// Puts the rest of a run, which has closed all that it can, on the stack, if it can open.
fn keep_open(stack: &mut Vec<Run>, rest: Run) -> Result<(), AllocError>
    requires run { IsPlaced rest }
    requires stack { All IsPlaced stack.old.items }
    ensures placed { OnOk result (All IsPlaced stack.new.items) }
    ensures value { OnOk result (stack.new.items ≡ with_opener rest stack.old.items) }
{
    if !rest.opens {
        return Ok(());
    }
    put_on(stack, rest)?;
    Ok(())
}

/// Closes all that the run can close, and returns its rest.
fn close(
    run: Run,
    stack: &mut Vec<Run>,
    bottoms: &mut OpenersBottom,
    pairs: &mut Vec<Pair>,
    examined: &mut u128,
) -> Result<Run, AllocError>
    requires run { IsPlaced run }
    requires known { IsKnown run }
    requires stack { IsStack bottoms.old stack.old.items }
    requires room { examined.old + 15 * length stack.old.items + 15 < 2 ^ 128 }
    ensures counts { examined.new + total_of bottoms.old ≤ examined.old + 15 * length
        stack.old.items + 15 }
    ensures pays { IfOk result
        (λ rest. examined.new + 15 * length stack.new.items + total_of
        bottoms.old ≤ examined.old + 15 * length stack.old.items + total_of bottoms.new + put_back
        rest.left) }
    ensures least { IfOk result
        (λ rest. (standing : List Standing) → AreStanding bottoms.old stack.old.items standing
        → HasSought (shown_run run) standing examined.old examined.new bottoms.new stack.new.items
        (shown_run rest)) }
    ensures stack { OnOk result (IsStack bottoms.new stack.new.items) }
    ensures rest { IfOk result IsPlaced }
    ensures value { IfOk result
        (λ rest. course_from (shown_run run)
        (active_runs bottoms.old.inactive_below stack.old.items) pairs.old.items
        ≡
        record { rest = shown_run rest; opens = open_runs (active_runs bottoms.new.inactive_below stack.new.items); pairs = map shown_pair pairs.new.items }) }
{
    let mut closer = run;
    while let Some(found) = nearest(closer, stack, bottoms, examined) {
        let opener = stack[found];
        stack.truncate(found);
        bottoms.lower(found);
        pairs.push(pair_up(opener, closer))?;
        put_on(stack, rest_of_opener(opener, closer))?;
        closer = rest_of_closer(opener, closer);
    }
    bottoms.note(closer, stack);
    Ok(closer)
}

/// Whether two runs that are the only ones of a list make a pair.
fn makes_a_pair(first: Run, second: Run) -> bool
    ensures { result
        ≡ (first.opens && (nat_lt 0 first.left && agrees (shown_run first) (shown_run second))) }
{
    first.opens && first.left > 0 && can_close(first, second)
}

/// The number of open runs that are examined for two runs that are the only ones of a list. The second examines the first, if it searches
/// and the first is open.
fn examined_of_two(first: Run, second: Run) -> usize
    ensures { result ≡ examined_of_two (shown_run first) (shown_run second) }
{
    if first.opens && first.left > 0 && second.closes && second.left > 0 {
        1
    } else {
        0
    }
}

/// The pair of two runs that are the only ones of a list, if they make one. `examined` counts the first run if the second examines it.
pub fn pair_two(first: PlacedRun, second: PlacedRun, examined: &mut u128) -> Option<Pair>
    requires first { Fits first }
    requires second { Fits second }
    requires room { examined.old < 2 ^ 127 }
    ensures few { examined.new ≤ examined.old + 1 }
    ensures least { examined.old + least_examined
        (shown_placed first ∷ (shown_placed second ∷ [])) ≤ examined.new }
    ensures value { (siblings : List Sibling)
        → runs_of siblings ≡ shown_placed first ∷ (shown_placed second ∷ [])
        → pairs_in result ≡ pairs_of siblings }
{
    let opener = whole_run(first);
    let closer = whole_run(second);
    count(examined, examined_of_two(opener, closer));
    if !makes_a_pair(opener, closer) {
        return None;
    }
    Some(pair_up(opener, closer))
}

/// Adds the pairs of these runs, in the order in which they close (CommonMark 6.2, GFM 6.5). They have to be the runs of one list of
/// siblings, in their order. A pair names the slots of its bytes. `stack` is working memory; its content does not matter. If memory is
/// refused, `pairs` may have some of the pairs.
///
/// `examined` counts the open runs that searches examine, at most fifteen for each run. A search that finds nothing is not repeated for a
/// run of its class (`OpenersBottom`). A search that finds an open run takes all runs that it passed off the stack.
pub fn pair_runs(
    runs: &[PlacedRun],
    stack: &mut Vec<Run>,
    pairs: &mut Vec<Pair>,
    examined: &mut u128,
) -> Result<(), AllocError>
    requires fits { All Fits runs.now }
    requires known { All IsKnownPlaced runs.now }
    requires room { examined.old < 2 ^ 127 }
    ensures few { examined.new ≤ examined.old + 15 * length runs.now }
    ensures least { OnOk result
        (examined.old + least_examined (map shown_placed runs.now) ≤ examined.new) }
    ensures value { OnOk result
        ((siblings : List Sibling) → runs_of siblings ≡ map shown_placed runs.now
        → map shown_pair pairs.new.items ≡ map shown_pair pairs.old.items ++ pairs_of siblings) }
{
    stack.clear();
    let mut bottoms = OpenersBottom::new();
    for placed in runs.iter() {
        let rest = close(whole_run(*placed), stack, &mut bottoms, pairs, examined)?;
        keep_open(stack, rest)?;
    }
    Ok(())
}
