//! Delimiter runs among the slots (CommonMark 6.2).

ghost use Rattle.std.specs.Prelude.{◌≡◌, ◌+◌, ◌*◌, ◌^◌, ◌<◌, ◌≤◌, ◌++◌, ◌∷◌, ℕ, [], drop, get_or, length, take, IsOk, OnOk};
ghost use Rattle.cmark_emphasis.specs.Least.{least_examined};
ghost use Rattle.cmark_emphasis.specs.declared.run.PlacedRun.{PlacedRun as Placed};
ghost use Rattle.cmark_grammar.specs.Emphasis.{runs_of};
ghost use Rattle.cmark_values.specs.Shown.{shown_options};
ghost use Rattle.cmark_slots.specs.MarkedSlots.{AreWhole, HaveBytes, siblings_from};
ghost use Rattle.cmark_slots.specs.PairSlots.{AreResolved, CanResolve};
ghost use Rattle.cmark_slots.specs.Slots.{bytes_of};

use crate::pair::{write_pair, write_pairs};
use crate::slot::Slot;
use cmark_emphasis::{Pair, PlacedRun, Run, pair_runs, pair_two};
use cmark_values::Options;
use std::alloc::{AllocError, Global};

/// The delimiter runs of the siblings that are not resolved, and working memory for their pairing.
#[derive(Drop)]
pub struct Delimiters {
    placed: Vec<PlacedRun>,
    stack: Vec<Run>,
    pairs: Vec<Pair>,
    /// The number of open runs that were examined to pair runs, since the last `clear`.
    pub examined: u128,
}

impl Delimiters {
    pub fn new(alloc: Global) -> Delimiters {
        Delimiters {
            placed: Vec::new(alloc),
            stack: Vec::new(alloc),
            pairs: Vec::new(alloc),
            examined: 0,
        }
    }

    pub fn clear(&mut self)
        ensures placed { self.new.placed.items ≡ [] }
        ensures examined { self.new.examined ≡ 0 }
    {
        self.placed.clear();
        self.examined = 0;
    }

    /// The number of runs.
    pub fn len(&self) -> usize
        ensures { result ≡ length self.now.placed.items }
    {
        self.placed.len()
    }

    pub fn push(&mut self, run: PlacedRun) -> Result<(), AllocError>
        ensures bytes { OnOk result
            (bytes_of self.new.placed.items ≡ bytes_of self.old.placed.items + run.run_length) }
        ensures placed { OnOk result
            (self.new.placed.items
            ≡ self.old.placed.items ++ (run ∷ [])) }
        ensures examined { self.new.examined ≡ self.old.examined }
    {
        self.placed.push(run)?;
        Ok(())
    }

    /// The index of the first run, from `first` on, whose slot is at or after the index `slot`; the number of runs if there is none.
    pub fn first_from(&self, first: usize, slot: usize) -> usize
        requires { first ≤ length self.now.placed.items }
        ensures order { first ≤ result }
        ensures within { result ≤ length self.now.placed.items }
        ensures before { (k : ℕ) (d : Placed) → first ≤ k → k < result
            → (get_or self.now.placed.items k d).slot < slot }
        ensures following { (d : Placed) → result < length self.now.placed.items
            → slot ≤ (get_or self.now.placed.items result d).slot }
    {
        let mut at = first;
        while at < self.placed.len() && self.placed[at].slot < slot {
            at += 1;
        }
        at
    }

    /// Removes the runs from the index `first` on.
    pub fn truncate(&mut self, first: usize)
        ensures placed { self.new.placed.items ≡ take first self.old.placed.items }
        ensures examined { self.new.examined ≡ self.old.examined }
        ensures bytes { bytes_of self.new.placed.items ≤ bytes_of self.old.placed.items }
    {
        self.placed.truncate(first);
    }

    /// Resolves the runs from the index `first` on, and removes them. They have to be the runs of one list of siblings, and each of their
    /// bytes a text in a slot of its own.
    #[inline(always)]
    pub fn resolve(
        &mut self,
        first: usize,
        options: Options,
        slots: &mut Vec<Slot>,
    ) -> Result<(), AllocError>
        requires first { first ≤ length self.old.placed.items }
        requires can { CanResolve slots.old.items (drop first self.old.placed.items) }
        requires room { self.old.examined < 2 ^ 127 }
        ensures examined { self.new.examined ≤ self.old.examined + 15 * length
            (drop first self.old.placed.items) }
        ensures least { OnOk result
            (self.old.examined + least_examined
            (runs_of (siblings_from 0 (drop first self.old.placed.items))) ≤ self.new.examined) }
        ensures resolved { OnOk result
            (AreResolved (shown_options options) (drop first self.old.placed.items) slots.old.items
            slots.new.items) }
        ensures runs { OnOk result
            (bytes_of self.new.placed.items ≤ bytes_of self.old.placed.items) }
        ensures placed { OnOk result (self.new.placed.items ≡ take first self.old.placed.items) }
        ensures succeeds { length self.old.placed.items ≤ first → IsOk result }
    {
        if self.placed.len() <= first {
            return Ok(());
        }
        self.write(first, options, slots)?;
        self.placed.truncate(first);
        Ok(())
    }

    // Pairs the runs from the index `first` on, and writes the spans of the pairs into the slots. Most lists have two runs, or none.
    fn write(
        &mut self,
        first: usize,
        options: Options,
        slots: &mut Vec<Slot>,
    ) -> Result<(), AllocError>
        requires first { first ≤ length self.old.placed.items }
        requires can { CanResolve slots.old.items (drop first self.old.placed.items) }
        requires room { self.old.examined < 2 ^ 127 }
        ensures examined { self.new.examined ≤ self.old.examined + 15 * length
            (drop first self.old.placed.items) }
        ensures least { OnOk result
            (self.old.examined + least_examined
            (runs_of (siblings_from 0 (drop first self.old.placed.items))) ≤ self.new.examined) }
        ensures resolved { OnOk result
            (AreResolved (shown_options options) (drop first self.old.placed.items) slots.old.items
            slots.new.items) }
        ensures placed { self.new.placed ≡ self.old.placed }
    {
        match runs_from(self.placed.as_slice(), first) {
            [] | [_] => Ok(()),
            [one, other] => {
                write_two(*one, *other, &mut self.examined, options, slots);
                Ok(())
            }
            runs => {
                self.pairs.clear();
                pair_runs(runs, &mut self.stack, &mut self.pairs, &mut self.examined)?;
                write_pairs(self.pairs.as_slice(), options, slots);
                Ok(())
            }
        }
    }
}

/// The runs from the index `first` on.
fn runs_from(placed: &[PlacedRun], first: usize) -> &[PlacedRun]
    requires { first ≤ length placed.now }
    ensures value { result.now ≡ drop first placed.entry.now }
{
    &placed[first..]
}

/// Writes the spans of two runs that are the only ones of a list of siblings.
fn write_two(
    one: PlacedRun,
    other: PlacedRun,
    examined: &mut u128,
    options: Options,
    slots: &mut Vec<Slot>,
)
    requires bytes { HaveBytes slots.old.items 0 0 (one ∷ (other ∷ [])) }
    requires whole { AreWhole slots.old.items }
    requires room { examined.old < 2 ^ 127 }
    ensures few { examined.new ≤ examined.old + 1 }
    ensures least { examined.old + least_examined
        (runs_of (siblings_from 0 (one ∷ (other ∷ [])))) ≤ examined.new }
    ensures resolved { AreResolved (shown_options options) (one ∷ (other ∷ [])) slots.old.items
        slots.new.items }
{
    if let Some(pair) = pair_two(one, other, examined) {
        write_pair(pair, options, slots);
    }
}
