//! Theorems about merged texts. Each is the contract of a function that does nothing.

ghost use Rattle.std.specs.Prelude.{◌≡◌, List, Ok, map};
ghost use Rattle.std.specs.declared.alloc.AllocError.{AllocError};
ghost use Rattle.cmark_grammar.specs.Event.{Event, Ranged};
ghost use Rattle.cmark_grammar.specs.Html.{html};
ghost use Rattle.cmark_merge.specs.Merge.{NoEmptyTexts, merge, merge_events, merge_ranged, ranged_of, text_of_ok, text_of_ranged};

/// Merging does not change the HTML of events without empty texts.
pub fn merging_keeps_the_html()
    ensures { (events : List Event) → NoEmptyTexts events
        → html (merge_events events) ≡ html events }
{}

/// Events are merged alike with and without ranges.
pub fn ranges_do_not_change_what_is_merged()
    ensures { (events : List Ranged)
        → map Ranged.event (merge_ranged events) ≡ merge_events (map Ranged.event events) }
{}

/// If no memory is refused, items are merged as their events are.
pub fn items_are_merged_as_their_events()
    ensures { (events : List Ranged)
        → merge (text_of_ok {E = AllocError} text_of_ranged) (λ t. Ok (ranged_of t)) (map Ok events)
        ≡ map Ok (merge_ranged events) }
{}
