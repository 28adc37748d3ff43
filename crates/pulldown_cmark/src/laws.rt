//! Theorems about readings and walks. Each is the contract of a function that does nothing.

ghost use Rattle.std.specs.Prelude.{◌≡◌, ◌≤◌, ◌+◌, ◌*◌, length, ℕ, false, List, [], None, Some, Ok, Err, Option, Result, map};
ghost use Rattle.std.specs.Iterator.{Drains, Yields};
ghost use Rattle.std.specs.declared.alloc.AllocError.{AllocError};
ghost use Rattle.std.specs.declared.ops.Range.{Range};
ghost use Rattle.cmark_grammar.specs.Answers.{Lookup};
ghost use Rattle.cmark_grammar.specs.BlockDocument.{BlockDocument};
ghost use Rattle.cmark_grammar.specs.Derivation.{Derives};
ghost use Rattle.cmark_grammar.specs.Event.{Ranged};
ghost use Rattle.cmark_grammar.specs.Headline.{profile_within};
ghost use Rattle.cmark_grammar.specs.Options.{Options as Extensions};
ghost use Rattle.cmark_grammar.specs.Questions.{Exchange};
ghost use Rattle.cmark_block_model.specs.Ranges.{count_tables};
ghost use Rattle.cmark_grammar.specs.SpanDocuments.{IsReading, Profile};
ghost use Rattle.cmark_inline_model.specs.GivenAnswers.{answers_of};
ghost use Rattle.cmark_text.specs.declared.event.Event.{Event as Given};
ghost use Rattle.cmark_parser.specs.Parsing.{AreZeroCopy, CutNone, Gives, GivesRanged, IsOver, IsRangedOver, ReadsWithin, callback_of, ranged_text, shown_item, walk_of};
ghost use Rattle.cmark_parser.specs.Walked.{IsBegun, IsBegunRanged, IsCutShort, IsCutShortRanged, IsDrained, IsDrainedRanged};
ghost use Rattle.cmark_parser.specs.declared.parse.OffsetIter.{OffsetIter as Ranges};
ghost use Rattle.cmark_parser.specs.declared.parse.Parser.{Parser as Walk};

pub use cmark_block_model::block_laws::{
    first_definition_stays, tables_are_rectangular, tight_lists_have_tight_paragraphs,
};
use cmark_inline::BrokenLinkCallback;
pub use cmark_inline_model::laws::{a_text_has_a_reading, events_are_balanced};
pub use cmark_inline_model::reading_laws::{
    events_are_few, highlight_that_is_off_changes_nothing, links_lead_by_definitions_and_answers,
    links_stand_apart, nothing_is_asked_when_nothing_is_left, options_that_are_off_read_nothing,
    questions_are_put_below_the_limit, questions_are_put_in_turn, ranges_cut_no_character,
    ranges_stand_in_order, references_stay_below_the_limit,
};
pub use cmark_merge::laws::merging_keeps_the_html;
pub use cmark_safe::laws::{refused_schemes_stay_refused, safe_events_have_safe_html};
use cmark_text::EntityLookup;

/// A text has one reading. Two readings with equal options, entities, expansion limits and answers of the callback, or both without one,
/// have equal events with equal ranges. They put equal questions.
pub fn one_reading()
    ensures { (text : List ℕ) (profile : Profile) (asked others : List Exchange)
        (first second : List Ranged) → answers_of asked ≡ answers_of others
        → IsReading text profile asked first → IsReading text profile others second
        → (first ≡ second) × (asked ≡ others) }
{}

/// A walk that reached its end has given the reading of its text, with the callback's questions and answers (`events`, `ranges`). Without a
/// callback it is the reading without one (`silent`). Texts are borrowed by the zero-copy law (`lent`), and ranges cut no character (`cut`).
pub fn a_walk_to_its_end_gives_a_reading<'a, E: EntityLookup, F: BrokenLinkCallback<'a> + Drop>()
    ensures events { (limit : ℕ) (parser : Walk E F) (text : List ℕ) (options : Extensions)
        (lookup : Lookup) (events : List Given)
        → ReadsWithin E.replacement limit text options lookup parser
        → (d : Drains (Gives F.answers E.replacement) parser (map Ok events))
        → IsDrained F.answers limit text options lookup parser d.0 events }
    ensures ranges { (limit : ℕ) (parser : Walk E F) (iter : Ranges E F) (text : List ℕ)
        (options : Extensions) (lookup : Lookup) (items : List (Given × Range ℕ))
        → walk_of iter ≡ parser → ReadsWithin E.replacement limit text options lookup parser
        → (d : Drains (GivesRanged F.answers E.replacement) iter (map Ok items))
        → IsDrainedRanged F.answers limit text options lookup iter d.0 items }
    ensures silent { (limit : ℕ) (parser : Walk E F) (iter : Ranges E F) (text : List ℕ)
        (options : Extensions) (lookup : Lookup) (items : List (Given × Range ℕ))
        → walk_of iter ≡ parser → callback_of parser ≡ None
        → ReadsWithin E.replacement limit text options lookup parser
        → Drains (GivesRanged F.answers E.replacement) iter (map Ok items)
        → IsReading text (profile_within limit options lookup false) [] (map shown_item items) }
    ensures lent { (iter : Ranges E F) (items : List (Given × Range ℕ))
        → Drains (GivesRanged F.answers E.replacement) iter (map Ok items)
        → AreZeroCopy (ranged_text iter) items }
    ensures cut { (iter : Ranges E F) (items : List (Given × Range ℕ))
        → Drains (GivesRanged F.answers E.replacement) iter (map Ok items)
        → CutNone (ranged_text iter) items }
{}

/// The events that a walk has given so far are the first ones of a reading, however the callback would answer from there on.
pub fn a_walk_gives_a_beginning<'a, E: EntityLookup, F: BrokenLinkCallback<'a> + Drop>()
    ensures events { (limit : ℕ) (parser last : Walk E F) (text : List ℕ) (options : Extensions)
        (lookup : Lookup) (events : List Given)
        → ReadsWithin E.replacement limit text options lookup parser
        → Yields (Gives F.answers E.replacement) parser (map Ok events) last
        → IsBegun F.answers limit text options lookup parser last events }
    ensures ranges { (limit : ℕ) (parser : Walk E F) (iter last : Ranges E F) (text : List ℕ)
        (options : Extensions) (lookup : Lookup) (items : List (Given × Range ℕ))
        → walk_of iter ≡ parser → ReadsWithin E.replacement limit text options lookup parser
        → Yields (GivesRanged F.answers E.replacement) iter (map Ok items) last
        → IsBegunRanged F.answers limit text options lookup iter last items }
{}

/// At no moment has a walk given more than eleven events for each byte of its text, and 524,288 for each table, whose rows are filled in with
/// cells.
pub fn given_events_are_few<'a, E: EntityLookup, F: BrokenLinkCallback<'a> + Drop>()
    ensures events { (limit : ℕ) (parser last : Walk E F) (text : List ℕ) (options : Extensions)
        (lookup : Lookup) (document : BlockDocument) (events : List Given)
        → Derives text options lookup document
        → ReadsWithin E.replacement limit text options lookup parser
        → Yields (Gives F.answers E.replacement) parser (map Ok events) last
        → length events ≤ 11 * length text + 524288 * count_tables document }
    ensures ranges { (limit : ℕ) (parser : Walk E F) (iter last : Ranges E F) (text : List ℕ)
        (options : Extensions) (lookup : Lookup) (document : BlockDocument)
        (items : List (Given × Range ℕ))
        → Derives text options lookup document → walk_of iter ≡ parser
        → ReadsWithin E.replacement limit text options lookup parser
        → Yields (GivesRanged F.answers E.replacement) iter (map Ok items) last
        → length items ≤ 11 * length text + 524288 * count_tables document }
{}

/// The events that a walk gave before memory was refused are the first ones of a reading, however the callback would answer from the refused
/// call on. The questions of the walk, with those of the refused call, are the first ones of a reading with these events, however the
/// callback would answer later ones. The next event of both is no end of an element, and the walk gives nothing more.
pub fn a_refused_walk_gives_a_beginning<'a, E: EntityLookup, F: BrokenLinkCallback<'a> + Drop>()
    ensures events { (limit : ℕ) (parser before last : Walk E F) (text : List ℕ)
        (options : Extensions) (lookup : Lookup) (events : List Given) (e : AllocError)
        → ReadsWithin E.replacement limit text options lookup parser
        → Yields (Gives F.answers E.replacement) parser (map Ok events) before
        → Gives F.answers E.replacement before (Some (Err e)) last
        → IsCutShort F.answers limit text options lookup parser last events }
    ensures ranges { (limit : ℕ) (parser : Walk E F) (iter before last : Ranges E F) (text : List ℕ)
        (options : Extensions) (lookup : Lookup) (items : List (Given × Range ℕ)) (e : AllocError)
        → walk_of iter ≡ parser → ReadsWithin E.replacement limit text options lookup parser
        → Yields (GivesRanged F.answers E.replacement) iter (map Ok items) before
        → GivesRanged F.answers E.replacement before (Some (Err e)) last
        → IsCutShortRanged F.answers limit text options lookup iter last items }
{}

/// A walk that is over gives nothing, and stays over.
pub fn a_walk_that_is_over_stays_over<'a, E: EntityLookup, F: BrokenLinkCallback<'a> + Drop>()
    ensures events { (old new : Walk E F) (given : Option (Result Given AllocError))
        → IsOver old → Gives F.answers E.replacement old given new → (given ≡ None) × IsOver new }
    ensures ranges { (old new : Ranges E F) (given : Option (Result (Given × Range ℕ) AllocError))
        → IsRangedOver old → GivesRanged F.answers E.replacement old given new
        → (given ≡ None) × IsRangedOver new }
{}
