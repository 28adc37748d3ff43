//! Theorems about a text that grows. Each is the contract of a function that does nothing.

ghost use Rattle.std.specs.Prelude.{◌≡◌, ℕ, ◌≤◌, ◌<◌, Bool, true, false, ◌||◌, List, [], ◌∷◌, ◌++◌, length, take, Option, None};
ghost use Rattle.cmark_grammar.specs.Answers.{Lookup};
ghost use Rattle.cmark_grammar.specs.BlockDocument.{Reference};
ghost use Rattle.cmark_grammar.specs.Blocks.{Blocks, Nil, join};
ghost use Rattle.cmark_block_model.specs.BlocksByLine.{OpenLines, Between as BetweenBlocks};
ghost use Rattle.cmark_block_model.specs.BlocksModel.{blocks, place_after};
ghost use Rattle.cmark_block_model.specs.DocumentModel.{document};
ghost use Rattle.cmark_grammar.specs.DefinitionLists.{begins_definition};
ghost use Rattle.cmark_grammar.specs.Event.{Event, Ranged};
ghost use Rattle.cmark_grammar.specs.Html.{moved_all, pieces_from, at_line_start, pieces, last_piece, html};
ghost use Rattle.cmark_grammar.specs.Labels.{fold};
ghost use Rattle.cmark_grammar.specs.Openings.{opens_at};
ghost use Rattle.cmark_grammar.specs.Places.{Apart};
ghost use Rattle.cmark_grammar.specs.LeafReading.{Between};
ghost use Rattle.cmark_grammar.specs.Lines.{lines};
ghost use Rattle.cmark_grammar.specs.Options.{Options};
ghost use Rattle.cmark_grammar.specs.Questions.{Exchange, IsNext, Plan};
ghost use Rattle.cmark_grammar.specs.Readers.{Reader};
ghost use Rattle.cmark_grammar.specs.References.{first_with, references};
ghost use Rattle.cmark_grammar.specs.Rows.{Row, rows, rows_from, shown};
ghost use Rattle.cmark_grammar.specs.SpanDocuments.{Left, Profile, Segment, ReadsAll, segments, footnote_labels, has_label, reader_of, at_start, IsReading};
ghost use Rattle.cmark_inline_model.specs.PlannedAnswers.{AreByPlan};
ghost use Rattle.cmark_stream_model.specs.Continued.{Agree, reader_with, AreKept, AreUndefined, AskAlike, AskFootnotesAlike, DefinitionsStay, definitions_of, footnotes_of, with_more, with_limit_more};
ghost use Rattle.cmark_block_model.specs.Tails.{document_after};
ghost use Rattle.cmark_stream_model.specs.Tails.{IsJoinedAt};
ghost use Rattle.cmark_stream_model.specs.Settled.{IsSettledAt, StaysJoinedAt};
ghost use Rattle.cmark_stream_model.specs.Undefined.{HasNoDefinitions, IsReadAlone};
ghost use Rattle.cmark_stream_model.specs.Growth.{is_blank, ends_whole, fed_before, open_after, Parts, blocks_at, IsCut, begins_apart, last_list, continues, may_continue, document_before, document_of_tail, ReadInTurn, are_resolved, AreDecided, HasNoMetadata, definition_or, is_outside_of_lists, IsJoined};

/// The blocks before a cut are the blocks of the first bytes alone, whatever follows. The blocks after it are those of the tail's
/// lines alone.
pub fn blocks_before_a_cut_stay()
    ensures { (options : Options) (front tail : List ℕ) (r : Row) (rs : List Row)
        → ends_whole front tail ≡ true → rows_from (length front) (lines tail) ≡ r ∷ rs
        → IsCut options front r rs
        → blocks options (front ++ tail)
        ≡ join (blocks options front) (blocks_at options (length front) tail) }
{}

/// Some lines look at no later line, and others have a blank line after them. If they also decide by themselves which of them begin
/// metadata, no other lines after them change their effect.
pub fn resolved_lines_are_settled()
    ensures { (options : Options) (front : List ℕ) (tail : List Row)
        → are_resolved (rows front) ≡ true
        → AreDecided options tail (BetweenBlocks Nil) (rows front)
        → (other : List Row)
        → fed_before options other (BetweenBlocks Nil) (rows front) ≡ open_after options front }
{}

/// If no metadata is read, lines decide by themselves which of them begin metadata: none of them does.
pub fn lines_without_metadata_are_decided()
    ensures { (options : Options) → HasNoMetadata options
        → (tail : List Row) (state : OpenLines) (lines : List Row)
        → AreDecided options tail state lines }
{}

/// If the tail continues no list, the document of a text with a cut has two parts. They are the document of the bytes before the cut, and
/// the document of the tail.
pub fn documents_are_cut()
    ensures { (options : Options) (lookup : Lookup) (front tail : List ℕ) (r : Row) (rs : List Row)
        → ends_whole front tail ≡ true → rows_from (length front) (lines tail) ≡ r ∷ rs
        → IsCut options front r rs → begins_apart (blocks_at options (length front) tail) ≡ true
        → IsJoined options lookup front tail }
{}

/// The definitions of a joined document are those of the first part, followed by those of the tail, and so are its
/// footnotes.
pub fn tables_are_cut()
    ensures { (options : Options) (lookup : Lookup) (front tail : List ℕ)
        → IsJoined options lookup front tail
        →
        (references (document (front ++ tail) options lookup)
        ≡ references (document_before options lookup (front ++ tail) front) ++ references
        (document_of_tail options lookup (front ++ tail) (length front) tail))
        ×
        (footnote_labels (document (front ++ tail) options lookup)
        ≡ footnote_labels (document_before options lookup (front ++ tail) front) ++ footnote_labels
        (document_of_tail options lookup (front ++ tail) (length front) tail)) }
{}

/// A reading of a joined document consists of the events of the first part, followed by the events of the tail. The tail is read with
/// the rest of the reference expansion limit, and after the questions of the first part.
pub fn readings_are_read_in_turn()
    ensures { (profile : Profile) (front tail : List ℕ) (exchanges : List Exchange)
        (events : List Ranged) → IsJoined profile.options profile.lookup front tail
        → (h : IsReading (front ++ tail) profile exchanges events)
        → ReadInTurn (reader_of (front ++ tail) profile h.document) (IsNext exchanges)
        (segments (document_before profile.options profile.lookup (front ++ tail) front))
        (segments
        (document_of_tail profile.options profile.lookup (front ++ tail) (length front) tail))
        (at_start profile) events h.after }
{}

/// A label that has a definition before a cut keeps it, whatever follows (CommonMark 4.7). Any other label has the first definition
/// after the cut. This law holds for footnotes too.
pub fn definitions_stay()
    ensures definitions { (folded : List ℕ) (earlier later : List Reference)
        → first_with fold folded (earlier ++ later)
        ≡ definition_or (first_with fold folded earlier) (first_with fold folded later) }
    ensures footnotes { (folded : List ℕ) (earlier later : List (List ℕ))
        → has_label folded (earlier ++ later)
        ≡ (has_label folded earlier || has_label folded later) }
{}

/// The HTML of two lists of events is the pieces of the first, followed by the pieces of the second. The writer then begins the second with
/// the state that it has after the first.
pub fn html_is_cut()
    ensures { (earlier later : List Event)
        → html (earlier ++ later)
        ≡ pieces earlier ++
        (pieces_from (moved_all at_line_start earlier) later ++ last_piece
        (moved_all (moved_all at_line_start earlier) later).image) }
{}

/// A line without a definition's marker begins the same block after other blocks as at the beginning of a text.
pub fn lines_begin_apart()
    ensures { (options : Options) (before : Blocks) (r : Row) (ahead : List Row)
        → begins_definition options r ≡ false
        → opens_at options (place_after Apart before) r ahead ≡ opens_at options Apart r ahead }
{}

/// Leaves among the first bytes of a text keep their events if the text grows. The questions, and the rest of the reference
/// expansion limit, do not change then. The labels that the leaves may look up must keep their definitions.
pub fn settled_leaves_are_read_as_before()
    ensures { (profile : Profile) (size : ℕ) (s t : List ℕ) → Agree size s t
        → (d e : List ℕ → Option Reference) (f g : List ℕ → Bool) → size ≤ length s
        → (exchanges : List Exchange) (segments : List Segment) (before after : Between)
        (events : List Ranged) → AreKept profile size s d e f g segments
        → ReadsAll (reader_with profile s d f) (IsNext exchanges) segments before events after
        → ReadsAll (reader_with profile t e g) (IsNext exchanges) segments before events after }
{}

/// The document of the bytes before a cut is the document of these bytes alone, whatever follows.
pub fn documents_stay()
    ensures { (options : Options) (lookup : Lookup) (front tail : List ℕ)
        → document_before options lookup (front ++ tail) front ≡ document front options lookup }
{}

/// The bytes before a cut keep their events, whatever follows. The questions, and the rest of the reference expansion limit, are
/// then equal too. The labels that their leaves may look up must keep their definitions.
pub fn settled_events_stay()
    ensures { (profile : Profile) (front tail other : List ℕ) (d e : List ℕ → Option Reference)
        (f g : List ℕ → Bool)
        → (exchanges : List Exchange) (before after : Between) (events : List Ranged)
        → AskAlike profile (front ++ tail) d e f g
        (segments (document front profile.options profile.lookup))
        → ReadsAll (reader_with profile (front ++ tail) d f) (IsNext exchanges)
        (segments (document front profile.options profile.lookup)) before events after
        → ReadsAll (reader_with profile (front ++ other) e g) (IsNext exchanges)
        (segments (document front profile.options profile.lookup)) before events after }
{}

/// With a callback, the bytes before a cut keep their events under one condition. No question that was asked there is about a
/// label that has a definition now. A label that was found keeps its definition, so only the labels of the questions matter. The footnotes
/// must be equal.
pub fn questions_decide_which_events_stay()
    ensures { (profile : Profile) (front tail other : List ℕ) (d e : List ℕ → Option Reference)
        (f g : List ℕ → Bool) → profile.has_callback ≡ true → DefinitionsStay d e
        → (exchanges : List Exchange) → AreUndefined e exchanges
        → (before after : Between) (events : List Ranged)
        → AskFootnotesAlike profile (front ++ tail) d f g
        (segments (document front profile.options profile.lookup))
        → ReadsAll (reader_with profile (front ++ tail) d f) (IsNext exchanges)
        (segments (document front profile.options profile.lookup)) before events after
        → ReadsAll (reader_with profile (front ++ other) e g) (IsNext exchanges)
        (segments (document front profile.options profile.lookup)) before events after }
{}

/// The law of a text that grows. Two texts have the same first bytes, and both documents are joined after them. The labels that the leaves
/// of the first bytes may look up lead to the same definitions. Then both readings begin with the events of the first bytes.
pub fn readings_share_the_settled_events()
    ensures { (profile : Profile) (front one other : List ℕ) (exchanges : List Exchange)
        (first second : List Ranged) → IsJoined profile.options profile.lookup front one
        → IsJoined profile.options profile.lookup front other
        → (h : IsReading (front ++ one) profile exchanges first)
        → (k : IsReading (front ++ other) profile exchanges second)
        → AskAlike profile (front ++ one) (definitions_of h.document) (definitions_of k.document)
        (footnotes_of h.document) (footnotes_of k.document)
        (segments (document front profile.options profile.lookup))
        → (settled later others : List Ranged) × (first ≡ settled ++ later)
        × (second ≡ settled ++ others) }
{}

/// The law of a text that grows, if the answers of the callback are those of a plan. A callback has a plan if it returns one answer each
/// time it is asked a question.
pub fn readings_by_a_plan_share_the_settled_events()
    ensures { (plan : Plan) (profile : Profile) (front one other : List ℕ)
        (asked others_asked : List Exchange) (first second : List Ranged)
        → IsJoined profile.options profile.lookup front one
        → IsJoined profile.options profile.lookup front other → AreByPlan plan [] asked
        → AreByPlan plan [] others_asked → (h : IsReading (front ++ one) profile asked first)
        → (k : IsReading (front ++ other) profile others_asked second)
        → AskAlike profile (front ++ one) (definitions_of h.document) (definitions_of k.document)
        (footnotes_of h.document) (footnotes_of k.document)
        (segments (document front profile.options profile.lookup))
        → (settled later others : List Ranged) × (first ≡ settled ++ later)
        × (second ≡ settled ++ others) }
{}

/// If no definition lists are read, a tail continues no list if its first line begins no list item.
pub fn tails_continue_no_list()
    ensures { (options : Options) → options.definition_list ≡ false
        → (at : ℕ) (tail : List ℕ) (r : Row) (rs : List Row) → rows_from at (lines tail) ≡ r ∷ rs
        → is_outside_of_lists (opens_at options Apart r (shown rs)) ≡ true
        → begins_apart (blocks_at options at tail) ≡ true }
{}

/// A test finds cuts. The line has no definition's marker, and begins a block outside of all open ones. Each earlier line looks at no later line
/// or has a blank line after it. No earlier line may begin metadata whose end may still come.
pub fn tested_cuts_are_cuts()
    ensures { (options : Options) (front : List ℕ) (r : Row) (rs : List Row)
        → begins_definition options r ≡ false
        → are_resolved (rows front) ≡ true
        → AreDecided options (r ∷ rs) (BetweenBlocks Nil) (rows front)
        → Parts options (open_after options front) r (shown rs)
        → is_blank (opens_at options Apart r (shown rs)) ≡ false → IsCut options front r rs }
{}

/// If some of the reference expansion limit is left after a reading, a greater limit changes neither the events nor the questions.
/// The increase is left in addition.
pub fn a_greater_limit_reads_the_same()
    ensures { (reader : Reader) (more : ℕ) (exchanges : List Exchange) (segments : List Segment)
        (before after : Between) (events : List Ranged) → 0 < after.expansion_left
        → ReadsAll reader (IsNext exchanges) segments before events after
        → ReadsAll reader (IsNext exchanges) segments (with_more more before) events
        (with_more more after) }
{}

/// The law of a text that grows, if the second text has a greater limit, as a longer text has by default. Some of the first limit
/// must be left after the settled events.
pub fn readings_share_with_a_greater_limit()
    ensures { (profile : Profile) (more : ℕ) (front one other : List ℕ) (exchanges : List Exchange)
        (first second : List Ranged) → IsJoined profile.options profile.lookup front one
        → IsJoined profile.options profile.lookup front other
        → (h : IsReading (front ++ one) profile exchanges first)
        → (k : IsReading (front ++ other) (with_limit_more more profile) exchanges second)
        → AskAlike profile (front ++ one) (definitions_of h.document) (definitions_of k.document)
        (footnotes_of h.document) (footnotes_of k.document)
        (segments (document front profile.options profile.lookup))
        →
        ((events : List Ranged) (between : Between)
        → ReadsAll (reader_of (front ++ one) profile h.document) (IsNext exchanges)
        (segments (document front profile.options profile.lookup)) (at_start profile) events between
        → 0 < between.expansion_left)
        → (settled later others : List Ranged) × (first ≡ settled ++ later)
        × (second ≡ settled ++ others) }
{}

/// A joined document is joined at the offset after the first part.
pub fn joined_documents_are_joined_at_an_offset()
    ensures { (options : Options) (lookup : Lookup) (front tail : List ℕ)
        → IsJoined options lookup front tail
        → IsJoinedAt options lookup (front ++ tail) (length front) }
{}

/// If a document is joined at an offset, its events and leaves are in two parts. The first are those of the bytes before the offset, and
/// the second those of the lines after it. Its definitions and its footnotes are in two such parts too.
pub fn joined_documents_are_read_in_parts()
    ensures segments { (text : List ℕ) (options : Options) (lookup : Lookup) (from : ℕ)
        → IsJoinedAt options lookup text from
        → segments (document text options lookup)
        ≡ segments (document (take from text) options lookup) ++ segments
        (document_after text options lookup from) }
    ensures definitions { (text : List ℕ) (options : Options) (lookup : Lookup) (from : ℕ)
        → IsJoinedAt options lookup text from
        → references (document text options lookup)
        ≡ references (document (take from text) options lookup) ++ references
        (document_after text options lookup from) }
    ensures footnotes { (text : List ℕ) (options : Options) (lookup : Lookup) (from : ℕ)
        → IsJoinedAt options lookup text from
        → footnote_labels (document text options lookup)
        ≡ footnote_labels (document (take from text) options lookup) ++ footnote_labels
        (document_after text options lookup from) }
{}

/// If a document is joined at an offset, a reading of the bytes before it can be continued. A reading of the lines after it, with the rest
/// of the reference expansion limit, completes a reading of the text. No questions are asked.
pub fn readings_continue_at_an_offset()
    ensures { (text : List ℕ) (profile : Profile) (from : ℕ)
        → IsJoinedAt profile.options profile.lookup text from
        → (first later : List Ranged) (between : Between)
        → ReadsAll (reader_of text profile (document text profile.options profile.lookup))
        (IsNext []) (segments (document (take from text) profile.options profile.lookup))
        (at_start profile) first between → between.asked ≡ []
        → Left (reader_of text profile (document text profile.options profile.lookup))
        (segments (document_after text profile.options profile.lookup from)) between.expansion_left
        [] later → IsReading text profile [] (first ++ later) }
{}

/// The document is joined at a cut unless the tail continues the list before it. The list before a cut and a list of another character after it
/// are two lists.
pub fn documents_are_cut_between_lists()
    ensures { (options : Options) (lookup : Lookup) (front tail : List ℕ) (r : Row) (rs : List Row)
        → ends_whole front tail ≡ true → rows_from (length front) (lines tail) ≡ r ∷ rs
        → IsCut options front r rs
        → continues (last_list None (blocks_at options 0 front))
        (blocks_at options (length front) tail) ≡ false → IsJoined options lookup front tail }
{}

/// The first line of a tail decides whether the tail may continue a list. If definition lists are read, a paragraph may continue one: a later
/// line may make it a title.
pub fn first_lines_decide_about_lists()
    ensures { (options : Options) (list : Option ℕ) (at : ℕ) (tail : List ℕ) (r : Row)
        (rs : List Row)
        → rows_from at (lines tail) ≡ r ∷ rs
        → may_continue options.definition_list list (opens_at options Apart r (shown rs)) ≡ false
        → continues list (blocks_at options at tail) ≡ false }
{}

/// A settled cut of a text stays one if the text grows.
pub fn settled_cuts_stay()
    ensures { (options : Options) (text more : List ℕ) (at : ℕ) → IsSettledAt options text at
        → IsSettledAt options (text ++ more) at }
{}

/// At a settled cut of a text the document is joined, whatever follows the text.
pub fn documents_stay_joined_at_settled_cuts()
    ensures { (options : Options) (text : List ℕ) (at : ℕ) → IsSettledAt options text at
        → StaysJoinedAt options text at }
{}

/// If no label has a definition and there is no callback, references take nothing of the reference expansion limit.
pub fn undefined_references_take_nothing()
    ensures { (reader : Reader) → ((folded : List ℕ) → reader.definition folded ≡ None)
        → reader.has_callback ≡ false
        → (exchanges : List Exchange) (segments : List Segment) (before after : Between)
        (events : List Ranged) → ReadsAll reader (IsNext exchanges) segments before events after
        → after.expansion_left ≡ before.expansion_left }
{}

/// A text that defines nothing is read in parts. The events of the bytes before an offset and those of the lines after it are a reading of the
/// text, with the whole limit for both parts. Whatever follows, the text is read as these events, if that defines nothing either.
pub fn texts_without_definitions_are_read_in_parts()
    ensures reading { (profile : Profile) → profile.has_callback ≡ false
        → (text : List ℕ) (from : ℕ) → IsJoinedAt profile.options profile.lookup text from
        → HasNoDefinitions (document text profile.options profile.lookup)
        → (first later : List Ranged) → IsReadAlone profile (take from text) first
        → Left (reader_of text profile (document text profile.options profile.lookup))
        (segments (document_after text profile.options profile.lookup from))
        profile.reference_expansion_limit [] later → IsReading text profile [] (first ++ later) }
    ensures alone { (profile : Profile) → profile.has_callback ≡ false → (text : List ℕ) (from : ℕ)
        → IsJoinedAt profile.options profile.lookup text from
        → HasNoDefinitions (document text profile.options profile.lookup)
        → (first later : List Ranged) → IsReadAlone profile (take from text) first
        → Left (reader_of text profile (document text profile.options profile.lookup))
        (segments (document_after text profile.options profile.lookup from))
        profile.reference_expansion_limit [] later → IsReadAlone profile text (first ++ later) }
{}

/// A text is joined at its beginning.
pub fn documents_are_joined_at_the_beginning()
    ensures { (options : Options) (text : List ℕ) → StaysJoinedAt options text 0 }
{}
