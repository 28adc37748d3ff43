//! Theorems about whole texts: properties of each reading of a text by the inline grammar. Each is the contract of a function that does
//! nothing. A reading consists of the events of a text, and the questions that were put about it with their answers, in order (`IsReading`,
//! of `SpanDocuments`).

ghost use Rattle.std.specs.Prelude.{◌≡◌, false, ℕ, ◌+◌, ◌*◌, ◌<◌, ◌≤◌, List, [], ◌∷◌, ◌++◌, length, sum, IsUtf8};
ghost use Rattle.cmark_grammar.specs.BlockDocument.{BlockDocument};
ghost use Rattle.cmark_grammar.specs.BracketDecisions.{decide};
ghost use Rattle.cmark_grammar.specs.BracketReading.{Reads};
ghost use Rattle.cmark_grammar.specs.BracketStates.{State};
ghost use Rattle.cmark_grammar.specs.Derivation.{Derives};
ghost use Rattle.cmark_grammar.specs.Event.{Ranged};
ghost use Rattle.cmark_grammar.specs.InlineTokens.{token};
ghost use Rattle.cmark_grammar.specs.LeafReading.{Between};
ghost use Rattle.cmark_grammar.specs.LeafText.{Leaf};
ghost use Rattle.cmark_grammar.specs.Options.{Options};
ghost use Rattle.cmark_grammar.specs.Parts.{Parts};
ghost use Rattle.cmark_grammar.specs.Questions.{AnyAnswer, Exchange, IsNext};
ghost use Rattle.cmark_block_model.specs.Ranges.{count_tables};
ghost use Rattle.cmark_grammar.specs.Readers.{Reader};
ghost use Rattle.cmark_grammar.specs.SpanDocuments.{IsReading, Profile, ReadsAll, Segment, at_start, reader_of, segments};
ghost use Rattle.cmark_inline_model.specs.SpecialBytes.{is_special};
ghost use Rattle.cmark_inline_model.specs.CharacterRanges.{CutNoCharacter};
ghost use Rattle.cmark_inline_model.specs.CutRanges.{InPlaceButCut, HasNoTasks};
ghost use Rattle.cmark_inline_model.specs.LinkRules.{IsQuestion};
ghost use Rattle.cmark_inline_model.specs.OptionRules.{AllItems, AreGiven, IsRead};
ghost use Rattle.cmark_inline_model.specs.ReadingLinks.{AreLed, LinksApart, reference_costs};
ghost use Rattle.cmark_inline_model.specs.ReadingQuestions.{AllQuestions, PutInTurn, IsCloser, IsCloserBelow};
ghost use Rattle.cmark_inline_model.specs.ReadingRanges.{HasNoDisplays, InPlace, LieWithin};
ghost use Rattle.cmark_inline_model.specs.WithoutHighlight.{IsReadingWithout, is_special_without};

/// No link is inside a link, at any depth, except for autolinks (CommonMark 6.3 and 6.5).
pub fn links_stand_apart()
    ensures { (text : List ℕ) (profile : Profile) (exchanges : List Exchange) (events : List Ranged)
        → IsReading text profile exchanges events → LinksApart 0 events }
{}

/// Each reference has the destination and title of the first definition of its label in the text (CommonMark 4.7). If there is no
/// definition, it has those of the answer to a question about it. No other link has a label.
pub fn links_lead_by_definitions_and_answers()
    ensures { (text : List ℕ) (profile : Profile) (document : BlockDocument)
        (exchanges : List Exchange) (events : List Ranged)
        → Derives text profile.options profile.lookup document
        → IsReading text profile exchanges events
        → AreLed (reader_of text profile document) exchanges events }
{}

/// A reference is formed only while the reference expansion limit is not used up. Until then the destinations and titles of all earlier
/// references, in all leaves of the text, have fewer bytes than the limit. Earlier references are those that end earlier. So the
/// destinations and titles of all references but the last have fewer bytes than the limit.
pub fn references_stay_below_the_limit()
    ensures { (text : List ℕ) (profile : Profile) (exchanges : List Exchange) (events : List Ranged)
        (front following : List ℕ) (own : ℕ) → IsReading text profile exchanges events
        → reference_costs [] events ≡ front ++ (own ∷ following)
        → sum front < profile.reference_expansion_limit }
{}

/// A question is put only while the reference expansion limit is not used up. Each question has a closing bracket of its own in its range,
/// in the order of the questions. The destinations and titles of all references that end before that bracket, in all leaves, have fewer
/// bytes than the limit.
pub fn questions_are_put_below_the_limit()
    ensures { (text : List ℕ) (profile : Profile) (document : BlockDocument)
        (exchanges : List Exchange) (events : List Ranged)
        → Derives text profile.options profile.lookup document
        → IsReading text profile exchanges events
        → PutInTurn
        (IsCloserBelow profile.reference_expansion_limit events (reader_of text profile document)
        (segments document)) 0 exchanges (length text) }
{}

/// The ranges of events are inside the text (`within`) and in order, and the range of each element contains the ranges inside it (`cut`).
/// There are two exceptions. First, a wikilink may show the text after a pipe that is inside a link or an image. That link or image then
/// begins after the pipe, and its content where it would begin without the pipe. Second, a paragraph or heading that begins with a task
/// marker may begin after the marker.
///
/// Without wikilinks, or without a `|` in the text, and without task markers, the content of each element is inside its range (`uncut`).
pub fn ranges_stand_in_order()
    ensures within { (text : List ℕ) (profile : Profile) (exchanges : List Exchange)
        (events : List Ranged) → IsReading text profile exchanges events
        → LieWithin (length text) events }
    ensures cut { (text : List ℕ) (profile : Profile) (exchanges : List Exchange)
        (events : List Ranged) → IsReading text profile exchanges events
        → InPlaceButCut profile.options text 0 events (length text) }
    ensures uncut { (text : List ℕ) (profile : Profile) (exchanges : List Exchange)
        (events : List Ranged) → HasNoDisplays profile.options text → HasNoTasks events
        → IsReading text profile exchanges events → InPlace 0 events (length text) }
{}

/// Both ends of the range of each event are character boundaries of the text.
pub fn ranges_cut_no_character()
    ensures { (text : List ℕ) (profile : Profile) (exchanges : List Exchange) (events : List Ranged)
        → IsUtf8 text → IsReading text profile exchanges events → CutNoCharacter text events }
{}

/// A text has at most eleven events for each byte, apart from cells that are filled in. Each filled-in cell is two events, and a table has
/// at most 262,144 of them.
pub fn events_are_few()
    ensures { (text : List ℕ) (profile : Profile) (document : BlockDocument)
        (exchanges : List Exchange) (events : List Ranged)
        → Derives text profile.options profile.lookup document
        → IsReading text profile exchanges events
        → length events ≤ 11 * length text + 524288 * count_tables document }
{}

/// A construct that belongs to an option is read only if the option is on.
///
/// - Items of a leaf: quotes with smart punctuation, formulas with math, autolinks to email addresses with email autolinks.
/// - Runs of `~`, `^` and `=` with strikethrough, subscript, superscript and highlight.
/// - Events of a text: formulas with math, footnote references with footnotes, links to email addresses with email autolinks.
/// - Strikethrough, subscripts, superscripts and highlights with the options of these names.
pub fn options_that_are_off_read_nothing()
    ensures items { (reader : Reader) (leaf : Leaf) (s : State) (parts : Parts) (t : State)
        → Reads (token reader leaf) (decide reader leaf) AnyAnswer s parts t
        → AllItems (IsRead reader.options) parts }
    ensures events { (text : List ℕ) (profile : Profile) (exchanges : List Exchange)
        (events : List Ranged) → IsReading text profile exchanges events
        → AreGiven profile.options events }
{}

/// If highlight is off, it changes nothing. A text is read as the grammar without highlight reads it (`reads`) and in no other way
/// (`other`), and no further bytes are special (`special`). In the grammar without highlight `=` is an ordinary byte: each definition that
/// highlight changed is as it was before.
pub fn highlight_that_is_off_changes_nothing()
    ensures special { (options : Options) (b : ℕ) → options.highlight ≡ false
        → is_special options b ≡ is_special_without options b }
    ensures reads { (text : List ℕ) (profile : Profile) (exchanges : List Exchange)
        (events : List Ranged) → profile.options.highlight ≡ false
        → IsReading text profile exchanges events → IsReadingWithout text profile exchanges events }
    ensures other { (text : List ℕ) (profile : Profile) (exchanges : List Exchange)
        (events : List Ranged)
        → profile.options.highlight ≡ false
        → IsReadingWithout text profile exchanges events → IsReading text profile exchanges events }
{}

/// At most one question is put for each closing bracket of the text, in the order of the brackets. Each is about a label that has no
/// definition. No question is put if the reference expansion limit is 0.
pub fn questions_are_put_in_turn()
    ensures turn { (text : List ℕ) (profile : Profile) (document : BlockDocument)
        (exchanges : List Exchange) (events : List Ranged)
        → Derives text profile.options profile.lookup document
        → IsReading text profile exchanges events
        → PutInTurn (IsCloser (reader_of text profile document) (segments document)) 0 exchanges
        (length text) }
    ensures unknown { (text : List ℕ) (profile : Profile) (document : BlockDocument)
        (exchanges : List Exchange) (events : List Ranged)
        → Derives text profile.options profile.lookup document
        → IsReading text profile exchanges events
        → AllQuestions (IsQuestion (reader_of text profile document)) exchanges }
    ensures limit { (text : List ℕ) (profile : Profile) (exchanges : List Exchange)
        (events : List Ranged) → profile.reference_expansion_limit ≡ 0
        → IsReading text profile exchanges events → exchanges ≡ [] }
{}

/// If the references so far have used up the reference expansion limit, no question is put: neither later in a leaf (`leaf`), nor in later
/// leaves (`leaves`).
pub fn nothing_is_asked_when_nothing_is_left()
    ensures leaf { (reader : Reader) (leaf : Leaf) (s : State) (parts : Parts) (t : State)
        → s.expansion_left ≡ 0 → Reads (token reader leaf) (decide reader leaf) AnyAnswer s parts t
        → t.asked ≡ s.asked }
    ensures leaves { (text : List ℕ) (profile : Profile) (document : BlockDocument)
        (exchanges : List Exchange) (first others : List Segment) (earlier later : List Ranged)
        (between after : Between) → segments document ≡ first ++ others
        → ReadsAll (reader_of text profile document) (IsNext exchanges) first (at_start profile)
        earlier between
        → ReadsAll (reader_of text profile document) (IsNext exchanges) others between later after
        → profile.reference_expansion_limit ≤ sum (reference_costs [] earlier)
        → after.asked ≡ between.asked }
{}
