//! Theorems about the inline grammar. Each is the contract of a function that does nothing.

ghost use Rattle.std.specs.Prelude.{◌≡◌, ℕ, ◌+◌, ◌<◌, ◌≤◌, List, [], ◌∷◌, ◌++◌, length, map, sum};
ghost use Rattle.cmark_grammar.specs.Answers.{Lookup};
ghost use Rattle.cmark_block_model.specs.Balance.{Balanced};
ghost use Rattle.cmark_grammar.specs.BlockDocument.{BlockDocument};
ghost use Rattle.cmark_grammar.specs.BracketDecisions.{decide};
ghost use Rattle.cmark_grammar.specs.Derivation.{Derives};
ghost use Rattle.cmark_grammar.specs.Event.{Ranged};
ghost use Rattle.cmark_grammar.specs.InlineTokens.{token};
ghost use Rattle.cmark_grammar.specs.Labels.{fold};
ghost use Rattle.cmark_grammar.specs.LeafReading.{Between, ReadsLeaf};
ghost use Rattle.cmark_grammar.specs.LeafText.{InTurn, Leaf, end_of};
ghost use Rattle.cmark_grammar.specs.Options.{Options};
ghost use Rattle.cmark_grammar.specs.Readers.{Reader};
ghost use Rattle.cmark_grammar.specs.References.{first_with, references};
ghost use Rattle.cmark_grammar.specs.Siblings.{AreSpans, Inline};
ghost use Rattle.cmark_inline_model.specs.SiblingsModel.{spans_in};
ghost use Rattle.cmark_grammar.specs.SpanDocuments.{Content, Given, IsReading, Left, Profile, Segment, reader_of, segments};
ghost use Rattle.cmark_inline_model.specs.LeafExtents.{extent, extents};
ghost use Rattle.cmark_inline_model.specs.LeafModel.{AreLeavesInTurn, AreLeavesOfLines, HaveLineEnds};
ghost use Rattle.cmark_inline_model.specs.TextPlaces.{ArePlaces, place_in, text_of};
ghost use Rattle.cmark_grammar.specs.BracketReading.{Reads, ReadsWhole};
ghost use Rattle.cmark_grammar.specs.BracketStates.{Decision, State};
ghost use Rattle.cmark_grammar.specs.Items.{Bracket, Token};
ghost use Rattle.cmark_grammar.specs.Parts.{Parts};
ghost use Rattle.cmark_grammar.specs.Questions.{AnyAnswer, ByPlan, Exchange, IsNext, Plan};
ghost use Rattle.cmark_inline_model.specs.BracketPass.{Pass, end_by, parts_by};
ghost use Rattle.cmark_inline_model.specs.ReferenceExpansion.{KeepsLimit, Spends, costs};
ghost use Rattle.cmark_inline_model.specs.FormedParts.{AllFormed, closings};
ghost use Rattle.cmark_inline_model.specs.LinkRules.{AsksRightly, IsFormedRightly};
ghost use Rattle.cmark_inline_model.specs.NestedLinks.{HasLinksApart, KeepsLinksApart};
ghost use Rattle.cmark_inline_model.specs.PartRanges.{KeepsRanges, StandBetween};
ghost use Rattle.cmark_inline_model.specs.PlannedAnswers.{AreByPlan};
ghost use Rattle.cmark_inline_model.specs.PassSteps.{Steps};
ghost use Rattle.cmark_inline_model.specs.ReadingRanges.{Matched};
ghost use Rattle.cmark_inline_model.specs.Unanswered.{AreUnanswered, without_callback};
ghost use Rattle.cmark_inline_model.specs.Progress.{IsForward, IsRecorded, IsShifted, asked_after};

/// For each plan of answers a text is read as some parts, which are those of the pass.
pub fn a_text_has_parts()
    ensures { (token : ℕ → Token) (decide : State → Bracket → Decision) (size : ℕ)
        → IsForward token decide size → (plan : Plan) (s : State) → s.openers ≡ []
        → ReadsWhole token decide (ByPlan plan) s (parts_by token decide plan size s)
        (end_by token decide plan size s) }
{}

/// For each list of answers a text has at most one list of parts, and one state at its end.
pub fn a_text_has_one_list_of_parts()
    ensures parts { (token : ℕ → Token) (decide : State → Bracket → Decision) (all : List Exchange)
        (s t u : State) (first second : Parts) → ReadsWhole token decide (IsNext all) s first t
        → ReadsWhole token decide (IsNext all) s second u → first ≡ second }
    ensures end { (token : ℕ → Token) (decide : State → Bracket → Decision) (all : List Exchange)
        (s t u : State) (first second : Parts) → ReadsWhole token decide (IsNext all) s first t
        → ReadsWhole token decide (IsNext all) s second u → t ≡ u }
{}

/// A step of the pass continues the reading of the parts so far, whatever the answers are.
pub fn steps_keep_the_reading()
    ensures { (token : ℕ → Token) (decide : State → Bracket → Decision) (start : State) (p q : Pass)
        → Reads token decide AnyAnswer start p.here p.state → Steps token decide AnyAnswer p q
        → Reads token decide AnyAnswer start q.here q.state }
{}

/// A reading only adds questions: its own questions follow those that were put before.
pub fn questions_only_grow()
    ensures { (token : ℕ → Token) (decide : State → Bracket → Decision) → IsRecorded decide
        → (s : State) (parts : Parts) (t : State) → Reads token decide AnyAnswer s parts t
        → (more : List Exchange) × (t.asked ≡ s.asked ++ more) }
{}

/// A reading with any answers is a reading with the list of the answers that it got.
pub fn answers_become_a_list()
    ensures { (token : ℕ → Token) (decide : State → Bracket → Decision) → IsRecorded decide
        → (all rest : List Exchange) (s : State) (parts : Parts) (t : State) → all ≡ t.asked ++ rest
        → Reads token decide AnyAnswer s parts t → Reads token decide (IsNext all) s parts t }
{}

/// A reading does not depend on the questions that were put before it.
pub fn earlier_questions_are_not_seen()
    ensures { (token : ℕ → Token) (decide : State → Bracket → Decision) → IsShifted decide
        → (h all : List Exchange) (s : State) (parts : Parts) (t : State)
        → Reads token decide (IsNext all) s parts t
        → Reads token decide (IsNext (h ++ all)) (asked_after h s) parts (asked_after h t) }
{}

/// No link of a leaf contains another (CommonMark 6.3).
pub fn no_link_holds_a_link()
    ensures { (reader : Reader) (leaf : Leaf) (s : State) (parts : Parts) (t : State)
        → Reads (token reader leaf) (decide reader leaf) AnyAnswer s parts t → HasLinksApart parts }
{}

/// At most one question is put for each closing bracket.
pub fn questions_are_few()
    ensures { (reader : Reader) (leaf : Leaf) (s : State) (parts : Parts) (t : State)
        → Reads (token reader leaf) (decide reader leaf) AnyAnswer s parts t
        → length t.asked ≤ closings parts + length s.asked }
{}

/// A question is about a label that has no definition, and is put only while the reference expansion limit is not used up.
pub fn questions_are_about_unknown_labels()
    ensures { (reader : Reader) (leaf : Leaf) (s : State) (closer : Bracket)
        → AsksRightly reader s (decide reader leaf s closer) }
{}

/// A reference has the destination and title of the definition of its label, or, if there is no definition, of the answer. Footnote
/// references and wikilinks are formed only if they are enabled.
pub fn references_lead_to_their_definitions()
    ensures formed { (reader : Reader) (leaf : Leaf) (s : State) (parts : Parts) (t : State)
        → Reads (token reader leaf) (decide reader leaf) AnyAnswer s parts t
        → AllFormed (IsFormedRightly reader t.asked) parts }
    ensures first { (text : List ℕ) (profile : Profile) (document : BlockDocument) (folded : List ℕ)
        → (reader_of text profile document).definition folded
        ≡ first_with fold folded (references document) }
{}

/// All references but the last together cost less than the reference expansion limit was.
pub fn references_keep_the_limit()
    ensures spent { (reader : Reader) (leaf : Leaf) (s : State) (parts : Parts) (t : State)
        → Reads (token reader leaf) (decide reader leaf) AnyAnswer s parts t
        → Spends s.expansion_left (costs parts) t.expansion_left }
    ensures below { (cs : List ℕ) (last before after : ℕ) → Spends before (cs ++ (last ∷ [])) after
        → sum cs < before }
{}

/// The parts of a leaf are inside it, one after the other. A construct that brackets form surrounds the parts between them.
pub fn parts_stand_in_their_leaf()
    ensures { (reader : Reader) (leaf : Leaf) (s : State) (parts : Parts) (t : State) (size : ℕ)
        → Reads (token reader leaf) (decide reader leaf) AnyAnswer s parts t
        → InTurn 0 leaf.stretches size → s.at ≤ end_of leaf.stretches
        → StandBetween s.at parts t.at × (t.at ≤ end_of leaf.stretches) }
{}

/// The events of a reading are balanced: each start is followed by its end, with its tag and its range.
pub fn events_are_balanced()
    ensures matched { (text : List ℕ) (profile : Profile) (exchanges : List Exchange)
        (events : List Ranged) → IsReading text profile exchanges events → Matched events }
    ensures balanced { (text : List ℕ) (profile : Profile) (exchanges : List Exchange)
        (events : List Ranged) → IsReading text profile exchanges events
        → Balanced (map Ranged.event events) }
{}

/// Each list of parts has exactly one list of spans, which is that of the model.
pub fn one_spans()
    ensures some { (options : Options) (parts : Parts)
        → AreSpans options parts (spans_in options parts) }
    ensures one { (options : Options) (parts : Parts) (first second : Inline)
        → AreSpans options parts first → AreSpans options parts second → first ≡ second }
{}

/// The tokens and decisions of a leaf lead forward, if the stretches of the leaf are in order.
pub fn leaves_lead_on()
    ensures { (reader : Reader) (leaf : Leaf) (size : ℕ) → InTurn 0 leaf.stretches size
        → IsForward (token reader leaf) (decide reader leaf) (end_of leaf.stretches) }
{}

/// The tokens and decisions of a leaf are inside it, if the stretches of the leaf are in order.
pub fn leaves_keep_their_places()
    ensures { (reader : Reader) (leaf : Leaf) (size : ℕ) → InTurn 0 leaf.stretches size
        → KeepsRanges (token reader leaf) (decide reader leaf) (end_of leaf.stretches) }
{}

/// The stretches of each leaf of a text are in order.
pub fn leaves_stand_in_order()
    ensures { (text : List ℕ) (options : Options) (lookup : Lookup) (document : BlockDocument)
        → Derives text options lookup document → AreLeavesInTurn (length text) (segments document) }
{}

/// The leaves of a text consist of lines: no stretch is empty, and each but the last ends with a line ending.
pub fn leaves_consist_of_lines()
    ensures { (text : List ℕ) (options : Options) (lookup : Lookup) (document : BlockDocument)
        → Derives text options lookup document → AreLeavesOfLines text (segments document) }
{}

/// The leaves of a text do not overlap: their extents together are at most as long as the text (`apart`). The text of a leaf is at most as
/// long as its extent (`own`).
pub fn leaves_stand_apart()
    ensures apart { (text : List ℕ) (options : Options) (lookup : Lookup) (document : BlockDocument)
        → Derives text options lookup document → extents (segments document) ≤ length text }
    ensures own { (reader : Reader) (leaf : Leaf) (size : ℕ) → InTurn 0 leaf.stretches size
        → length (text_of reader leaf) ≤ extent leaf }
{}

/// The grammar's decision about a closing bracket records its question and does not depend on earlier ones. It keeps links apart, and
/// respects the reference expansion limit.
pub fn decisions_keep_the_rules()
    ensures recorded { (reader : Reader) (leaf : Leaf) → IsRecorded (decide reader leaf) }
    ensures shifted { (reader : Reader) (leaf : Leaf) → IsShifted (decide reader leaf) }
    ensures apart { (reader : Reader) (leaf : Leaf) → KeepsLinksApart (decide reader leaf) }
    ensures limit { (reader : Reader) (leaf : Leaf) → KeepsLimit (decide reader leaf) }
{}

/// For each plan of answers a text has a reading with these answers.
pub fn a_text_has_a_reading()
    ensures { (text : List ℕ) (profile : Profile) (plan : Plan)
        → (exchanges : List Exchange) × (events : List Ranged) × AreByPlan plan [] exchanges
        × IsReading text profile exchanges events }
{}

/// For each plan of answers the rest of a text can be read with these answers.
pub fn what_is_left_can_be_read()
    ensures { (reader : Reader) (segments : List Segment) (expansion_left : ℕ) (plan : Plan)
        → AreLeavesInTurn (length reader.source) segments
        → (exchanges : List Exchange) × (events : List Ranged) × AreByPlan plan [] exchanges
        × Left reader segments expansion_left exchanges events }
{}

/// For each list of answers a text has at most one reading.
pub fn one_reading()
    ensures { (text : List ℕ) (profile : Profile) (exchanges : List Exchange)
        (first second : List Ranged) → IsReading text profile exchanges first
        → IsReading text profile exchanges second → first ≡ second }
{}

/// If the rest after an event of the blocks, or after a leaf, can be read, so can the rest that begins with this event or leaf.
pub fn what_is_left_grows_backwards()
    ensures given { (reader : Reader) (r : Ranged) (others : List Segment) (expansion_left : ℕ)
        (exchanges : List Exchange) (events : List Ranged)
        → Left reader others expansion_left exchanges events
        → Left reader (Given r ∷ others) expansion_left exchanges (r ∷ events) }
    ensures leaf { (reader : Reader) (leaf : Leaf) (others : List Segment) (expansion_left : ℕ)
        (taken rest : List Exchange) (spans later : List Ranged) (between : Between)
        → ReadsLeaf reader (IsNext taken) leaf
        (record { expansion_left = expansion_left; asked = [] }) spans between
        → between.asked ≡ taken → Left reader others between.expansion_left rest later
        → Left reader (Content leaf ∷ others) expansion_left (taken ++ rest) (spans ++ later) }
{}

/// A callback that always returns `None`, and no callback, differ only in the questions: the events are equal.
pub fn no_answers_are_no_callback()
    ensures { (text : List ℕ) (profile : Profile) (exchanges : List Exchange) (events : List Ranged)
        → AreUnanswered exchanges → IsReading text profile exchanges events
        → IsReading text (without_callback profile) [] events }
{}

/// If the lines of a leaf end with line endings, each byte of the leaf's text has an offset in the source. The offsets are in order. The
/// leaf, read from such an offset on, has the bytes of the text from this byte on.
pub fn a_text_stands_in_its_places()
    ensures { (reader : Reader) (leaf : Leaf) (size : ℕ) → InTurn 0 leaf.stretches size
        → size ≤ length reader.source → HaveLineEnds reader.source leaf.stretches
        → ArePlaces reader leaf (text_of reader leaf) (place_in reader leaf) }
{}
