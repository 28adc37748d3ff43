//! Laws of texts that grow: of the cuts that a caller of `read_from` keeps, of refreshes that are due, and of bytes that end inside a character.

ghost use Rattle.std.specs.Prelude.{◌≡◌, ◌++◌, ◌-◌, ◌*◌, ◌<◌, ◌≤◌, ℕ, List, [], IsUtf8};
ghost use Rattle.cmark_grammar.specs.Event.{Event};
ghost use Rattle.cmark_grammar.specs.SpanDocuments.{Profile};
ghost use Rattle.cmark_stream.specs.Chunks.{IsCutInto, IsNeverUtf8};
ghost use Rattle.cmark_stream.specs.Rests.{IsShownUpTo};
ghost use Rattle.cmark_stream.specs.Streams.{IsDue};

/// The beginning of each text is a cut, and no HTML is before it.
pub fn beginnings_are_cuts()
    ensures { (profile : Profile) (filtered : Event → Event) (text : List ℕ)
        → IsUtf8 text → IsShownUpTo profile filtered text 0 [] }
{}

/// If a text grows, its cuts stay cuts, and the HTML before them stays.
pub fn cuts_stay()
    ensures { (profile : Profile) (filtered : Event → Event)
        (text more : List ℕ) (cut : ℕ) (shown : List ℕ)
        → IsUtf8 more → IsShownUpTo profile filtered text cut shown
        → IsShownUpTo profile filtered (text ++ more) cut shown }
{}

/// A refresh that is due reads fewer than 17 bytes for each byte that was pushed since the last one.
pub fn due_refreshes_read_little()
    ensures { (cut read size : ℕ) → cut ≤ read → read ≤ size → IsDue cut read size
        → size - cut < 17 * (size - read) }
{}

/// Bytes that are a text and the first bytes of a character become a text, if the right bytes follow.
pub fn cut_bytes_can_be_whole()
    ensures { (bytes text begun : List ℕ) → IsCutInto bytes text begun → ¬ (IsNeverUtf8 bytes) }
{}

/// Bytes are cut into a text and the first bytes of a character in one way only.
pub fn bytes_are_cut_in_one_way()
    ensures { (bytes text begun text' begun' : List ℕ)
        → IsCutInto bytes text begun → IsCutInto bytes text' begun'
        → (text ≡ text') × (begun ≡ begun') }
{}
