//! Typographic quotes (this profile's own).

ghost use Rattle.std.specs.Prelude.{◌≡◌, ◌<◌, ◌++◌, List, ◌∷◌, [], length, map, OnOk, IfOk, IfSome};
ghost use Rattle.cmark_grammar.specs.Quotes as grammar;
ghost use Rattle.cmark_emphasis.specs.Shown.{shown_quote};
ghost use Rattle.cmark_emphasis.specs.QuoteSteps.{IsAfter, double_after, double_character_after, single_after, turned};

use crate::flanking::side_of;
use std::alloc::AllocError;

/// A quote.
#[derive(Clone, Copy)]
pub struct Quote {
    /// Whether it is `"` rather than `'`.
    pub double: bool,
    /// It can open.
    pub opens: bool,
    /// It can close.
    pub closes: bool,
}

/// The quotes that are open after some quotes.
#[derive(Clone, Copy)]
struct OpenQuotes {
    /// The index of the open single quote, if there is one.
    single: Option<usize>,
    /// Whether a double quote is open.
    double: bool,
}

/// Whether the character is `]` or `)`.
fn is_closing_bracket(neighbor: Option<char>) -> bool
    ensures { result ≡ grammar.is_closing_bracket_there neighbor }
{
    match neighbor {
        None => false,
        Some(c) => c == ']' || c == ')',
    }
}

/// The quote `"` or `'` between these characters, with whether it can open and close. `None` is the edge of a line, leaf or cell.
pub fn quote_of(double: bool, before: Option<char>, after: Option<char>) -> Quote
    ensures { shown_quote result ≡ grammar.quote_beside double before after }
{
    let left = side_of(before);
    let right = side_of(after);
    let opens_after_punctuation = double || !is_closing_bracket(before);
    Quote {
        double,
        opens: !right.white_space
            && (left.white_space || left.punctuation && opens_after_punctuation),
        closes: !left.white_space && (right.white_space || right.punctuation),
    }
}

/// Adds U+2019 for a single quote. If the quote closes the open one, that one becomes U+2018. Returns the index of the quote that is open
/// then.
fn add_single(
    quote: Quote,
    opened: Option<usize>,
    characters: &mut Vec<char>,
) -> Result<Option<usize>, AllocError>
    requires { IfSome opened (λ i. i < length characters.old.items) }
    ensures characters { OnOk result
        (characters.new.items ≡ turned quote.closes opened characters.old.items ++ 8217 ∷ []) }
    ensures single { IfOk result
        (λ next. next ≡ single_after (shown_quote quote) (length characters.old.items) opened) }
{
    let at = characters.len();
    characters.push('\u{2019}')?;
    if quote.closes {
        if let Some(i) = opened {
            characters[i] = '\u{2018}';
            return Ok(None);
        }
    }
    if quote.opens {
        return Ok(Some(at));
    }
    Ok(opened)
}

/// Adds U+201D if the double quote closes an open one, and otherwise U+201C. Returns whether a double quote is open then.
fn add_double(quote: Quote, opened: bool, characters: &mut Vec<char>) -> Result<bool, AllocError>
    ensures characters { OnOk result
        (characters.new.items
        ≡ characters.old.items ++ double_character_after (shown_quote quote) opened ∷ []) }
    ensures double { IfOk result (λ next. next ≡ double_after (shown_quote quote) opened) }
{
    if quote.closes && opened {
        characters.push('\u{201d}')?;
        return Ok(false);
    }
    characters.push('\u{201c}')?;
    Ok(quote.opens || opened)
}

/// Adds the character of a quote. If it closes the open single quote, that quote's character changes.
fn add_quote(
    quote: Quote,
    opened: OpenQuotes,
    characters: &mut Vec<char>,
) -> Result<OpenQuotes, AllocError>
    requires { (before : List grammar.Quote)
        × IsAfter before opened.single opened.double characters.old.items }
    ensures { IfOk result
        (λ next. (before : List grammar.Quote)
        → IsAfter before opened.single opened.double characters.old.items
        → IsAfter (shown_quote quote ∷ before) next.single next.double characters.new.items) }
{
    if quote.double {
        let double = add_double(quote, opened.double, characters)?;
        return Ok(OpenQuotes { double, ..opened });
    }
    let single = add_single(quote, opened.single, characters)?;
    Ok(OpenQuotes { single, ..opened })
}

/// Makes the characters of the quotes of a list of siblings, one for each, in their order: U+2018 and U+2019 for single quotes, U+201C and
/// U+201D for double ones.
///
/// The old content of `characters` is dropped. If memory is refused, their content is unspecified.
pub fn quote_characters(quotes: &[Quote], characters: &mut Vec<char>) -> Result<(), AllocError>
    ensures { OnOk result
        (characters.new.items ≡ grammar.quote_characters [] (map shown_quote quotes.now)) }
{
    characters.clear();
    let mut opened = OpenQuotes {
        single: None,
        double: false,
    };
    for quote in quotes.iter() {
        opened = add_quote(*quote, opened, characters)?;
    }
    Ok(())
}
