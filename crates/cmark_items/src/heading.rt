//! The attributes of a heading (this profile's own).

ghost use Rattle.std.specs.Prelude.{◌≡◌, ◌<◌, ◌≤◌, ◌∷◌, [], ◌++◌, length, take, drop, map, IfOk, OnOk, IfSome, option_map, get_or};
ghost use Rattle.std.specs.List.{take_while};
ghost use Rattle.cmark_grammar.specs.Attributes.{is_no_equals, words, value_after, attribute_of, attributes_of, with_word, no_attributes};
ghost use Rattle.cmark_values.specs.Shown.{text_bytes, shown_attribute};
ghost use Rattle.cmark_items.specs.Headings.{shown_heading, is_in_word, str_bytes, words_after};

use cmark_values::CowStr;
use std::alloc::{AllocError, Global};

/// The attributes of a heading, from the braces on its line.
#[derive(Drop)]
pub struct HeadingAttributes<'a> {
    /// The text after the last `#`.
    pub id: Option<CowStr<'a>>,
    /// The text after each `.`, in order.
    pub classes: Vec<CowStr<'a>>,
    /// The other words in order, each with the value after its `=`, if it has one.
    pub attrs: Vec<(CowStr<'a>, Option<CowStr<'a>>)>,
}

/// The number of bytes of the word at the beginning.
fn count_word(bytes: &[u8]) -> usize
    ensures value { result ≡ length (take_while is_in_word bytes.now) }
    ensures within { result ≤ length bytes.now }
{
    bytes
        .iter()
        .take_while(|byte| !byte.is_ascii_whitespace())
        .count()
}

/// The number of bytes of the name at the beginning, which ends before a `=`.
fn count_name(bytes: &[u8]) -> usize
    ensures value { result ≡ length (take_while is_no_equals bytes.now) }
    ensures within { result ≤ length bytes.now }
{
    bytes.iter().take_while(|byte| **byte != b'=').count()
}

/// The text before an ASCII byte at place `at` and the text after it; if the text ends there, all of it.
#[tactic(auto, using(std::proofs::lemmas::Str::lead_after_ascii))]
fn cut(text: &str, at: usize) -> (&str, Option<&str>)
    requires within { at ≤ length text.now }
    requires ascii { at < length text.now → get_or text.now at 0 < 128 }
    ensures before { result.0.now ≡ take at text.now }
    ensures following { option_map str_bytes result.1 ≡ value_after (drop at text.now) }
    ensures shorter { IfSome result.1 (λ following. length following.now < length text.now) }
{
    if at < text.len() {
        (&text[..at], Some(&text[at + 1..]))
    } else {
        (text, None)
    }
}

/// The first word, and the text after the white space that ends it.
fn cut_word(text: &str) -> (&str, Option<&str>)
    ensures words { words text.now ≡ result.0.now ∷ words_after (option_map str_bytes result.1) }
    ensures shorter { IfSome result.1 (λ following. length following.now < length text.now) }
{
    cut(text, count_word(text.as_bytes()))
}

fn owned<'a>(alloc: Global, text: &str) -> Result<CowStr<'a>, AllocError>
    ensures { IfOk result (λ made. text_bytes made ≡ text.now) }
{
    CowStr::from_string(String::from_str(alloc, text)?)
}

/// A word as a name with the value after its `=`, if it has one.
fn attribute_of<'a>(
    alloc: Global,
    word: &str,
) -> Result<(CowStr<'a>, Option<CowStr<'a>>), AllocError>
    ensures { IfOk result (λ attribute. shown_attribute attribute ≡ attribute_of word.now) }
{
    let (name, value) = cut(word, count_name(word.as_bytes()));
    let name = owned(alloc, name)?;
    match value {
        Some(value) => Ok((name, Some(owned(alloc, value)?))),
        None => Ok((name, None)),
    }
}

/// Appends a copy of this text to a list of texts.
fn push_owned<'a>(texts: &mut Vec<CowStr<'a>>, alloc: Global, text: &str) -> Result<(), AllocError>
    ensures { OnOk result
        (map text_bytes texts.new.items ≡ map text_bytes texts.old.items ++ (text.now ∷ [])) }
{
    texts.push(owned(alloc, text)?)?;
    Ok(())
}

/// Appends a word, as an attribute, to a list of attributes.
fn push_attribute<'a>(
    attrs: &mut Vec<(CowStr<'a>, Option<CowStr<'a>>)>,
    alloc: Global,
    word: &str,
) -> Result<(), AllocError>
    ensures { OnOk result
        (map shown_attribute attrs.new.items
        ≡ map shown_attribute attrs.old.items ++ (attribute_of word.now ∷ [])) }
{
    attrs.push(attribute_of(alloc, word)?)?;
    Ok(())
}

impl<'a> HeadingAttributes<'a> {
    fn none(alloc: Global) -> HeadingAttributes<'a>
        ensures { shown_heading result ≡ no_attributes }
    {
        HeadingAttributes {
            id: None,
            classes: Vec::new(alloc),
            attrs: Vec::new(alloc),
        }
    }

    /// Adds the attribute of another word.
    #[tactic(auto, using(std::proofs::lemmas::Str::lead_after_ascii))]
    fn add(&mut self, alloc: Global, word: &str) -> Result<(), AllocError>
        ensures { OnOk result
            (shown_heading self.new ≡ with_word (shown_heading self.old) word.now) }
    {
        if word.len() < 2 {
            return Ok(());
        }
        match word.as_bytes()[0] {
            b'#' => self.id = Some(owned(alloc, &word[1..])?),
            b'.' => push_owned(&mut self.classes, alloc, &word[1..])?,
            _ => push_attribute(&mut self.attrs, alloc, word)?,
        }
        Ok(())
    }

    /// The attributes in the words between braces: `#id` (the last one counts), `.class`, and other words, each with the value after its
    /// `=`. White space separates words, and a word of one byte is ignored. Fails only if memory is refused.
    pub fn read(alloc: Global, words: &str) -> Result<HeadingAttributes<'a>, AllocError>
        ensures { IfOk result (λ read. shown_heading read ≡ attributes_of words.now) }
    {
        let mut read = HeadingAttributes::none(alloc);
        let mut rest = Some(words);
        while let Some(left) = rest {
            let (word, following) = cut_word(left);
            read.add(alloc, word)?;
            rest = following;
        }
        Ok(read)
    }
}
