//! Labels of links and footnotes.

ghost use Rattle.std.specs.Prelude.{◌≡◌, ◌<◌, ◌∷◌, ◌++◌, IfOk, OnOk, length, position, string_bytes, nat_eq, Some, refl};
ghost use Rattle.std.specs.Char.{is_ascii_whitespace};
ghost use Rattle.std.specs.Ordering.{nat_cmp};
ghost use Rattle.std.specs.Cmp.{on_equiv, on_per, on_po, on_total, partial_equiv_from_equiv};
ghost use Rattle.std.specs.Cmp.Lexicographic.{pointwise, slice_cmp, nat_list_eq_equiv, nat_list_cmp_total, texts_po, texts_ties};
ghost use Rattle.std.specs.Cmp.Rules.{hashing};
ghost use Rattle.std.specs.Hash as fed;
ghost use Rattle.std.proofs.Common.{rules};
ghost use Rattle.cmark_grammar.specs.Labels.{normal_form, case_folded, fold};
ghost use Rattle.cmark_values.specs.Folding.{compared, may_fold};

use caseless::default_case_fold_str;
use std::alloc::{AllocError, Global};
use std::cmp::Ordering;
use std::hash::{Hash, Hasher};

/// The label of a link (CommonMark 4.7), in its normal form: without white space at both ends, and with one space for each run of white
/// space inside. White space is tab, line feed, form feed, carriage return and space.
///
/// Two labels are equal, and have equal hashes, exactly when their normal forms have equal full Unicode case foldings. Labels are ordered
/// by the bytes of their folded forms.
#[derive(Debug, Drop, PartialEq, Eq, PartialOrd, Ord, Hash)]
pub struct LinkLabel {
    link: Label,
}

impl LinkLabel {
    ghost use Rattle.cmark_values.specs.Labelled.{link_text, link_key};

    /// The label that this text spells.
    pub fn new(alloc: Global, label: &str) -> Result<LinkLabel, AllocError>
        ensures text { IfOk result (λ made. link_text made ≡ normal_form label.now) }
        ensures key { IfOk result (λ made. link_key made ≡ fold label.now) }
    {
        Ok(LinkLabel {
            link: Label::new(alloc, label)?,
        })
    }

    /// The normal form. It keeps the case of the text.
    pub fn as_str(&self) -> &str
        ensures { result.now ≡ link_text self.now }
    {
        self.link.as_str()
    }

    /// A copy of the label.
    pub fn clone(&self, alloc: Global) -> Result<LinkLabel, AllocError>
        ensures text { IfOk result (λ copy. link_text copy ≡ link_text self.now) }
        ensures key { IfOk result (λ copy. link_key copy ≡ link_key self.now) }
    {
        Ok(LinkLabel {
            link: self.link.clone(alloc)?,
        })
    }
}

/// The label of a footnote (this profile's own), in its normal form. It is compared like a [`LinkLabel`].
#[derive(Debug, Drop, PartialEq, Eq, PartialOrd, Ord, Hash)]
pub struct FootnoteLabel {
    footnote: Label,
}

impl FootnoteLabel {
    ghost use Rattle.cmark_values.specs.Labelled.{footnote_text, footnote_key};

    /// The label that this text spells.
    pub fn new(alloc: Global, label: &str) -> Result<FootnoteLabel, AllocError>
        ensures text { IfOk result (λ made. footnote_text made ≡ normal_form label.now) }
        ensures key { IfOk result (λ made. footnote_key made ≡ fold label.now) }
    {
        Ok(FootnoteLabel {
            footnote: Label::new(alloc, label)?,
        })
    }

    /// The normal form. It keeps the case of the text.
    pub fn as_str(&self) -> &str
        ensures { result.now ≡ footnote_text self.now }
    {
        self.footnote.as_str()
    }
}

/// A normal form, and the text by which it is compared.
#[derive(Debug, Drop)]
struct Label {
    text: String,
    /// The text by which it is compared, if that may differ from the normal form.
    folded: Option<String>,
    ghost folds: { compared (string_bytes text) folded ≡ case_folded (string_bytes text) },
}

impl Label {
    fn new(alloc: Global, label: &str) -> Result<Label, AllocError>
        ensures { IfOk result (λ made. string_bytes made.text ≡ normal_form label.now) }
    {
        let text = normal_text(alloc, label)?;
        let folded = folded_apart(alloc, text.as_str())?;
        Ok(Label { text, folded })
    }

    fn clone(&self, alloc: Global) -> Result<Label, AllocError>
        ensures { IfOk result (λ copy. string_bytes copy.text ≡ string_bytes self.now.text) }
    {
        let folded = match &self.folded {
            Some(folded) => Some(String::from_str(alloc, folded.as_str())?),
            None => None,
        };
        let text = String::from_str(alloc, self.text.as_str())?;
        Ok(Label { text, folded })
    }

    fn as_str(&self) -> &str
        ensures { result.now ≡ string_bytes self.now.text }
    {
        self.text.as_str()
    }

    /// The text by which it is compared.
    fn key(&self) -> &str
        ensures { result.now ≡ case_folded (string_bytes self.now.text) }
    {
        match &self.folded {
            Some(folded) => folded.as_str(),
            None => self.text.as_str(),
        }
    }
}

impl PartialEq for Label {
    ghost eq = { λ a b. pointwise nat_eq (case_folded (string_bytes a.text)) (case_folded (string_bytes b.text)) };

    ghost laws = { on_per (λ label. case_folded (string_bytes label.text)) (partial_equiv_from_equiv nat_list_eq_equiv) };

    fn eq(&self, other: &Label) -> bool {
        self.key() == other.key()
    }
}

impl Eq for Label {
    ghost laws = { on_equiv (λ label. case_folded (string_bytes label.text)) nat_list_eq_equiv };
}

impl PartialOrd for Label {
    ghost partial_cmp = { λ a b. Some (slice_cmp nat_cmp (case_folded (string_bytes a.text)) (case_folded (string_bytes b.text))) };

    ghost laws = { on_po (λ label. case_folded (string_bytes label.text)) texts_po };

    fn partial_cmp(&self, other: &Label) -> Option<Ordering> {
        Some(self.cmp(other))
    }
}

impl Ord for Label {
    ghost cmp = { λ a b. slice_cmp nat_cmp (case_folded (string_bytes a.text)) (case_folded (string_bytes b.text)) };

    ghost total = { on_total (λ label. case_folded (string_bytes label.text)) nat_list_cmp_total };

    ghost matches_partial_cmp = { λ a b. refl };

    ghost matches_eq = { λ a b. texts_ties (case_folded (string_bytes a.text)) (case_folded (string_bytes b.text)) };

    fn cmp(&self, other: &Label) -> Ordering {
        self.key().cmp(other.key())
    }
}

impl Hash for Label {
    ghost hash_input = { λ label. fed.str (case_folded (string_bytes label.text)) };

    ghost respects_eq = { Prim.search (hashing, rules) };

    fn hash<H: Hasher>(&self, state: &mut H) {
        self.key().hash(state);
    }
}

/// The text with full Unicode case folding, if that may differ from the text. Most labels are in lower case, which folds to itself.
fn folded_apart(alloc: Global, text: &str) -> Result<Option<String>, AllocError>
    ensures { IfOk result (λ made. compared text.now made ≡ case_folded text.now) }
{
    let Some(_) = find_folding(text) else {
        return Ok(None);
    };
    let folded = case_folded(alloc, text)?;
    Ok(Some(folded))
}

/// The offset of the first byte that case folding may change.
fn find_folding(text: &str) -> Option<usize>
    ensures { result ≡ position may_fold text.now }
{
    text.as_bytes().iter().position(|byte| may_fold(*byte))
}

/// Whether case folding may change a byte: it is an upper case letter, or a part of a character beyond ASCII.
#[inline(always)]
fn may_fold(byte: u8) -> bool
    ensures { result ≡ may_fold byte }
{
    byte > 64 && byte < 91 || byte > 127
}

/// The text with full Unicode case folding. An ASCII text, as most labels are, folds to its lower case.
#[tactic(auto, using(crate::proofs::Folds::folded_ascii))]
fn case_folded(alloc: Global, text: &str) -> Result<String, AllocError>
    ensures { IfOk result (λ made. string_bytes made ≡ case_folded text.now) }
{
    if text.is_ascii() {
        let lower = text.to_ascii_lowercase(alloc)?;
        return Ok(lower);
    }
    default_case_fold_str(alloc, text)
}

/// The normal form of a label. Most labels have no white space, and are their own normal form.
fn normal_text(alloc: Global, label: &str) -> Result<String, AllocError>
    ensures { IfOk result (λ text. string_bytes text ≡ normal_form label.now) }
{
    let None = find_white_space(label) else {
        return normalized(alloc, label);
    };
    let mut text = String::with_capacity(alloc, label.len())?;
    text.push_str(label)?;
    Ok(text)
}

/// The offset of the first white space.
fn find_white_space(label: &str) -> Option<usize>
    ensures { result ≡ position is_ascii_whitespace label.now }
{
    label
        .as_bytes()
        .iter()
        .position(|byte| byte.is_ascii_whitespace())
}

/// The words of a label, with one space between each two.
fn normalized(alloc: Global, label: &str) -> Result<String, AllocError>
    ensures { IfOk result (λ text. string_bytes text ≡ normal_form label.now) }
{
    let mut text = String::with_capacity(alloc, label.len())?;
    for word in label.split_ascii_whitespace() {
        push_word(&mut text, word)?;
    }
    Ok(text)
}

/// Appends the word, after a space unless it is the first.
fn push_word(text: &mut String, word: &str) -> Result<(), AllocError>
    ensures first { OnOk result
        (length (string_bytes text.old) ≡ 0 → string_bytes text.new ≡ word.now) }
    ensures further { OnOk result
        (0 < length (string_bytes text.old)
        → string_bytes text.new ≡ string_bytes text.old ++ (32 ∷ word.now)) }
{
    if !text.is_empty() {
        text.push(' ')?;
    }
    text.push_str(word)
}
