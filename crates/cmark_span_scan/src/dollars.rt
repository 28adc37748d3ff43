//! Formulas between dollar signs (this profile's own).

ghost use Rattle.std.specs.Prelude.{◌≡◌, ◌<◌, ◌≤◌, ◌+◌, ◌-◌, ◌^◌, ◌++◌, ◌||◌, ◌==◌, true, false, ℕ, List, length, drop, slice_index, slice_get, get_or, IfOk, IfSome, OnErr, OnOk, Some, None, if◌then◌else◌, option_map};
ghost use Rattle.std.specs.List.{prefix_len};
ghost use Rattle.std.specs.Str.{IsCharBoundary};
ghost use Rattle.cmark_grammar.specs.Characters.{dollar_sign};
ghost use Rattle.cmark_grammar.specs.Formulas.{is_dollar, is_ink, context_of, closes_formula};
ghost use Rattle.cmark_grammar.specs.Letters.{first_is};
ghost use Rattle.cmark_grammar.specs.Tokens.{slice};
ghost use Rattle.cmark_span_scan.specs.Dollars.{AreDollarsOf, AreLinks, HasListed, IsDollarAt, IsFormulaAt, IsReached, Lists, VisitsOn, braces_at, closing, dollar_here, dollars_in, formula_at, shown_braces, shown_formula, signs_of, stands_before};

use crate::braces::Braces;
use cmark_scan_bytes::bytes::escapes_next;
use std::alloc::{AllocError, Global};

/// The offsets of a formula in its text.
#[derive(Clone, Copy)]
pub struct Formula {
    /// The end of the opening dollar signs, exclusive.
    pub content_start: usize,
    /// The offset of the closing dollar signs.
    pub content_end: usize,
    /// The end of the closing dollar signs, exclusive.
    pub end: usize,
    /// Whether it is display math, which has two dollar signs at each end.
    pub is_display: bool,
}

/// A dollar sign of a text.
#[derive(Clone, Copy)]
struct Dollar {
    place: usize,
    /// The number of its context of braces.
    context: u8,
    /// Whether a backslash escapes it, so that it cannot close a formula.
    is_escaped: bool,
}

/// The dollar signs of one text. They are listed at the first search for a formula.
#[derive(Drop)]
pub struct Dollars {
    alloc: Global,
    listed: Vec<Dollar>,
    /// For each dollar sign the index of the next one in its context that no backslash escapes; the number of dollar signs if there is
    /// none.
    successors: Vec<usize>,
    is_listed: bool,
    /// The index of the dollar sign that was looked up last.
    reached: usize,
    /// How many dollar signs were visited: each one twice to list it, and then in searches.
    pub visited: u128,
}

impl Dollars {
    /// The dollar signs of a text that was not searched yet. They take no memory.
    pub fn new(alloc: Global) -> Dollars
        ensures dollars { (text : List ℕ) → AreDollarsOf text result }
        ensures reached { (text : List ℕ) (at : ℕ) → IsReached text at result }
        ensures visited { result.visited ≡ 0 }
        ensures listed { result.is_listed ≡ false }
    {
        Dollars {
            alloc,
            listed: Vec::new(alloc),
            successors: Vec::new(alloc),
            is_listed: false,
            reached: 0,
            visited: 0,
        }
    }

    /// The formula that the dollar sign at the offset `at` opens (this profile's own), or `None`. It opens display math if another dollar
    /// sign follows, and inline math if a byte that is not white space follows.
    ///
    /// The first later dollar sign in the same context of braces that no backslash escapes decides. It closes inline math if a byte that is
    /// not white space is before it, and display math if another dollar sign follows it. Otherwise there is no formula.
    ///
    /// All calls have to be made with one text. Fails only if memory is refused.
    // Few texts have formulas. If this function were inlined, the function that reads a span would be too large to be inlined into its
    // loop.
    #[inline(never)]
    pub fn formula(&mut self, text: &str, at: usize) -> Result<Option<Formula>, AllocError>
        requires dollar { IsDollarAt text.now at }
        requires dollars { AreDollarsOf text.now self.old }
        requires room { self.old.visited < 2 ^ 127 }
        ensures dollars { AreDollarsOf text.now self.new }
        ensures visits { VisitsOn text.now at self.old self.new }
        ensures least { IfOk result
            (λ found. IfSome found (λ formula. self.old.visited < self.new.visited)) }
        ensures value { IfOk result
            (λ found. option_map (shown_formula text.now) found ≡ formula_at text.now at) }
        ensures kind { IfOk result
            (λ found. IfSome found
            (λ formula. formula.is_display ≡ first_is is_dollar (drop (at + 1) text.now))) }
        ensures places { IfOk result (λ found. IfSome found (IsFormulaAt text.now at)) }
    {
        let bytes = text.as_bytes();
        let is_display = is_dollar_at(bytes, at + 1);
        if !opens(bytes, at, is_display) {
            return Ok(None);
        }
        self.list(text)?;
        let content_start = at + signs_of(is_display);
        let Some(closer) = self.closer(text, content_start - 1) else {
            return Ok(None);
        };
        Ok(formula_up_to(text, content_start, closer, is_display))
    }

    /// Lists the dollar signs, unless they are listed already.
    fn list(&mut self, text: &str) -> Result<(), AllocError>
        requires dollars { AreDollarsOf text.now self.old }
        requires room { self.old.visited < 2 ^ 127 }
        ensures dollars { AreDollarsOf text.now self.new }
        ensures listed { OnOk result (self.new.is_listed ≡ true) }
        ensures counts { OnOk result (Lists text.now self.old self.new) }
        ensures grows { self.old.visited ≤ self.new.visited }
        ensures none { OnErr result
            ((self.new.visited ≡ self.old.visited) × (self.new.is_listed ≡ false)
            × (self.old.is_listed ≡ false)) }
    {
        if self.is_listed {
            return Ok(());
        }
        self.listed = list_dollars(self.alloc, text.as_bytes())?;
        self.successors = link_dollars(self.alloc, &self.listed)?;
        self.visited += self.listed.len() as u128;
        self.visited += self.listed.len() as u128;
        self.reached = 0;
        self.is_listed = true;
        Ok(())
    }

    /// The offset of the first later dollar sign that is in the same context of braces as the one at `at` and not escaped, if there is one.
    fn closer(&mut self, text: &str, at: usize) -> Option<usize>
        requires listed { HasListed text.now self.old }
        requires dollar { IsDollarAt text.now at }
        requires room { self.old.visited < 2 ^ 127 + 2 ^ 100 }
        ensures value { result
            ≡ closing (at + 1) (context_of (braces_at text.now at)) (dollars_in text.now) }
        ensures listed { HasListed text.now self.new }
        ensures reached { self.new.reached ≡ prefix_len (stands_before at) (dollars_in text.now) }
        ensures within { self.new.reached < length (dollars_in text.now) }
        ensures pays { IsReached text.now at self.old
            → self.new.visited + self.old.reached ≡ self.old.visited + self.new.reached + 1 }
        ensures least { self.old.visited < self.new.visited }
    {
        let first = self.first_index(text, at);
        let index = self.index_of(text, at, first);
        self.visited += (index - first) as u128;
        self.visited += 1;
        self.reached = index;
        self.place(self.successors[index])
    }

    /// The offset of the dollar sign with this index, if there is one.
    fn place(&self, index: usize) -> Option<usize>
        ensures { result ≡ option_map (λ d. d.place) (slice_get self.now.listed.items index) }
    {
        if index < self.listed.len() {
            Some(self.listed[index].place)
        } else {
            None
        }
    }

    /// The index of the dollar sign at the offset `at`. The search begins at the index `first`: no dollar sign with a smaller index is
    /// after `at`. Dollar signs are usually looked up in order.
    fn index_of(&self, text: &str, at: usize, first: usize) -> usize
        requires listed { self.now.listed.items ≡ dollars_in text.now }
        requires dollar { IsDollarAt text.now at }
        requires first { prefix_len (stands_before at) self.now.listed.items
            ≡ first + prefix_len (stands_before at) (drop first self.now.listed.items) }
        requires first_within { first ≤ length self.now.listed.items }
        ensures value { result ≡ prefix_len (stands_before at) self.now.listed.items }
        ensures within { result < length self.now.listed.items }
        ensures order { first ≤ result }
    {
        let mut index = first;
        while index < self.listed.len() && self.listed[index].place < at {
            index += 1;
        }
        index
    }

    /// An index for `index_of` to begin at: the dollar sign that was looked up last, if it is not after `at`, and otherwise the first.
    fn first_index(&self, text: &str, at: usize) -> usize
        requires listed { self.now.listed.items ≡ dollars_in text.now }
        requires dollar { IsDollarAt text.now at }
        ensures value { prefix_len (stands_before at) self.now.listed.items
            ≡ result + prefix_len (stands_before at) (drop result self.now.listed.items) }
        ensures within { result ≤ length self.now.listed.items }
        ensures reached { self.now.reached ≤ prefix_len (stands_before at) (dollars_in text.now)
            → result ≡ self.now.reached }
    {
        if self.reached < self.listed.len() && self.listed[self.reached].place <= at {
            return self.reached;
        }
        0
    }
}

/// For each of these dollar signs the index of the next one in its context that no backslash escapes; the number of dollar signs if there
/// is none.
fn link_dollars(alloc: Global, listed: &[Dollar]) -> Result<Vec<usize>, AllocError>
    ensures { IfOk result (λ links. AreLinks listed.now links.items) }
{
    let count = listed.len();
    let mut links = Vec::new(alloc);
    links.resize(count, count)?;
    let mut heads = Vec::new(alloc);
    let mut index = count;
    while index > 0 {
        index -= 1;
        let dollar = listed[index];
        links[index] = head_of(&heads, dollar.context as usize, count);
        if !dollar.is_escaped {
            set_head(&mut heads, dollar.context as usize, index, count)?;
        }
    }
    Ok(links)
}

/// The head of a context, or `none` if the table has no head for it.
fn head_of(heads: &[usize], context: usize, none: usize) -> usize
    ensures { result ≡ get_or heads.now context none }
{
    if context < heads.len() {
        heads[context]
    } else {
        none
    }
}

/// Sets the head of a context. The table ends with the greatest context that has a head, and has `none` for contexts without one.
fn set_head(
    heads: &mut Vec<usize>,
    context: usize,
    index: usize,
    none: usize,
) -> Result<(), AllocError>
    ensures { OnOk result
        ((k : ℕ)
        → get_or heads.new.items k none
        ≡ (if k == context then index else get_or heads.old.items k none)) }
{
    while heads.len() <= context {
        heads.push(none)?;
    }
    heads[context] = index;
    Ok(())
}

/// The dollar signs of a text.
fn list_dollars(alloc: Global, bytes: &[u8]) -> Result<Vec<Dollar>, AllocError>
    ensures { IfOk result (λ listed. listed.items ≡ dollars_in bytes.now) }
{
    let mut listed = Vec::new(alloc);
    let mut braces = Braces::new(alloc);
    let mut is_escaped = false;
    let mut at = 0;
    while at < bytes.len() {
        let byte = bytes[at];
        list_dollar(&mut listed, &braces, at, is_escaped, byte)?;
        braces.pass(is_escaped, byte)?;
        is_escaped = escapes_next(is_escaped, byte);
        at += 1;
    }
    Ok(listed)
}

/// Lists the byte at an offset, if it is a dollar sign.
fn list_dollar(
    listed: &mut Vec<Dollar>,
    braces: &Braces,
    at: usize,
    is_escaped: bool,
    byte: u8,
) -> Result<(), AllocError>
    ensures { OnOk result
        (listed.new.items
        ≡ listed.old.items ++ dollar_here at is_escaped (shown_braces braces.now) byte) }
{
    if byte == b'$' {
        let context = braces.context();
        listed.push(Dollar {
            place: at,
            context,
            is_escaped,
        })?;
    }
    Ok(())
}

/// Whether the dollar sign at an offset may open a formula: display math, or inline math if the next byte is not white space.
fn opens(bytes: &[u8], at: usize, is_display: bool) -> bool
    requires { at < length bytes.now }
    ensures { result ≡ is_display || first_is is_ink (drop (at + 1) bytes.now) }
{
    is_display || is_ink_at(bytes, at + 1)
}

/// Whether a dollar sign is at an offset.
fn is_dollar_at(bytes: &[u8], at: usize) -> bool
    ensures { result ≡ first_is is_dollar (drop at bytes.now) }
{
    at < bytes.len() && bytes[at] == b'$'
}

/// Whether a byte that is not white space is at an offset.
fn is_ink_at(bytes: &[u8], at: usize) -> bool
    ensures { result ≡ first_is is_ink (drop at bytes.now) }
{
    at < bytes.len() && is_ink(bytes[at])
}

/// Whether a byte is not a tab, line feed, form feed, carriage return or space.
fn is_ink(byte: u8) -> bool
    ensures { result ≡ is_ink byte }
{
    !byte.is_ascii_whitespace()
}

/// The number of dollar signs at each end.
fn signs_of(is_display: bool) -> usize
    ensures value { result ≡ signs_of is_display }
    ensures few { result ≤ 2 }
{
    if is_display { 2 } else { 1 }
}

/// Whether the dollar sign at the offset `closer`, which is the first later dollar sign of the context, closes a formula.
fn closes(bytes: &[u8], closer: usize, is_display: bool) -> bool
    requires low { 0 < closer }
    requires within { closer < length bytes.now }
    ensures { result
        ≡ closes_formula is_display (get_or bytes.now (closer - 1) 0)
        (drop (closer + 1) bytes.now) }
{
    if is_display {
        is_dollar_at(bytes, closer + 1)
    } else {
        is_ink(bytes[closer - 1])
    }
}

/// The formula whose content begins at `start`, if the dollar sign at `closer` closes it. `closer` has to be the next dollar sign of the
/// formula's context.
fn formula_up_to(text: &str, start: usize, closer: usize, is_display: bool) -> Option<Formula>
    requires starts { IsCharBoundary text.now start }
    requires low { 0 < start }
    requires ordered { start ≤ closer }
    requires within { closer < length text.now }
    requires dollar { slice_index text.now closer ≡ dollar_sign }
    ensures value { option_map (shown_formula text.now) result
        ≡
        (if closes_formula is_display (get_or text.now (closer - 1) 0) (drop (closer + 1) text.now)
        then Some
        (record { bytes = slice text.now start closer; following = drop (closer + signs_of is_display) text.now })
        else None) }
    ensures kind { IfSome result (λ formula. formula.is_display ≡ is_display) }
    ensures places { (at : ℕ) → start ≡ at + signs_of is_display
        → IfSome result (IsFormulaAt text.now at) }
{
    if !closes(text.as_bytes(), closer, is_display) {
        return None;
    }
    Some(Formula {
        content_start: start,
        content_end: closer,
        end: closer + signs_of(is_display),
        is_display,
    })
}
