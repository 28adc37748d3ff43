//! The contexts into which braces divide a text (this profile's own).

ghost use Rattle.std.specs.Prelude.{◌≡◌, ◌≤◌, ◌<◌, ◌+◌, ◌^◌, false, OnOk};
ghost use Rattle.cmark_grammar.specs.Characters.{left_brace, right_brace};
ghost use Rattle.cmark_grammar.specs.Formulas.{no_braces, context_of, after_byte};
ghost use Rattle.cmark_span_scan.specs.Dollars.{shown_braces};

use std::alloc::{AllocError, Global};

/// The number of the outermost context at first.
const FIRST_OUTERMOST: u8 = 255;

/// The contexts at an offset of a text. They are numbered modulo 256.
#[derive(Drop)]
pub(crate) struct Braces {
    /// The numbers of the contexts that were entered, the outermost first.
    entered: Vec<u8>,
    /// The number of the outermost context.
    outermost: u8,
    /// How many numbers were used.
    next: usize,
}

impl Braces {
    /// The contexts at the start of a text.
    pub fn new(alloc: Global) -> Braces
        ensures braces { shown_braces result ≡ no_braces }
        ensures next { result.next ≡ 0 }
    {
        Braces {
            entered: Vec::new(alloc),
            outermost: FIRST_OUTERMOST,
            next: 0,
        }
    }

    /// The number of the innermost context.
    pub fn context(&self) -> u8
        ensures { result ≡ context_of (shown_braces self.now) }
    {
        match self.entered.last() {
            Some(context) => *context,
            None => self.outermost,
        }
    }

    /// Moves past a byte. It is not a brace if a backslash escapes it.
    pub fn pass(&mut self, is_escaped: bool, byte: u8) -> Result<(), AllocError>
        requires room { self.old.next + 1 < 2 ^ 64 }
        ensures braces { OnOk result
            (shown_braces self.new ≡ after_byte is_escaped byte (shown_braces self.old)) }
        ensures next { OnOk result (self.new.next ≤ self.old.next + 1) }
    {
        if is_escaped {
            return Ok(());
        }
        match byte {
            b'{' => self.enter(),
            b'}' => {
                self.leave();
                Ok(())
            }
            _ => Ok(()),
        }
    }

    // Enters the next context.
    fn enter(&mut self) -> Result<(), AllocError>
        requires room { self.old.next + 1 < 2 ^ 64 }
        ensures braces { OnOk result
            (shown_braces self.new ≡ after_byte false left_brace (shown_braces self.old)) }
        ensures next { OnOk result (self.new.next ≤ self.old.next + 1) }
    {
        self.entered.push((self.next % 256) as u8)?;
        self.next += 1;
        Ok(())
    }

    // Leaves the innermost context; the outermost one gets the next number.
    fn leave(&mut self)
        requires room { self.old.next + 1 < 2 ^ 64 }
        ensures braces { shown_braces self.new
            ≡ after_byte false right_brace (shown_braces self.old) }
        ensures next { self.new.next ≤ self.old.next + 1 }
    {
        if self.entered.pop().is_none() {
            self.outermost = (self.next % 256) as u8;
            self.next += 1;
        }
    }
}
