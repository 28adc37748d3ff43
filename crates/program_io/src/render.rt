//! The conversion of a text.

ghost use Rattle.std.specs.Prelude.{⊤, ℕ, List, IfOk, OnErr, string_bytes};

use std::alloc::{AllocError, Global};

/// The conversion that a run applies to the text that it read.
pub trait Render {
    /// The outputs that are allowed for these bytes of a text.
    ghost renders: { Self → List ℕ → List ℕ → Type 0 };

    /// The texts for which memory may be refused. If a renderer refused memory for a text, its user knows that this holds of the text.
    ghost refuses: { Self → List ℕ → Type 0 } = { λ _ _. ⊤ };

    /// The output for a text. Fails if memory is refused.
    fn render(&self, alloc: Global, text: &str) -> Result<String, AllocError>
        ensures output { IfOk result (λ output. renders self.now text.now (string_bytes output)) }
        ensures refused { OnErr result (refuses self.now text.now) };
}
