//! The look-up of entities (CommonMark 2.5).

ghost use Rattle.std.specs.Prelude.{◌≡◌, ℕ, List, Option, option_copied};
ghost use Rattle.cmark_grammar.specs.Entities.{basic_entity};

/// The texts that entity names are replaced by.
///
/// A look-up is a function of the name: `replacement` is that function, and a parser's meaning is stated with it.
pub trait EntityLookup {
    ghost replacement: { Self → List ℕ → Option (List ℕ) };

    /// The replacement of `&name;`, or `None` if the name is not known. `name` comes without `&` and `;`.
    fn get_entity(&self, name: &str) -> Option<&str>
        ensures { option_copied result ≡ replacement self.now name.now };
}

/// Eleven names: `amp`, `lt`, `gt`, `quot`, `apos`, `nbsp`, `copy`, `reg`, `hellip`, `mdash` and `ndash`.
#[derive(Clone, Copy, Debug, PartialEq, Eq)]
pub struct BasicEntities;

impl EntityLookup for BasicEntities {
    ghost replacement = { λ _. basic_entity };

    fn get_entity(&self, name: &str) -> Option<&str> {
        match name {
            "amp" => Some("&"),
            "lt" => Some("<"),
            "gt" => Some(">"),
            "quot" => Some("\""),
            "apos" => Some("'"),
            "nbsp" => Some("\u{a0}"),
            "copy" => Some("\u{a9}"),
            "reg" => Some("\u{ae}"),
            "hellip" => Some("\u{2026}"),
            "mdash" => Some("\u{2014}"),
            "ndash" => Some("\u{2013}"),
            _ => None,
        }
    }
}
