//! The programs whose command lines are read here.

ghost use Rattle.std.specs.Prelude.{◌≡◌};
ghost use Rattle.program_settings.specs.Line.{name_of, writes_html};

/// A program of this repository.
#[derive(Clone, Copy, Debug, PartialEq, Eq)]
pub enum Program {
    /// Writes the HTML of a text.
    Mdhtml,
    /// Writes a line of JSON for each event of a text.
    Mdevents,
}

impl Program {
    /// The name, as the help and each message have it.
    pub fn name(self) -> &'static str
        ensures { result.now ≡ name_of self }
    {
        match self {
            Program::Mdhtml => "mdhtml",
            Program::Mdevents => "mdevents",
        }
    }

    /// The purpose, as the help says it.
    pub(crate) fn about(self) -> &'static str {
        match self {
            Program::Mdhtml =>
                "Reads Markdown on standard input and writes HTML on standard output",
            Program::Mdevents => {
                "Reads Markdown on standard input and writes a line of JSON for each event on standard output"
            }
        }
    }

    /// Whether the program writes HTML, and so takes `--safe`.
    pub(crate) fn writes_html(self) -> bool
        ensures { result ≡ writes_html self }
    {
        matches!(self, Program::Mdhtml)
    }
}
