//! The reasons why a chunk is not appended to a text.

ghost use Rattle.std.specs.Prelude.{◌≡◌, Some};
ghost use Rattle.std.specs.Fmt.{padded};
ghost use Rattle.cmark_stream.specs.Faults.{message_of};
ghost use Rattle.cmark_stream.specs.declared.fault.StreamFault.TheVariants.{NoMemory};

use std::alloc::AllocError;
use std::error::Error;
use std::fmt::{self, Display, Formatter, Write};

/// The reason why a chunk is not appended to a text.
#[derive(Clone, Copy, Debug, PartialEq, Eq)]
pub enum StreamFault {
    /// Memory was refused.
    NoMemory,
    /// The bytes are not UTF-8, or a text came after bytes that end inside a character.
    NotUtf8,
}

impl From<AllocError> for StreamFault {
    ghost from_gives = { λ _ fault. fault ≡ NoMemory };

    fn from(_error: AllocError) -> StreamFault {
        StreamFault::NoMemory
    }
}

impl Display for StreamFault {
    ghost output = { λ fault. Some (message_of fault) };

    ghost styled_output = { λ fault spec. Some (padded spec (message_of fault)) };

    fn fmt<W: Write>(&self, f: &mut Formatter<W>) -> fmt::Result {
        let message = match self {
            StreamFault::NoMemory => "out of memory",
            StreamFault::NotUtf8 => "input is not UTF-8",
        };
        f.pad(message)
    }
}

impl Error for StreamFault {}
