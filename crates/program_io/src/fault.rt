//! The faults that can end a run.

ghost use Rattle.std.specs.Prelude.{◌≡◌, Some};
ghost use Rattle.std.specs.Fmt.{padded};
ghost use Rattle.program_io.specs.Faults.{message_of, status_of};

use std::alloc::AllocError;
use std::error::Error;
use std::fmt::{self, Display, Formatter, Write};

/// The fault that ended a run before all was written. Its text is the message, without the program's name.
#[derive(Clone, Copy, Debug, PartialEq, Eq)]
pub enum RunFault {
    /// Memory was refused. Nothing was written.
    Memory = 1,
    /// A read failed, too many reads in a row were interrupted, or the input is too long. Nothing was written.
    Read = 2,
    /// The input is not UTF-8. Nothing was written.
    NotUtf8 = 3,
    /// The file of entities cannot be read, or is not a JSON object whose values are texts. Nothing was written.
    Entities = 4,
    /// A write or the flush failed, a write took no byte, or too many writes in a row were interrupted. A beginning of the output was
    /// written.
    Write = 5,
}

impl From<AllocError> for RunFault {
    ghost use Rattle.program_io.specs.declared.fault.RunFault.TheVariants.{Memory};

    ghost from_gives = { λ _ fault. fault ≡ Memory };

    fn from(_error: AllocError) -> Self {
        Self::Memory
    }
}

impl Display for RunFault {
    ghost output = { λ fault. Some (message_of fault) };

    ghost styled_output = { λ fault spec. Some (padded spec (message_of fault)) };

    fn fmt<W: Write>(&self, f: &mut Formatter<W>) -> fmt::Result {
        let message = match self {
            RunFault::Memory => "out of memory",
            RunFault::Read => "read failed",
            RunFault::NotUtf8 => "input is not UTF-8",
            RunFault::Entities => "bad entity file",
            RunFault::Write => "write failed",
        };
        f.pad(message)
    }
}

impl Error for RunFault {}

/// The exit status that the program ends with after a fault.
pub fn status(fault: &RunFault) -> u8
    ensures { result ≡ status_of fault.now }
{
    match fault {
        RunFault::Memory | RunFault::Read | RunFault::Write => 1,
        RunFault::Entities => 3,
        RunFault::NotUtf8 => 4,
    }
}
