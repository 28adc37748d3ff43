//! The end of a program: a text that its words asked for, a line on standard error, an exit status.

ghost use Rattle.std.specs.Process.{exit_status};
ghost use Rattle.program_io.specs.Ends.{watched_end, watched_notes};
ghost use Rattle.program_settings.specs.Endings.{EndsWith};

use crate::program::Program;
use crate::starting::Stop;
use program_io::{Watched, status, write_text};
use std::io::{Eprint, Write};
use std::process::ExitCode;

/// The exit status of a command line that is refused.
const BAD_LINE_STATUS: u8 = 2;

/// Ends a program, and returns its exit status.
///
/// A text that the words asked for goes to the writer. Any other reason to stop is written to standard error, in one line after
/// the program's name. If standard error is closed too, only the status tells of it.
pub fn finish<H: Eprint, W: Write>(
    host: &H,
    program: Program,
    writer: &mut Watched<W>,
    ended: Result<(), Stop>,
) -> ExitCode
    ensures { EndsWith (W.contents (watched_end writer.old)) (W.contents (watched_end writer.new))
        (watched_notes writer.new) ended (exit_status result) }
{
    let name = program.name();
    let fault = match ended {
        Ok(()) => return ExitCode::SUCCESS,
        Err(Stop::Help(text)) => match write_text(writer, text.as_bytes()) {
            Ok(()) => return ExitCode::SUCCESS,
            Err(fault) => fault,
        },
        Err(Stop::BadLine) => {
            let _ = eprintln!(host;
                "{name}: bad command line; the text is read from standard input, and {name} --help lists the flags"
            );
            return ExitCode::from(BAD_LINE_STATUS);
        }
        Err(Stop::Fault(fault)) => fault,
    };
    let _ = eprintln!(host; "{name}: {fault}");
    ExitCode::from(status(&fault))
}
