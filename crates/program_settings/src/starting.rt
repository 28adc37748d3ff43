//! The start of a program: it reads the words of its command line, and the file that they name.

ghost use Rattle.std.specs.Prelude.{◌≡◌, ◌⊎◌, ℕ, List, true, map, None, Some, is_some, IfOk, IfErr, IfSome, IsOk};
ghost use Rattle.clap.specs.Words.{fault_of, matches_of, takes};
ghost use Rattle.serde_json.specs.Data.{Members};
ghost use Rattle.cmark_grammar.specs.Entities.{basic_entity};
ghost use Rattle.program_io.specs.Ends.{watched_end, watched_notes};
ghost use Rattle.program_io.specs.Faults.{ReadStops, input_limit};
ghost use Rattle.program_io.specs.Runs.{ReadsAll};
ghost use Rattle.program_io.specs.declared.fault.RunFault.TheVariants.{Entities, Memory, Read};
ghost use Rattle.program_settings.specs.Entities.{Spells, entity_of};
ghost use Rattle.program_settings.specs.Line.{bits_given, file_given, flags, is_safe_given, line_command, option_bits};
ghost use Rattle.program_settings.specs.LookUp.{HasNamesOf, looked_up};
ghost use Rattle.program_settings.specs.Starts.{IsEarly, IsStop, StartsBy, file_fault_of, words_fault_of};
ghost use Rattle.program_settings.specs.declared.starting.Stop.TheVariants.{Fault};

use crate::entities::{NamedEntities, read_entities};
use crate::line::{LineFault, parse_line};
use crate::program::Program;
use cmark_values::Options;
use program_io::run::INPUT_LIMIT;
use program_io::{RunFault, Watched, read_all};
use std::alloc::{AllocError, Global};
use std::convert::AsStr;
use std::env::Env;
use std::io::{ErrorKind, Read};
use std::rt::Files;
use std::{env, fs, io};

/// The settings of a run.
#[derive(Drop)]
pub struct RunSettings {
    /// The options whose flags were given.
    pub options: Options,
    /// Whether `--safe` was given, which asks for safe HTML.
    pub safe: bool,
    /// The names of the file that was given, and the eleven of `BasicEntities`.
    pub entities: NamedEntities,
}

/// The reasons why a program makes no run.
#[derive(Drop)]
pub enum Stop {
    /// The words ask for a text: the help or the version.
    Help(String),
    /// The command refuses the words.
    BadLine,
    /// Memory was refused, or the file of entities is no such file.
    Fault(RunFault),
}

impl From<AllocError> for Stop {
    ghost use Rattle.program_settings.specs.declared.starting.Stop.TheVariants.{Fault};

    ghost from_gives = { λ _ stop. stop ≡ Fault Memory };

    fn from(_error: AllocError) -> Self {
        Self::Fault(RunFault::Memory)
    }
}

impl From<RunFault> for Stop {
    ghost use Rattle.program_settings.specs.declared.starting.Stop.TheVariants.{Fault};

    ghost from_gives = { λ fault stop. stop ≡ Fault fault };

    fn from(fault: RunFault) -> Self {
        Self::Fault(fault)
    }
}

impl From<LineFault> for Stop {
    ghost use Rattle.program_settings.specs.Starts.{stop_of};

    ghost from_gives = { λ fault stop. stop ≡ stop_of fault };

    fn from(fault: LineFault) -> Self {
        match fault {
            LineFault::Help(text) => Self::Help(text),
            LineFault::Bad => Self::BadLine,
            LineFault::Memory => Self::Fault(RunFault::Memory),
        }
    }
}

/// Reads a file of entities to its end, at most [`INPUT_LIMIT`] bytes.
///
/// The notes of the reader start afresh. Returns `Entities` if the file cannot be read, is too long, or is no object that
/// [`read_entities`] takes, and `Memory` if memory was refused.
#[inline(never)]
pub fn read_entity_file<R: Read>(
    alloc: Global,
    reader: &mut Watched<R>,
) -> Result<NamedEntities, RunFault>
    ensures names { IfOk result
        (λ found. (bytes : List ℕ)
        × ReadsAll (R.remaining (watched_end reader.old)) (R.remaining (watched_end reader.new))
        bytes
        ×
        ((names : Members) × Spells bytes names
        × ((name : List ℕ) → looked_up found name ≡ entity_of names name))) }
    ensures fault { IfErr result
        (λ fault. (fault ≡ Memory)
        ⊎
        ((fault ≡ Entities)
        ×
        (ReadStops input_limit (watched_notes reader.new) Read
        ⊎
        ((bytes : List ℕ)
        × ReadsAll (R.remaining (watched_end reader.old)) (R.remaining (watched_end reader.new))
        bytes × ((names : Members) → ¬ (Spells bytes names)))))) }
{
    let bytes = match read_all(alloc, reader, INPUT_LIMIT) {
        Ok(bytes) => bytes,
        Err(RunFault::Memory) => return Err(RunFault::Memory),
        Err(_) => return Err(RunFault::Entities),
    };
    read_entities(alloc, bytes.as_slice())
}

/// Returns the fault if the system does not give the words.
fn words_fault(kind: ErrorKind) -> LineFault
    ensures { result ≡ words_fault_of kind }
{
    match kind {
        ErrorKind::OutOfMemory => LineFault::Memory,
        _ => LineFault::Bad,
    }
}

/// Returns the fault if a file of entities cannot be opened.
fn file_fault(kind: ErrorKind) -> RunFault
    ensures { result ≡ file_fault_of kind }
{
    match kind {
        ErrorKind::OutOfMemory => RunFault::Memory,
        _ => RunFault::Entities,
    }
}

/// Returns the words that the program was started with, its own name first. A word that is not UTF-8 gives `LineFault::Bad`.
fn started_with<H: Env + AllocGlobal>(host: &H) -> Result<Vec<String>, LineFault> {
    match env::args(host) {
        Ok(words) => Ok(words.collect(host.alloc())?),
        Err(error) => Err(words_fault(error.kind())),
    }
}

/// Opens the file of this path, if there is a path.
fn opened<H: Files>(host: &H, path: Option<String>) -> Result<Option<Watched<H::File>>, RunFault>
    ensures file { IfOk result (λ file. is_some file ≡ is_some path) }
    ensures succeeds { path ≡ None → IsOk result }
    ensures fault { IfErr result IsEarly }
{
    let Some(path) = path else {
        return Ok(None);
    };
    match fs::open(host, path) {
        Ok(file) => Ok(Some(Watched::new(file))),
        Err(error) => Err(file_fault(error.kind())),
    }
}

/// Returns the look-up of a file of entities, or of the eleven names alone if there is no file.
fn look_up<R: Read + Drop>(
    alloc: Global,
    file: Option<Watched<R>>,
) -> Result<NamedEntities, RunFault>
    ensures basic { file ≡ None
        → IfOk result (λ found. (name : List ℕ) → looked_up found name ≡ basic_entity name) }
    ensures succeeds { file ≡ None → IsOk result }
    ensures names { IfSome file
        (λ reader. IfSome (R.remaining (watched_end reader))
        (λ bytes. IfOk result (HasNamesOf bytes))) }
    ensures fault { IfErr result IsEarly }
{
    let Some(mut reader) = file else {
        return Ok(NamedEntities::basic());
    };
    read_entity_file(alloc, &mut reader)
}

/// Returns the settings of a run by these words, and by the file of entities that they name. The first word is the program's own
/// name.
pub fn start_with<H: Files + AllocGlobal, S: AsStr>(
    host: &H,
    program: Program,
    words: &[S],
) -> Result<RunSettings, Stop>
    ensures options { IfOk result (λ s. option_bits s.options
        ≡ bits_given flags (matches_of (line_command program) (map S.text words.now))) }
    ensures safe { IfOk result
        (λ s. s.safe ≡ is_safe_given (matches_of (line_command program) (map S.text words.now))) }
    ensures basic { file_given (matches_of (line_command program) (map S.text words.now)) ≡ None
        → IfOk result (λ s. (entity : List ℕ) → looked_up s.entities entity ≡ basic_entity entity) }
    ensures stops { StartsBy (fault_of (line_command program) (map S.text words.now)) result }
    ensures passes { takes (line_command program) (map S.text words.now) ≡ true
        → file_given (matches_of (line_command program) (map S.text words.now)) ≡ None
        → IfErr result (λ stop. stop ≡ Fault Memory) }
{
    let settings = parse_line(host.alloc(), program, words)?;
    let file = opened(host, settings.entities)?;
    Ok(RunSettings {
        options: settings.options,
        safe: settings.safe,
        entities: look_up(host.alloc(), file)?,
    })
}

/// Does what [`start_with`] does, by the words that the program was started with.
pub fn start<H: Env + Files + AllocGlobal>(host: &H, program: Program) -> Result<RunSettings, Stop>
    ensures { IfErr result IsStop }
{
    let words = started_with(host)?;
    start_with(host, program, words.as_slice())
}
