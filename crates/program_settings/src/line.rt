//! The words of a command line.

ghost use Rattle.std.specs.Prelude.{◌≡◌, true, false, map, string_bytes, option_map, None, IfOk, IfErr};
ghost use Rattle.clap.specs.Words.{app_of, fault_of, found_of, kind_of, matches_of, rows_of, rule_of, takes};
ghost use Rattle.program_settings.specs.Line.{bits_given, file_given, file_rule, flag_rule, flags, is_safe_given, line_command, option_bits, options_command, safe_flag, with_safe_rule, writes_html, AnswersBy, HasLineFault};
ghost use Rattle.program_settings.specs.declared.line.LineFault.TheVariants.{Memory};

use crate::flags::{FLAGS, has_flag, options_given, text_given, with_flags};
use crate::program::Program;
use bitflags::Flags;
use clap::error::ErrorKind;
use clap::{Arg, ArgAction, ArgMatches, Command, Error};
use cmark_values::Options;
use std::alloc::{AllocError, Global};
use std::convert::AsStr;

/// The version that `--version` writes: the version of the crate that this repository ports.
const VERSION: &str = "0.13.6";

/// The flag for safe HTML, without its hyphens.
const SAFE: &str = "safe";

/// The settings that the words of a command line ask for.
#[derive(Drop)]
pub struct Settings {
    /// The options whose flags were given.
    pub options: Options,
    /// Whether `--safe` was given, which asks for safe HTML.
    pub safe: bool,
    /// The file after `--entities`, if it was given.
    pub entities: Option<String>,
}

impl Settings {
    /// The settings of a command line without flags.
    fn none() -> Settings
        ensures options { option_bits result.options ≡ 0 }
        ensures safe { result.safe ≡ false }
        ensures file { result.entities ≡ None }
    {
        Settings {
            options: Options::empty(),
            safe: false,
            entities: None,
        }
    }
}

/// The reasons why the words of a command line give no settings.
#[derive(Drop)]
pub enum LineFault {
    /// The words ask for the help or the version. This is the text, with its last line ended.
    Help(String),
    /// The command refuses the words: an unknown flag, a flag given twice, `--entities` without a file, or another word.
    Bad,
    /// Memory was refused.
    Memory,
}

impl From<AllocError> for LineFault {
    ghost use Rattle.program_settings.specs.declared.line.LineFault.TheVariants.{Memory};

    ghost from_gives = { λ _ fault. fault ≡ Memory };

    fn from(_error: AllocError) -> Self {
        Self::Memory
    }
}

/// Returns the command that reads the words.
fn line_reader<'a>(alloc: Global, program: Program) -> Result<Command<'a>, AllocError>
    ensures { IfOk result (λ c. app_of c ≡ line_command program) }
{
    let name: &'a str = program.name();
    let about: &'a str = program.about();
    let command = options_reader(alloc, name, about)?;
    with_safe_flag(alloc, command, program)?.arg(file_arg(alloc))
}

/// Returns the command of this name with the flags of the options.
fn options_reader<'a>(
    alloc: Global,
    name: &'a str,
    about: &'a str,
) -> Result<Command<'a>, AllocError>
    ensures { IfOk result (λ c. app_of c ≡ options_command name.entry.now) }
{
    let command = Command::new(alloc, name).version(VERSION).about(about);
    with_flags(alloc, command, FLAGS.as_slice())
}

/// Adds the flag for safe HTML, if the program writes HTML.
fn with_safe_flag<'a>(
    alloc: Global,
    command: Command<'a>,
    program: Program,
) -> Result<Command<'a>, AllocError>
    ensures { IfOk result
        (λ c. app_of c ≡ with_safe_rule (writes_html program) (app_of command.entry)) }
{
    if !program.writes_html() {
        return Ok(command);
    }
    command.arg(safe_arg(alloc))
}

/// The argument of the flag for safe HTML.
fn safe_arg<'a>(alloc: Global) -> Arg<'a>
    ensures rule { rule_of result ≡ flag_rule safe_flag }
    ensures local { result.global ≡ false }
{
    Arg::new(alloc, SAFE)
        .long(SAFE)
        .action(ArgAction::SetTrue)
        .help("Safe HTML, for a text of a stranger")
}

/// The argument for the file with the texts of entity names.
fn file_arg<'a>(alloc: Global) -> Arg<'a>
    ensures rule { rule_of result ≡ file_rule }
    ensures local { result.global ≡ false }
{
    Arg::new(alloc, "entities")
        .long("entities")
        .action(ArgAction::Set)
        .value_name("FILE")
        .help("The texts of entity names: a JSON object of texts")
}

/// Returns the settings that the matches of the words ask for.
fn settings_of(alloc: Global, matches: &ArgMatches<'_>) -> Result<Settings, AllocError>
    ensures options { IfOk result
        (λ s. option_bits s.options ≡ bits_given flags (rows_of (found_of matches.now))) }
    ensures safe { IfOk result (λ s. s.safe ≡ is_safe_given (rows_of (found_of matches.now))) }
    ensures file { IfOk result
        (λ s. option_map string_bytes s.entities ≡ file_given (rows_of (found_of matches.now))) }
{
    let entities = match text_given(matches, "entities") {
        Some(file) => Some(String::from_str(alloc, file)?),
        None => None,
    };
    Ok(Settings {
        options: options_given(matches, FLAGS.as_slice()),
        safe: has_flag(matches, SAFE),
        entities,
    })
}

/// Returns the fault of a command line that has no matches.
fn line_fault(alloc: Global, error: &Error) -> LineFault
    ensures { HasLineFault (kind_of error.now) result }
{
    match error.kind() {
        ErrorKind::OutOfMemory => LineFault::Memory,
        ErrorKind::DisplayHelp | ErrorKind::DisplayVersion => {
            match format!(in alloc; "{error}") {
                Ok(text) => LineFault::Help(text),
                Err(_) => LineFault::Memory,
            }
        }
        _ => LineFault::Bad,
    }
}

/// Reads the words of a program's command line. The first word is the program's own name. The others are flags, one for each
/// option, and `--entities FILE`; a program that writes HTML takes `--safe` too. `-h` and `--help` ask for the help, `-V` and
/// `--version` for the version.
///
/// ```text
/// parse_line(alloc, Program::Mdhtml, &["mdhtml", "--tables"])?.options == Options::ENABLE_TABLES
/// ```
pub fn parse_line<'a, S: AsStr>(
    alloc: Global,
    program: Program,
    words: &'a [S],
) -> Result<Settings, LineFault>
    ensures options { IfOk result (λ s. option_bits s.options
        ≡ bits_given flags (matches_of (line_command program) (map S.text words.entry.now))) }
    ensures safe { IfOk result
        (λ s. s.safe
        ≡ is_safe_given (matches_of (line_command program) (map S.text words.entry.now))) }
    ensures file { IfOk result (λ s. option_map string_bytes s.entities
        ≡ file_given (matches_of (line_command program) (map S.text words.entry.now))) }
    ensures faults { AnswersBy (fault_of (line_command program) (map S.text words.entry.now))
        result }
    ensures passes { takes (line_command program) (map S.text words.entry.now) ≡ true
        → IfErr result (λ f. f ≡ Memory) }
{
    // Most runs have no word but the program's own name. They need no command.
    if let [_] = words {
        return Ok(Settings::none());
    }
    read_words(alloc, program, words)
}

/// Does what [`parse_line`] does, by a command that reads the words. It is a function of its own, so that a run without words
/// needs no stack for the command.
#[inline(never)]
fn read_words<'a, S: AsStr>(
    alloc: Global,
    program: Program,
    words: &'a [S],
) -> Result<Settings, LineFault>
    ensures options { IfOk result (λ s. option_bits s.options
        ≡ bits_given flags (matches_of (line_command program) (map S.text words.entry.now))) }
    ensures safe { IfOk result
        (λ s. s.safe
        ≡ is_safe_given (matches_of (line_command program) (map S.text words.entry.now))) }
    ensures file { IfOk result (λ s. option_map string_bytes s.entities
        ≡ file_given (matches_of (line_command program) (map S.text words.entry.now))) }
    ensures faults { AnswersBy (fault_of (line_command program) (map S.text words.entry.now))
        result }
    ensures passes { takes (line_command program) (map S.text words.entry.now) ≡ true
        → IfErr result (λ f. f ≡ Memory) }
{
    let command = line_reader(alloc, program)?;
    match command.try_get_matches_from(words) {
        Ok(matches) => {
            let settings = settings_of(alloc, &matches)?;
            Ok(settings)
        }
        Err(error) => Err(line_fault(alloc, &error)),
    }
}
