ghost use Rattle.std.specs.Prelude.{◌≡◌, ◌≢◌, ℕ, IfErr, IfOk, IfSome, Some, None, map, option_and_then, option_map, string_bytes};
ghost use Rattle.clap.specs.Words.{found_of, kind_of, rows_of, subcommand_rows_of};
ghost use Rattle.mbj_command.specs.Command.{IsInRange, IsParties, burst_of, command, found_command, gen_of, with_parties};
ghost use Rattle.mbj_command.specs.declared.command.Command.TheVariants.{Run, Replay};

use crate::command_set::command_set;
use crate::options::{JOBS, SEED, SIZE, SUBMITTERS, WORKERS, number};
use clap::ArgMatches;
use clap::error::ErrorKind;
use std::alloc::Global;
use std::error::Error;
use std::fmt;

/// What a command line asks for.
#[derive(Clone, Copy, Debug, PartialEq, Eq)]
pub enum Command {
    /// `run`: reads a job file, does its jobs, and writes a result line for each, in file order.
    Run {
        submitters: u32,
        workers: u32,
    },
    /// `trace`: reads a job file, drives one manager with its jobs, and prints what each call gives back.
    Trace,
    /// `burst`: reads a job file, hands its jobs to one manager in groups of `size`, prints how many results each call gives
    /// back, and then the result lines.
    Burst {
        size: u32,
    },
    /// `gen`: makes jobs from the seed, does them as `run` does, and prints a summary.
    Gen {
        seed: u64,
        jobs: u32,
        submitters: u32,
        workers: u32,
    },
    /// `replay`: reads a job file with a script behind its jobs, carries the script out over one front, and prints the outcome
    /// of each command.
    Replay {
        submitters: u32,
        workers: u32,
    },
}

/// Why words gave no command.
#[derive(Debug, Drop)]
pub enum WordFault {
    /// The words are no command. The text is for people: what is wrong and the usage, or the help or the version that
    /// was asked for.
    Text(String),
    /// There wasn't enough memory for the text.
    Memory,
}

impl WordFault {
    /// The fault with this text.
    pub fn from_str(alloc: Global, text: &str) -> WordFault {
        String::from_str(alloc, text).map_or(WordFault::Memory, WordFault::Text)
    }
}

impl fmt::Display for WordFault {
    fn fmt<W: fmt::Write>(&self, f: &mut fmt::Formatter<W>) -> fmt::Result {
        f.write_str(match self {
            WordFault::Text(text) => text.as_str(),
            WordFault::Memory => "not enough memory to read the command line",
        })
    }
}

impl Error for WordFault {}

/// How many submitters and workers were asked for.
fn parties(matches: &ArgMatches<'_>) -> Option<(u32, u32)>
    ensures value { (c : ℕ → ℕ → Command) → option_map (λ p. c p.0 p.1) result
        ≡ with_parties c (rows_of (found_of matches.now)) }
    ensures range { IfSome result (λ p. IsParties p.0 p.1) }
{
    let submitters = number(matches, &SUBMITTERS)?;
    let workers = number(matches, &WORKERS)?;
    Some((submitters as u32, workers as u32))
}

fn run_of(matches: &ArgMatches<'_>) -> Option<Command>
    ensures meaning { result ≡ with_parties Run (rows_of (found_of matches.now)) }
    ensures range { IfSome result IsInRange }
{
    let (submitters, workers) = parties(matches)?;
    Some(Command::Run {
        submitters,
        workers,
    })
}

fn burst_of(matches: &ArgMatches<'_>) -> Option<Command>
    ensures meaning { result ≡ burst_of (rows_of (found_of matches.now)) }
    ensures range { IfSome result IsInRange }
{
    let size = number(matches, &SIZE)?;
    Some(Command::Burst { size: size as u32 })
}

fn gen_of(matches: &ArgMatches<'_>) -> Option<Command>
    ensures meaning { result ≡ gen_of (rows_of (found_of matches.now)) }
    ensures range { IfSome result IsInRange }
{
    let seed = number(matches, &SEED)?;
    let jobs = number(matches, &JOBS)?;
    let (submitters, workers) = parties(matches)?;
    Some(Command::Gen {
        seed,
        jobs: jobs as u32,
        submitters,
        workers,
    })
}

fn replay_of(matches: &ArgMatches<'_>) -> Option<Command>
    ensures meaning { result ≡ with_parties Replay (rows_of (found_of matches.now)) }
    ensures range { IfSome result IsInRange }
{
    let (submitters, workers) = parties(matches)?;
    Some(Command::Replay {
        submitters,
        workers,
    })
}

/// The command that clap found in the words.
fn found_command(matches: &ArgMatches<'_>) -> Option<Command>
    ensures meaning { result ≡ option_and_then found_command (subcommand_rows_of matches.now) }
    ensures range { IfSome result IsInRange }
{
    let (name, options) = matches.subcommand()?;
    if name == "run" {
        return run_of(options);
    }
    if name == "trace" {
        return Some(Command::Trace);
    }
    if name == "burst" {
        return burst_of(options);
    }
    if name == "gen" {
        return gen_of(options);
    }
    if name == "replay" {
        return replay_of(options);
    }
    None
}

/// The fault whose text is clap's.
fn fault_of(alloc: Global, error: &clap::Error) -> WordFault
    ensures { result ≢ WordFault.Memory → kind_of error.now ≢ ErrorKind.OutOfMemory }
{
    match error.kind() {
        ErrorKind::OutOfMemory => WordFault::Memory,
        _ => error
            .to_string(alloc)
            .map_or(WordFault::Memory, WordFault::Text),
    }
}

/// The command that the words are, the first of which is the program's name.
///
/// The words are read by clap's rules: options come in any order, once each, as `--NAME NUMBER` or `--NAME=NUMBER`. A number
/// may have leading zeros and one leading plus sign. `--help`, `-h`, `help` and `--version` are no commands.
///
/// Returns `Text` exactly where the words are no command, and `Memory` for want of memory.
///
/// ```
/// match read_command(alloc, &words) {
///     Ok(command) => format!(in alloc; "{command:?}"),
///     Err(WordFault::Text(text)) => Ok(text),
///     Err(WordFault::Memory) => Err(AllocError),
/// }
/// ```
pub fn read_command<'a>(alloc: Global, words: &'a [String]) -> Result<Command, WordFault>
    ensures found { IfOk result (λ c. command (map string_bytes words.now) ≡ Some c) }
    ensures range { IfOk result IsInRange }
    ensures none { IfErr result (λ fault. fault ≢ WordFault.Memory → command (map string_bytes words.now) ≡ None) }
{
    let Ok(set) = command_set(alloc) else {
        return Err(WordFault::Memory);
    };
    let matches = match set.try_get_matches_from(words) {
        Ok(matches) => matches,
        Err(error) => return Err(fault_of(alloc, &error)),
    };
    match found_command(&matches) {
        Some(command) => Ok(command),
        // No words are known in which clap finds neither a fault nor a command; that there are none isn't proved.
        None => Err(WordFault::from_str(alloc, "error: no command was found\n")),
    }
}
