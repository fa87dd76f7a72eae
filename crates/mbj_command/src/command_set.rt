ghost use Rattle.std.specs.Prelude.{◌≡◌, ◌∷◌, [], IfOk, Some, codes, false, true};
ghost use Rattle.clap.specs.Words.{Shape, app_of, shape_of};
ghost use Rattle.clap.specs.Simple.{new_app, new_shape, with_rule, with_subcommand};
ghost use Rattle.clap.specs.declared.builder.command.Command.TheViews.{out-Command as fields_of};
ghost use Rattle.mbj_command.specs.Command.{app, jobs, rule, seed, shape, size, submitters, workers};

use crate::help::AFTER_HELP;
use crate::options::{JOBS, NumberOption, SEED, SIZE, SUBMITTERS, WORKERS, argument};
use clap::Command;
use std::alloc::{AllocError, Global};

/// The program's version, which `--version` prints.
const VERSION: &str = "1.0.0";

/// A command without options. In its help the text `about` stands at the top, and the example at the end.
fn bare_command<'a>(alloc: Global, name: &'a str, about: &'a str, example: &'a str) -> Command<'a>
    ensures app { app_of result ≡ new_app name.now }
    ensures local { (fields_of result).has_globals ≡ false }
    ensures text { ((fields_of result).about ≡ Some about.entry)
        × ((fields_of result).after_help ≡ Some example.entry) }
{
    Command::new(alloc, name).about(about).after_help(example)
}

/// The command with this option too, behind those that it has.
fn with_option<'a>(
    alloc: Global,
    command: Command<'a>,
    option: &NumberOption,
) -> Result<Command<'a>, AllocError>
    ensures app { IfOk result (λ c. app_of c ≡ with_rule (app_of command.entry)
        (rule record { name = option.now.name.now; least = option.now.least; greatest = option.now.greatest })) }
    ensures local { IfOk result (λ c. (fields_of c).has_globals ≡ (fields_of command.entry).has_globals) }
{
    command.arg(argument(alloc, option))
}

/// The command with the options that say how many submitters and workers there are.
fn with_parties<'a>(alloc: Global, command: Command<'a>) -> Result<Command<'a>, AllocError>
    ensures app { IfOk result (λ c. app_of c
        ≡ with_rule (with_rule (app_of command.entry) (rule submitters)) (rule workers)) }
    ensures local { IfOk result (λ c. (fields_of c).has_globals ≡ (fields_of command.entry).has_globals) }
{
    let command = with_option(alloc, command, &SUBMITTERS)?;
    with_option(alloc, command, &WORKERS)
}

fn run_command<'a>(alloc: Global) -> Result<Command<'a>, AllocError>
    ensures shape { IfOk result (λ c. shape_of c ≡ shape (codes "run") (submitters ∷ workers ∷ [])) }
    ensures local { IfOk result (λ c. (fields_of c).has_globals ≡ false) }
{
    let about = "Reads a job file, does its jobs, and writes a result line for each, in file order";
    let example = "Example: mbjobs run --submitters 1 --workers 0 < jobs.txt";
    with_parties(alloc, bare_command(alloc, "run", about, example))
}

fn trace_command<'a>(alloc: Global) -> Command<'a>
    ensures shape { shape_of result ≡ shape (codes "trace") [] }
    ensures local { (fields_of result).has_globals ≡ false }
{
    let about = "Reads a job file, drives one manager, and prints what each call gives back";
    bare_command(alloc, "trace", about, "Example: mbjobs trace < jobs.txt")
}

fn burst_command<'a>(alloc: Global) -> Result<Command<'a>, AllocError>
    ensures shape { IfOk result (λ c. shape_of c ≡ shape (codes "burst") (size ∷ [])) }
    ensures local { IfOk result (λ c. (fields_of c).has_globals ≡ false) }
{
    let about =
        "Reads a job file, drives one manager by bursts of jobs, and prints how many results each call gives back, and then the results";
    let example = "Example: mbjobs burst --size 32 < jobs.txt";
    with_option(alloc, bare_command(alloc, "burst", about, example), &SIZE)
}

fn gen_command<'a>(alloc: Global) -> Result<Command<'a>, AllocError>
    ensures shape { IfOk result (λ c. shape_of c ≡ shape (codes "gen") (seed ∷ jobs ∷ submitters ∷ workers ∷ [])) }
    ensures local { IfOk result (λ c. (fields_of c).has_globals ≡ false) }
{
    let about = "Reads nothing, makes jobs from a seed, does them, and prints a summary";
    let example = "Example: mbjobs gen --seed 7 --jobs 1000 --submitters 1 --workers 0";
    let command = bare_command(alloc, "gen", about, example);
    let command = with_option(alloc, command, &SEED)?;
    let command = with_option(alloc, command, &JOBS)?;
    with_parties(alloc, command)
}

fn replay_command<'a>(alloc: Global) -> Result<Command<'a>, AllocError>
    ensures shape { IfOk result (λ c. shape_of c ≡ shape (codes "replay") (submitters ∷ workers ∷ [])) }
    ensures local { IfOk result (λ c. (fields_of c).has_globals ≡ false) }
{
    let about =
        "Reads a job file with a script behind its jobs, and prints the outcome of each command of the script";
    let example = "Example: mbjobs replay --submitters 1 --workers 2 < replay.txt";
    with_parties(alloc, bare_command(alloc, "replay", about, example))
}

/// The program without its commands.
fn program<'a>(alloc: Global) -> Command<'a>
    ensures { app_of result ≡ record (new_app (codes "mbjobs")) {
      top = record (new_shape (codes "mbjobs")) { has_version = true; subcommand_required = true };
    } }
{
    Command::new(alloc, "mbjobs")
        .about("Ciphers and authenticates the packets of many jobs at a time")
        .after_help(AFTER_HELP)
        .version(VERSION)
        .subcommand_required(true)
}

/// The program with this command too, if there was memory for it.
fn with_command<'a>(
    program: Command<'a>,
    command: Result<Command<'a>, AllocError>,
) -> Result<Command<'a>, AllocError>
    requires { IfOk command (λ c. (fields_of c).has_globals ≡ false) }
    ensures { (s : Shape) → IfOk command.entry (λ c. shape_of c ≡ s)
        → IfOk result (λ p. app_of p ≡ with_subcommand (app_of program.entry) s) }
{
    program.subcommand(command?)
}

/// The program's commands and their options, for clap.
///
/// Returns `AllocError` for want of memory.
pub(crate) fn command_set<'a>(alloc: Global) -> Result<Command<'a>, AllocError>
    ensures { IfOk result (λ c. app_of c ≡ app) }
{
    let set = with_command(program(alloc), run_command(alloc))?;
    let set = set.subcommand(trace_command(alloc))?;
    let set = with_command(set, burst_command(alloc))?;
    let set = with_command(set, gen_command(alloc))?;
    with_command(set, replay_command(alloc))
}
