//! The program `mbjobs`: it reads a job file from standard input, does its jobs, and prints the result of each.
#![tactic(auto)]

ghost use Rattle.std.specs.Prelude.{◌≡◌, ◌⊎◌};
ghost use Rattle.std.specs.Process.{exit_status};
ghost use Rattle.mbjobs.specs.Message.{status_for};
ghost use Rattle.mbjobs.specs.declared.cause.Cause.{Cause};

mod burst;
mod cause;
mod generate;
mod reading;
mod replay;
mod report;
mod results;
mod run;
#[cfg(test)]
mod tests;
mod top;
mod trace;

use crate::cause::Cause;
use crate::top::{mbjobs, refuse, tell};
use mbj_command::WordFault;
pub use mbj_gen::Generator;
use mbj_io::{Sink, StdSink, StdSource};
use mbj_work::OpenGate;
use std::env;
use std::io::{BufWriter, ErrorKind, Write};
use std::process::ExitCode;

/// The command line, with the program's name first. Words that are no text are no command.
fn command_line(rt: &HostRuntime) -> Result<Vec<String>, WordFault> {
    let alloc = rt.alloc();
    match env::args(rt) {
        Ok(args) => args.collect(alloc).map_err(|_| WordFault::Memory),
        Err(error) => Err(match error.kind() {
            ErrorKind::OutOfMemory => WordFault::Memory,
            _ => WordFault::from_str(alloc, "error: a word of the command line is no text\n"),
        }),
    }
}

/// The status after the buffer of standard output is written. If that fails, status 0 becomes that of a failed write, and
/// standard error says so.
fn written<W: Write, E: Sink>(out: &mut W, err: &mut E, status: u8) -> u8
    ensures { (result ≡ status) ⊎ ((status ≡ 0) × (result ≡ status_for Cause.Write)) }
{
    match out.flush() {
        Err(_) if status == 0 => tell(err, Cause::Write),
        _ => status,
    }
}

/// The end of the program with this status.
fn ended(status: u8) -> ExitCode
    ensures { exit_status result ≡ status }
{
    ExitCode::from(status)
}

fn main(rt: HostRuntime) -> ExitCode {
    let mut err = StdSink::new(rt.stderr());
    let words = match command_line(&rt) {
        Ok(words) => words,
        Err(fault) => return ended(refuse(&mut err, fault)),
    };
    let Ok(mut buffer) = BufWriter::new(rt.alloc(), rt.stdout()) else {
        return ended(tell(&mut err, Cause::Memory));
    };
    let mut input = StdSource::new(rt.stdin());
    let mut out = StdSink::new(&mut buffer);
    let status = mbjobs(
        &rt,
        rt.alloc(),
        &words,
        &mut input,
        &mut out,
        &mut err,
        &OpenGate,
    );
    ended(written(&mut buffer, &mut err, status))
}
