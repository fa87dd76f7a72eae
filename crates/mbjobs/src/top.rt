ghost use Rattle.std.specs.Prelude.{◌≡◌, ◌≢◌, ◌⊎◌, ◌≤◌, ◌<◌, List, [], ℕ, Err, IfErr, OnOk, Some, None, map, string_bytes, length};
ghost use Rattle.mbj_text.specs.declared.limits.TheConstants.{INPUT_LIMIT};
ghost use Rattle.mbj_command.specs.Command.{IsInRange, command};
ghost use Rattle.mbjobs.specs.Message.{message_of, status_for};
ghost use Rattle.mbj_io.specs.Streams.{Fails, FailsOnce, IsUntouched, stream};
ghost use Rattle.mbjobs.specs.Reading.{ReadsBytes, ReadsTooMuch};
ghost use Rattle.mbjobs.specs.Outcome.{AsksFor, BreaksOff, Completes, Gains, IsBadFor, IsOverFor, ReadsInput, Stands};
ghost use Rattle.mbjobs.specs.declared.cause.Cause.{Cause};
ghost use Rattle.mbj_command.specs.declared.command.Command.{Command};
ghost use Rattle.mbj_command.specs.declared.command.Command.TheVariants.{Gen};

use crate::burst::run_burst;
use crate::cause::Cause;
use crate::generate::run_gen;
use crate::replay::run_replay;
use crate::report::{report, report_words};
use crate::run::run;
use crate::trace::run_trace;
use mbj_command::{Command, WordFault, read_command};
use mbj_io::{Sink, Source};
use mbj_work::Gate;
use std::alloc::Global;
use std::sync::Wait;
use std::thread::Threads;

/// The status if the words are no command.
const BAD_WORDS: u8 = 2;

/// Writes the line of a cause, and returns its status.
pub(crate) fn tell<E: Sink>(err: &mut E, cause: Cause) -> u8
    ensures status { result ≡ status_for cause }
    ensures told { Gains (stream E.held E.faults err.old err.new) (message_of cause) }
{
    report(err, cause);
    cause.status()
}

/// Writes why words are no command, and returns the status.
pub(crate) fn refuse<E: Sink>(err: &mut E, fault: WordFault) -> u8
    ensures text { fault ≢ WordFault.Memory → (result ≡ 2)
        × ((text : List ℕ) × (text ≢ []) × Gains (stream E.held E.faults err.old err.new) text) }
    ensures memory { fault ≡ WordFault.Memory → (result ≡ 7)
        × Gains (stream E.held E.faults err.old err.new) (message_of Cause.Memory) }
{
    match fault {
        WordFault::Text(text) => {
            report_words(err, &text);
            BAD_WORDS
        }
        WordFault::Memory => tell(err, Cause::Memory),
    }
}

/// Does what a command says.
fn carry_out<R: Threads + Wait + Sync, S: Source, O: Sink, G: Gate + Sync>(
    rt: &R,
    alloc: Global,
    command: Command,
    input: &mut S,
    out: &mut O,
    gate: &G,
) -> Result<(), Cause>
    requires { IsInRange command }
    ensures ok { OnOk result (Completes command (stream S.rest S.faults input.old input.new)
        (stream O.held O.faults out.old out.new)) }
    ensures err { IfErr result (λ cause. Stands command cause (stream S.rest S.faults input.old input.new)
        (stream O.held O.faults out.old out.new)) }
    ensures calm { result ≢ Err Cause.Read → S.faults input.new ≡ S.faults input.old }
    ensures untouched { IfErr result (λ cause. cause ≢ Cause.Write
        → IsUntouched (stream O.held O.faults out.old out.new)) }
    ensures unread { ReadsInput command ⊎ IsUntouched (stream S.rest S.faults input.old input.new) }
{
    match command {
        Command::Run {
            submitters,
            workers,
        } => run(rt, alloc, submitters, workers, input, out, gate),
        Command::Trace => run_trace(alloc, input, out),
        Command::Burst { size } => run_burst(alloc, size, input, out),
        Command::Gen {
            seed,
            jobs,
            submitters,
            workers,
        } => { run_gen(rt, alloc, seed, jobs, submitters, workers, out, gate) }
        Command::Replay {
            submitters,
            workers,
        } => run_replay(alloc, submitters, workers, input, out),
    }
}

/// Carries the command line out, and returns the program's exit status.
///
/// `words` are the command line, with the program's name first. `run` reads a job file from `input`, does its jobs and
/// writes the line of each result to `out`; `trace` drives one manager with a job file and writes what each call gives
/// back; `burst` hands the jobs of a file to one manager in groups and writes how many results each call gives back, and
/// then the results; `gen` reads nothing, makes jobs from a seed and writes a summary of their results; `replay` reads a job
/// file with a script behind its jobs, and writes the outcome of each command of the script. With every status but 0 there is a
/// line on `err`; a fault of `err` changes no status.
///
/// | Status | Comes |
/// |---|---|
/// | 0 | all was read, done and written |
/// | 2 | exactly where the words are no command; nothing is read |
/// | 3 | only where a read of `input` failed, which then is the last one |
/// | 4 | only where a write to `out` failed; `out` then has a prefix of the text |
/// | 5 | exactly where the input has a first bad line and no limit comes before it |
/// | 6 | exactly where the input has over 16,777,216 bytes, or a 65,537th job line before any bad line |
/// | 7 | for want of memory |
pub fn mbjobs<R: Threads + Wait + Sync, S: Source, O: Sink, E: Sink, G: Gate + Sync>(
    rt: &R,
    alloc: Global,
    words: &[String],
    input: &mut S,
    out: &mut O,
    err: &mut E,
    gate: &G,
) -> u8
    // Status 0: the command did all that it is to do, and out gained exactly its text.
    ensures done { result ≡ 0 → (c : Command) × (command (map string_bytes words.now) ≡ Some c)
        × Completes c (stream S.rest S.faults input.old input.new) (stream O.held O.faults out.old out.new) }

    // Every other status.
    ensures words { result ≡ 2 → command (map string_bytes words.now) ≡ None }
    ensures only_words { command (map string_bytes words.now) ≡ None → (result ≡ 2) ⊎ (result ≡ 7) }
    ensures unread { result ≡ 2 → IsUntouched (stream S.rest S.faults input.old input.new) }
    ensures gen_unread { (n m s w : ℕ) → command (map string_bytes words.now) ≡ Some (Gen n m s w)
        → IsUntouched (stream S.rest S.faults input.old input.new) }
    ensures read_failed { result ≡ 3 → FailsOnce (stream S.rest S.faults input.old input.new) }
    ensures calm { result ≢ 3 → S.faults input.new ≡ S.faults input.old }
    ensures write_failed { result ≡ 4 → Fails (stream O.held O.faults out.old out.new)
        × ((c : Command) × (command (map string_bytes words.now) ≡ Some c)
        × BreaksOff c (stream S.rest S.faults input.old input.new) (stream O.held O.faults out.old out.new)) }
    ensures bad { result ≡ 5 → (c : Command) × (line : ℕ) × (field : ℕ)
        × (command (map string_bytes words.now) ≡ Some c)
        × ReadsBytes (stream S.rest S.faults input.old input.new) (λ bytes. IsBadFor c bytes line field) }
    ensures over { result ≡ 6 → (c : Command) × (command (map string_bytes words.now) ≡ Some c) × ReadsInput c
        × (ReadsTooMuch (S.rest input.old) (S.rest input.new)
        ⊎ ((line : ℕ) × ReadsBytes (stream S.rest S.faults input.old input.new) (λ bytes. IsOverFor c bytes line))) }
    ensures known { (result ≡ 0) ⊎ ((2 ≤ result) × (result ≤ 7)) }
    ensures untouched { result ≢ 0 → result ≢ 4 → IsUntouched (stream O.held O.faults out.old out.new) }

    // What err gained: nothing, clap's text, or the line of a cause that stands.
    ensures quiet { result ≡ 0 → IsUntouched (stream E.held E.faults err.old err.new) }
    ensures told_words { result ≡ 2 → (text : List ℕ) × (text ≢ []) × Gains (stream E.held E.faults err.old err.new) text }
    ensures told { result ≢ 0 → result ≢ 2 → (cause : Cause) × (result ≡ status_for cause)
        × Gains (stream E.held E.faults err.old err.new) (message_of cause)
        × ((cause ≡ Cause.Memory) ⊎ ((c : Command) × (command (map string_bytes words.now) ≡ Some c)
        × Stands c cause (stream S.rest S.faults input.old input.new) (stream O.held O.faults out.old out.new))) }

    // If the input tells its bytes and no read fails, each input gets its own status, unless memory runs out.
    ensures complete { (c : Command) (bytes text : List ℕ) → command (map string_bytes words.now) ≡ Some c
        → S.rest input.old ≡ Some bytes → length bytes ≤ INPUT_LIMIT → AsksFor c bytes text
        → ¬ Fails (stream S.rest S.faults input.old input.new)
        → ¬ Fails (stream O.held O.faults out.old out.new)
        → (result ≡ 0) ⊎ (result ≡ 7) }
    ensures complete_gen { (n m s w : ℕ) → command (map string_bytes words.now) ≡ Some (Gen n m s w)
        → ¬ Fails (stream O.held O.faults out.old out.new)
        → (result ≡ 0) ⊎ (result ≡ 7) }
    ensures only_bad { (c : Command) (bytes : List ℕ) (line field : ℕ)
        → command (map string_bytes words.now) ≡ Some c
        → S.rest input.old ≡ Some bytes → length bytes ≤ INPUT_LIMIT → IsBadFor c bytes line field
        → ¬ Fails (stream S.rest S.faults input.old input.new)
        → (result ≡ 5) ⊎ (result ≡ 7) }
    ensures only_over { (c : Command) (bytes : List ℕ) (line : ℕ) → command (map string_bytes words.now) ≡ Some c
        → S.rest input.old ≡ Some bytes → length bytes ≤ INPUT_LIMIT → IsOverFor c bytes line
        → ¬ Fails (stream S.rest S.faults input.old input.new)
        → (result ≡ 6) ⊎ (result ≡ 7) }
    ensures only_long { (c : Command) (bytes : List ℕ) → command (map string_bytes words.now) ≡ Some c
        → ReadsInput c → S.rest input.old ≡ Some bytes → INPUT_LIMIT < length bytes
        → ¬ Fails (stream S.rest S.faults input.old input.new)
        → (result ≡ 6) ⊎ (result ≡ 7) }
{
    let command = match read_command(alloc, words) {
        Ok(command) => command,
        Err(fault) => return refuse(err, fault),
    };
    match carry_out(rt, alloc, command, input, out, gate) {
        Ok(()) => 0,
        Err(cause) => tell(err, cause),
    }
}
