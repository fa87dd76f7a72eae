ghost use Rattle.std.specs.Prelude.{◌≡◌, ◌+◌, ℕ, Ok, length};
ghost use Rattle.mbj_text.specs.Script.{SpellScript, BadScript, number_forms};
ghost use Rattle.mbj_text.specs.Inside.Reading.{Answers, Gives, command_of, command_with, fields_from};

use crate::command::{Cmd, Verb};
use crate::fault::{LineFault, TextFault};
use crate::fields::Fields;
use crate::kept_lines::KeptLines;
use crate::split::Split;
use std::alloc::Global;

/// The commands of the script lines, line after line.
pub(crate) fn read_script(
    alloc: Global,
    lines: KeptLines,
    submitters: u32,
    workers: u32,
) -> Result<Vec<Cmd>, TextFault>
    ensures { Answers (λ v. SpellScript submitters workers lines.entry v.items)
        (BadScript submitters workers lines.entry) (λ _. ⊥) result }
{
    let mut commands = Vec::new(alloc);
    for (number, line) in lines {
        match read_command(alloc, line, submitters, workers) {
            Ok(command) => commands.push(command)?,
            Err(fault) => return Err(fault.at(number)),
        }
    }
    Ok(commands)
}

/// The command that a line spells, or the field that is the line's fault.
#[tactic(auto, using(crate::proofs::Cutting::cut_bound), unfolding(crate::specs::Inside::Reading::command_of))]
fn read_command(alloc: Global, line: &[u8], submitters: u32, workers: u32) -> Result<Cmd, LineFault>
    ensures { Gives result (command_of submitters workers line.now) }
{
    let mut fields = Fields::of(alloc, line);
    let verb = fields.read::<Verb>()?;
    if Split::new(line, b' ').count() != field_count(verb) {
        return Err(LineFault::Field(0));
    }
    read_numbers(&mut fields, verb, submitters, workers)
}

/// How many fields a line has that begins with the word of this verb.
fn field_count(verb: Verb) -> usize
    ensures { (submitters workers : ℕ) → result ≡ 1 + length (number_forms submitters workers verb) }
{
    match verb {
        Verb::Claim => 3,
        Verb::Post | Verb::Flush | Verb::Collect => 2,
    }
}

/// The command of this verb, whose numbers are the next fields.
fn read_numbers(
    fields: &mut Fields,
    verb: Verb,
    submitters: u32,
    workers: u32,
) -> Result<Cmd, LineFault>
    requires { fields.old.taken ≡ 1 }
    ensures { Gives result (fields_from (number_forms submitters workers verb) fields.old
        (λ vs. Ok (command_with submitters workers verb vs))) }
{
    Ok(match verb {
        Verb::Post => Cmd::Post(fields.read_below(submitters)?),
        Verb::Claim => Cmd::Claim(fields.read_below(workers)?, fields.read_below(submitters)?),
        Verb::Flush => Cmd::Flush(fields.read_below(workers)?),
        Verb::Collect => Cmd::Collect(fields.read_below(submitters)?),
    })
}
