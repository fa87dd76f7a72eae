ghost use Rattle.std.specs.Prelude.{◌≡◌, ◌≤◌, IfSome, false};
ghost use Rattle.clap.specs.Words.{found_of, rows_of, rule_of};
ghost use Rattle.mbj_command.specs.Command.{number_within, option_number, rule};

use clap::builder::ValueParser;
use clap::{Arg, ArgAction, ArgMatches};
use mbj_core::{MAX_SUBMITTERS, MAX_WORKERS};
use mbj_ring::CELLS;
use mbj_text::JOB_LIMIT;
use std::alloc::Global;

/// An option that must be given with a whole number, as `--NAME NUMBER` or `--NAME=NUMBER`.
pub(crate) struct NumberOption {
    name: &'static str,
    /// What stands for the number in the help text.
    placeholder: &'static str,
    help: &'static str,
    least: u64,
    greatest: u64,
}

pub(crate) const SUBMITTERS: NumberOption = NumberOption {
    name: "submitters",
    placeholder: "S",
    help: "Submitters, which post jobs and collect their results: 1 to 16, as in --submitters 1",
    least: 1,
    greatest: MAX_SUBMITTERS as u64,
};

pub(crate) const WORKERS: NumberOption = NumberOption {
    name: "workers",
    placeholder: "W",
    help: "Workers, which only do jobs: 0 to 16, as in --workers 2",
    least: 0,
    greatest: MAX_WORKERS as u64,
};

pub(crate) const SEED: NumberOption = NumberOption {
    name: "seed",
    placeholder: "N",
    help: "What the jobs are made from: 0 to 18446744073709551615, as in --seed 7",
    least: 0,
    greatest: u64::MAX,
};

pub(crate) const JOBS: NumberOption = NumberOption {
    name: "jobs",
    placeholder: "M",
    help: "Jobs to make: 0 to 65536, as in --jobs 1000",
    least: 0,
    greatest: JOB_LIMIT as u64,
};

pub(crate) const SIZE: NumberOption = NumberOption {
    name: "size",
    placeholder: "B",
    help: "Jobs of a group, which are submitted by as few calls as possible: 1 to 512, as in --size 32",
    least: 1,
    greatest: CELLS as u64,
};

/// The option for clap.
pub(crate) fn argument<'a>(alloc: Global, option: &NumberOption) -> Arg<'a>
    ensures rule { rule_of result ≡ rule record { name = option.now.name.now; least = option.now.least; greatest = option.now.greatest } }
    ensures local { result.global ≡ false }
{
    Arg::new(alloc, option.name)
        .long(option.name)
        .value_name(option.placeholder)
        .required(true)
        .action(ArgAction::Set)
        .value_parser(ValueParser::unsigned(option.least, option.greatest))
        .help(option.help)
}

/// The number that a text is, if it is from `least` to `greatest`.
fn parse_number(text: &str, least: u64, greatest: u64) -> Option<u64>
    ensures value { result ≡ number_within least greatest text.now }
    ensures range { IfSome result (λ n. (least ≤ n) × (n ≤ greatest)) }
{
    match text.parse::<u64>() {
        Ok(number) => {
            if least <= number && number <= greatest {
                Some(number)
            } else {
                None
            }
        }
        Err(_) => None,
    }
}

/// The number that was given to the option.
pub(crate) fn number(matches: &ArgMatches<'_>, option: &NumberOption) -> Option<u64>
    ensures value { result ≡ option_number (rows_of (found_of matches.now))
        record { name = option.now.name.now; least = option.now.least; greatest = option.now.greatest } }
    ensures range { IfSome result (λ n. (option.now.least ≤ n) × (n ≤ option.now.greatest)) }
{
    match matches.get_str(option.name) {
        Some(text) => parse_number(text, option.least, option.greatest),
        None => None,
    }
}
