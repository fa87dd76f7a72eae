//! The command line of `mbjobs`: which words are a command, by clap's meaning of the set of commands.
#![tactic(auto)]

mod command;
mod command_set;
mod help;
mod options;

pub use command::{Command, WordFault, read_command};
