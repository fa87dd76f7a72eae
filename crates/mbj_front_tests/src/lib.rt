//! Tests of texts: sources and sinks, job files and results, the command line, generated jobs, and replays; and of the front:
//! the machine of its events, its steps, its parties by scripts on one thread, and threads that share it.
#![tactic(auto)]

#[cfg(test)]
mod command;
#[cfg(test)]
mod events;
#[cfg(test)]
mod front;
#[cfg(test)]
mod generator;
#[cfg(test)]
mod io;
#[cfg(test)]
mod party;
#[cfg(test)]
mod player;
#[cfg(test)]
mod replay;
#[cfg(test)]
mod script;
#[cfg(test)]
mod text;
#[cfg(test)]
mod turns;
#[cfg(test)]
mod work;
