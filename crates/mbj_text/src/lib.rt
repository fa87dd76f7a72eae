//! Jobs and results as text: the job file, the file of a replay, and the lines of results on their
//! way to a sink.
#![tactic(auto)]

mod command;
mod done;
mod entries;
mod fault;
mod field;
mod fields;
mod file;
mod job;
mod kept_lines;
mod key;
mod limits;
mod line;
mod piece;
mod replay;
mod script;
mod session;
mod split;
mod text_line;
mod words;
mod writing;

pub use command::Cmd;
pub use done::write_done;
pub use fault::TextFault;
pub use file::{each_file_is_one, read_file, table_and_names_agree};
pub use limits::{INPUT_LIMIT, JOB_LIMIT, files_have_these_limits};
pub use line::{Part, write_line, write_parts};
pub use replay::{each_replay_is_one, read_replay};
pub use text_line::{TextLine, write_lines};
pub use words::{AUTH_WORDS, CIPHER_WORDS, DIR_WORDS, ORDER_WORDS};
pub use writing::write_all;
