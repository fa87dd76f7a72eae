ghost use Rattle.mbj_io.specs.Streams.{stream};
ghost use Rattle.mbj_text.specs.Flow.{Writes};
ghost use Rattle.mbj_text.specs.Line.{text_of};
ghost use Rattle.mbj_replay.specs.Lines.{replay_line_text, words_text};

use mbj_io::{Failed, Sink};
use mbj_text::{Part, TextLine, write_done, write_line, write_parts};
use mbj_types::Done;

/// A line of a replay. It names submitters, workers and jobs by their numbers, from 0 on; a job's is that in the file.
#[derive(Debug, Drop)]
pub enum ReplayLine {
    /// A submitter posted this job.
    Post {
        submitter: u32,
        job: u32,
    },
    /// A submitter's job was not posted, since all its cells hold jobs that are out.
    PostFull(u32),
    /// A submitter has no more jobs to post.
    PostEnd(u32),
    /// A worker claimed this job, or found none to claim.
    Claim {
        worker: u32,
        job: Option<u32>,
    },
    /// A worker claimed nothing, since its hand is full.
    ClaimFull(u32),
    /// A worker finished this job, or had none to finish.
    Finish {
        worker: u32,
        job: Option<u32>,
    },
    /// A submitter collected the result of this job.
    Collect {
        submitter: u32,
        job: u32,
        done: Done,
    },
    /// A submitter's earliest job that is out has no result, or none of its jobs is out.
    CollectNone(u32),
}

/// Writes a word, a number, and what became of it.
fn write_words<O: Sink>(
    sink: &mut O,
    word: &'static str,
    n: u32,
    answer: Part<'static>,
) -> Result<(), Failed>
    ensures { Writes result (stream O.held O.faults sink.old sink.new) (words_text word.now n (text_of answer.entry)) }
{
    let parts = [
        Part::Words(word),
        Part::Words(" "),
        Part::Number(n as u64),
        Part::Words(" "),
        answer,
    ];
    write_line(sink, &parts)
}

/// Writes that a submitter collected the result of a job: the submitter, and the job's result line.
fn write_collect<O: Sink>(sink: &mut O, submitter: u32, job: u32, done: &Done) -> Result<(), Failed>
    ensures { Writes result (stream O.held O.faults sink.old sink.new)
        (replay_line_text (ReplayLine.Collect submitter job done.now)) }
{
    let head = [
        Part::Words("collect "),
        Part::Number(submitter as u64),
        Part::Words(" "),
    ];
    write_parts(sink, &head)?;
    write_done(sink, job, done)
}

impl TextLine for ReplayLine {
    ghost text = { replay_line_text };

    fn write<O: Sink>(&self, sink: &mut O) -> Result<(), Failed> {
        match self {
            ReplayLine::Post { submitter, job } => {
                write_words(sink, "post", *submitter, Part::Number(*job as u64))
            }
            ReplayLine::PostFull(submitter) => {
                write_words(sink, "post", *submitter, Part::Words("full"))
            }
            ReplayLine::PostEnd(submitter) => {
                write_words(sink, "post", *submitter, Part::Words("end"))
            }
            ReplayLine::Claim { worker, job } => write_words(
                sink,
                "claim",
                *worker,
                Part::or_none(*job),
            ),
            ReplayLine::ClaimFull(worker) => {
                write_words(sink, "claim", *worker, Part::Words("full"))
            }
            ReplayLine::Finish { worker, job } => write_words(
                sink,
                "finish",
                *worker,
                Part::or_none(*job),
            ),
            ReplayLine::Collect {
                submitter,
                job,
                done,
            } => write_collect(sink, *submitter, *job, done),
            ReplayLine::CollectNone(submitter) => {
                write_words(sink, "collect", *submitter, Part::Words("none"))
            }
        }
    }
}
