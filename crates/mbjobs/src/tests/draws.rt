ghost use Rattle.std.specs.Prelude.{◌<◌};

use mbj_io::{Failed, MemSink};
use mbj_text::{Part, write_line};

const MULTIPLIER: u64 = 6_364_136_223_846_793_005;

const INCREMENT: u64 = 1_442_695_040_888_963_407;

/// Submitters and workers of the replays whose commands are drawn.
const SUBMITTERS: u8 = 3;

const WORKERS: u8 = 2;

pub(super) const REPLAY: &str = "mbjobs replay --submitters 3 --workers 2";

/// Draws bytes as `gen` does: by a linear congruential generator of 64 bits, each draw being the highest byte of the next state.
#[derive(Clone, Copy)]
pub(super) struct Draws {
    pub(super) state: u64,
}

impl Draws {
    pub(super) fn byte(&mut self) -> u8 {
        self.state = self.state.wrapping_mul(MULTIPLIER).wrapping_add(INCREMENT);
        (self.state >> 56) as u8
    }

    /// Draws a number below the bound.
    pub(super) fn below(&mut self, bound: u8) -> u8
        requires { 0 < bound }
        ensures { result < bound }
    {
        self.byte() % bound
    }

    /// Draws a number below the bound as a part of a line.
    fn number(&mut self, bound: u8) -> Part<'static>
        requires { 0 < bound }
    {
        Part::Number(u64::from(self.below(bound)))
    }

    /// Draws a command of a script, and adds it as a line.
    fn add_command(&mut self, script: &mut MemSink) -> Result<(), Failed> {
        match self.below(4) {
            0 => write_line(script, &[Part::Words("post "), self.number(SUBMITTERS)]),
            1 => write_line(
                script,
                &[
                    Part::Words("claim "),
                    self.number(WORKERS),
                    Part::Words(" "),
                    self.number(SUBMITTERS),
                ],
            ),
            2 => write_line(script, &[Part::Words("flush "), self.number(WORKERS)]),
            _ => write_line(script, &[Part::Words("collect "), self.number(SUBMITTERS)]),
        }
    }

    /// Draws a script of `count` commands, and adds it behind the line before it.
    pub(super) fn add_script(&mut self, file: &mut MemSink, count: u32) -> Result<(), Failed> {
        write_line(file, &[Part::Words("%")])?;
        for _ in 0..count {
            self.add_command(file)?;
        }
        Ok(())
    }
}
