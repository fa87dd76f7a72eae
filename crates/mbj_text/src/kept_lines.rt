ghost use Rattle.std.specs.Prelude.{◌≡◌, ◌≤◌, ◌<◌, length, option_map, IfSome};
ghost use Rattle.std.specs.Str.Lines.{strip_carriage_return};
ghost use Rattle.std.specs.Iterator.{YieldsFirstBy, item_count};
ghost use Rattle.mbj_text.specs.Cut.{is_skipped, kept_lines};
ghost use Rattle.mbj_text.specs.Inside.Reading.{ends_entries, TakesEntryLine};
ghost use Rattle.mbj_text.specs.declared.limits.TheConstants.{INPUT_LIMIT};

use crate::limits::INPUT_LIMIT;
use crate::split::Split;
use std::marker::Model;

/// Where the session lines and job lines of a file end.
#[derive(Clone, Copy)]
pub(crate) enum EntriesEnd {
    /// At the end of the file.
    File,
    /// Before the first line that is exactly `%`, or at the end of the file.
    Mark,
}

impl EntriesEnd {
    /// Whether they end at this line.
    fn is_at(self, line: &[u8]) -> bool
        ensures { result ≡ ends_entries self line.now }
    {
        match self {
            EntriesEnd::File => false,
            EntriesEnd::Mark => line == b"%".as_slice(),
        }
    }
}

/// The lines of a file that are left, without those that are skipped, each with its number in the file.
#[derive(Drop)]
pub(crate) struct KeptLines<'a> {
    /// How many lines were taken, those that were skipped too.
    taken: u32,
    left: Split<'a>,
}

impl<'a> Model for KeptLines<'a> {
    ghost use Rattle.std.specs.Prelude.{List, ◌+◌, ◌<◌, ◌^◌, length};
    ghost use Rattle.mbj_text.specs.Cut.{Numbered, kept_lines_from};

    ghost Value = { List Numbered };

    ghost view = { λ l. kept_lines_from (l.taken + 1) l.left };

    ghost invariant = { λ l. l.taken + length l.left < 2 ^ 32 };
}

impl<'a> KeptLines<'a> {
    /// All lines of the file.
    #[tactic(auto, using(crate::proofs::Cutting::cut_bound))]
    pub(crate) fn of(bytes: &'a [u8]) -> KeptLines<'a>
        requires { length bytes.now ≤ INPUT_LIMIT }
        ensures { result ≡ kept_lines bytes.now }
    {
        KeptLines {
            taken: 0,
            left: Split::new(bytes, b'\n'),
        }
    }

    /// The next session line or job line, or none where they end; the line that ends them is taken too.
    #[tactic(auto, using(crate::proofs::LineLemmas::no_part, crate::proofs::LineLemmas::part_ends, crate::proofs::LineLemmas::part_goes_on))]
    pub(crate) fn next_entry_line(&mut self, end: EntriesEnd) -> Option<(u32, &'a [u8])>
        ensures line { TakesEntryLine end self.old result self.new }
        ensures shorter { IfSome result (λ _. length self.new < length self.old) }
    {
        let (number, line) = self.next()?;
        if end.is_at(line) {
            None
        } else {
            Some((number, line))
        }
    }
}

impl<'a> Iterator for KeptLines<'a> {
    type Item = (u32, &'a [u8]);

    ghost next_gives = { YieldsFirstBy (λ line. (line.0, line.1.now)) (λ left. left) };

    ghost remaining = { item_count (λ left. left) };

    #[tactic(auto, using(crate::proofs::LineLemmas::none_left, crate::proofs::LineLemmas::keep, crate::proofs::LineLemmas::skip))]
    fn next(&mut self) -> Option<(u32, &'a [u8])> {
        while let Some(text) = self.left.next() {
            self.taken += 1;
            let line = without_return(text);
            if !is_skipped(line) {
                return Some((self.taken, line));
            }
        }
        None
    }
}

/// The line without one CR at its end.
fn without_return(line: &[u8]) -> &[u8]
    ensures { result.now ≡ strip_carriage_return line.now }
{
    match line {
        [front @ .., b'\r'] => front,
        _ => line,
    }
}

/// Whether a line is empty or begins with `#`.
fn is_skipped(line: &[u8]) -> bool
    ensures { result ≡ is_skipped line.now }
{
    match line {
        [] => true,
        [first, ..] => *first == b'#',
    }
}
