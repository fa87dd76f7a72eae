// Texts of parts that are repeated, and of lines that are alike but for a number.
use super::runs::{Host, Run};
use std::alloc::{AllocError, Global};

/// A part of a text, and how often it comes one after another.
pub(super) type Repeat = (&'static str, usize);

/// A text of parts.
pub(super) fn repeated(alloc: Global, parts: &[Repeat]) -> Result<String, AllocError> {
    let mut text = String::new(alloc);
    for (part, times) in parts {
        text.push_str(&part.repeat(alloc, *times)?)?;
    }
    Ok(text)
}

/// What stands around the range of a line like `submit [0..2] none`, and the first and the last number of the range.
fn range_of(line: &str) -> Option<(&str, u32, u32, &str)> {
    let (front, rest) = line.split_once('[')?;
    let (range, back) = rest.split_once(']')?;
    let (from, to) = range.split_once("..")?;
    match (from.parse(), to.parse()) {
        (Ok(from), Ok(to)) => Some((front, from, to, back)),
        _ => None,
    }
}

/// Adds a line, one with a range once for each of its numbers.
fn add_line(text: &mut String, line: &str) -> Result<(), AllocError> {
    let Some((front, from, to, back)) = range_of(line) else {
        return write!(text, "{line}\n");
    };
    for number in from..=to {
        write!(text, "{front}{number}{back}\n")?;
    }
    Ok(())
}

/// A text of lines, in which a range like `[0..2]` stands for each of its numbers in turn.
fn numbered(alloc: Global, lines: &str) -> Result<String, AllocError> {
    let mut text = String::new(alloc);
    for line in lines.lines() {
        add_line(&mut text, line)?;
    }
    Ok(text)
}

/// Runs the program on a file of parts, and compares its status and the lines that it writes or tells.
pub(super) fn check_parts<R: Host>(
    rt: &R,
    alloc: Global,
    words: &str,
    parts: &[Repeat],
    status: u8,
    lines: &str,
) {
    let file = repeated(alloc, parts).expect(rt, "memory");
    let text = numbered(alloc, lines).expect(rt, "memory");
    Run::new(words, file.as_bytes()).check(rt, alloc, status, text.as_bytes());
}
