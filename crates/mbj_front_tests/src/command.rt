use mbj_command::{WordFault, read_command};
use std::alloc::{AllocError, Global};
use std::test::Fail;

/// Words that are no command.
const FAULTY: [&str; 34] = [
    "mbjobs",
    "mbjobs run",
    "mbjobs run --submitters 1",
    "mbjobs run --workers 0",
    "mbjobs run --submitters 0 --workers 0",
    "mbjobs run --submitters 17 --workers 0",
    "mbjobs run --submitters 1 --workers 17",
    "mbjobs run --submitters -1 --workers 0",
    "mbjobs run --submitters one --workers 0",
    "mbjobs run --submitters 1 --submitters 1 --workers 0",
    "mbjobs run --submitters 1 --workers 0 --threads 2",
    "mbjobs run --submitters 1 --workers 0 jobs.txt",
    "mbjobs --submitters 1 --workers 0 run",
    "mbjobs replay --submitters 1",
    "mbjobs replay --submitters 0 --workers 1",
    "mbjobs replay --submitters 1 --workers 17",
    "mbjobs trace x",
    "mbjobs trace --workers 0",
    "mbjobs burst",
    "mbjobs burst --size",
    "mbjobs burst --size 0",
    "mbjobs burst --size 513",
    "mbjobs burst --size 2 --size 2",
    "mbjobs burst --size 2 --workers 0",
    "mbjobs gen --seed 1 --submitters 1 --workers 0",
    "mbjobs gen --seed 1 --jobs 1 --submitters 1 --workers 17",
    "mbjobs gen --seed 1 --jobs 65537 --submitters 1 --workers 0",
    "mbjobs gen --seed 18446744073709551616 --jobs 1 --submitters 1 --workers 0",
    "mbjobs help",
    "mbjobs --help",
    "mbjobs -h",
    "mbjobs --version",
    "mbjobs run --help",
    "mbjobs RUN --submitters 1 --workers 0",
];

/// Words that are a command, and behind the arrow which.
const GOOD: [&str; 15] = [
    "mbjobs run --submitters 1 --workers 0 => Run { submitters: 1, workers: 0 }",
    "mbjobs run --workers 0 --submitters 1 => Run { submitters: 1, workers: 0 }",
    "mbjobs run --submitters=1 --workers=0 => Run { submitters: 1, workers: 0 }",
    "mbjobs run --submitters 01 --workers 000 => Run { submitters: 1, workers: 0 }",
    "mbjobs run --submitters +1 --workers +0 => Run { submitters: 1, workers: 0 }",
    "mbjobs run --submitters 16 --workers 16 => Run { submitters: 16, workers: 16 }",
    "mbjobs trace => Trace",
    "mbjobs burst --size 1 => Burst { size: 1 }",
    "mbjobs burst --size=512 => Burst { size: 512 }",
    "mbjobs gen --seed 7 --jobs 65536 --submitters 16 --workers 0 => Gen { seed: 7, jobs: 65536, submitters: 16, workers: 0 }",
    "mbjobs gen --workers=0 --submitters=16 --jobs=65536 --seed=7 => Gen { seed: 7, jobs: 65536, submitters: 16, workers: 0 }",
    "mbjobs gen --seed 18446744073709551615 --jobs 0 --submitters 2 --workers 0 => Gen { seed: 18446744073709551615, jobs: 0, submitters: 2, workers: 0 }",
    "/usr/bin/mbjobs gen --seed 4294967296 --jobs 1 --submitters 3 --workers 2 => Gen { seed: 4294967296, jobs: 1, submitters: 3, workers: 2 }",
    "mbjobs replay --submitters 16 --workers 16 => Replay { submitters: 16, workers: 16 }",
    "mbjobs replay --workers=0 --submitters=1 => Replay { submitters: 1, workers: 0 }",
];

/// Words that are no command, and behind the arrow what the text that tells it has, between bars.
const TOLD: [&str; 9] = [
    "mbjobs --help => Usage: mbjobs|run|trace|burst|gen|replay|--version|1 to 65535 for gcm and gmac, and 7 to 13 for ccm\
        |gmac, gcm, ccm; HMAC from stored states|hmac-sha512-states\n|\n  11, 12  hash range|\n  14      packet\
        |\n  9 additional data too long      10 tag length\n\
        |\n  0 done |6 file too long             7 out of memory\n",
    "mbjobs run --help => Usage: mbjobs run|--submitters <S>|1 to 16|--workers <W>",
    "mbjobs trace --help => Usage: mbjobs trace|mbjobs trace",
    "mbjobs burst --help => Usage: mbjobs burst|--size <B>|1 to 512|mbjobs burst --size",
    "mbjobs gen --help => Usage: mbjobs gen|--seed <N>|--jobs <M>|0 to 65536|--submitters <S>|--workers <W>",
    "mbjobs replay --help => Usage: mbjobs replay|--submitters <S>|--workers <W>|0 to 16",
    "mbjobs --version => mbjobs 1.0.0",
    "mbjobs run --submitters 17 --workers 0 => '17'|'--submitters <S>'|--help",
    "mbjobs => Usage: mbjobs|run|trace|burst|gen|replay|--help",
];

fn words_of(alloc: Global, line: &str) -> Result<Vec<String>, AllocError> {
    let mut words = Vec::new(alloc);
    for word in line.split(' ') {
        words.push(String::from_str(alloc, word)?)?;
    }
    Ok(words)
}

/// What the words of a line come to: their command, or the text that tells that they are none.
fn told(alloc: Global, line: &str) -> Result<String, AllocError> {
    let words = words_of(alloc, line)?;
    match read_command(alloc, &words) {
        Ok(command) => format!(in alloc; "{command:?}"),
        Err(WordFault::Text(text)) => Ok(text),
        Err(WordFault::Memory) => Err(AllocError),
    }
}

/// Whether the words before the arrow are the command behind it.
fn is_command(alloc: Global, row: &str) -> Result<bool, Fail> {
    let (line, command) = row.split_once(" => ").ok_or("no arrow")?;
    let told = told(alloc, line)?;
    Ok(told.as_str() == command)
}

#[test]
fn good_words_are_their_command(rt: HostRuntime) -> Result<(), Fail> {
    for row in &GOOD {
        assert!(rt; is_command(rt.alloc(), *row)?, "{row}");
    }
    Ok(())
}

/// Whether the line comes to a text that tells an error, or shows the help or the version, as no command does.
fn is_refused(alloc: Global, line: &str) -> Result<bool, AllocError> {
    let told = told(alloc, line)?;
    Ok(told.contains("error: ") || told.contains("mbjobs"))
}

#[test]
fn other_words_are_no_command(rt: HostRuntime) -> Result<(), Fail> {
    for line in &FAULTY {
        assert!(rt; is_refused(rt.alloc(), *line)?, "{line}");
    }
    Ok(())
}

fn has_all(text: &str, parts: &str) -> bool {
    for part in parts.split('|') {
        if !text.contains(part) {
            return false;
        }
    }
    true
}

/// Whether the text that the words before the arrow come to has the parts behind it, of which no command has each.
fn has_parts(alloc: Global, row: &str) -> Result<bool, Fail> {
    let (line, parts) = row.split_once(" => ").ok_or("no arrow")?;
    let told = told(alloc, line)?;
    Ok(has_all(&told, parts))
}

#[test]
fn texts_say_what_is_wrong_and_what_is_right(rt: HostRuntime) -> Result<(), Fail> {
    for row in &TOLD {
        assert!(rt; has_parts(rt.alloc(), *row)?, "{row}");
    }
    Ok(())
}
