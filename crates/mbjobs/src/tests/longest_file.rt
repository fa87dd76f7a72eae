use super::runs::Run;
use std::alloc::AllocError;

const WORDS: &str = "mbjobs run --submitters 4 --workers 2";

const JOBS: u32 = 65_536;

/// The most bytes of an input; as many lines as jobs have 256 bytes each.
const INPUT_BYTES: usize = 16_777_216;

/// Adds the most jobs with the longest packets, of 110 bytes, that fit the input, and their results in the order of the
/// jobs: their packets as they were. Each packet is its job's number.
fn add_jobs(file: &mut String, text: &mut String) -> Result<(), AllocError> {
    for number in 0..JOBS {
        write!(file, "null enc ch - - 0 0 null - - 0 0 0 {number:0220x}\n")?;
        write!(text, "{number} ok {number:0220x} -\n")?;
    }
    Ok(())
}

#[test]
fn the_longest_file_of_the_most_jobs_is_done(rt: HostRuntime) {
    let (mut file, mut text) = (String::new(rt.alloc()), String::new(rt.alloc()));
    add_jobs(&mut file, &mut text).expect(&rt, "memory");
    assert!(rt; file.len() == INPUT_BYTES);
    let mut run = Run::by(WORDS, file.as_bytes(), (65_536, &[]), (65_536, &[]));
    run.out_room = INPUT_BYTES;
    run.check(&rt, rt.alloc(), 0, text.as_bytes());
}
