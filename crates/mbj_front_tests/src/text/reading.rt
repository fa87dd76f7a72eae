use super::place_of;
use crate::generator::shown;
use mbj_text::{INPUT_LIMIT, TextFault, read_file};
use std::alloc::{AllocError, Global};
use std::test::Fail;

/// A good line, its fields, and those of its job.
const LINE: &str = "null dec hc - 0aF9 0 99999 hmac-sha1 0b - 10 7 255 4869";

const FIELDS: [&str; 14] = [
    "null", "dec", "hc", "-", "0aF9", "0", "99999", HMAC, "0b", "-", "10", "7", "255", "4869",
];

const HMAC: &str = "hmac-sha1";

const SHOWN: &str = "Null Dec HashCipher - 2:0af9 0 99999 HmacSha1 1:0b - 10 7 255 2:4869";

/// For each field its number, from 0 on, texts that it may have and texts that it may not have.
const FORMS: [(u32, &[&str], &[&str]); 16] = [
    (0, &["cbc", "gcm", "ccm"], &["ecb", "NULL", "CCM", ""]),
    (1, &["enc"], &["encrypt", "Enc"]),
    (2, &["ch"], &["hash"]),
    (3, &["00"], &["abc", "0g", ""]),
    (4, &["-"], &["--", "0x"]),
    (5, &["99999"], &["100000", "00", "01", ""]),
    (6, &[], &["+1", "1a"]),
    (7, &["null", "hmac-sha384", "cmac256", "ccm"], &[]),
    (7, &[], &["hmac-md5", "hmac", "cmac192"]),
    (
        7,
        &["hmac-sha1-states", "hmac-sha512-states"],
        &["", "hmac-states", "sha1-states"],
    ),
    (8, &[], &["\t0b", "0b0"]),
    (9, &[], &["zz"]),
    (10, &["0"], &["-"]),
    (11, &[], &["-1", "000"]),
    (12, &["0"], &["256", "0255"]),
    (13, &["ABCDEFabcdef0123456789"], &["48\r69", "4869a"]),
];

/// Files, where `@` stands for the good line, with the number of their jobs or the line and the field of their fault.
const FILES: [(&str, Count); 19] = [
    ("", Ok(0)),
    ("@", Ok(1)),
    ("@\n", Ok(1)),
    ("@\r\n@\r", Ok(2)),
    ("\n\r\n#@\n#\r\n@\n\n@\n\n", Ok(2)),
    ("@\r\r\n", Err((1, 14))),
    ("\n\r\r\n", Err((2, 0))),
    ("@\r@", Err((1, 0))),
    ("@ ", Err((1, 0))),
    (" @", Err((1, 0))),
    ("@\n \n", Err((2, 0))),
    ("@\n #\n", Err((2, 0))),
    ("%\n@", Err((1, 0))),
    ("null  enc ch - - 0 0 null - - 0 0 0 -", Err((1, 0))),
    ("null  ch - - 0 0 null - - 0 0 0 -", Err((1, 2))),
    ("null enc\tch - - 0 0 null - - 0 0 0 -", Err((1, 0))),
    ("null enc ch - - 0 0 null - - 0 0 -", Err((1, 0))),
    (
        "@\n\n#\nnull enc ch - - 0 0 null - - 00 0 256 x\nnull",
        Err((4, 11)),
    ),
    ("@\n@\nnull\n@", Err((3, 0))),
];

/// How many jobs a file has, or the line and the field of its fault.
type Count = Result<usize, (u32, u32)>;

/// How many jobs a file within the limit has.
fn count_of(alloc: Global, file: &str) -> Count {
    if file.len() > INPUT_LIMIT {
        return Err((0, 0));
    }
    match read_file(alloc, file.as_bytes()) {
        Ok((_, jobs)) => Ok(jobs.len()),
        Err(fault) => Err(place_of(fault)),
    }
}

/// How many jobs a file has that there was memory for.
fn count_jobs(alloc: Global, file: Result<String, AllocError>) -> Count {
    match file {
        Ok(file) => count_of(alloc, file.as_str()),
        Err(_) => Err((0, 0)),
    }
}

/// The good line with this text in the field with this number.
fn line_with(alloc: Global, number: u32, text: &str) -> Result<String, AllocError> {
    let mut fields = FIELDS;
    if let Some(field) = fields.get_mut(number as usize) {
        *field = text;
    }
    fields.join(alloc, " ")
}

/// Whether the good line comes to this with each of the texts in the field with this number.
fn all_count(alloc: Global, number: u32, texts: &[&str], count: Count) -> bool {
    for text in texts {
        if count_jobs(alloc, line_with(alloc, number, *text)) != count {
            return false;
        }
    }
    true
}

#[test]
fn each_field_has_its_form(rt: HostRuntime) {
    for (number, good, bad) in &FORMS {
        let goods = all_count(rt.alloc(), *number, *good, Ok(1));
        let bads = all_count(rt.alloc(), *number, *bad, Err((1, number + 1)));
        assert!(rt; goods && bads, "field {number}");
    }
}

#[test]
fn lines_are_cut_and_counted(rt: HostRuntime) {
    for (text, count) in &FILES {
        let file = text.replace(rt.alloc(), "@", LINE);
        assert!(rt; count_jobs(rt.alloc(), file) == *count, "{text:?}");
    }
}

/// Whether the good line is read as one job with its fields.
fn reads_line(alloc: Global) -> Result<bool, Fail> {
    let (_, jobs) = read_file(alloc, LINE.as_bytes())?;
    let [job] = jobs.as_slice() else {
        return Ok(false);
    };
    Ok(shown(alloc, job)?.as_str() == SHOWN && job.session == None)
}

#[test]
fn a_line_is_read_field_by_field(rt: HostRuntime) -> Result<(), Fail> {
    assert!(rt; reads_line(rt.alloc())?);
    Ok(())
}

/// Faults, and the lines that tell them.
const FAULTS: [TextFault; 4] = [
    TextFault::Line { line: 3, field: 0 },
    TextFault::Line { line: 1, field: 14 },
    TextFault::Limit { line: 65_537 },
    TextFault::Memory,
];

const TOLD: &str = "line 3 has a wrong number of fields\n\
    field 14 of line 1 isn't of its form\n\
    line 65537 is one job line more than a file may have\n\
    there wasn't memory enough\n";

fn told(alloc: Global) -> Result<String, AllocError> {
    let mut text = String::new(alloc);
    for fault in &FAULTS {
        write!(text, "{fault}\n")?;
    }
    Ok(text)
}

#[test]
fn faults_say_where_they_are(rt: HostRuntime) -> Result<(), Fail> {
    assert!(rt; told(rt.alloc())?.as_str() == TOLD);
    Ok(())
}
