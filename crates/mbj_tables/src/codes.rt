//! The codes that C has for the words of a job, for the kinds of lanes and for the reasons of a refusal.

use mbj_text::{AUTH_WORDS, CIPHER_WORDS, DIR_WORDS, ORDER_WORDS};
use mbj_types::{Auth, Cipher, Dir, Kind, Order, Reason};
use std::io::{self, Print};

const REASONS: [Reason; 10] = [
    Reason::PacketLong,
    Reason::GcmPair,
    Reason::CipherKey,
    Reason::IvLength,
    Reason::CipherRange,
    Reason::CipherLength,
    Reason::AuthKey,
    Reason::HashRange,
    Reason::AadLong,
    Reason::TagLength,
];

/// The word of a job file that stands for a value.
fn word_of<T: PartialEq>(words: &[(&'static [u8], T)], value: &T) -> &'static str {
    match words.iter().find(|row| row.1 == *value) {
        Some((word, _)) => str::from_utf8(word).unwrap_or(""),
        None => "",
    }
}

/// A line for each code of a list: the list's name, the code, and the word.
fn print_words<T: PartialEq>(
    rt: &impl Print,
    name: &str,
    all: &[T],
    words: &[(&'static [u8], T)],
) -> io::Result<()> {
    for (code, value) in all.iter().enumerate() {
        println!(rt; "{name} {code}: {}", word_of(words, value))?;
    }
    Ok(())
}

fn print_kinds(rt: &impl Print) -> io::Result<()> {
    for (code, kind) in Kind::ALL.iter().enumerate() {
        println!(rt; "kind {code}: {} {}", kind.name(), kind.lanes())?;
    }
    Ok(())
}

pub(crate) fn print_all(rt: &impl Print) -> io::Result<()> {
    print_words(rt, "cipher", &Cipher::ALL, &CIPHER_WORDS)?;
    print_words(rt, "direction", &Dir::ALL, &DIR_WORDS)?;
    print_words(rt, "order", &Order::ALL, &ORDER_WORDS)?;
    print_words(rt, "authentication", &Auth::ALL, &AUTH_WORDS)?;
    print_kinds(rt)?;
    for reason in &REASONS {
        println!(rt; "reason {}: {reason}", reason.number())?;
    }
    Ok(())
}
