ghost use Rattle.std.specs.Prelude.{◌≡◌};
ghost use Rattle.mbj_types.specs.Reasons.{number_of};

use std::error::Error;
use std::fmt;

/// Why a job is refused. `number` gives the number that a result line shows.
#[derive(Clone, Copy, Debug, PartialEq, Eq)]
pub enum Reason {
    /// The packet is longer than 65,535 bytes.
    PacketLong,
    /// The authentication doesn't go with the cipher: exactly one of the two is GCM, exactly one is CCM, or GMAC stands beside a
    /// cipher.
    GcmPair,
    /// The cipher's key has neither 16, 24 nor 32 bytes.
    CipherKey,
    /// The initialization vector has a length that the cipher, or GMAC, doesn't take.
    IvLength,
    /// The cipher range passes the packet's end.
    CipherRange,
    /// The cipher range has a length that the cipher doesn't take.
    CipherLength,
    /// The authentication's key has a length that it doesn't take. An HMAC from states takes two states: 40 bytes for SHA-1, 64 for
    /// SHA-224 and SHA-256, 128 for SHA-384 and SHA-512.
    AuthKey,
    /// The hash range passes the packet's end.
    HashRange,
    /// The additional authenticated data is longer than the 65,535 bytes that GCM takes, or the 65,279 that CCM takes.
    AadLong,
    /// The tag's length is outside what the authentication gives.
    TagLength,
}

impl Reason {
    /// The reason's number, from 1 to 10 in the order in which the variants stand.
    pub fn number(&self) -> u8
        ensures { result ≡ number_of self.now }
    {
        match self {
            Reason::PacketLong => 1,
            Reason::GcmPair => 2,
            Reason::CipherKey => 3,
            Reason::IvLength => 4,
            Reason::CipherRange => 5,
            Reason::CipherLength => 6,
            Reason::AuthKey => 7,
            Reason::HashRange => 8,
            Reason::AadLong => 9,
            Reason::TagLength => 10,
        }
    }
}

impl fmt::Display for Reason {
    fn fmt<W: fmt::Write>(&self, f: &mut fmt::Formatter<W>) -> fmt::Result {
        f.write_str(match self {
            Reason::PacketLong => "the packet is longer than 65,535 bytes",
            Reason::GcmPair => "the authentication doesn't go with the cipher",
            Reason::CipherKey => "the cipher's key has neither 16, 24 nor 32 bytes",
            Reason::IvLength => "the cipher or GMAC doesn't take an IV of this length",
            Reason::CipherRange => "the cipher range passes the packet's end",
            Reason::CipherLength => "the cipher doesn't take a range of this length",
            Reason::AuthKey => "the authentication doesn't take a key of this length",
            Reason::HashRange => "the hash range passes the packet's end",
            Reason::AadLong => "the cipher doesn't take additional data of this length",
            Reason::TagLength => "the authentication doesn't give a tag of this length",
        })
    }
}

impl Error for Reason {}
