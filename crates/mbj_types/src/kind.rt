ghost use Rattle.std.specs.Prelude.{◌≡◌, IsTrue};
ghost use Rattle.mbj_types.specs.Kinds.{all_kinds, lanes_of, name_of};

use crate::lane8::Lane8;
use crate::lane32::Lane32;
use crate::lane64::Lane64;
use std::fmt;
use std::simd::{u8x32, u32x16, u64x8};

/// How many texts or messages the kernels of AES serve at once.
pub const AES_LANES: usize = 32;

/// A byte of each of them, side by side.
pub type AesWord = u8x32;

/// How many messages the kernel of SHA-1 serves at once.
pub const SHA1_LANES: usize = 16;

/// A word of SHA-1 of each of them, side by side.
pub type Sha1Word = u32x16;

/// How many messages the kernel of SHA-224 and SHA-256 serves at once.
pub const SHA256_LANES: usize = 16;

/// A word of SHA-256 of each of them, side by side.
pub type Sha256Word = u32x16;

/// How many messages the kernel of SHA-384 and SHA-512 serves at once.
pub const SHA512_LANES: usize = 8;

/// A word of SHA-512 of each of them, side by side.
pub type Sha512Word = u64x8;

/// A kind of work whose jobs wait for one another, to be done in the lanes of one kernel.
#[derive(Clone, Copy, Debug, PartialEq, Eq)]
pub enum Kind {
    /// CBC encryption with a key of 128 bits.
    Cbc128,
    /// CBC encryption with a key of 192 bits.
    Cbc192,
    /// CBC encryption with a key of 256 bits.
    Cbc256,
    /// CMAC with a key of 128 bits.
    Cmac128,
    /// CMAC with a key of 256 bits.
    Cmac256,
    /// HMAC with SHA-1.
    HmacSha1,
    /// HMAC with SHA-224 or SHA-256.
    HmacSha256,
    /// HMAC with SHA-384 or SHA-512.
    HmacSha512,
    /// The MAC of CCM with a key of 128 bits.
    Ccm128,
    /// The MAC of CCM with a key of 192 bits.
    Ccm192,
    /// The MAC of CCM with a key of 256 bits.
    Ccm256,
}

impl Kind {
    /// Every kind once, in the order in which `trace` prints them.
    pub const ALL: [Kind; 11] = [
        Kind::Cbc128,
        Kind::Cbc192,
        Kind::Cbc256,
        Kind::Cmac128,
        Kind::Cmac256,
        Kind::HmacSha1,
        Kind::HmacSha256,
        Kind::HmacSha512,
        Kind::Ccm128,
        Kind::Ccm192,
        Kind::Ccm256,
    ];

    /// How many jobs of this kind one run serves.
    pub fn lanes(&self) -> u32
        ensures { result ≡ lanes_of self.now }
    {
        let lanes = match self {
            Kind::Cbc128 | Kind::Cbc192 | Kind::Cbc256 => AES_LANES,
            Kind::Cmac128 | Kind::Cmac256 => AES_LANES,
            Kind::HmacSha1 => SHA1_LANES,
            Kind::HmacSha256 => SHA256_LANES,
            Kind::HmacSha512 => SHA512_LANES,
            Kind::Ccm128 | Kind::Ccm192 | Kind::Ccm256 => AES_LANES,
        };
        lanes as u32
    }

    /// The kind's name, as it is printed.
    pub fn name(&self) -> &'static str
        ensures { result.now ≡ name_of self.now }
    {
        match self {
            Kind::Cbc128 => "cbc128",
            Kind::Cbc192 => "cbc192",
            Kind::Cbc256 => "cbc256",
            Kind::Cmac128 => "cmac128",
            Kind::Cmac256 => "cmac256",
            Kind::HmacSha1 => "hmac-sha1",
            Kind::HmacSha256 => "hmac-sha256",
            Kind::HmacSha512 => "hmac-sha512",
            Kind::Ccm128 => "ccm128",
            Kind::Ccm192 => "ccm192",
            Kind::Ccm256 => "ccm256",
        }
    }
}

impl fmt::Display for Kind {
    fn fmt<W: fmt::Write>(&self, f: &mut fmt::Formatter<W>) -> fmt::Result {
        f.write_str(self.name())
    }
}

/// A law: `Kind::ALL` has every kind once, in the order in which `trace` prints them.
pub fn kinds_are_told_in_order()
    ensures { Kind.ALL ≡ all_kinds }
{}

/// A law: a run of AES serves 32 jobs, one of SHA-1, SHA-224 or SHA-256 serves 16, and one of SHA-384 or SHA-512 serves 8.
pub fn lanes_are_these_numbers()
    ensures aes { AES_LANES ≡ 32 }
    ensures sha1 { SHA1_LANES ≡ 16 }
    ensures sha256 { SHA256_LANES ≡ 16 }
    ensures sha512 { SHA512_LANES ≡ 8 }
{}

/// A law, which returns true: each lane word has as many lanes as its constant says.
pub fn lane_words_have_these_lanes() -> bool
    ensures { IsTrue result }
{
    AesWord::LANES as usize == AES_LANES
        && Sha1Word::LANES as usize == SHA1_LANES
        && Sha256Word::LANES as usize == SHA256_LANES
        && Sha512Word::LANES as usize == SHA512_LANES
}
