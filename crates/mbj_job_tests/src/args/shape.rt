//! Jobs by their choices and lengths: every byte of theirs is 0.

use mbj_args::check;
use mbj_types::{Auth, Bytes, Cipher, Job, Reason};
use std::alloc::{AllocError, Global};

/// What a job has a length of, in bytes, or an offset.
#[derive(Clone, Copy)]
pub(crate) enum Length {
    Packet,
    Key,
    Iv,
    CipherOff,
    CipherLen,
    MacKey,
    Aad,
    HashOff,
    HashLen,
    TagLen,
}

/// A length, and how many bytes it is.
pub(crate) type Change = (Length, u32);

/// The packet that every job has unless a row changes it.
pub(crate) const SAME: Change = (Length::Packet, 16);

/// A job of these choices, of which two lengths are changed, and why the argument table refuses it, if it does.
pub(crate) type Row = (Cipher, Auth, Length, u32, Length, u32, Option<Reason>);

/// The lengths of a cipher's job of 16 bytes that the argument table takes.
const NO_CIPHER: [Change; 3] = [(Length::Key, 0), (Length::Iv, 0), (Length::CipherLen, 0)];

const CBC: [Change; 3] = [(Length::Key, 16), (Length::Iv, 16), (Length::CipherLen, 16)];

const CTR: [Change; 3] = [(Length::Key, 24), (Length::Iv, 12), (Length::CipherLen, 16)];

const GCM: [Change; 3] = [(Length::Key, 32), (Length::Iv, 12), (Length::CipherLen, 16)];

const CCM: [Change; 3] = [(Length::Key, 16), (Length::Iv, 11), (Length::CipherLen, 16)];

/// The lengths of an authentication's job of 16 bytes that the argument table takes, but for the IV of GMAC.
const NO_AUTH: [Change; 3] = [
    (Length::MacKey, 0),
    (Length::HashLen, 0),
    (Length::TagLen, 0),
];

const HASH: [Change; 3] = [
    (Length::MacKey, 20),
    (Length::HashLen, 16),
    (Length::TagLen, 12),
];

const AES_128: [Change; 3] = [
    (Length::MacKey, 16),
    (Length::HashLen, 16),
    (Length::TagLen, 16),
];

const AES_256: [Change; 3] = [
    (Length::MacKey, 32),
    (Length::HashLen, 16),
    (Length::TagLen, 16),
];

const STATES_1: [Change; 3] = [
    (Length::MacKey, 40),
    (Length::HashLen, 16),
    (Length::TagLen, 12),
];

const STATES_256: [Change; 3] = [
    (Length::MacKey, 64),
    (Length::HashLen, 16),
    (Length::TagLen, 12),
];

const STATES_512: [Change; 3] = [
    (Length::MacKey, 128),
    (Length::HashLen, 16),
    (Length::TagLen, 12),
];

const CIPHERS_TAG: [Change; 3] = [
    (Length::MacKey, 0),
    (Length::HashLen, 0),
    (Length::TagLen, 16),
];

fn lengths_of_cipher(cipher: Cipher) -> &'static [Change; 3] {
    match cipher {
        Cipher::Null => &NO_CIPHER,
        Cipher::Cbc => &CBC,
        Cipher::Ctr => &CTR,
        Cipher::Gcm => &GCM,
        Cipher::Ccm => &CCM,
    }
}

fn lengths_of_auth(auth: Auth) -> &'static [Change; 3] {
    match auth {
        Auth::Null => &NO_AUTH,
        Auth::Cmac128 | Auth::Gmac => &AES_128,
        Auth::Cmac256 => &AES_256,
        Auth::Gcm | Auth::Ccm => &CIPHERS_TAG,
        Auth::HmacSha1States => &STATES_1,
        Auth::HmacSha224States | Auth::HmacSha256States => &STATES_256,
        Auth::HmacSha384States | Auth::HmacSha512States => &STATES_512,
        _ => &HASH,
    }
}

/// Gives a part of a job as many zero bytes.
fn put_zeros(alloc: Global, part: &mut Bytes, len: u32) -> Result<(), AllocError> {
    *part = Bytes::from_vec(vec![in alloc; 0; len as usize]?);
    Ok(())
}

/// Gives a job a length that is a number.
fn put_number(job: &mut Job, length: Length, number: u32) {
    match length {
        Length::CipherOff => job.cipher_off = number,
        Length::CipherLen => job.cipher_len = number,
        Length::HashOff => job.hash_off = number,
        Length::HashLen => job.hash_len = number,
        Length::TagLen => job.tag_len = number.min(u8::MAX as u32) as u8,
        _ => {}
    }
}

/// Gives a job a length: that of a part of zero bytes, or a number.
fn put(alloc: Global, job: &mut Job, length: Length, number: u32) -> Result<(), AllocError> {
    match length {
        Length::Packet => put_zeros(alloc, &mut job.packet, number),
        Length::Key => put_zeros(alloc, &mut job.key, number),
        Length::Iv => put_zeros(alloc, &mut job.iv, number),
        Length::MacKey => put_zeros(alloc, &mut job.auth_key, number),
        Length::Aad => put_zeros(alloc, &mut job.aad, number),
        _ => {
            put_number(job, length, number);
            Ok(())
        }
    }
}

/// Gives a job each of the lengths, one after another.
fn put_all(alloc: Global, job: &mut Job, changes: &[Change]) -> Result<(), AllocError> {
    for (length, number) in changes {
        put(alloc, job, *length, *number)?;
    }
    Ok(())
}

/// What the argument table says of a blank job that is given what a row says.
fn judged_in(alloc: Global, job: &mut Job, row: &Row) -> Result<Option<Reason>, AllocError> {
    let (cipher, auth, first, one, second, two, _) = row;
    job.cipher = *cipher;
    job.auth = *auth;
    put_all(alloc, job, &[SAME])?;
    put_all(alloc, job, lengths_of_cipher(*cipher))?;
    put_all(alloc, job, lengths_of_auth(*auth))?;
    put(alloc, job, *first, *one)?;
    put(alloc, job, *second, *two)?;
    Ok(check(job))
}

/// What the argument table says of a row's job.
pub(crate) fn judged(alloc: Global, row: &Row) -> Result<Option<Reason>, AllocError> {
    judged_in(alloc, &mut Job::blank(alloc), row)
}
