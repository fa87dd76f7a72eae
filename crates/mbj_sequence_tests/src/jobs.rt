ghost use Rattle.std.specs.Prelude.{◌≤◌};
ghost use Rattle.mbj_hmac.specs.declared.key.TheConstants.{MAX_BLOCK_BYTES};

use crate::draws::Draws;
use crate::kinds::{Kind, longest_tag};
use mbj_hmac::{MAX_BLOCK_BYTES, states};
use mbj_types::{Auth, Bytes, Cipher, Dir, Job, Order};
use std::alloc::{AllocError, Global};

/// The longest packet, in bytes.
const MOST_PACKET: u16 = 2000;

/// The longest key of an HMAC, in bytes.
const MOST_KEY: u16 = 200;

/// The longest additional data and the longest IV, in bytes.
const MOST_DATA: u16 = 100;

/// The lengths of a job's bytes, its ranges and its tag, in bytes.
#[derive(Drop)]
struct Shape {
    key: u16,
    iv: u16,
    off: u16,
    len: u16,
    auth_key: u16,
    aad: u16,
    hash_off: u16,
    hash_len: u16,
    tag: u8,
    packet: u16,
}

/// 16, 24 or 32 bytes.
fn draw_aes_key(draws: &mut Draws) -> u16 {
    [16, 24, 32][draws.below(3) as usize]
}

fn draw_iv(draws: &mut Draws, cipher: Cipher) -> u16 {
    match cipher {
        Cipher::Cbc => 16,
        Cipher::Ctr => [12, 16][draws.below(2) as usize],
        Cipher::Ccm => draws.up_to(6).saturating_add(7),
        _ if draws.below(2) == 0 => 12,
        _ => draws.up_to(MOST_DATA - 1).saturating_add(1),
    }
}

fn draw_auth_key(draws: &mut Draws, auth: Auth) -> u16 {
    match auth {
        Auth::Gmac => draw_aes_key(draws),
        Auth::Cmac128 => 16,
        Auth::Cmac256 => 32,
        Auth::Null | Auth::Gcm | Auth::Ccm => 0,
        Auth::Sha1 | Auth::Sha224 | Auth::Sha256 | Auth::Sha384 | Auth::Sha512 => 0,
        _ => draws.up_to(MOST_KEY),
    }
}

/// CCM's tag has an even number of bytes from 4 on.
fn draw_tag(draws: &mut Draws, auth: Auth) -> u8 {
    let longest = longest_tag(auth);
    if let Auth::Ccm = auth {
        [4, 6, 8, 10, 12, 14, 16][draws.below(7) as usize]
    } else if longest == 0 {
        0
    } else {
        (draws.below(u32::from(longest)) as u8).saturating_add(1)
    }
}

/// How long a range is from a place on: it goes over three quarters of what is behind it, or more.
fn draw_len(draws: &mut Draws, packet: u16, off: u16) -> u16 {
    let behind = packet.saturating_sub(off);
    behind.saturating_sub(draws.up_to(behind) / 4)
}

/// One job in sixteen has a length or a place that its cipher or its authentication doesn't take, if it has one.
fn draw_fault(draws: &mut Draws, shape: &mut Shape) {
    if draws.below(16) != 0 {
        return;
    }
    match draws.below(5) {
        0 => shape.key = 17,
        1 => shape.iv = 0,
        2 => shape.len = shape.len.saturating_add(1),
        3 => shape.hash_off = shape.packet.saturating_add(1),
        _ => shape.tag = 65,
    }
}

/// The range of CBC has whole blocks.
fn draw_shape(draws: &mut Draws, kind: Kind) -> Shape {
    let key = draw_aes_key(draws);
    let iv = draw_iv(draws, kind.cipher);
    let auth_key = draw_auth_key(draws, kind.auth);
    let aad = draws.up_to(MOST_DATA);
    let tag = draw_tag(draws, kind.auth);
    let packet = draws.up_to(MOST_PACKET);
    let off = draws.up_to(packet);
    let len = draw_len(draws, packet, off);
    let len = match kind.cipher {
        Cipher::Cbc => len / 16 * 16,
        _ => len,
    };
    let hash_off = draws.up_to(packet) / 4;
    let hash_len = draw_len(draws, packet, hash_off);
    let mut shape = Shape {
        key,
        iv,
        off,
        len,
        auth_key,
        aad,
        hash_off,
        hash_len,
        tag,
        packet,
    };
    draw_fault(draws, &mut shape);
    shape
}

/// The first bytes of a key's states, which are followed by zeros.
fn front(alloc: Global, states: [u8; MAX_BLOCK_BYTES], len: usize) -> Result<Bytes, AllocError>
    requires { len ≤ MAX_BLOCK_BYTES }
{
    Bytes::from_slice(alloc, &states[..len])
}

/// The states of a key, if the authentication takes these, or else the key itself.
fn auth_key(alloc: Global, auth: Auth, key: Vec<u8>) -> Result<Bytes, AllocError> {
    match auth {
        Auth::HmacSha1States => front(alloc, states(Auth::HmacSha1, &key), 40),
        Auth::HmacSha224States => front(alloc, states(Auth::HmacSha224, &key), 64),
        Auth::HmacSha256States => front(alloc, states(Auth::HmacSha256, &key), 64),
        Auth::HmacSha384States => front(alloc, states(Auth::HmacSha384, &key), 128),
        Auth::HmacSha512States => front(alloc, states(Auth::HmacSha512, &key), 128),
        _ => Ok(Bytes::from_vec(key)),
    }
}

/// Draws a cipher's key. As many bytes are drawn for each length.
fn draw_key(draws: &mut Draws, alloc: Global, len: u16) -> Result<Bytes, AllocError> {
    let mut key = draws.bytes(alloc, 32)?;
    key.truncate(len as usize);
    Ok(Bytes::from_vec(key))
}

/// Draws a job of a kind into a cell.
pub(crate) fn draw_job(
    draws: &mut Draws,
    alloc: Global,
    kind: Kind,
    job: &mut Job,
) -> Result<(), AllocError> {
    job.cipher = kind.cipher;
    job.auth = kind.auth;
    job.dir = [Dir::Enc, Dir::Dec][draws.below(2) as usize];
    job.order = [Order::CipherHash, Order::HashCipher][draws.below(2) as usize];
    let shape = draw_shape(draws, kind);
    job.cipher_off = u32::from(shape.off);
    job.cipher_len = u32::from(shape.len);
    job.hash_off = u32::from(shape.hash_off);
    job.hash_len = u32::from(shape.hash_len);
    job.tag_len = shape.tag;
    job.key = draw_key(draws, alloc, shape.key)?;
    job.iv = Bytes::from_vec(draws.bytes(alloc, shape.iv)?);
    job.auth_key = auth_key(alloc, kind.auth, draws.bytes(alloc, shape.auth_key)?)?;
    job.aad = Bytes::from_vec(draws.bytes(alloc, shape.aad)?);
    job.packet = Bytes::from_vec(draws.bytes(alloc, shape.packet)?);
    Ok(())
}
