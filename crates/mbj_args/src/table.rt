ghost use Rattle.std.specs.Prelude.{◌≡◌, ◌+◌, length};
ghost use Rattle.mbj_types.specs.Verdict.{verdict, passes_end};

use crate::{auth, cipher};
use mbj_types::{Job, MAX_PACKET_BYTES, Reason};

/// Whether a range passes the end of a packet of `packet_len` bytes. The sum of its offset and its length doesn't wrap.
fn passes_end(off: u32, len: u32, packet_len: usize) -> bool
    ensures { result ≡ passes_end off len packet_len }
{
    off as usize + len as usize > packet_len
}

/// The reason for which a job is refused: that of the first row of the argument table that applies, or none.
///
/// ```
/// job.cipher = *cipher;
/// job.auth = *auth;
/// put_all(alloc, job, &[SAME])?;
/// put_all(alloc, job, lengths_of_cipher(*cipher))?;
/// put_all(alloc, job, lengths_of_auth(*auth))?;
/// put(alloc, job, *first, *one)?;
/// put(alloc, job, *second, *two)?;
/// Ok(check(job))
/// ```
pub fn check(job: &Job) -> Option<Reason>
    ensures { result ≡ verdict job.now }
{
    let packet_len = job.packet.as_slice().len();
    let class = job.auth.class();
    if packet_len > MAX_PACKET_BYTES {
        return Some(Reason::PacketLong);
    }
    if !cipher::goes_with(job.cipher, class) {
        return Some(Reason::GcmPair);
    }
    if !cipher::takes_key(job.cipher, job.key.as_slice().len()) {
        return Some(Reason::CipherKey);
    }
    let iv_len = job.iv.as_slice().len();
    if !(cipher::takes_iv(job.cipher, iv_len) && auth::takes_iv(class, iv_len)) {
        return Some(Reason::IvLength);
    }
    if !cipher::is_null(job.cipher) && passes_end(job.cipher_off, job.cipher_len, packet_len) {
        return Some(Reason::CipherRange);
    }
    if !cipher::takes_range(job.cipher, job.cipher_len as usize) {
        return Some(Reason::CipherLength);
    }
    if !auth::takes_key(class, job.auth_key.as_slice().len()) {
        return Some(Reason::AuthKey);
    }
    if auth::has_hash_range(class) && passes_end(job.hash_off, job.hash_len, packet_len) {
        return Some(Reason::HashRange);
    }
    if !cipher::takes_aad(job.cipher, job.aad.as_slice().len()) {
        return Some(Reason::AadLong);
    }
    if !auth::takes_tag(class, job.tag_len as usize) {
        return Some(Reason::TagLength);
    }
    None
}
