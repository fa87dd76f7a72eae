ghost use Rattle.std.specs.Prelude.{◌≡◌, IfOk, IfErr, Some, option_map};
ghost use Rattle.mbj_c.specs.Filling.{job_of_raw, job_with, session_of_raw, words_of_raw};

use crate::range::narrowed;
use crate::words::{Words, auth_at, cipher_at, dir_at, order_at};
use mbj_types::Job;
use std::alloc::{AllocError, Global};

/// A job as C fills it. Bytes are a pointer, which isn't null, and a length. Offsets and lengths of ranges are in bytes; one that 32
/// bits can't hold is past the end of every packet that is accepted.
#[repr(C)]
#[derive(Clone, Copy)]
pub struct RawJob<'a> {
    /// 0 none, 1 CBC, 2 CTR, 3 GCM, 4 CCM.
    pub cipher: u32,
    /// 0 encryption, 1 decryption.
    pub dir: u32,
    /// 0 the cipher first, 1 the hash first.
    pub order: u32,
    /// 0 none; HMAC with 1 SHA-1, 2 SHA-224, 3 SHA-256, 4 SHA-384, 5 SHA-512; CMAC with a key of 6 128 bits, 7 256 bits;
    /// 8 GCM, 9 GMAC, 10 CCM; a hash without a key, 11 SHA-1 to 15 SHA-512; HMAC from stored states, 16 SHA-1 to 20 SHA-512.
    pub auth: u32,
    /// The cipher's key: 16, 24 or 32 bytes.
    pub key: &'a [u8],
    /// The initialization vector of the cipher, or of GMAC: 16 bytes for CBC, 12 or 16 for CTR, 1 to 65,535 for GCM and GMAC. For CCM it is
    /// the nonce, of 7 to 13 bytes.
    pub iv: &'a [u8],
    /// The key of an HMAC, a CMAC or GMAC, or the stored states of an HMAC: 40, 64 or 128 bytes.
    pub auth_key: &'a [u8],
    /// The additional authenticated data of GCM, of at most 65,535 bytes, or of CCM, of at most 65,279.
    pub aad: &'a [u8],
    /// The packet, of at most 65,535 bytes.
    pub packet: &'a [u8],
    /// Where the range of the packet that is ciphered begins, in bytes.
    pub cipher_off: u64,
    /// The length of that range, in bytes.
    pub cipher_len: u64,
    /// Where the range that the authentication is over begins, in bytes. GCM and CCM have none.
    pub hash_off: u64,
    /// The length of that range, in bytes.
    pub hash_len: u64,
    /// The length of the tag, in bytes.
    pub tag_len: u8,
    /// The key session, or `u32::MAX` for none.
    pub session: u32,
}

/// The number that names no session.
const NO_SESSION: u32 = u32::MAX;

/// The session with this number. Returns `None` exactly where it names none.
fn session_at(number: u32) -> Option<u32>
    ensures { result ≡ session_of_raw number }
{
    if number == NO_SESSION {
        None
    } else {
        Some(number)
    }
}

impl RawJob<'_> {
    /// The cipher, direction, order and authentication with these codes. Returns `None` exactly where a number is no code.
    pub(crate) fn words(&self) -> Option<Words>
        ensures { result ≡ words_of_raw self.now }
    {
        let (Some(cipher), Some(dir), Some(order), Some(auth)) = (
            cipher_at(self.cipher),
            dir_at(self.dir),
            order_at(self.order),
            auth_at(self.auth),
        ) else {
            return None;
        };
        Some(Words {
            cipher,
            dir,
            order,
            auth,
        })
    }

    /// Makes `job` the job with these words, its bytes in the memory that `job` has, if they fit there.
    ///
    /// Returns `AllocError` for want of memory.
    pub(crate) fn refill(
        &self,
        alloc: Global,
        words: Words,
        job: &mut Job,
    ) -> Result<(), AllocError>
        ensures { IfOk result (λ _. job.new ≡ job_with self.now words) }
    {
        job.cipher = words.cipher;
        job.dir = words.dir;
        job.order = words.order;
        job.key.refill(alloc, self.key)?;
        job.iv.refill(alloc, self.iv)?;
        job.cipher_off = narrowed(self.cipher_off);
        job.cipher_len = narrowed(self.cipher_len);
        job.auth = words.auth;
        job.auth_key.refill(alloc, self.auth_key)?;
        job.aad.refill(alloc, self.aad)?;
        job.hash_off = narrowed(self.hash_off);
        job.hash_len = narrowed(self.hash_len);
        job.tag_len = self.tag_len;
        job.packet.refill(alloc, self.packet)?;
        job.session = session_at(self.session);
        Ok(())
    }
}
