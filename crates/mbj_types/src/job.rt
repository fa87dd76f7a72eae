ghost use Rattle.std.specs.Prelude.{◌≡◌, IfOk};
ghost use Rattle.mbj_types.specs.Blank.{blank};

use crate::bytes::Bytes;
use std::alloc::{AllocError, Global};
use std::fmt;

/// What a job does with its cipher range.
#[derive(Clone, Copy, Debug, PartialEq, Eq)]
pub enum Cipher {
    /// Nothing.
    Null,
    /// AES in cipher block chaining (SP 800-38A, 6.2).
    Cbc,
    /// AES in counter mode (SP 800-38A, 6.5).
    Ctr,
    /// AES in Galois/counter mode (SP 800-38D), which gives the tag too.
    Gcm,
    /// AES in counter mode with the MAC of CBC (SP 800-38C), which gives the tag too.
    Ccm,
}

impl Cipher {
    /// Every cipher once, in the order of the codes that C has for them.
    pub const ALL: [Cipher; 5] = [
        Cipher::Null,
        Cipher::Cbc,
        Cipher::Ctr,
        Cipher::Gcm,
        Cipher::Ccm,
    ];
}

/// The direction of the cipher.
#[derive(Clone, Copy, Debug, PartialEq, Eq)]
pub enum Dir {
    /// Encryption.
    Enc,
    /// Decryption.
    Dec,
}

impl Dir {
    /// Both directions, in the order of the codes that C has for them.
    pub const ALL: [Dir; 2] = [Dir::Enc, Dir::Dec];
}

/// Which of cipher and authentication is done first.
#[derive(Clone, Copy, Debug, PartialEq, Eq)]
pub enum Order {
    /// The tag is over the packet after ciphering.
    CipherHash,
    /// The tag is over the packet before ciphering.
    HashCipher,
}

impl Order {
    /// Both orders, in the order of the codes that C has for them.
    pub const ALL: [Order; 2] = [Order::CipherHash, Order::HashCipher];
}

/// How a job's tag is made.
#[derive(Clone, Copy, Debug, PartialEq, Eq)]
pub enum Auth {
    /// No tag.
    Null,
    /// HMAC (RFC 2104) with SHA-1.
    HmacSha1,
    /// HMAC with SHA-224.
    HmacSha224,
    /// HMAC with SHA-256.
    HmacSha256,
    /// HMAC with SHA-384.
    HmacSha384,
    /// HMAC with SHA-512.
    HmacSha512,
    /// CMAC (SP 800-38B) with AES and a key of 128 bits.
    Cmac128,
    /// CMAC with AES and a key of 256 bits.
    Cmac256,
    /// The tag of Galois/counter mode, which goes with that cipher.
    Gcm,
    /// The tag of counter mode with the MAC of CBC, which goes with that cipher.
    Ccm,
    /// The digest of SHA-1 (FIPS 180-4), without a key.
    Sha1,
    /// The digest of SHA-224.
    Sha224,
    /// The digest of SHA-256.
    Sha256,
    /// The digest of SHA-384.
    Sha384,
    /// The digest of SHA-512.
    Sha512,
    /// GMAC (SP 800-38D, 3.1): the tag of Galois/counter mode over data alone, under a key of its own.
    Gmac,
    /// HMAC with SHA-1 from stored states (RFC 2104, 4).
    HmacSha1States,
    /// HMAC with SHA-224 from stored states.
    HmacSha224States,
    /// HMAC with SHA-256 from stored states.
    HmacSha256States,
    /// HMAC with SHA-384 from stored states.
    HmacSha384States,
    /// HMAC with SHA-512 from stored states.
    HmacSha512States,
}

impl Auth {
    /// Every authentication once, in the order of the codes that C has for them.
    pub const ALL: [Auth; 21] = [
        Auth::Null,
        Auth::HmacSha1,
        Auth::HmacSha224,
        Auth::HmacSha256,
        Auth::HmacSha384,
        Auth::HmacSha512,
        Auth::Cmac128,
        Auth::Cmac256,
        Auth::Gcm,
        Auth::Gmac,
        Auth::Ccm,
        Auth::Sha1,
        Auth::Sha224,
        Auth::Sha256,
        Auth::Sha384,
        Auth::Sha512,
        Auth::HmacSha1States,
        Auth::HmacSha224States,
        Auth::HmacSha256States,
        Auth::HmacSha384States,
        Auth::HmacSha512States,
    ];
}

impl fmt::Display for Auth {
    fn fmt<W: fmt::Write>(&self, f: &mut fmt::Formatter<W>) -> fmt::Result {
        f.write_str(match self {
            Auth::Null => "none",
            Auth::HmacSha1 => "HMAC-SHA-1",
            Auth::HmacSha224 => "HMAC-SHA-224",
            Auth::HmacSha256 => "HMAC-SHA-256",
            Auth::HmacSha384 => "HMAC-SHA-384",
            Auth::HmacSha512 => "HMAC-SHA-512",
            Auth::Cmac128 => "AES-CMAC-128",
            Auth::Cmac256 => "AES-CMAC-256",
            Auth::Gcm => "AES-GCM",
            Auth::Ccm => "AES-CCM",
            Auth::Sha1 => "SHA-1",
            Auth::Sha224 => "SHA-224",
            Auth::Sha256 => "SHA-256",
            Auth::Sha384 => "SHA-384",
            Auth::Sha512 => "SHA-512",
            Auth::Gmac => "AES-GMAC",
            Auth::HmacSha1States => "HMAC-SHA-1 from states",
            Auth::HmacSha224States => "HMAC-SHA-224 from states",
            Auth::HmacSha256States => "HMAC-SHA-256 from states",
            Auth::HmacSha384States => "HMAC-SHA-384 from states",
            Auth::HmacSha512States => "HMAC-SHA-512 from states",
        })
    }
}

/// A job: one packet with one cipher, one authentication, or both.
///
/// A field that the chosen cipher and authentication don't use is ignored. GCM and CCM use `key`, `iv`, `aad` and the
/// cipher range, and ignore `order`, `auth_key` and the hash range.
///
/// ```
/// job.auth = Auth::HmacSha1;
/// job.auth_key = Bytes::from_slice(alloc, &[0x0b; 20])?;
/// job.packet = Bytes::from_slice(alloc, b"Hi There")?;
/// job.hash_len = 8;
/// job.tag_len = 20;
/// ```
#[derive(Debug, Drop)]
pub struct Job {
    /// The cipher, or `Null`.
    pub cipher: Cipher,
    /// Whether the cipher encrypts or decrypts.
    pub dir: Dir,
    /// Whether the cipher or the authentication is done first.
    pub order: Order,
    /// The cipher's key: 16, 24 or 32 bytes.
    pub key: Bytes,
    /// The initialization vector of the cipher, or of GMAC: 16 bytes for CBC, 12 or 16 for CTR, 1 to 65,535 for GCM and GMAC. For
    /// CCM it is the nonce, of 7 to 13 bytes.
    pub iv: Bytes,
    /// Where the range of the packet that is ciphered in place begins, in bytes.
    pub cipher_off: u32,
    /// The length of that range, in bytes.
    pub cipher_len: u32,
    /// The authentication, or `Null`.
    pub auth: Auth,
    /// The key of an HMAC, a CMAC or GMAC. For an HMAC from states it is the inner state and the outer state behind it, each a whole
    /// hash value as its words, big-endian: 40 bytes for SHA-1, 64 for SHA-224 and SHA-256, 128 for SHA-384 and SHA-512.
    pub auth_key: Bytes,
    /// The additional authenticated data of GCM, of at most 65,535 bytes, or of CCM, of at most 65,279.
    pub aad: Bytes,
    /// Where the range that the authentication is over begins, in bytes. GCM and CCM have none.
    pub hash_off: u32,
    /// The length of that range, in bytes.
    pub hash_len: u32,
    /// The length of the tag, in bytes: 0 without an authentication, 1 to the length of the digest for a digest and an HMAC, 1 to 16 for
    /// CMAC, GCM and GMAC, and 4, 6, 8, 10, 12, 14 or 16 for CCM.
    pub tag_len: u8,
    /// What is ciphered in place and authenticated: at most 65,535 bytes.
    pub packet: Bytes,
    /// The number of the shared session whose key is `key`, if there is one. It says only where an expanded key may be found:
    /// `key` decides, and no result depends on the number.
    pub session: Option<u32>,
}

impl Job {
    /// A job that does nothing with an empty packet. It takes no memory: the allocator is that of its empty bytes.
    pub fn blank(alloc: Global) -> Job
        ensures { result ≡ blank }
    {
        Job {
            cipher: Cipher::Null,
            dir: Dir::Enc,
            order: Order::CipherHash,
            key: Bytes::from_vec(Vec::new(alloc)),
            iv: Bytes::from_vec(Vec::new(alloc)),
            cipher_off: 0,
            cipher_len: 0,
            auth: Auth::Null,
            auth_key: Bytes::from_vec(Vec::new(alloc)),
            aad: Bytes::from_vec(Vec::new(alloc)),
            hash_off: 0,
            hash_len: 0,
            tag_len: 0,
            packet: Bytes::from_vec(Vec::new(alloc)),
            session: None,
        }
    }

    /// Makes it a blank job. Memory of at most `most` bytes is kept for each field; longer memory is freed.
    pub fn clear(&mut self, most: usize)
        ensures { self.new ≡ blank }
    {
        self.cipher = Cipher::Null;
        self.dir = Dir::Enc;
        self.order = Order::CipherHash;
        self.key.clear(most);
        self.iv.clear(most);
        self.cipher_off = 0;
        self.cipher_len = 0;
        self.auth = Auth::Null;
        self.auth_key.clear(most);
        self.aad.clear(most);
        self.hash_off = 0;
        self.hash_len = 0;
        self.tag_len = 0;
        self.packet.clear(most);
        self.session = None;
    }

    /// How many bytes of memory its bytes have.
    pub fn capacity(&self) -> usize {
        self.key
            .capacity()
            .saturating_add(self.iv.capacity())
            .saturating_add(self.auth_key.capacity())
            .saturating_add(self.aad.capacity())
            .saturating_add(self.packet.capacity())
    }

    /// An equal job in memory of its own.
    ///
    /// Returns `AllocError` for want of memory.
    pub fn copy(&self, alloc: Global) -> Result<Job, AllocError>
        ensures { IfOk result (λ j. j ≡ self.now) }
    {
        Ok(Job {
            cipher: self.cipher,
            dir: self.dir,
            order: self.order,
            key: self.key.copy(alloc)?,
            iv: self.iv.copy(alloc)?,
            cipher_off: self.cipher_off,
            cipher_len: self.cipher_len,
            auth: self.auth,
            auth_key: self.auth_key.copy(alloc)?,
            aad: self.aad.copy(alloc)?,
            hash_off: self.hash_off,
            hash_len: self.hash_len,
            tag_len: self.tag_len,
            packet: self.packet.copy(alloc)?,
            session: self.session,
        })
    }
}
