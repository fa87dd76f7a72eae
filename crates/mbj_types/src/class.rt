//! What the authentications are: whatever depends on a job's authentication goes by its class.

ghost use Rattle.std.specs.Prelude.{◌≡◌};
ghost use Rattle.mbj_types.specs.Auths.{class_of, cmac_key_bytes, cmac_kind, compression_of_name, hash_kind, hash_of_name};

use crate::job::Auth;
use crate::kind::Kind;

/// The hashes of FIPS 180-4.
#[derive(Clone, Copy, Debug, PartialEq, Eq)]
pub enum HashName {
    Sha1,
    Sha224,
    Sha256,
    Sha384,
    Sha512,
}

/// The lengths of a hash, in bytes.
#[derive(Clone, Copy, Debug, PartialEq, Eq)]
pub struct HashLengths {
    /// Of a digest (FIPS 180-4, figure 1).
    pub digest: u8,
    /// Of a block (FIPS 180-4, figure 1).
    pub block: usize,
    /// Of a stored state: a hash value, whole (FIPS 180-4, 6).
    pub state: usize,
}

/// The lengths of SHA-1.
pub const SHA1_LENGTHS: HashLengths = HashLengths {
    digest: 20,
    block: 64,
    state: 20,
};

/// The lengths of SHA-224.
pub const SHA224_LENGTHS: HashLengths = HashLengths {
    digest: 28,
    block: 64,
    state: 32,
};

/// The lengths of SHA-256.
pub const SHA256_LENGTHS: HashLengths = HashLengths {
    digest: 32,
    block: 64,
    state: 32,
};

/// The lengths of SHA-384.
pub const SHA384_LENGTHS: HashLengths = HashLengths {
    digest: 48,
    block: 128,
    state: 64,
};

/// The lengths of SHA-512.
pub const SHA512_LENGTHS: HashLengths = HashLengths {
    digest: 64,
    block: 128,
    state: 64,
};

impl HashName {
    /// Every hash once, in the order of the codes that C has for them.
    pub const ALL: [HashName; 5] = [
        HashName::Sha1,
        HashName::Sha224,
        HashName::Sha256,
        HashName::Sha384,
        HashName::Sha512,
    ];

    /// Its lengths.
    fn lengths(&self) -> HashLengths
        ensures digest { result.digest ≡ (hash_of_name self.now).digest_bytes }
        ensures block { result.block ≡ (hash_of_name self.now).block_bytes }
        ensures state { result.state ≡ (compression_of_name self.now).state_bytes }
    {
        match self {
            HashName::Sha1 => SHA1_LENGTHS,
            HashName::Sha224 => SHA224_LENGTHS,
            HashName::Sha256 => SHA256_LENGTHS,
            HashName::Sha384 => SHA384_LENGTHS,
            HashName::Sha512 => SHA512_LENGTHS,
        }
    }

    /// The length of a digest, in bytes (FIPS 180-4, figure 1).
    pub fn digest_bytes(&self) -> u8
        ensures { result ≡ (hash_of_name self.now).digest_bytes }
    {
        self.lengths().digest
    }

    /// The length of a block, in bytes (FIPS 180-4, figure 1).
    pub fn block_bytes(&self) -> usize
        ensures { result ≡ (hash_of_name self.now).block_bytes }
    {
        self.lengths().block
    }

    /// The length of a stored state, in bytes: a hash value, whole (FIPS 180-4, 6).
    pub fn state_bytes(&self) -> usize
        ensures { result ≡ (compression_of_name self.now).state_bytes }
    {
        self.lengths().state
    }

    /// The kind of lanes in which it is computed.
    pub fn kind(&self) -> Kind
        ensures { result ≡ hash_kind self.now }
    {
        match self {
            HashName::Sha1 => Kind::HmacSha1,
            HashName::Sha224 | HashName::Sha256 => Kind::HmacSha256,
            HashName::Sha384 | HashName::Sha512 => Kind::HmacSha512,
        }
    }
}

/// The keys that CMAC takes here.
#[derive(Clone, Copy, Debug, PartialEq, Eq)]
pub enum CmacKey {
    /// A key of 128 bits.
    Aes128,
    /// A key of 256 bits.
    Aes256,
}

impl CmacKey {
    /// The key's length, in bytes.
    pub fn bytes(&self) -> usize
        ensures { result ≡ cmac_key_bytes self.now }
    {
        match self {
            CmacKey::Aes128 => 16,
            CmacKey::Aes256 => 32,
        }
    }

    /// The kind of lanes in which CMAC is computed under such a key.
    pub fn kind(&self) -> Kind
        ensures { result ≡ cmac_kind self.now }
    {
        match self {
            CmacKey::Aes128 => Kind::Cmac128,
            CmacKey::Aes256 => Kind::Cmac256,
        }
    }
}

/// The classes of authentications.
#[derive(Clone, Copy, Debug, PartialEq, Eq)]
pub enum AuthClass {
    /// No tag.
    Null,
    /// HMAC (RFC 2104) over a hash.
    Hmac(HashName),
    /// CMAC (SP 800-38B) with AES.
    Cmac(CmacKey),
    /// The tag of GCM (SP 800-38D).
    Gcm,
    /// The tag of CCM (SP 800-38C).
    Ccm,
    /// The digest of a hash (FIPS 180-4).
    Plain(HashName),
    /// GMAC (SP 800-38D, 3.1).
    Gmac,
    /// HMAC over a hash from stored states (RFC 2104, 4).
    States(HashName),
}

impl Auth {
    /// The class of the authentication.
    pub fn class(&self) -> AuthClass
        ensures { result ≡ class_of self.now }
    {
        match self {
            Auth::Null => AuthClass::Null,
            Auth::HmacSha1 => AuthClass::Hmac(HashName::Sha1),
            Auth::HmacSha224 => AuthClass::Hmac(HashName::Sha224),
            Auth::HmacSha256 => AuthClass::Hmac(HashName::Sha256),
            Auth::HmacSha384 => AuthClass::Hmac(HashName::Sha384),
            Auth::HmacSha512 => AuthClass::Hmac(HashName::Sha512),
            Auth::Cmac128 => AuthClass::Cmac(CmacKey::Aes128),
            Auth::Cmac256 => AuthClass::Cmac(CmacKey::Aes256),
            Auth::Gcm => AuthClass::Gcm,
            Auth::Ccm => AuthClass::Ccm,
            Auth::Sha1 => AuthClass::Plain(HashName::Sha1),
            Auth::Sha224 => AuthClass::Plain(HashName::Sha224),
            Auth::Sha256 => AuthClass::Plain(HashName::Sha256),
            Auth::Sha384 => AuthClass::Plain(HashName::Sha384),
            Auth::Sha512 => AuthClass::Plain(HashName::Sha512),
            Auth::Gmac => AuthClass::Gmac,
            Auth::HmacSha1States => AuthClass::States(HashName::Sha1),
            Auth::HmacSha224States => AuthClass::States(HashName::Sha224),
            Auth::HmacSha256States => AuthClass::States(HashName::Sha256),
            Auth::HmacSha384States => AuthClass::States(HashName::Sha384),
            Auth::HmacSha512States => AuthClass::States(HashName::Sha512),
        }
    }
}
