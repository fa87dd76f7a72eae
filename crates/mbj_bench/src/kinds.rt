//! The kinds of entries that wait for lanes, each with its plain function.
ghost use Rattle.std.specs.Prelude.{◌≡◌, ◌%◌, ◌≤◌, IfSome, IsTrue, length};
ghost use Rattle.mbj_types.specs.Auths.{IsHmac};
ghost use Rattle.mbj_hmac.specs.Names.{serves_auth};
ghost use Rattle.mbj_aes.specs.Bytes.{IsKeySize};
ghost use Rattle.mbj_bench.specs.declared.kinds.TheConstants.{MOST_BYTES};

use mbj_aes::Schedule;
use mbj_cbc::{CbcEntry, CbcKernel, encrypt_in_place};
use mbj_ccm::{CcmEntry, CcmKernel};
use mbj_cmac::{CmacEntry, CmacKernel, cmac_plain};
use mbj_hmac::{
    HmacEntry, HmacKernel, LaneHash, MAX_BLOCK_BYTES, Sha1Lanes, Sha256Lanes, Sha512Lanes,
    hmac_plain,
};
use mbj_lane::SlotKernel;
use mbj_types::{Auth, BLOCK_BYTES};

/// The key of HMACs.
pub const HMAC_KEY: [u8; 20] = [0x0b; 20];

/// The key of AES, of which shorter keys are the first bytes.
const AES_KEY: &[u8; 32] = &[0x2b; 32];

/// The IV of CBC and CTR, of which GCM takes the first 12 bytes.
pub const IV: [u8; 16] = [0x0f; 16];

/// A kernel whose entries are timed beside its plain function.
pub trait Timed: SlotKernel {
    /// An entry over a packet, or, for CBC, over its whole blocks, if it has any, ready to join a list.
    fn entry(packet: Vec<u8>) -> Option<Self::Entry>
        ensures { IfSome result (λ e. 1 ≤ Self.rest_of e) };

    /// The packet of an entry, and a byte of its result if no round is left.
    fn ended(entry: Self::Entry) -> (Vec<u8>, u8);

    /// The same by the plain function.
    fn plain(packet: &mut [u8]) -> u8;
}

/// The longest packet, in bytes.
pub const MOST_BYTES: usize = 1500;

/// The bytes of the whole blocks of a packet.
pub fn whole(packet: &[u8]) -> usize
    ensures within { result ≤ length packet.now }
    ensures short { result ≤ MOST_BYTES }
    ensures blocks { result % 16 ≡ 0 }
{
    packet.len().min(MOST_BYTES) / BLOCK_BYTES * BLOCK_BYTES
}

/// A key of AES for this many rounds, or else for 14.
pub fn aes_key(rounds: usize) -> &'static [u8]
    ensures { IsKeySize (length result.now) }
{
    match rounds {
        10 => &AES_KEY[..16],
        12 => &AES_KEY[..24],
        _ => &AES_KEY[..],
    }
}

impl<const N: usize> Timed for CbcKernel<N> {
    fn entry(packet: Vec<u8>) -> Option<CbcEntry<N>> {
        let key = Schedule::expand(aes_key(N));
        let len = whole(&packet) as u32;
        if len == 0 || key.rounds() as usize != N {
            return None;
        }
        Some(CbcEntry::new(key, IV, packet, 0, len))
    }

    fn ended(entry: CbcEntry<N>) -> (Vec<u8>, u8) {
        let byte = entry.chain[0];
        (entry.packet, byte)
    }

    fn plain(packet: &mut [u8]) -> u8 {
        let len = whole(packet);
        encrypt_in_place(&Schedule::expand(aes_key(N)), &IV, &mut packet[..len]);
        0
    }
}

impl<const N: usize> Timed for CmacKernel<N> {
    fn entry(packet: Vec<u8>) -> Option<CmacEntry<N>> {
        let key = Schedule::expand(aes_key(N));
        if packet.len() > MOST_BYTES || key.rounds() as usize != N {
            return None;
        }
        let len = packet.len() as u32;
        Some(CmacEntry::new(key, packet, 0, len))
    }

    fn ended(entry: CmacEntry<N>) -> (Vec<u8>, u8) {
        let byte = entry.chain[0];
        (entry.packet, byte)
    }

    fn plain(packet: &mut [u8]) -> u8 {
        cmac_plain(&Schedule::expand(aes_key(N)), packet)[0]
    }
}

/// The longest nonce of CCM, in bytes.
pub const NONCE_BYTES: usize = 13;

/// The longest tag of CCM, in bytes.
pub const CCM_TAG_BYTES: u8 = 16;

impl<const N: usize> Timed for CcmKernel<N> {
    fn entry(packet: Vec<u8>) -> Option<CcmEntry<N>> {
        let key = Schedule::expand(aes_key(N));
        if packet.len() > MOST_BYTES || key.rounds() as usize != N {
            return None;
        }
        let len = packet.len() as u32;
        let alloc = *packet.allocator();
        let nonce = Vec::from_slice(alloc, &IV[..NONCE_BYTES]).ok()?;
        Some(CcmEntry::new(key, nonce, Vec::new(alloc), packet, 0, len, CCM_TAG_BYTES))
    }

    fn ended(entry: CcmEntry<N>) -> (Vec<u8>, u8) {
        let byte = entry.chain[0];
        (entry.packet, byte)
    }

    /// CMAC, which chains a block fewer: CCM's MAC has no plain form.
    fn plain(packet: &mut [u8]) -> u8 {
        cmac_plain(&Schedule::expand(aes_key(N)), packet)[0]
    }
}

/// A hash with the HMAC that is timed in its lanes.
pub trait TimedHash: LaneHash {
    /// The HMAC.
    fn auth() -> Auth
        ensures served { IsTrue (serves_auth Self.hashing result) }
        ensures hmac { IsHmac result };

    /// An entry of the HMAC from states, which are the first of these bytes, over the first `len` bytes of the packet.
    fn from_states(states: &[u8; MAX_BLOCK_BYTES], packet: Vec<u8>, len: u32) -> HmacEntry<Self>
        requires { len ≤ length packet.items }
        ensures { 1 ≤ result.rest };
}

impl TimedHash for Sha1Lanes {
    fn auth() -> Auth {
        Auth::HmacSha1
    }

    fn from_states(
        states: &[u8; MAX_BLOCK_BYTES],
        packet: Vec<u8>,
        len: u32,
    ) -> HmacEntry<Sha1Lanes> {
        HmacEntry::new_from_states(Auth::HmacSha1States, &states[..40], packet, 0, len)
    }
}

impl TimedHash for Sha256Lanes {
    fn auth() -> Auth {
        Auth::HmacSha256
    }

    fn from_states(
        states: &[u8; MAX_BLOCK_BYTES],
        packet: Vec<u8>,
        len: u32,
    ) -> HmacEntry<Sha256Lanes> {
        HmacEntry::new_from_states(Auth::HmacSha256States, &states[..64], packet, 0, len)
    }
}

impl TimedHash for Sha512Lanes {
    fn auth() -> Auth {
        Auth::HmacSha512
    }

    fn from_states(
        states: &[u8; MAX_BLOCK_BYTES],
        packet: Vec<u8>,
        len: u32,
    ) -> HmacEntry<Sha512Lanes> {
        HmacEntry::new_from_states(Auth::HmacSha512States, &states[..128], packet, 0, len)
    }
}

impl<H: TimedHash> Timed for HmacKernel<H> {
    fn entry(packet: Vec<u8>) -> Option<HmacEntry<H>> {
        if packet.len() > MOST_BYTES {
            return None;
        }
        let len = packet.len() as u32;
        Some(HmacEntry::new(H::auth(), &HMAC_KEY, packet, 0, len))
    }

    fn ended(entry: HmacEntry<H>) -> (Vec<u8>, u8) {
        if entry.rest > 0 {
            return (entry.packet, 0);
        }
        let (packet, tag) = entry.into_parts();
        (packet, tag.bytes().len() as u8)
    }

    fn plain(packet: &mut [u8]) -> u8 {
        hmac_plain(H::auth(), &HMAC_KEY, packet).bytes().len() as u8
    }
}
