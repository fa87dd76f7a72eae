ghost use Rattle.std.specs.Prelude.{◌≡◌, ◌+◌, ◌-◌, ◌*◌, ◌<◌, ◌≤◌, length, take, drop, IfSome, IsTrue};
ghost use Rattle.mbj_types.specs.Auths.{class_of, compression_of_name, hash_of, hash_of_name, plain_hash_of, states_hash_of};
ghost use Rattle.mbj_types.specs.Hmac.{block_key, padded_key, hmac, ipad, opad};
ghost use Rattle.mbj_types.specs.Rounds.{hash_rounds, hmac_rounds, states_rounds};
ghost use Rattle.mbj_types.specs.States.{hmac_from_states};
ghost use Rattle.mbj_lane.specs.Rounds.{end_of};
ghost use Rattle.mbj_hmac.specs.Names.{name_of, plain_name_of, serves_auth, serves_lanes, serves_plain, serves_states, states_name_of};
ghost use Rattle.mbj_hmac.specs.Begun.{begun};
ghost use Rattle.mbj_hmac.specs.Inside.InLanes.{HasDigest, block_in, idle, moved, turn_of, with_chains};
ghost use Rattle.mbj_hmac.specs.Rounds.{HmacState, rest_of, round, started, started_plain, started_states};

use crate::ends::{
    plain_rounds, put_first_ends, put_plain_ends, put_states_ends, rounds, states_rounds,
};
use crate::form::Form;
use crate::key::{MAX_BLOCK_BYTES, hash_key};
use crate::lane_hash::LaneHash;
use crate::places::{Places, blank_blocks, source};
use crate::rests::NEVER;
use mbj_types::{Auth, AuthClass, HashName, Tag};
use std::alloc::Global;
use std::marker::Model;
use std::mem;

/// An entry of a lane: a digest or an HMAC over a range of a packet, part of which is done. A round is one compression.
///
/// The rounds of a digest are the blocks of the padded message (FIPS 180-4, 5). Those of an HMAC are, in order: the inner
/// pad, the blocks of the padded message, the outer pad, and the block that holds the inner digest (RFC 2104, 2). From stored states
/// the two pads have none (RFC 2104, 4).
#[derive(Drop)]
pub struct HmacEntry<H: LaneHash> {
    /// The packet, as it was given.
    pub packet: Vec<u8>,
    /// How many rounds are left.
    pub rest: u32,
    /// The hash value.
    pub chain: H::Chain,
    /// The hash value of an HMAC's inner hash, once that is done; zeros before, and in a digest. The lanes have their own, as of `chain`.
    pub inner: H::Chain,
    /// The hash value from which an HMAC's outer hash starts; zeros in a digest.
    start: H::Chain,
    hash: HashName,
    form: Form,
    ends: H::Ends,
    off: u32,
    len: u32,
    places: Places,
}

impl<H: LaneHash> Model for HmacEntry<H> {
    ghost use Rattle.mbj_hmac.specs.Rounds.{HmacState};
    ghost use Rattle.mbj_hmac.specs.Inside.Layout.{seen, IsKept, IsPlaced};

    ghost Value = { HmacState };

    ghost view = { λ e. seen H.hashing e.packet.items e.rest (H.words e.chain) (H.words e.inner) (H.words e.start) e.hash e.form (H.ends_bytes e.ends) e.off e.len };

    ghost invariant = { λ e. IsKept H.hashing (H.ends_bytes e.ends)
        (seen H.hashing e.packet.items e.rest (H.words e.chain) (H.words e.inner) (H.words e.start) e.hash e.form (H.ends_bytes e.ends) e.off e.len)
        × IsPlaced H.hashing.block_bytes e.form e.len e.places };
}

impl<H: LaneHash> HmacEntry<H> {
    /// An entry that has no round left, and no packet, for an idle slot.
    pub(crate) fn blank(alloc: Global) -> HmacEntry<H>
        ensures { result.rest ≡ 0 }
    {
        HmacEntry {
            packet: Vec::new(alloc),
            rest: 0,
            chain: H::zeros(),
            inner: H::zeros(),
            start: H::zeros(),
            hash: H::served(),
            form: Form::Plain,
            ends: H::blank_ends(),
            off: 0,
            len: 0,
            places: Places::of::<H>(Form::Plain, 0),
        }
    }

    /// An HMAC of which nothing is done, over `len` bytes of the packet from `off` on. The authentication is the HMAC
    /// of a hash that the kernel serves, and the range lies in the packet. It takes no memory, and the packet moves into the entry.
    ///
    /// At its end the entry has the packet as it was given, and the digest of its hash value is the whole HMAC.
    // Called and not inlined, it writes the entry in its place, which saves copies of it.
    #[inline(never)]
    pub fn new(auth: Auth, key: &[u8], packet: Vec<u8>, off: u32, len: u32) -> HmacEntry<H>
        requires auth { IsTrue (serves_auth H.hashing auth) }
        requires range { off + len ≤ length packet.items }
        ensures start { IfSome (name_of auth) (λ a. result ≡ started H.hashing a (padded_key ipad (block_key (hash_of_name a) key.now))
            (padded_key opad (block_key (hash_of_name a) key.now)) packet.items off len) }
        ensures rest { result.rest ≡ hmac_rounds H.hashing.block_bytes len }
        ensures packet { (end_of (round H.hashing) rest_of result).packet ≡ packet.items }
        ensures tag { let end = end_of (round H.hashing) rest_of result in
            IfSome (hash_of auth) (λ h. H.hashing.digest end.hash end.chain ≡ hmac h key.now (take len (drop off packet.items))) }
    {
        let mut entry = HmacEntry::blank(*packet.allocator());
        entry.refill(auth, key, packet, off, len);
        entry
    }

    /// A digest of which nothing is done, over `len` bytes of the packet from `off` on. The authentication is the digest
    /// of a hash that the kernel serves, and the range lies in the packet. It takes no memory, and the packet moves into the entry.
    ///
    /// At its end the entry has the packet as it was given, and the digest of its hash value is that of the range.
    // Called and not inlined, as `new`.
    #[inline(never)]
    pub fn new_plain(auth: Auth, packet: Vec<u8>, off: u32, len: u32) -> HmacEntry<H>
        requires auth { IsTrue (serves_plain H.hashing auth) }
        requires range { off + len ≤ length packet.items }
        ensures start { IfSome (plain_name_of auth) (λ a. result ≡ started_plain H.hashing a packet.items off len) }
        ensures rest { result.rest ≡ hash_rounds H.hashing.block_bytes len }
        ensures packet { (end_of (round H.hashing) rest_of result).packet ≡ packet.items }
        ensures digest { let end = end_of (round H.hashing) rest_of result in
            IfSome (plain_hash_of auth) (λ h. H.hashing.digest end.hash end.chain ≡ h.digest (take len (drop off packet.items))) }
    {
        let mut entry = HmacEntry::blank(*packet.allocator());
        entry.refill(auth, &[], packet, off, len);
        entry
    }

    /// An HMAC from states of which nothing is done, over `len` bytes of the packet from `off` on. The authentication is the HMAC from
    /// states of a hash that the kernel serves, `states` is the inner state and the outer state behind it, and the range lies in the
    /// packet. It takes no memory, and the packet moves into the entry.
    ///
    /// At its end the entry has the packet as it was given, and the digest of its hash value is the whole HMAC.
    // Called and not inlined, as `new`.
    #[inline(never)]
    pub fn new_from_states(
        auth: Auth,
        states: &[u8],
        packet: Vec<u8>,
        off: u32,
        len: u32,
    ) -> HmacEntry<H>
        requires auth { IsTrue (serves_states H.hashing auth) }
        requires states { IfSome (states_hash_of auth) (λ c. length states.now ≡ 2 * c.state_bytes) }
        requires range { off + len ≤ length packet.items }
        ensures start { IfSome (states_name_of auth) (λ a. let c = compression_of_name a in
            result ≡ started_states H.hashing a (c.loaded (take c.state_bytes states.now)) (c.loaded (drop c.state_bytes states.now)) packet.items off len) }
        ensures rest { result.rest ≡ states_rounds H.hashing.block_bytes len }
        ensures packet { (end_of (round H.hashing) rest_of result).packet ≡ packet.items }
        ensures tag { let end = end_of (round H.hashing) rest_of result in
            IfSome (states_hash_of auth) (λ c. H.hashing.digest end.hash end.chain ≡ hmac_from_states c states.now (take len (drop off packet.items))) }
    {
        let mut entry = HmacEntry::blank(*packet.allocator());
        entry.refill(auth, states, packet, off, len);
        entry
    }

    /// Becomes a digest, an HMAC or an HMAC from states of which nothing is done, over `len` bytes of the packet from `off` on. The
    /// authentication is one that the kernel serves. The key is that of an HMAC, or the two states of one from states; a digest looks at
    /// none. The range lies in the packet, which moves into the entry. What the entry was is not looked at.
    pub(crate) fn refill(&mut self, auth: Auth, key: &[u8], packet: Vec<u8>, off: u32, len: u32)
        requires serves { IsTrue (serves_lanes H.hashing auth) }
        requires states { IfSome (states_hash_of auth) (λ c. length key.now ≡ 2 * c.state_bytes) }
        requires range { off + len ≤ length packet.items }
        ensures { self.new ≡ begun H.hashing (class_of auth) key.now packet.items off len }
    {
        match auth.class() {
            AuthClass::Hmac(hash) => {
                let key = hash_key(hash, key);
                self.start_keyed(hash, &key, packet, off, len);
            }
            AuthClass::Plain(hash) => self.start_plain(hash, packet, off, len),
            AuthClass::States(hash) => {
                let (inner, outer) = key.split_at(hash.state_bytes());
                self.start_states(hash, H::load(inner), H::load(outer), packet, off, len);
            }
            AuthClass::Null
            | AuthClass::Cmac(_)
            | AuthClass::Gcm
            | AuthClass::Ccm
            | AuthClass::Gmac => unreachable!(),
        }
    }

    /// Becomes an HMAC of which nothing is done, by the key of a block.
    fn start_keyed(
        &mut self,
        hash: HashName,
        key: &[u8; MAX_BLOCK_BYTES],
        packet: Vec<u8>,
        off: u32,
        len: u32,
    )
        requires serves { IsTrue (H.hashing.serves hash) }
        requires range { off + len ≤ length packet.items }
        ensures start { self.new ≡ started H.hashing hash (take H.hashing.block_bytes (padded_key ipad key.now))
            (take H.hashing.block_bytes (padded_key opad key.now)) packet.items off len }
        ensures pads { length key.now ≡ MAX_BLOCK_BYTES }
    {
        let bytes = len as usize;
        put_first_ends::<H>(&mut self.ends, key, &packet, off as usize, bytes);
        self.packet = packet;
        self.rest = rounds::<H>(bytes);
        self.chain = H::initial(hash);
        self.inner = H::zeros();
        self.start = H::initial(hash);
        self.hash = hash;
        self.form = Form::Keyed;
        self.off = off;
        self.len = len;
        self.places = Places::of::<H>(Form::Keyed, bytes);
    }

    /// Becomes a digest of which nothing is done, by its hash.
    fn start_plain(&mut self, hash: HashName, packet: Vec<u8>, off: u32, len: u32)
        requires serves { IsTrue (H.hashing.serves hash) }
        requires range { off + len ≤ length packet.items }
        ensures { self.new ≡ started_plain H.hashing hash packet.items off len }
    {
        let bytes = len as usize;
        put_plain_ends::<H>(&mut self.ends, &packet, off as usize, bytes);
        self.packet = packet;
        self.rest = plain_rounds::<H>(bytes);
        self.chain = H::initial(hash);
        self.inner = H::zeros();
        self.start = H::zeros();
        self.hash = hash;
        self.form = Form::Plain;
        self.off = off;
        self.len = len;
        self.places = Places::of::<H>(Form::Plain, bytes);
    }

    /// Becomes an HMAC from the hash values of its states, of which nothing is done.
    fn start_states(
        &mut self,
        hash: HashName,
        inner: H::Chain,
        outer: H::Chain,
        packet: Vec<u8>,
        off: u32,
        len: u32,
    )
        requires serves { IsTrue (H.hashing.serves hash) }
        requires range { off + len ≤ length packet.items }
        ensures { self.new ≡ started_states H.hashing hash (H.words inner) (H.words outer) packet.items off len }
    {
        let bytes = len as usize;
        put_states_ends::<H>(&mut self.ends, &packet, off as usize, bytes);
        self.packet = packet;
        self.rest = states_rounds::<H>(bytes);
        self.chain = inner;
        self.inner = H::zeros();
        self.start = outer;
        self.hash = hash;
        self.form = Form::States;
        self.off = off;
        self.len = len;
        self.places = Places::of::<H>(Form::States, bytes);
    }

    /// The packet, and the digest or HMAC in full. No round is left.
    pub fn into_parts(self) -> (Vec<u8>, Tag)
        requires { self.rest ≡ 0 }
        ensures packet { result.0.items ≡ self.packet }
        ensures tag { result.1 ≡ H.hashing.digest self.hash self.chain }
    {
        let tag = H::digest(self.hash, &self.chain);
        (self.packet, tag)
    }

    /// The block of the round after `done` others, or one of zeros if it is made in the vectors of the lanes or no round is left.
    #[inline(always)]
    pub(crate) fn block(&self, done: u32) -> &[u8]
        ensures block { result.now ≡ block_in H.hashing self.now done }
        ensures length { length result.now ≡ H.hashing.block_bytes }
    {
        let block = H::block_bytes();
        let rest = self.rest.saturating_sub(done);
        let at = self.places.place(rest, self.off as usize, block);
        let source = source(
            self.places.is_in_packet(rest),
            self.places.is_read(rest),
            &self.packet,
            H::ends(&self.ends),
            blank_blocks(),
        );
        &source[at..at + block]
    }

    /// How many rounds are left.
    #[inline(always)]
    pub(crate) fn left(&self) -> u32
        ensures rest { result ≡ self.now.rest }
        ensures few { result < idle }
    {
        self.rest
    }

    /// How many rounds are left when the outer hash starts: 2^32 - 1 for a digest, which has none.
    #[inline(always)]
    pub(crate) fn turn_rest(&self) -> u32
        ensures { result ≡ turn_of self.now }
    {
        let outer = self.form.outer_rounds();
        if outer > 0 { outer } else { NEVER }
    }

    /// The hash value from which the outer hash starts.
    #[inline(always)]
    pub(crate) fn outer_start(&self) -> &H::Chain
        ensures { H.words result.now ≡ self.now.start }
    {
        &self.start
    }

    /// How many bits the block of the inner digest counts: those of a block and of the digest.
    #[inline(always)]
    pub(crate) fn digest_bits(&self) -> u32
        ensures { HasDigest H.hashing result self.now }
    {
        H::digest_bits(self.hash)
    }

    /// The entry gets the hash values of its lane.
    #[inline(always)]
    pub(crate) fn set_chains(&mut self, chain: H::Chain, inner: H::Chain)
        ensures { self.new ≡ with_chains (H.words chain) (H.words inner) self.old }
    {
        self.chain = chain;
        self.inner = inner;
    }

    /// The rest falls by `m`, or to 0 if fewer rounds are left.
    #[inline(always)]
    pub(crate) fn go_on(&mut self, m: u32)
        ensures { self.new ≡ moved m self.old }
    {
        self.rest = self.rest.saturating_sub(m);
    }

    /// The entry moves out with the hash values of its lane, and leaves its place without a packet. No round is left.
    #[inline(always)]
    pub(crate) fn end(&mut self, chain: H::Chain, inner: H::Chain) -> HmacEntry<H>
        requires { self.old.rest ≡ 0 }
        ensures taken { result ≡ with_chains (H.words chain) (H.words inner) self.old }
        ensures rest { self.new.rest ≡ 0 }
    {
        let alloc = *self.packet.allocator();
        HmacEntry {
            packet: mem::replace(&mut self.packet, Vec::new(alloc)),
            rest: self.rest,
            chain,
            inner,
            start: self.start,
            hash: self.hash,
            form: self.form,
            ends: self.ends,
            off: self.off,
            len: self.len,
            places: self.places,
        }
    }

    /// The packet moves out, with the digest or HMAC in full by the hash value of the lane. No round is left.
    #[inline(always)]
    pub(crate) fn end_parts(&mut self, chain: &H::Chain) -> (Vec<u8>, Tag)
        requires { self.old.rest ≡ 0 }
        ensures packet { result.0.items ≡ self.old.packet }
        ensures tag { result.1 ≡ H.hashing.digest self.old.hash (H.words chain.now) }
        ensures rest { self.new.rest ≡ 0 }
    {
        let alloc = *self.packet.allocator();
        let packet = mem::replace(&mut self.packet, Vec::new(alloc));
        (packet, H::digest(self.hash, chain))
    }
}
