//! How a packet goes out to lanes, and comes back.

ghost use Rattle.std.specs.Prelude.{◌≡◌, ◌<◌, ◌≤◌, ◌⊎◌, [], Some, None, drop, length, IsTrue};
ghost use Rattle.mbj_types.specs.declared.limits.TheConstants.{MAX_TAG_BYTES};
ghost use Rattle.mbj_lane.specs.Rounds.{end_of};
ghost use Rattle.mbj_lane.specs.Slots.{IsWritten};
ghost use Rattle.mbj_types.specs.Rounds.{auth_rounds, cbc_rounds, cmac_rounds, rounds_of};
ghost use Rattle.mbj_types.specs.Auths.{class_of};
ghost use Rattle.mbj_aes.specs.Bytes.{IsRoundCount};
ghost use Rattle.mbj_cbc.specs.Rounds.{round as cbc_round, rest_of as cbc_rest};
ghost use Rattle.mbj_cmac.specs.Rounds.{round as cmac_round, rest_of as cmac_rest};
ghost use Rattle.mbj_hmac.specs.Names.{serves_lanes};
ghost use Rattle.mbj_hmac.specs.Slots.{slot_in};
ghost use Rattle.mbj_hmac.specs.Rounds.{round as hmac_round, rest_of as hmac_rest};
ghost use Rattle.mbj_stage.specs.declared.stage.Step.TheVariants as step;
ghost use Rattle.mbj_stage.specs.Steps.{steps_in};
ghost use Rattle.mbj_stage.specs.Inside.Kept.{IsNextStep};
ghost use Rattle.mbj_stage.specs.CourseState.{stage_of, sized, owed};
ghost use Rattle.mbj_ccm.specs.Rounds.{round as ccm_round, rest_of as ccm_rest};
ghost use Rattle.mbj_stage.specs.Handing.{BringsData, handed_out, taken_back, without_packet, owed_with};
ghost use Rattle.mbj_stage.specs.Ends.{GoesOut, begun_over, cbc_end, ccm_end, cmac_end, hmac_end};
ghost use Rattle.mbj_stage.specs.Families.{cbc_stage, ccm_lanes, ccm_stage, cmac_stage};

use super::Course;
use crate::ccm;
use crate::entries::{cbc_entry, ccm_entry, cmac_entry, hmac_entry, put_hmac};
use crate::keyed::at_hand;
use crate::stage::Steps;
use crate::tag::cut;
use mbj_cbc::CbcEntry;
use mbj_ccm::CcmEntry;
use mbj_cmac::CmacEntry;
use mbj_hmac::{HmacEntry, HmacSlots, LaneHash};
use mbj_types::Bytes;

/// The steps after the first of those that are left.
fn later(left: Steps) -> Steps
    ensures { steps_in result ≡ drop 1 (steps_in left) }
{
    match left {
        Steps::Done | Steps::One(_) => Steps::Done,
        Steps::Two(_, step) => Steps::One(step),
    }
}

impl Course {
    /// Hands the packet out in an entry of CBC encryption with `N` rounds.
    pub(crate) fn hand_out_cbc<const N: usize>(&mut self) -> CbcEntry<N>
        requires rounds { IsRoundCount N }
        requires next { stage_of self.old ≡ cbc_stage N }
        requires here { self.old.out ≡ None }
        ensures out { self.new ≡ handed_out self.old }
        ensures rest { result.rest ≡ cbc_rounds self.old.job.cipher_len }
        ensures some { 1 ≤ result.rest }
        ensures owed { owed_with (cbc_end (end_of cbc_round cbc_rest result)) self.new ≡ owed self.old }
        ensures job { without_packet (taken_back (cbc_end (end_of cbc_round cbc_rest result)) self.new).job ≡ without_packet self.old.job }
        ensures length { self.new.out ≡ Some (length (cbc_end (end_of cbc_round cbc_rest result)).packet) }
    {
        let packet = self.job.packet.take();
        self.out = Some(packet.len());
        cbc_entry(&self.job, packet)
    }

    /// Takes back a packet that was ciphered.
    pub(crate) fn take_text(&mut self, packet: Vec<u8>)
        requires next { IsNextStep step.Cipher self.old.left }
        requires length { self.old.out ≡ Some (length packet.items) }
        ensures { self.new ≡ taken_back (record { packet = packet.items; mac = []; iv = []; aad = [] }) self.old }
    {
        self.job.packet = Bytes::from_vec(packet);
        self.out = None;
        self.left = later(self.left);
    }

    /// Takes back a packet that was authenticated, with its whole tag.
    pub(crate) fn take_mac(&mut self, packet: Vec<u8>, mac: &[u8])
        requires next { IsNextStep step.Auth self.old.left }
        requires length { self.old.out ≡ Some (length packet.items) }
        requires fits { length mac.now ≤ MAX_TAG_BYTES }
        ensures { self.new ≡ taken_back (record { packet = packet.items; mac = mac.now; iv = []; aad = [] }) self.old }
    {
        self.job.packet = Bytes::from_vec(packet);
        self.tag = cut(mac, self.job.tag_len);
        self.out = None;
        self.left = later(self.left);
    }

    /// Hands the packet out in an entry of CMAC with `N` rounds.
    pub(crate) fn hand_out_cmac<const N: usize>(&mut self) -> CmacEntry<N>
        requires rounds { (N ≡ 10) ⊎ (N ≡ 14) }
        requires next { stage_of self.old ≡ cmac_stage N }
        requires here { self.old.out ≡ None }
        ensures out { self.new ≡ handed_out self.old }
        ensures rest { result.rest ≡ cmac_rounds self.old.job.hash_len }
        ensures owed { owed_with (cmac_end (end_of cmac_round cmac_rest result)) self.new ≡ owed self.old }
        ensures job { without_packet (taken_back (cmac_end (end_of cmac_round cmac_rest result)) self.new).job
            ≡ without_packet self.old.job }
        ensures length { self.new.out ≡ Some (length (cmac_end (end_of cmac_round cmac_rest result)).packet) }
    {
        let packet = self.job.packet.take();
        self.out = Some(packet.len());
        cmac_entry(&self.job, packet)
    }

    /// Hands the packet out in an entry of a digest by a hash of `H`, or of its HMAC.
    pub(crate) fn hand_out_hmac<H: LaneHash>(&mut self) -> HmacEntry<H>
        requires next { IsNextStep step.Auth self.old.left }
        requires serves { IsTrue (serves_lanes H.hashing self.old.job.auth) }
        requires here { self.old.out ≡ None }
        ensures out { self.new ≡ handed_out self.old }
        ensures rest { result.rest ≡ auth_rounds (class_of self.old.job.auth) H.hashing.block_bytes self.old.job.hash_len }
        ensures some { 1 ≤ result.rest }
        ensures owed { owed_with (hmac_end H.hashing (end_of (hmac_round H.hashing) hmac_rest result)) self.new ≡ owed self.old }
        ensures job { without_packet (taken_back (hmac_end H.hashing (end_of (hmac_round H.hashing) hmac_rest result)) self.new).job
            ≡ without_packet self.old.job }
        ensures length { self.new.out ≡ Some (length (hmac_end H.hashing (end_of (hmac_round H.hashing) hmac_rest result)).packet) }
    {
        let packet = self.job.packet.take();
        self.out = Some(packet.len());
        hmac_entry(&self.job, packet)
    }

    /// Hands the packet out into an idle slot of a hash of `H`, in the entry of a digest or of its HMAC.
    pub(crate) fn hand_into_hmac<H: LaneHash>(&mut self, slots: &mut HmacSlots<H>, i: usize)
        requires lane { i < H.LANES }
        requires next { IsNextStep step.Auth self.old.left }
        requires serves { IsTrue (serves_lanes H.hashing self.old.job.auth) }
        requires here { self.old.out ≡ None }
        ensures out { self.new ≡ handed_out self.old }
        ensures put { IsWritten H.LANES i (Some (begun_over H.hashing self.old.job self.old.job.packet)) (slot_in slots.old) (slot_in slots.new) }
        ensures given { GoesOut H.hashing (begun_over H.hashing self.old.job self.old.job.packet) self.new self.old }
    {
        let packet = self.job.packet.take();
        self.out = Some(packet.len());
        put_hmac(&self.job, packet, slots, i);
    }

    /// Hands packet, nonce and additional data out in an entry of CCM's MAC with `N` rounds.
    pub(crate) fn hand_out_ccm<const N: usize>(&mut self) -> CcmEntry<N>
        requires rounds { IsRoundCount N }
        requires next { stage_of self.old ≡ ccm_stage N }
        requires here { self.old.out ≡ None }
        ensures out { self.new ≡ handed_out self.old }
        ensures rest { result.rest ≡ rounds_of (ccm_lanes N) (sized self.old.lengths self.old.job) }
        ensures some { 1 ≤ result.rest }
        ensures owed { owed_with (ccm_end (end_of ccm_round ccm_rest result)) self.new ≡ owed self.old }
        ensures job { without_packet (taken_back (ccm_end (end_of ccm_round ccm_rest result)) self.new).job ≡ without_packet self.old.job }
        ensures length { self.new.out ≡ Some (length (ccm_end (end_of ccm_round ccm_rest result)).packet) }
        ensures texts { BringsData step.CcmMac self.new.lengths (ccm_end (end_of ccm_round ccm_rest result)) }
    {
        let packet = self.job.packet.take();
        self.out = Some(packet.len());
        let iv = self.job.iv.take();
        let aad = self.job.aad.take();
        let schedule = *at_hand(&self.schedule, &self.job);
        ccm_entry(&self.job, schedule, iv, aad, packet)
    }

    /// Takes back packet, nonce and additional data, with CCM's MAC.
    pub(crate) fn take_ccm(&mut self, packet: Vec<u8>, iv: Vec<u8>, aad: Vec<u8>, mac: &[u8; 16])
        requires next { IsNextStep step.CcmMac self.old.left }
        requires length { self.old.out ≡ Some (length packet.items) }
        requires iv { length iv.items ≡ self.old.lengths.iv }
        requires aad { length aad.items ≡ self.old.lengths.aad }
        ensures { self.new ≡ taken_back (record { packet = packet.items; mac = mac.now; iv = iv.items; aad = aad.items }) self.old }
    {
        self.job.packet = Bytes::from_vec(packet);
        self.job.iv = Bytes::from_vec(iv);
        self.job.aad = Bytes::from_vec(aad);
        self.tag = ccm::with_mac(&self.job, mac, &self.tag);
        self.out = None;
        self.left = later(self.left);
    }
}
