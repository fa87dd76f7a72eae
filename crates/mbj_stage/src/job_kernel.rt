ghost use Rattle.std.specs.Prelude.{◌≡◌, ◌⊎◌, ◌<◌, Some, None, IsTrue};
ghost use Rattle.mbj_types.specs.Kinds.{lanes_of};
ghost use Rattle.mbj_types.specs.Auths.{class_of};
ghost use Rattle.mbj_types.specs.Rounds.{auth_rounds, rounds_of};
ghost use Rattle.mbj_types.specs.declared.class.AuthClass.{AuthClass};
ghost use Rattle.mbj_types.specs.declared.job.Job.{Job};
ghost use Rattle.mbj_types.specs.declared.kind.Kind.{Kind};
ghost use Rattle.mbj_types.specs.declared.kind.Kind.TheVariants as kind;
ghost use Rattle.mbj_types.specs.declared.kind.TheConstants.{AES_LANES};
ghost use Rattle.mbj_aes.specs.Bytes.{IsRoundCount};
ghost use Rattle.mbj_aes_lanes.specs.ChainedEntry.{chained_once};
ghost use Rattle.mbj_hmac.specs.Names.{serves_lanes_class};
ghost use Rattle.mbj_lane.specs.Rounds.{end_of};
ghost use Rattle.mbj_lane.specs.Slots.{IsBusy, IsWritten};
ghost use Rattle.mbj_stage.specs.declared.stage.Stage.TheVariants as stage;
ghost use Rattle.mbj_stage.specs.declared.stage.Step.TheVariants as step;
ghost use Rattle.mbj_stage.specs.Steps.{auth_stage_by, step_of};
ghost use Rattle.mbj_stage.specs.Handing.{End, IsHandedOut, IsNext, IsOut, taken_back};
ghost use Rattle.mbj_stage.specs.Ends.{cbc_end, ccm_end, cmac_end, hmac_end};
ghost use Rattle.mbj_stage.specs.Families.{cbc_lanes, ccm_lanes, cmac_lanes};

use crate::course::Course;
use mbj_aes_lanes::{Chained, ChainedEntry};
use mbj_cbc::CbcEntry;
use mbj_ccm::CcmEntry;
use mbj_cmac::CmacEntry;
use mbj_hmac::{HmacEntry, HmacKernel, HmacSlots, LaneHash, Sha1Lanes, Sha256Lanes, Sha512Lanes};
use mbj_lane::{Host, SlotKernel};

/// A kernel whose entries courses hand out: the lanes of a kind.
pub trait JobKernel: SlotKernel {
    /// The kind.
    ghost kind: { Kind };

    /// The kernel does the work of that kind: a kernel of AES has the round count of a key.
    ghost fits: { Type 0 };

    /// What an entry with no round left brings back to its course.
    ghost brings: { Self.Entry → End };

    /// Hands the packet of a course out, whose next stage is in these lanes.
    fn hand_out(course: &mut Course) -> Self::Entry
        requires fits { fits }
        requires next { IsNext kind course.old }
        ensures { IsHandedOut kind (Self.rest_of result) (brings (end_of Self.round Self.rest_of result)) course.new course.old };

    /// Takes an entry back that has no round left.
    fn take_back(course: &mut Course, entry: Self::Entry)
        requires out { IsOut kind (brings entry) course.old }
        requires done { Self.rest_of entry ≡ 0 }
        ensures { course.new ≡ taken_back (brings entry) course.old };

    /// Hands the packet of a course out into an idle slot, if the next stage is in these lanes.
    #[inline(always)]
    fn hand_into(course: &mut Course, slots: &mut Self::Slots, i: usize)
        requires fits { fits }
        requires next { IsNext kind course.old }
        requires lane { i < Self.LANES }
        requires idle { Self.slot slots.old i ≡ None }
        ensures { (e : Self.Entry) × IsWritten Self.LANES i (Some e) (Self.slot slots.old) (Self.slot slots.new)
            × IsHandedOut kind (Self.rest_of e) (brings (end_of Self.round Self.rest_of e)) course.new course.old }
    {
        let entry = Self::hand_out(course);
        Self::put(slots, i, entry);
    }

    /// Takes an entry that has no round left back out of its slot, which is idle then.
    #[inline(always)]
    fn take_from(course: &mut Course, slots: &mut Self::Slots, i: usize)
        requires lane { i < Self.LANES }
        requires busy { IsBusy (Self.slot slots.old) i }
        requires done { (e : Self.Entry) → Self.slot slots.old i ≡ Some e → Self.rest_of e ≡ 0 }
        requires out { (e : Self.Entry) → Self.slot slots.old i ≡ Some e → IsOut kind (brings e) course.old }
        ensures idle { IsWritten Self.LANES i None (Self.slot slots.old) (Self.slot slots.new) }
        ensures back { (e : Self.Entry) → Self.slot slots.old i ≡ Some e → course.new ≡ taken_back (brings e) course.old }
    {
        let entry = Self::take(slots, i);
        Self::take_back(course, entry);
    }

    /// The kind has these lanes.
    ghost lanes: { Self.LANES ≡ lanes_of kind };
}

impl<K: JobKernel> Host<K> for Course {
    ghost may_give = { λ c. K.fits × IsNext K.kind c };

    ghost gives = { λ old e new. IsHandedOut K.kind (K.rest_of e) (K.brings (end_of K.round K.rest_of e)) new old };

    ghost may_take = { λ e c. IsOut K.kind (K.brings e) c };

    ghost takes = { λ old e new. new ≡ taken_back (K.brings e) old };

    #[inline(always)]
    fn give(&mut self, slots: &mut K::Slots, i: usize) {
        K::hand_into(self, slots, i);
    }

    #[inline(always)]
    fn take(&mut self, slots: &mut K::Slots, i: usize) {
        K::take_from(self, slots, i);
    }
}

/// Entries whose blocks are chained in the lanes of a kind.
pub trait ChainedKind: ChainedEntry {
    /// The kind.
    ghost kind: { Kind };

    /// The entry does the work of that kind: its keys have the round count of a key.
    ghost fits: { Type 0 };

    /// What an entry with no round left brings back to its course.
    ghost brings: { Self → End };

    /// Hands the packet of a course out, whose next stage is in these lanes.
    fn hand_out(course: &mut Course) -> Self
        requires fits { fits }
        requires next { IsNext kind course.old }
        ensures { IsHandedOut kind (Self.rest_of result)
            (brings (end_of (chained_once Self.key_of Self.block_of Self.chain_of Self.advanced Self.kept) Self.rest_of result)) course.new course.old };

    /// Takes an entry back that has no round left.
    fn take_back(course: &mut Course, entry: Self)
        requires out { IsOut kind (brings entry) course.old }
        requires done { Self.rest_of entry ≡ 0 }
        ensures { course.new ≡ taken_back (brings entry) course.old };

    /// The kind has these lanes.
    ghost lanes: { AES_LANES ≡ lanes_of kind };
}

impl<E: ChainedKind> JobKernel for Chained<E> {
    ghost kind = { E.kind };

    ghost fits = { E.fits };

    ghost brings = { E.brings };

    fn hand_out(course: &mut Course) -> E {
        E::hand_out(course)
    }

    fn take_back(course: &mut Course, entry: E) {
        E::take_back(course, entry);
    }

    ghost lanes = { E.lanes };
}

impl<const N: usize> ChainedKind for CbcEntry<N> {
    ghost use Rattle.mbj_stage.specs.Laws.{cbc-lanes};

    ghost kind = { cbc_lanes N };

    ghost fits = { IsRoundCount N };

    ghost brings = { cbc_end };

    fn hand_out(course: &mut Course) -> CbcEntry<N> {
        course.hand_out_cbc()
    }

    fn take_back(course: &mut Course, entry: CbcEntry<N>) {
        course.take_text(entry.into_packet());
    }

    ghost lanes = { cbc-lanes N };
}

impl<const N: usize> ChainedKind for CmacEntry<N> {
    ghost use Rattle.mbj_stage.specs.Laws.{cmac-lanes};

    ghost kind = { cmac_lanes N };

    ghost fits = { (N ≡ 10) ⊎ (N ≡ 14) };

    ghost brings = { cmac_end };

    fn hand_out(course: &mut Course) -> CmacEntry<N> {
        course.hand_out_cmac()
    }

    fn take_back(course: &mut Course, entry: CmacEntry<N>) {
        let (packet, mac) = entry.into_parts();
        course.take_mac(packet, &mac);
    }

    ghost lanes = { cmac-lanes N };
}

impl<const N: usize> ChainedKind for CcmEntry<N> {
    ghost use Rattle.mbj_stage.specs.Laws.{ccm-lanes};

    ghost kind = { ccm_lanes N };

    ghost fits = { IsRoundCount N };

    ghost brings = { ccm_end };

    fn hand_out(course: &mut Course) -> CcmEntry<N> {
        course.hand_out_ccm()
    }

    fn take_back(course: &mut Course, entry: CcmEntry<N>) {
        let (packet, iv, aad, mac) = entry.into_parts();
        course.take_ccm(packet, iv, aad, &mac);
    }

    ghost lanes = { ccm-lanes N };
}

/// Hashes whose digests and HMACs are done in the lanes of a kind.
pub trait HashKind: LaneHash {
    /// The kind.
    ghost kind: { Kind };

    /// The kind has these lanes.
    ghost lanes: { Self.LANES ≡ lanes_of kind };

    /// The kind is an authentication's.
    ghost authenticates: { step_of kind ≡ step.Auth };

    /// An authentication whose stage is in these lanes is the digest of one of the hashes, or its HMAC.
    ghost served: { (a : AuthClass) → auth_stage_by a ≡ stage.Lane kind → IsTrue (serves_lanes_class Self.hashing a) };

    /// Its rounds are those over the hashes' blocks.
    ghost rounds: { (j : Job) → auth_rounds (class_of j.auth) Self.hashing.block_bytes j.hash_len ≡ rounds_of kind j };
}

impl HashKind for Sha1Lanes {
    ghost use Rattle.std.specs.Prelude.{refl};
    ghost use Rattle.mbj_stage.specs.Laws.{sha1-serves};

    ghost kind = { kind.HmacSha1 };

    ghost lanes = { refl };

    ghost authenticates = { refl };

    ghost served = { sha1-serves };

    ghost rounds = { λ j. refl };
}

impl HashKind for Sha256Lanes {
    ghost use Rattle.std.specs.Prelude.{refl};
    ghost use Rattle.mbj_stage.specs.Laws.{sha256-serves};

    ghost kind = { kind.HmacSha256 };

    ghost lanes = { refl };

    ghost authenticates = { refl };

    ghost served = { sha256-serves };

    ghost rounds = { λ j. refl };
}

impl HashKind for Sha512Lanes {
    ghost use Rattle.std.specs.Prelude.{refl};
    ghost use Rattle.mbj_stage.specs.Laws.{sha512-serves};

    ghost kind = { kind.HmacSha512 };

    ghost lanes = { refl };

    ghost authenticates = { refl };

    ghost served = { sha512-serves };

    ghost rounds = { λ j. refl };
}

impl<H: HashKind> JobKernel for HmacKernel<H> {
    ghost kind = { H.kind };

    ghost fits = { Unit {0} };

    ghost brings = { hmac_end H.hashing };

    fn hand_out(course: &mut Course) -> HmacEntry<H> {
        course.hand_out_hmac()
    }

    fn take_back(course: &mut Course, entry: HmacEntry<H>) {
        let (packet, mac) = entry.into_parts();
        course.take_mac(packet, mac.bytes());
    }

    #[inline(always)]
    fn hand_into(course: &mut Course, slots: &mut HmacSlots<H>, i: usize) {
        course.hand_into_hmac(slots, i);
    }

    #[inline(always)]
    fn take_from(course: &mut Course, slots: &mut HmacSlots<H>, i: usize) {
        let (packet, mac) = slots.take_parts(i);
        course.take_mac(packet, mac.bytes());
    }

    ghost lanes = { H.lanes };
}
