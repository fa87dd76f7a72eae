//! The lane queues of all kinds. What is the same for every kind stands in `lane`.

ghost use Rattle.std.specs.Prelude.{◌≡◌, ◌<◌, ◌≤◌, IfOk, vec_capacity};
ghost use Rattle.mbj_types.specs.Kinds.{lanes_of};
ghost use Rattle.mbj_ring.specs.declared.ring.TheConstants.{CELLS};
ghost use Rattle.mbj_manager.specs.Inside.Courses.{AreCourses, IsSameRing, courses, ring_number};
ghost use Rattle.mbj_manager.specs.Inside.QueueView.{Enters, IsReady, MayEnter, ran_at};
ghost use Rattle.mbj_manager.specs.Inside.PlacedQueue.{no_queue};
ghost use Rattle.mbj_manager.specs.Inside.LaneQueues.{queue_view_of, placed_in, no_queues, waiting_in, with_placed};

use crate::agenda::Agenda;
use crate::cell_ring::CellRing;
use crate::lane::{Cause, enter, run_within};
use crate::lane_queue::LaneQueue;
use mbj_cbc::CbcKernel;
use mbj_ccm::CcmKernel;
use mbj_cmac::CmacKernel;
use mbj_hmac::{Hmac1Kernel, Hmac256Kernel, Hmac512Kernel};
use mbj_stage::JobKernel;
use mbj_types::Kind;
use std::alloc::{AllocError, Global};

/// The jobs that wait for lanes, kind by kind.
#[derive(Drop)]
pub struct LaneQueues {
    /// CBC encryption with keys of 128 bits.
    pub cbc128: LaneQueue<CbcKernel<10>>,
    /// CBC encryption with keys of 192 bits.
    pub cbc192: LaneQueue<CbcKernel<12>>,
    /// CBC encryption with keys of 256 bits.
    pub cbc256: LaneQueue<CbcKernel<14>>,
    /// CMAC with keys of 128 bits.
    pub cmac128: LaneQueue<CmacKernel<10>>,
    /// CMAC with keys of 256 bits.
    pub cmac256: LaneQueue<CmacKernel<14>>,
    /// Digests and HMACs of SHA-1.
    pub hmac_sha1: LaneQueue<Hmac1Kernel>,
    /// Digests and HMACs of SHA-224 and SHA-256.
    pub hmac_sha256: LaneQueue<Hmac256Kernel>,
    /// Digests and HMACs of SHA-384 and SHA-512.
    pub hmac_sha512: LaneQueue<Hmac512Kernel>,
    /// The MAC of CCM with keys of 128 bits.
    pub ccm128: LaneQueue<CcmKernel<10>>,
    /// The MAC of CCM with keys of 192 bits.
    pub ccm192: LaneQueue<CcmKernel<12>>,
    /// The MAC of CCM with keys of 256 bits.
    pub ccm256: LaneQueue<CcmKernel<14>>,
    /// How many runs there were within a flush, modulo 2^64.
    pub flush_runs: u64,
}

/// What the macro `work` writes for the lane queue of a kind.
macro_rules! at_kind {
    ($kind:expr, $work:ident) => {
        match $kind {
            Kind::Cbc128 => $work!(cbc128),
            Kind::Cbc192 => $work!(cbc192),
            Kind::Cbc256 => $work!(cbc256),
            Kind::Cmac128 => $work!(cmac128),
            Kind::Cmac256 => $work!(cmac256),
            Kind::HmacSha1 => $work!(hmac_sha1),
            Kind::HmacSha256 => $work!(hmac_sha256),
            Kind::HmacSha512 => $work!(hmac_sha512),
            Kind::Ccm128 => $work!(ccm128),
            Kind::Ccm192 => $work!(ccm192),
            Kind::Ccm256 => $work!(ccm256),
        }
    };
}

/// Three lane queues.
type Three<A, B, C> = (LaneQueue<A>, LaneQueue<B>, LaneQueue<C>);

/// Three empty lane queues.
fn three<A: JobKernel, B: JobKernel, C: JobKernel>(
    alloc: Global,
) -> Result<Three<A, B, C>, AllocError>
    ensures first { IfOk result (λ q. q.0 ≡ no_queue) }
    ensures second { IfOk result (λ q. q.1 ≡ no_queue) }
    ensures third { IfOk result (λ q. q.2 ≡ no_queue) }
{
    Ok((
        LaneQueue::new(alloc)?,
        LaneQueue::new(alloc)?,
        LaneQueue::new(alloc)?,
    ))
}

impl LaneQueues {
    /// Empty lane queues, with counts of 0. It takes the memory of all lanes; no other call takes any.
    pub(crate) fn new(alloc: Global) -> Result<LaneQueues, AllocError>
        ensures { IfOk result (λ l. l ≡ no_queues) }
    {
        let cbc = three(alloc)?;
        let cmac128 = LaneQueue::new(alloc)?;
        let cmac256 = LaneQueue::new(alloc)?;
        let hmac = three(alloc)?;
        let ccm = three(alloc)?;
        Ok(LaneQueues {
            cbc128: cbc.0,
            cbc192: cbc.1,
            cbc256: cbc.2,
            cmac128,
            cmac256,
            hmac_sha1: hmac.0,
            hmac_sha256: hmac.1,
            hmac_sha512: hmac.2,
            ccm128: ccm.0,
            ccm192: ccm.1,
            ccm256: ccm.2,
            flush_runs: 0,
        })
    }

    /// The course at a place goes into the lane queue of a kind, which runs if it is full then.
    pub(crate) fn enter(
        &mut self,
        kind: Kind,
        cause: Cause,
        ring: &mut CellRing,
        agenda: &mut Agenda,
        place: u32,
    )
        requires ring { AreCourses ring.old }
        requires place { place < CELLS }
        requires may { MayEnter (lanes_of kind) kind (ring_number ring.old place)
            (queue_view_of kind (ring_number ring.old) (courses ring.old) agenda.old.places.items self.old) (vec_capacity agenda.old.places) }
        ensures ring { IsSameRing ring.new ring.old }
        ensures room { vec_capacity agenda.new.places ≡ vec_capacity agenda.old.places }
        ensures entered { Enters cause (lanes_of kind) kind (ring_number ring.old place)
            (queue_view_of kind (ring_number ring.old) (courses ring.old) agenda.old.places.items self.old)
            (queue_view_of kind (ring_number ring.old) (courses ring.new) agenda.new.places.items self.new) }
        ensures others { self.new ≡ with_placed kind (placed_in kind self.new) self.new.flush_runs self.old }
    {
        macro_rules! enter_at {
            ($queue:ident) => {
                enter(cause, &mut self.$queue, &mut self.flush_runs, ring, agenda, place)
            };
        }
        at_kind!(kind, enter_at)
    }

    /// The lane queue of a kind runs within a flush.
    pub(crate) fn run(&mut self, kind: Kind, ring: &mut CellRing, agenda: &mut Agenda)
        requires ring { AreCourses ring.old }
        requires ready { IsReady kind (queue_view_of kind (ring_number ring.old) (courses ring.old) agenda.old.places.items self.old)
            (vec_capacity agenda.old.places) }
        ensures ring { IsSameRing ring.new ring.old }
        ensures room { vec_capacity agenda.new.places ≡ vec_capacity agenda.old.places }
        ensures ran { queue_view_of kind (ring_number ring.old) (courses ring.new) agenda.new.places.items self.new
            ≡ ran_at Cause.Flush (queue_view_of kind (ring_number ring.old) (courses ring.old) agenda.old.places.items self.old) }
        ensures others { self.new ≡ with_placed kind (placed_in kind self.new) self.new.flush_runs self.old }
    {
        macro_rules! run_at {
            ($queue:ident) => {
                run_within(Cause::Flush, &mut self.$queue, &mut self.flush_runs, ring, agenda)
            };
        }
        at_kind!(kind, run_at)
    }

    /// How many jobs wait in the lane queue of a kind.
    pub(crate) fn len(&self, kind: Kind) -> u32
        ensures { result ≡ waiting_in self.now kind }
    {
        macro_rules! len_at {
            ($queue:ident) => {
                self.$queue.len()
            };
        }
        at_kind!(kind, len_at)
    }

    /// How many rounds the full runs of a kind took.
    pub(crate) fn rounds(&self, kind: Kind) -> u64
        ensures { result ≡ (placed_in kind self.now).rounds }
    {
        macro_rules! rounds_at {
            ($queue:ident) => {
                self.$queue.rounds()
            };
        }
        at_kind!(kind, rounds_at)
    }

    /// How many blocks went through the full runs of a kind.
    pub(crate) fn blocks(&self, kind: Kind) -> u64
        ensures { result ≡ (placed_in kind self.now).blocks }
    {
        macro_rules! blocks_at {
            ($queue:ident) => {
                self.$queue.blocks()
            };
        }
        at_kind!(kind, blocks_at)
    }

    /// How many runs there were within a flush.
    pub(crate) fn flush_runs(&self) -> u64
        ensures { result ≡ self.now.flush_runs }
    {
        self.flush_runs
    }
}
