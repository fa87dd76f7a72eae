//! A seat of the shared front: its party, and the ranges that its jobs give back which are out.
ghost use Rattle.std.specs.Prelude.{◌≡◌, ◌≢◌, ◌+◌, ◌<◌, ◌++◌, ◌∷◌, [], IfOk, IsTrue, MatchBool, Ok, Option, length, slice_get};
ghost use Rattle.std_alloc.specs.Arc.{arc_value};
ghost use Rattle.mbj_core.specs.declared.cells.TheConstants.{SUBMITTER_CELLS};
ghost use Rattle.mbj_core.specs.Parties.{new_party};
ghost use Rattle.mbj_front.specs.Seats.{view_of, submitters_of, IsOf};
ghost use Rattle.mbj_work.specs.Parties.{part_of, seat_of, IsPartyOf, Submits};
ghost use Rattle.mbj_front.specs.Views.{after_publish};
ghost use Rattle.mbj_types.specs.Result.{result_of};
ghost use Rattle.mbj_ring.specs.declared.ring.TheConstants.{CELLS};
ghost use Rattle.mbj_work.specs.Turns.{ClaimsInTurn};
ghost use Rattle.mbj_core.specs.declared.party.Phase.TheVariants.{Rest};
ghost use Rattle.mbj_c.specs.Filling.{job_with};
ghost use Rattle.mbj_c.specs.Given.{Given};
ghost use Rattle.mbj_c.specs.Giving.{IsReturnedAt, has_room_for};
ghost use Rattle.mbj_c.specs.Inside.Answers.{IsDone};
ghost use Rattle.mbj_c.specs.Ranges.{given_range};
ghost use Rattle.mbj_c.specs.Seats.{Collects, IsCollectedIn, KeepsJobs, is_submitter, after_post, new_seat, posted_in};

use crate::giving::RawDone;
use crate::job::RawJob;
use crate::range::CipherRange;
use crate::refusal::Refusal;
use crate::words::Words;
use mbj_core::SUBMITTER_CELLS;
use mbj_front::{Front, Seat};
use mbj_keys::Keys;
use mbj_manager::SMALL_BYTES;
use mbj_ring::Ring;
use mbj_types::{Done, Job};
use mbj_work::{OpenGate, Party};
use std::alloc::{AllocError, Global};
use std::marker::Model;
use std::mem;
use std::sync::Arc;

/// A party of the front that C has a seat of. If it is a submitter, the range is kept that each of its jobs gives back which is out.
#[derive(Drop)]
pub struct Seated {
    alloc: Global,
    front: Arc<Front>,
    party: Party<'static>,
    is_submitter: bool,
    ranges: Ring<CipherRange>,
    // C's next job is filled in it, in memory of its own.
    spare: Job,
    // The cell from which the next turn goes on.
    from: u32,
}

impl Model for Seated {
    ghost use Rattle.std.specs.Coded.{codes};
    ghost use Rattle.std_alloc.specs.Arc.{arc_value};
    ghost use Rattle.mbj_front.specs.Seats.{submitters_of};
    ghost use Rattle.mbj_work.specs.Parties.{part_of};
    ghost use Rattle.mbj_c.specs.Seats.{SeatState};
    ghost use Rattle.mbj_c.specs.SeatCode.{seat_code};
    ghost use Rattle.mbj_c.specs.Inside.Seated.{IsSeated};

    ghost Value = { SeatState };

    ghost coded = { seat_code (Prim.hlevel codes) };

    ghost view = { λ s. record { part = part_of s.party; submitters = submitters_of (arc_value s.front); ranges = s.ranges.values } };

    ghost invariant = { λ s. IsSeated (arc_value s.front) s.party s.is_submitter s.ranges s.from };
}

/// A party at a seat of the front, which shares these keys, if there are any.
///
/// Returns `AllocError` for want of memory.
fn party(alloc: Global, seat: Seat, keys: Option<Arc<Keys>>) -> Result<Party<'static>, AllocError>
    requires rest { (view_of seat).phase ≡ Rest }
    requires hand { (view_of seat).hand ≡ [] }
    ensures { IfOk result (λ p. seat_of p ≡ seat) }
{
    match keys {
        Some(keys) => Party::new_owning(alloc, seat, keys),
        None => Party::new(alloc, seat),
    }
}

/// Fills a job with C's. Returns the range that the job gives back. If it fails, the job keeps no secret.
///
/// Returns `AllocError` for want of memory.
fn fill(
    alloc: Global,
    raw: &RawJob<'_>,
    words: Words,
    job: &mut Job,
) -> Result<CipherRange, AllocError>
    ensures filled { IfOk result (λ _. job.new ≡ job_with raw.now words) }
    ensures range { IfOk result (λ r. r ≡ given_range (job_with raw.now words)) }
{
    match raw.refill(alloc, words, job) {
        Ok(()) => Ok(CipherRange::given_by(job)),
        Err(AllocError) => {
            job.clear(SMALL_BYTES);
            Err(AllocError)
        }
    }
}

/// Keeps the memory of a job that came back for the next one: blocks of at most `SMALL_BYTES`, over which zeros are written.
fn keep(spare: &mut Job, job: Option<Job>, done: Done) {
    if let Some(mut job) = job {
        job.packet = done.packet;
        job.clear(SMALL_BYTES);
        *spare = job;
    }
}

/// The first range, which stays.
fn first_of(ranges: &mut Ring<CipherRange>) -> Option<CipherRange>
    ensures first { result ≡ slice_get ranges.old.values 0 }
    ensures same { ranges.new ≡ ranges.old }
{
    match ranges.front_mut() {
        Some(range) => Some(*range),
        None => None,
    }
}

/// Puts a range behind the others.
fn put_last(ranges: &mut Ring<CipherRange>, range: CipherRange)
    requires closed { ranges.old.opened ≡ [] }
    requires room { length ranges.old.values < CELLS }
    ensures values { ranges.new.values ≡ ranges.old.values ++ range ∷ [] }
    ensures closed { ranges.new.opened ≡ [] }
{
    ranges.open_cell(range);
    ranges.commit();
}

/// Posts the job of a submitter of which fewer than `SUBMITTER_CELLS` are out.
fn post(party: &mut Party<'_>, front: &Front, job: Job)
    requires front { IsPartyOf front.now party.old }
    requires submitter { Submits front.now party.old }
    requires room { length (part_of party.old).due < (part_of party.old).handed + SUBMITTER_CELLS }
    ensures front { IsPartyOf front.now party.new }
    ensures part { part_of party.new ≡ after_publish (part_of party.old) (result_of job) }
{
    match party.post(front, job) {
        Ok(()) => {}
        Err(_) => unreachable!(),
    }
}

/// Whether there is room for a range, if there is one, and for any tag.
fn has_room(out: &RawDone<'_>, range: Option<CipherRange>) -> bool
    ensures { result ≡ has_room_for range out.now }
{
    match range {
        Some(range) => out.has_room(range.len),
        None => true,
    }
}

impl Seated {
    /// The party of a seat that has done nothing, of the front's party with this number.
    ///
    /// Returns `AllocError` for want of memory.
    pub(crate) fn new(
        alloc: Global,
        front: Arc<Front>,
        seat: Seat,
        keys: Option<Arc<Keys>>,
    ) -> Result<Seated, AllocError>
        requires front { IsOf (arc_value front) seat }
        requires blank { view_of seat ≡ new_party (view_of seat).number }
        ensures { IfOk result (λ s. s ≡ new_seat (submitters_of (arc_value front)) (view_of seat).number) }
    {
        let is_submitter = seat.party() * SUBMITTER_CELLS < front.cells();
        let party = party(alloc, seat, keys)?;
        let ranges = Ring::new(alloc)?;
        Ok(Seated {
            alloc,
            front,
            party,
            is_submitter,
            ranges,
            spare: Job::blank(alloc),
            from: 0,
        })
    }

    /// Posts a copy of C's job, for whichever party claims it. If it returns a refusal, nothing changes.
    pub(crate) fn post(&mut self, raw: &RawJob<'_>) -> Result<(), Refusal>
        ensures { IsDone (posted_in raw.now self.old) self.old result self.new }
    {
        if !self.is_submitter {
            return Err(Refusal::NotSubmitter);
        }
        if self.party.out() == SUBMITTER_CELLS {
            return Err(Refusal::Full);
        }
        let Some(words) = raw.words() else {
            return Err(Refusal::Word);
        };
        let range = fill(self.alloc, raw, words, &mut self.spare)?;
        let job = mem::replace(&mut self.spare, Job::blank(self.alloc));
        self.enter(job, range);
        Ok(())
    }

    /// Posts a job, and keeps its range.
    fn enter(&mut self, job: Job, range: CipherRange)
        requires submitter { IsTrue (is_submitter self.old) }
        requires room { length self.old.part.due < self.old.part.handed + SUBMITTER_CELLS }
        requires range { range ≡ given_range job }
        ensures { self.new ≡ after_post job self.old }
    {
        put_last(&mut self.ranges, range);
        post(&mut self.party, &self.front, job);
    }

    /// Writes the result of the earliest job that is out, if that is finished, with the range of its packet alone. Returns whether it
    /// is; `refusal` is 0, or the code of a refusal, by which nothing changes.
    pub(crate) fn collect(&mut self, out: &mut RawDone<'_>, refusal: &mut u32) -> bool
        ensures { IsCollectedIn self.old self.new result refusal.new out.old out.new }
    {
        if !self.is_submitter {
            *refusal = Refusal::NotSubmitter.code();
            return false;
        }
        if !has_room(out, first_of(&mut self.ranges)) {
            *refusal = Refusal::NoRoom.code();
            return false;
        }
        *refusal = 0;
        self.take(out)
    }

    /// Collects, if there is room for the earliest result.
    fn take(&mut self, out: &mut RawDone<'_>) -> bool
        requires { IsTrue (has_room_for (slice_get self.old.ranges 0) out.old) }
        ensures { (given : Option Given) × (Collects given self.old self.new × IsReturnedAt (Ok given) result out.old out.new) }
    {
        let Some(returned) = self.party.collect_returned(&self.front, &OpenGate) else {
            return false;
        };
        let Some(range) = self.ranges.pop() else {
            unreachable!()
        };
        let (done, job) = returned.into_parts();
        out.write_done(&done, range);
        keep(&mut self.spare, job, done);
        true
    }

    /// Makes a turn. Returns how many jobs it claimed.
    pub(crate) fn turn(&mut self) -> u32
        ensures claims { ClaimsInTurn result self.old.part.hand self.new.part.hand }
        ensures jobs { KeepsJobs self.old self.new }
    {
        let turn = self.party.turn(&self.front, self.from);
        self.from = turn.from;
        turn.claimed
    }

    /// Settles the first job in its hand. Returns false exactly where the hand is empty; nothing changes then.
    pub(crate) fn settle(&mut self) -> bool
        ensures empty { MatchBool result (self.old.part.hand ≢ []) ((self.old.part.hand ≡ []) × (self.new ≡ self.old)) }
        ensures jobs { KeepsJobs self.old self.new }
    {
        self.party.settle(&self.front)
    }

    /// Settles until its hand is empty.
    pub(crate) fn settle_all(&mut self)
        ensures hand { self.new.part.hand ≡ [] }
        ensures jobs { KeepsJobs self.old self.new }
    {
        self.party.settle_all(&self.front);
    }

    pub(crate) fn hand(&self) -> u32
        ensures { result ≡ length self.now.part.hand }
    {
        self.party.hand()
    }

    pub(crate) fn out(&self) -> u32
        ensures { self.now.part.handed + result ≡ length self.now.part.due }
    {
        self.party.out()
    }
}
