// A job on its way between two parties.
ghost use Rattle.mbj_work.specs.Parties.{Submits};

use crate::player::{Player, players_of};
use crate::work::{HI_THERE, hmac_sha1};
use mbj_front::Front;
use mbj_types::{Reason, Status};
use mbj_work::Claimed;
use std::alloc::{AllocError, Global};
use std::test::Fail;

/// What a party does and what it sees then.
enum Step {
    Settle(bool),
    /// From cell 0 on.
    Hunt(Option<u32>),
    /// Of cell 0.
    Claim(Claimed),
    /// Of the job of "Hi There" with this length of its tag.
    Post(u8),
    /// The status, and whether the tag is that of "Hi There".
    Collect(Option<(Status, bool)>),
}

/// The steps of a submitter, which is party 0, and a worker. The job waits in the worker's lanes until the worker settles.
const FROM_HAND_TO_HAND: [(usize, Step); 13] = [
    (1, Step::Settle(false)),
    (1, Step::Hunt(None)),
    (1, Step::Claim(Claimed::Not(0))),
    (0, Step::Collect(None)),
    (0, Step::Post(20)),
    (1, Step::Hunt(Some(0))),
    (1, Step::Claim(Claimed::Yes)),
    (0, Step::Claim(Claimed::Not(7))),
    (0, Step::Collect(None)),
    (1, Step::Settle(true)),
    (1, Step::Claim(Claimed::Not(2))),
    (0, Step::Collect(Some((Status::Ok, true)))),
    (1, Step::Claim(Claimed::Not(0))),
];

/// The status of a job whose tag is longer than that of its authentication.
const REFUSED: Status = Status::InvalidArgs(Reason::TagLength);

/// The steps with a refused job, which needs no lanes: the worker's claim gives its result back.
const FINISHED_BY_ITS_CLAIM: [(usize, Step); 13] = [
    (1, Step::Settle(false)),
    (1, Step::Hunt(None)),
    (1, Step::Claim(Claimed::Not(0))),
    (0, Step::Collect(None)),
    (0, Step::Post(21)),
    (1, Step::Hunt(Some(0))),
    (1, Step::Claim(Claimed::Yes)),
    (0, Step::Claim(Claimed::Not(2))),
    (0, Step::Collect(Some((REFUSED, false)))),
    (1, Step::Settle(false)),
    (1, Step::Claim(Claimed::Not(0))),
    (0, Step::Collect(None)),
    (1, Step::Claim(Claimed::Not(0))),
];

/// What a party collects.
fn collected(player: &mut Player) -> Option<(Status, bool)> {
    let done = player.party.collect(player.front)?;
    Some((done.status, done.tag.bytes() == HI_THERE.as_slice()))
}

/// Whether a submitter posts the job with this length of its tag.
fn posts(alloc: Global, player: &mut Player, tag_len: u8) -> bool
    requires { Submits player.old.front.now player.old.party }
{
    match hmac_sha1(alloc, (&[0x0b; 20], b"Hi There", tag_len)) {
        Ok(job) => player.posts(job),
        Err(_) => false,
    }
}

/// Whether a party sees what a step tells.
fn sees(alloc: Global, player: &mut Player, step: &Step) -> bool {
    match step {
        Step::Settle(settled) => player.party.settle(player.front) == *settled,
        Step::Hunt(found) => player.hunt(0) == *found,
        Step::Claim(claimed) => player.claim(0) == Some(*claimed),
        Step::Post(tag_len) => player.submits() && posts(alloc, player, *tag_len),
        Step::Collect(result) => collected(player) == *result,
    }
}

/// Whether the parties see what each of the steps tells.
fn see_all(alloc: Global, players: &mut [Player], steps: &[(usize, Step)]) -> bool {
    for (party, step) in steps {
        let Some(player) = players.get_mut(*party) else {
            return false;
        };
        if !sees(alloc, player, step) {
            return false;
        }
    }
    true
}

/// Whether the parties of a new front do.
fn go(alloc: Global, steps: &[(usize, Step)]) -> Result<bool, AllocError> {
    let (front, seats) = Front::new(alloc, 1, 1)?;
    let mut players = players_of(alloc, &front, seats, None)?;
    Ok(see_all(alloc, &mut players, steps))
}

#[test]
fn a_job_goes_from_hand_to_hand(rt: HostRuntime) -> Result<(), Fail> {
    assert!(rt; go(rt.alloc(), &FROM_HAND_TO_HAND)?);
    Ok(())
}

#[test]
fn a_refused_job_is_finished_by_its_claim(rt: HostRuntime) -> Result<(), Fail> {
    assert!(rt; go(rt.alloc(), &FINISHED_BY_ITS_CLAIM)?);
    Ok(())
}
