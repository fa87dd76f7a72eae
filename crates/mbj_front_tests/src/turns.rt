// Two submitters and a worker, who own shares of the keys. One of them is held at each moment of its calls, while the others act.
ghost use Rattle.std.specs.Prelude.{◌+◌, ◌<◌, ◌≤◌, length};

use crate::player::{Player, players_of};
use mbj_front::Front;
use mbj_keys::Keys;
use mbj_types::{Bytes, Cipher, Done, Job, Reason, Status};
use mbj_work::{Gate, Moment, OpenGate};
use std::alloc::{AllocError, Global};
use std::cell::{Cell, RefCell};
use std::sync::Arc;
use std::test::Fail;

/// SP 800-38A, F.2.1 (CBC-AES128.Encrypt): the key, the IV, the first block and its ciphertext.
const KEY: [u8; 16] = [
    0x2b, 0x7e, 0x15, 0x16, 0x28, 0xae, 0xd2, 0xa6, 0xab, 0xf7, 0x15, 0x88, 0x09, 0xcf, 0x4f, 0x3c,
];

const IV: [u8; 16] = [0, 1, 2, 3, 4, 5, 6, 7, 8, 9, 10, 11, 12, 13, 14, 15];

const BLOCK: [u8; 16] = [
    0x6b, 0xc1, 0xbe, 0xe2, 0x2e, 0x40, 0x9f, 0x96, 0xe9, 0x3d, 0x7e, 0x11, 0x73, 0x93, 0x17, 0x2a,
];

const CIPHERTEXT: [u8; 16] = [
    0x76, 0x49, 0xab, 0xac, 0x81, 0x19, 0xb2, 0x46, 0xce, 0xe9, 0x8e, 0x9b, 0x12, 0xe9, 0x19, 0x7d,
];

/// The length of a range that is a whole block, and of one that isn't: its job is refused.
const WHOLE: u32 = 16;

const PART: u32 = 15;

/// What a party does.
#[derive(Clone, Copy)]
enum Act {
    /// Posts a job that enciphers so many bytes of the block under session 0.
    Post(u32),
    Collect,
    Turn,
    Settle,
}

/// How many acts a party has.
const ACTS: usize = 5;

/// What each party does, two submitters and a worker.
const ALL_ACTS: [[Act; ACTS]; 3] = [
    [
        Act::Post(WHOLE),
        Act::Turn,
        Act::Post(PART),
        Act::Settle,
        Act::Collect,
    ],
    [
        Act::Post(PART),
        Act::Post(WHOLE),
        Act::Turn,
        Act::Collect,
        Act::Settle,
    ],
    [Act::Turn, Act::Settle, Act::Turn, Act::Settle, Act::Turn],
];

/// The lengths of the ranges of the jobs of each.
const ALL_LENGTHS: [&[u32]; 3] = [&[WHOLE, PART], &[PART, WHOLE], &[]];

/// After how many moments the others act in the same order over again.
const PERIOD: usize = 4;

/// How many such orders there are: at each moment nobody acts, or one of two.
const ORDERS: u32 = 3 * 3 * 3 * 3;

/// A party, what it is still to do, and the lengths of its jobs that it is still to collect.
#[derive(Drop)]
struct Actor<'a> {
    player: Player<'a>,
    acts: &'static [Act],
    lengths: &'static [u32],
}

/// A job that enciphers so many bytes of the block.
fn job(alloc: Global, len: u32) -> Result<Job, AllocError> {
    let mut job = Job::blank(alloc);
    job.cipher = Cipher::Cbc;
    job.key = Bytes::from_slice(alloc, &KEY)?;
    job.iv = Bytes::from_slice(alloc, &IV)?;
    job.cipher_len = len;
    job.packet = Bytes::from_slice(alloc, &BLOCK)?;
    job.session = Some(0);
    Ok(job)
}

/// Whether this is the result of a job that enciphers so many bytes of the block.
fn is_result(done: &Done, len: u32) -> bool {
    if len == WHOLE {
        done.status == Status::Ok && done.packet.as_slice() == CIPHERTEXT.as_slice()
    } else {
        done.status == Status::InvalidArgs(Reason::CipherLength)
    }
}

impl Actor<'_> {
    fn post<G: Gate>(&mut self, alloc: Global, len: u32, gate: &G) -> bool {
        let Ok(job) = job(alloc, len) else {
            return false;
        };
        let player = &mut self.player;
        player.submits() && player.party.post_at(player.front, job, gate).is_ok()
    }

    /// Collects. Returns whether what it got, if it got anything, is the result of its earliest job.
    fn collect<G: Gate>(&mut self, gate: &G) -> bool {
        let player = &mut self.player;
        let Some(done) = player.party.collect_at(player.front, gate) else {
            return true;
        };
        let Some((len, rest)) = self.lengths.split_first() else {
            return false;
        };
        self.lengths = rest;
        is_result(&done, *len)
    }

    /// Does its next act, if there is one. Returns whether that came to what it should.
    fn act<G: Gate>(&mut self, alloc: Global, gate: &G) -> bool {
        let Some((act, rest)) = self.acts.split_first() else {
            return true;
        };
        self.acts = rest;
        match act {
            Act::Post(len) => self.post(alloc, *len, gate),
            Act::Collect => self.collect(gate),
            Act::Turn => self.player.turn(gate),
            Act::Settle => {
                let player = &mut self.player;
                player.party.settle_at(player.front, gate);
                true
            }
        }
    }

    /// Does all acts that are left, and then all jobs that it finds. Returns whether these came to what they should.
    fn end(&mut self, alloc: Global) -> bool {
        for _ in 0..ACTS {
            if !self.act(alloc, &OpenGate) {
                return false;
            }
        }
        let player = &mut self.player;
        let has_turned = player.turn(&OpenGate);
        player.party.settle_all(player.front);
        has_turned
    }

    /// Collects what is left. Returns whether it has its results then, each in its place.
    fn has_its_results(&mut self) -> bool {
        for _ in 0..self.lengths.len() {
            if !self.collect(&OpenGate) {
                return false;
            }
        }
        self.lengths.is_empty() && self.player.party.out() == 0
    }
}

/// Those who act while a party is held.
#[derive(Drop)]
struct Others<'a> {
    alloc: Global,
    actors: RefCell<Vec<Actor<'a>>>,
    /// Who acts at each moment: 0 for nobody.
    order: [u32; PERIOD],
    /// The place in the order of the moment that comes next.
    next: Cell<usize>,
    /// Whether an act of theirs came to something else than it should.
    has_failed: Cell<bool>,
}

impl Others<'_> {
    /// Has the one act whose moment it is.
    fn act(&self) {
        let moment = self.next.get() % PERIOD;
        self.next.set(moment + 1);
        let Some(place) = (self.order[moment] as usize).checked_sub(1) else {
            return;
        };
        let Ok(mut actors) = self.actors.try_borrow_mut() else {
            return;
        };
        if let Some(actor) = actors.get_mut(place) {
            if !actor.act(self.alloc, &OpenGate) {
                self.has_failed.set(true);
            }
        }
    }
}

impl Gate for Others<'_> {
    fn pass(&self, _party: u32, _moment: Moment) {
        self.act();
    }

    fn may_help(&self, _party: u32) -> bool {
        true
    }
}

/// The order with this number.
fn order_at(number: u32) -> [u32; PERIOD] {
    [number % 3, number / 3 % 3, number / 9 % 3, number / 27 % 3]
}

/// Plays the acts of a party, which is held before each of them and at each of its moments. Returns whether all acts came to what they
/// should.
fn play(others: &Others, held: &mut Actor) -> bool {
    for _ in 0..ACTS {
        others.act();
        if !held.act(others.alloc, others) {
            return false;
        }
    }
    !others.has_failed.get()
}

/// Has each do what is left. Returns whether that came to what it should.
fn end_all(alloc: Global, actors: &mut [Actor]) -> bool {
    for actor in actors.iter_mut() {
        if !actor.end(alloc) {
            return false;
        }
    }
    true
}

/// Whether each has its results.
fn have_their_results(actors: &mut [Actor]) -> bool {
    for actor in actors.iter_mut() {
        if !actor.has_its_results() {
            return false;
        }
    }
    true
}

/// The parties of a front with what they do.
fn actors_of<'a>(alloc: Global, players: Vec<Player<'a>>) -> Result<Vec<Actor<'a>>, AllocError> {
    let mut actors = Vec::new(alloc);
    for (place, player) in players.into_iter().enumerate() {
        if place < ALL_ACTS.len() {
            actors.push(Actor {
                player,
                acts: &ALL_ACTS[place],
                lengths: ALL_LENGTHS[place],
            })?;
        }
    }
    Ok(actors)
}

/// Whether the others, who aren't held any more, and the one who was get their results.
fn get_results(others: &Others, held: &mut Actor) -> bool {
    let Ok(mut actors) = others.actors.try_borrow_mut() else {
        return false;
    };
    let actors = actors.as_mut_slice();
    held.end(others.alloc)
        && end_all(others.alloc, actors)
        && held.has_its_results()
        && have_their_results(actors)
}

/// Has one of the parties held while the others act in this order. Returns whether each gets its results.
fn play_all(alloc: Global, mut actors: Vec<Actor>, held: usize, order: [u32; PERIOD]) -> bool {
    if held >= actors.len() {
        return false;
    }
    let mut held = actors.remove(held);
    let others = Others {
        alloc,
        actors: RefCell::new(actors),
        order,
        next: Cell::new(0),
        has_failed: Cell::new(false),
    };
    play(&others, &mut held) && get_results(&others, &mut held)
}

/// Plays so on a new front, whose parties own shares of these keys.
fn play_on_new_front(
    alloc: Global,
    keys: &Arc<Keys>,
    held: usize,
    order: [u32; PERIOD],
) -> Result<bool, AllocError> {
    let (front, seats) = Front::new(alloc, 2, 1)?;
    let players = players_of(alloc, &front, seats, Some(keys))?;
    let actors = actors_of(alloc, players)?;
    Ok(play_all(alloc, actors, held, order))
}

/// A set of one key session.
fn one_session(alloc: Global) -> Result<Keys, AllocError> {
    let key = KEY.to_vec(alloc)?;
    let mut keys = Vec::new(alloc);
    keys.push(key)?;
    Keys::new(alloc, keys)
}

/// Plays each order. Returns whether each party got its results each time.
fn play_each_order(alloc: Global, held: usize) -> Result<bool, AllocError> {
    let keys = Arc::new(alloc, one_session(alloc)?)?;
    for number in 0..ORDERS {
        if !play_on_new_front(alloc, &keys, held, order_at(number))? {
            return Ok(false);
        }
    }
    Ok(true)
}

#[test]
fn others_act_while_the_first_submitter_is_held(rt: HostRuntime) -> Result<(), Fail> {
    assert!(rt; play_each_order(rt.alloc(), 0)?);
    Ok(())
}

#[test]
fn others_act_while_the_second_submitter_is_held(rt: HostRuntime) -> Result<(), Fail> {
    assert!(rt; play_each_order(rt.alloc(), 1)?);
    Ok(())
}

#[test]
fn others_act_while_the_worker_is_held(rt: HostRuntime) -> Result<(), Fail> {
    assert!(rt; play_each_order(rt.alloc(), 2)?);
    Ok(())
}
