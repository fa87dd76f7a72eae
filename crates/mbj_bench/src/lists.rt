//! Full lists of entries, from their making to their packets' return, beside the plain functions on the same packets.
ghost use Rattle.std.specs.Prelude.{◌≤◌, All, IfSome};

use crate::clock::{fastest, nanos_since};
use crate::jobs::{SHARE, Work};
use crate::kinds::{MOST_BYTES, Timed};
use crate::line::{print_bytes, print_length, print_rate};
use crate::making::packets;
use mbj_cbc::CbcKernel;
use mbj_ccm::CcmKernel;
use mbj_cmac::CmacKernel;
use mbj_hmac::{Hmac1Kernel, Hmac256Kernel, Hmac512Kernel};
use mbj_lane::{Kernel, Lanes};
use mbj_types::Kind;
use std::alloc::{AllocError, Global};
use std::io::Print;
use std::time::{Clock, Instant};
use std::{io, mem};

/// The lengths of the packets.
pub const LENGTHS: [usize; 3] = [64, 256, MOST_BYTES];

/// The bytes of one pass, and the passes of which the fastest counts.
pub const PASS_BYTES: usize = 262_144;

/// How many times each side of a comparison is timed; the fastest counts.
pub const PASSES: u32 = 40;

/// Entries in a list, each of which has a round left.
pub struct Filled<K: Timed> {
    lanes: Lanes<K>,
    ghost rests: { All (λ e. 1 ≤ K.rest_of e) lanes.entries },
}

impl<K: Timed> Filled<K> {
    /// Lanes without an entry. Returns `AllocError` if memory runs out.
    pub fn new(alloc: Global) -> Result<Filled<K>, AllocError> {
        Ok(Filled {
            lanes: Lanes::<K>::new(alloc)?,
        })
    }

    /// An entry joins the list if a lane is free.
    pub fn enter(&mut self, entry: Option<K::Entry>)
        requires { IfSome entry (λ e. 1 ≤ K.rest_of e) }
    {
        if self.lanes.len() < K::LANES {
            if let Some(entry) = entry {
                self.lanes.enter(entry);
            }
        }
    }

    /// Leads the list to its end: all entries are over as many bytes, so that one run does. The packets come back, and a byte that depends
    /// on the results is returned.
    pub fn end(self, packets: &mut [Vec<u8>]) -> u8 {
        let Filled { mut lanes } = self;
        if lanes.len() > 0 {
            lanes.run_shortest();
        }
        let mut sum = 0;
        for packet in packets.iter_mut() {
            if let Some(entry) = lanes.take_finished() {
                let (back, byte) = K::ended(entry);
                *packet = back;
                sum ^= byte;
            }
        }
        sum
    }
}

/// The packets go through the entries of a full list; empty ones stand in their places meanwhile.
fn run_list<K: Timed>(alloc: Global, packets: &mut [Vec<u8>]) -> Result<u8, AllocError> {
    let mut list = Filled::<K>::new(alloc)?;
    for packet in packets.iter_mut() {
        list.enter(K::entry(mem::replace(packet, Vec::new(alloc))));
    }
    Ok(list.end(packets))
}

/// The plain function on each packet.
fn run_plain<K: Timed>(packets: &mut [Vec<u8>]) -> u8 {
    let mut sum = 0;
    for i in 0..packets.len() {
        sum ^= K::plain(&mut packets[i]);
    }
    sum
}

/// The packets of one kind as entries in full lists, or one after another by the plain function.
fn run_kernel<K: Timed>(
    alloc: Global,
    in_lists: bool,
    packets: &mut [Vec<u8>],
) -> Result<u8, AllocError> {
    if !in_lists {
        return Ok(run_plain::<K>(packets));
    }
    let mut sum = 0;
    for lanes in packets.chunks_mut(K::LANES as usize) {
        sum ^= run_list::<K>(alloc, lanes)?;
    }
    Ok(sum)
}

fn run_kind(
    alloc: Global,
    in_lists: bool,
    kind: Kind,
    packets: &mut [Vec<u8>],
) -> Result<u8, AllocError> {
    match kind {
        Kind::Cbc128 => run_kernel::<CbcKernel<10>>(alloc, in_lists, packets),
        Kind::Cbc192 => run_kernel::<CbcKernel<12>>(alloc, in_lists, packets),
        Kind::Cbc256 => run_kernel::<CbcKernel<14>>(alloc, in_lists, packets),
        Kind::Cmac128 => run_kernel::<CmacKernel<10>>(alloc, in_lists, packets),
        Kind::Cmac256 => run_kernel::<CmacKernel<14>>(alloc, in_lists, packets),
        Kind::HmacSha1 => run_kernel::<Hmac1Kernel>(alloc, in_lists, packets),
        Kind::HmacSha256 => run_kernel::<Hmac256Kernel>(alloc, in_lists, packets),
        Kind::HmacSha512 => run_kernel::<Hmac512Kernel>(alloc, in_lists, packets),
        Kind::Ccm128 => run_kernel::<CcmKernel<10>>(alloc, in_lists, packets),
        Kind::Ccm192 => run_kernel::<CcmKernel<12>>(alloc, in_lists, packets),
        Kind::Ccm256 => run_kernel::<CcmKernel<14>>(alloc, in_lists, packets),
    }
}

/// The work on packets of no jobs.
fn run_work(
    alloc: Global,
    in_lists: bool,
    work: Work,
    packets: &mut [Vec<u8>],
) -> Result<u8, AllocError> {
    let mut sum = 0;
    match work {
        Work::Null | Work::CtrCmac | Work::Digest(_) => {}
        Work::One(kind) => sum = run_kind(alloc, in_lists, kind, packets)?,
        Work::Mix => {
            let mut shares = packets.chunks_mut(SHARE);
            for i in 0..Kind::ALL.len() {
                if let Some(share) = shares.next() {
                    sum ^= run_kind(alloc, in_lists, Kind::ALL[i], share)?;
                }
            }
        }
    }
    Ok(sum)
}

/// How long `turns` turns of the work take on packets of no jobs. What is computed goes into `sum`, so that none of it is left out.
pub fn nanos_of_packets(
    rt: &impl Clock,
    alloc: Global,
    in_lists: bool,
    work: Work,
    packets: &mut [Vec<u8>],
    turns: usize,
    sum: &mut u8,
) -> io::Result<u128> {
    let start = Instant::now(rt)?;
    for _ in 0..turns {
        *sum ^= run_work(alloc, in_lists, work, packets)?;
    }
    nanos_since(rt, start)
}

/// Prints MB/s of a full list over packets of `len` bytes, and in how many times less time than the plain function it ran.
fn print_list(
    rt: &(impl Print + Clock),
    alloc: Global,
    kind: Kind,
    len: usize,
    sum: &mut u8,
) -> io::Result<()> {
    let mut packets = packets(alloc, kind.lanes(), len)?;
    let turn_bytes = len.saturating_mul(packets.len());
    let turns = PASS_BYTES.checked_div(turn_bytes).unwrap_or(0);
    let work = Work::One(kind);
    let [lists, plain]: [u128; 2] = fastest(PASSES, |i| {
        nanos_of_packets(rt, alloc, i == 0, work, &mut packets, turns, sum)
    })?;
    print!(rt; "lists of ")?;
    print_length(rt, kind.name(), 11, len)?;
    print_rate(rt, turns.saturating_mul(turn_bytes) as u128, lists, plain)
}

/// Prints how fast full lists of each kind are by the length of the packets.
pub fn print_times(rt: &(impl Print + Clock), alloc: Global) -> io::Result<()> {
    let mut sum = 0;
    for kind in &Kind::ALL {
        for len in &LENGTHS {
            print_list(rt, alloc, *kind, *len, &mut sum)?;
        }
    }
    print_bytes(rt, "checksum ", &[sum])
}
