//! Full lists of HMACs from stored states beside the same lists from their key, from the making of the entries to the packets'
//! return.
ghost use Rattle.std.specs.Prelude.{◌≤◌, IfSome};

use crate::clock::{fastest, nanos_since};
use crate::kinds::{HMAC_KEY, MOST_BYTES, Timed, TimedHash};
use crate::line::{print_bytes, print_length, print_rate};
use crate::lists::{Filled, LENGTHS, PASS_BYTES, PASSES};
use crate::making::packets;
use mbj_hmac::{
    HmacEntry, HmacKernel, MAX_BLOCK_BYTES, Sha1Lanes, Sha256Lanes, Sha512Lanes, states,
};
use mbj_types::Kind;
use std::alloc::{AllocError, Global};
use std::io::{self, Print};
use std::mem;
use std::time::{Clock, Instant};

/// The entry of a packet from the states of the key, or from the key if none are given.
fn entry_of<H: TimedHash>(
    states: Option<&[u8; MAX_BLOCK_BYTES]>,
    packet: Vec<u8>,
) -> Option<HmacEntry<H>>
    ensures { IfSome result (λ e. 1 ≤ e.rest) }
{
    let Some(states) = states else {
        return <HmacKernel<H> as Timed>::entry(packet);
    };
    if packet.len() > MOST_BYTES {
        return None;
    }
    let len = packet.len() as u32;
    Some(H::from_states(states, packet, len))
}

/// The packets go through the entries of a full list; empty ones stand in their places meanwhile.
fn run_list<H: TimedHash>(
    alloc: Global,
    states: Option<&[u8; MAX_BLOCK_BYTES]>,
    packets: &mut [Vec<u8>],
) -> Result<u8, AllocError> {
    let mut list = Filled::<HmacKernel<H>>::new(alloc)?;
    for packet in packets.iter_mut() {
        list.enter(entry_of::<H>(states, mem::replace(packet, Vec::new(alloc))));
    }
    Ok(list.end(packets))
}

/// How long `turns` lists take. What is computed goes into `sum`, so that none of it is left out.
fn nanos_of_lists<H: TimedHash>(
    rt: &impl Clock,
    alloc: Global,
    states: Option<&[u8; MAX_BLOCK_BYTES]>,
    packets: &mut [Vec<u8>],
    turns: usize,
    sum: &mut u8,
) -> io::Result<u128> {
    let start = Instant::now(rt)?;
    for _ in 0..turns {
        *sum ^= run_list::<H>(alloc, states, packets)?;
    }
    nanos_since(rt, start)
}

/// Prints MB/s of a full list from states over packets of `len` bytes, and in how many times less time than from the key it ran.
fn print_list<H: TimedHash>(
    rt: &(impl Print + Clock),
    alloc: Global,
    kind: Kind,
    len: usize,
    sum: &mut u8,
) -> io::Result<()> {
    let stored = states(H::auth(), &HMAC_KEY);
    let mut packets = packets(alloc, kind.lanes(), len)?;
    let turn_bytes = len.saturating_mul(packets.len());
    let turns = PASS_BYTES.checked_div(turn_bytes).unwrap_or(0);
    let [from_states, from_key]: [u128; 2] = fastest(PASSES, |i| {
        let states = if i == 0 { Some(&stored) } else { None };
        nanos_of_lists::<H>(rt, alloc, states, &mut packets, turns, sum)
    })?;
    print!(rt; "from states, ")?;
    print_length(rt, kind.name(), 11, len)?;
    print_rate(
        rt,
        turns.saturating_mul(turn_bytes) as u128,
        from_states,
        from_key,
    )
}

/// Prints how fast full lists of HMACs from states are by the length of the packets.
pub fn print_times(rt: &(impl Print + Clock), alloc: Global) -> io::Result<()> {
    let mut sum = 0;
    for len in &LENGTHS {
        print_list::<Sha1Lanes>(rt, alloc, Kind::HmacSha1, *len, &mut sum)?;
        print_list::<Sha256Lanes>(rt, alloc, Kind::HmacSha256, *len, &mut sum)?;
        print_list::<Sha512Lanes>(rt, alloc, Kind::HmacSha512, *len, &mut sum)?;
    }
    print_bytes(rt, "checksum ", &[sum])
}
