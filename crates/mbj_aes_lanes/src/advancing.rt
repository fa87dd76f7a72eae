//! Blocks of many entries chained side by side: few of them in registers of whole blocks, and many in all lanes, each under its own key.
ghost use Rattle.std.specs.Prelude.{◌≡◌, ℕ, ◌<◌, ◌≤◌, All, length, map};
ghost use Rattle.std.specs.Option.{option_map};
ghost use Rattle.mbj_types.specs.declared.kind.TheConstants.{AES_LANES};
ghost use Rattle.mbj_aes.specs.Bytes.{IsRoundCount};
ghost use Rattle.mbj_aes_lanes.specs.declared.wide.words.TheConstants.{MAX_SCHEDULE_WORDS};
ghost use Rattle.mbj_lane.specs.Rounds.{after};
ghost use Rattle.mbj_aes_lanes.specs.ChainedEntry.{chained_once};
ghost use Rattle.mbj_aes_lanes.specs.Slots.{slot_at};
ghost use Rattle.mbj_aes_lanes.specs.Inside.Busy.{AreIdleFrom};
ghost use Rattle.mbj_aes_lanes.specs.Inside.Slots.{HaveRounds};
ghost use Rattle.mbj_aes_lanes.specs.declared.few_keys.TheConstants.{FEW_LANES};

use crate::chained_entry::ChainedEntry;
use crate::few_keys::{FEW_LANES, FewKeys};
use crate::gathering::{busy_in, gather, scatter};
use crate::slot::{Slot, rounds_in};
use crate::slot_keys::{expand_first, keys_in, laid_keys_in};
use crate::slot_rounds::advance_by;
use crate::wide::lane_schedules::RoundKeys;
use crate::wide::words::MAX_SCHEDULE_WORDS;
use mbj_types::{AES_LANES, AesWord, BLOCK_BYTES, Lane8};

// Advances the entries by `m` blocks, which stand in the first `many` lanes and have keys of `rounds` rounds: in one register for one or
// two, in two for three or four, else in four.
#[inline(always)]
fn advance_few<E: ChainedEntry, S: Slot<E>>(slots: &mut [S], many: usize, m: u32, rounds: usize)
    requires lanes { S.least ≤ length slots.old }
    requires most { length slots.old ≤ AES_LANES }
    requires rests { HaveRounds E.rest_of m (S.in_lane slots.old) }
    requires few { many ≤ FEW_LANES }
    requires idle { AreIdleFrom many (S.in_lane slots.old) }
    requires rounds { rounds ≡ E.key_rounds }
    requires count { IsRoundCount rounds }
    ensures { (i : ℕ) → i < AES_LANES → S.in_lane slots.new i
        ≡ option_map (after (chained_once E.key_of E.block_of E.chain_of E.advanced E.kept) m) (S.in_lane slots.old i) }
{
    let keys = &laid_keys_in::<E, S>(slots, many, rounds);
    match many {
        0..3 => advance_by::<FewKeys<1>, E, S, FEW_LANES>(
            slots,
            m,
            &FewKeys { keys, rounds, many },
        ),
        3..5 => advance_by::<FewKeys<2>, E, S, FEW_LANES>(
            slots,
            m,
            &FewKeys { keys, rounds, many },
        ),
        _ => advance_by::<FewKeys<4>, E, S, FEW_LANES>(slots, m, &FewKeys { keys, rounds, many }),
    }
}

// Advances each entry by `m` blocks, which it has left. The entries stand in the first `many` lanes. A run over many lanes takes `words` for
// the round keys of all lanes.
#[inline(always)]
fn advance<E: ChainedEntry, S: Slot<E>>(slots: &mut [S], many: usize, m: u32, words: &mut [AesWord])
    requires lanes { S.least ≤ length slots.old }
    requires most { length slots.old ≤ AES_LANES }
    requires idle { AreIdleFrom many (S.in_lane slots.old) }
    requires rests { HaveRounds E.rest_of m (S.in_lane slots.old) }
    requires words { length words.old ≡ MAX_SCHEDULE_WORDS }
    ensures { (i : ℕ) → i < AES_LANES → S.in_lane slots.new i
        ≡ option_map (after (chained_once E.key_of E.block_of E.chain_of E.advanced E.kept) m) (S.in_lane slots.old i) }
{
    if let Some(rounds) = rounds_in::<E, S>(slots) {
        if many <= FEW_LANES {
            advance_few::<E, S>(slots, many, m, rounds);
        } else {
            let bytes = keys_in::<E, S>(slots);
            expand_first(words, rounds, &bytes);
            let words = &words[..BLOCK_BYTES * (rounds + 1)];
            advance_by::<RoundKeys<AesWord>, E, S, AES_LANES>(slots, m, &RoundKeys { words });
        }
    }
}

/// Advances the entry of each slot by `m` blocks, which it has left. Few entries stand in the first slots meanwhile.
#[inline(always)]
pub fn advance_slots<E: ChainedEntry>(slots: &mut [Option<E>], m: u32, words: &mut [AesWord])
    requires size { length slots.old ≡ AES_LANES }
    requires rests { HaveRounds E.rest_of m (slot_at slots.old) }
    requires words { length words.old ≡ MAX_SCHEDULE_WORDS }
    ensures { (i : ℕ) → i < AES_LANES → slot_at slots.new i
        ≡ option_map (after (chained_once E.key_of E.block_of E.chain_of E.advanced E.kept) m) (slot_at slots.old i) }
{
    if busy_in(slots) <= FEW_LANES {
        let origins = gather(slots);
        advance::<E, Option<E>>(slots, origins.many, m, words);
        scatter(slots, &origins);
    } else {
        advance::<E, Option<E>>(slots, AES_LANES, m, words);
    }
}

/// Advances each of at most `AES_LANES` entries by `m` blocks, of which each has that many left. In each of `m` passes one
/// block of every entry is enciphered, all at once. It takes no memory.
pub fn advance_all<E: ChainedEntry>(entries: &mut [E], m: u32)
    requires few { length entries.old ≤ AES_LANES }
    requires rests { All (λ e. m ≤ E.rest_of e) entries.old }
    ensures { entries.new ≡ map (after (chained_once E.key_of E.block_of E.chain_of E.advanced E.kept) m) entries.old }
{
    let mut words = [<AesWord as Lane8>::splat(0); MAX_SCHEDULE_WORDS];
    advance::<E, E>(entries, entries.len(), m, &mut words);
}
