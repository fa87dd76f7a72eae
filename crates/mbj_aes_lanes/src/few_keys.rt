//! Few lanes, whose blocks stand side by side in registers.
ghost use Rattle.std.specs.Prelude.{◌≡◌, ℕ, ◌+◌, ◌*◌, ◌/◌, ◌%◌, ◌<◌, ◌≤◌, List, [], slice_index_or};
ghost use Rattle.mbj_types.specs.Blocks.{xor_lists};
ghost use Rattle.mbj_types.specs.declared.kind.TheConstants.{AES_LANES};
ghost use Rattle.mbj_aes.specs.BlockWords.{block_at};
ghost use Rattle.mbj_aes.specs.declared.sizes.TheConstants.{MAX_ROUND_KEYS};
ghost use Rattle.mbj_aes_lanes.specs.Inside.BusyKeys.{few_schedule};
ghost use Rattle.mbj_aes_lanes.specs.declared.few_keys.TheConstants.{FEW_LANES};

use crate::blocks_cipher::BlocksCipher;
use crate::lane_blocks::LaneBlocks;
use crate::narrow::cipher::encrypt_all;
use crate::narrow::directions::Encryption;
use crate::narrow::schedules::{EachKeys, REGISTER_BLOCKS};
use mbj_aes::{BlockWord, MAX_ROUND_KEYS};
use mbj_types::{AES_LANES, BLOCK_BYTES, Lane8};
use std::simd::u8x32;

/// A run of at most this many busy lanes is done narrow, in registers of whole blocks: a quarter of all lanes.
pub const FEW_LANES: usize = 8;

// The blocks of register `i`.
#[inline(always)]
fn blocks_of<B: LaneBlocks>(blocks: &B, i: usize) -> u8x32
    requires register { 2 * i + 1 < AES_LANES }
    requires lanes { B.lanes_of blocks.now ≡ AES_LANES }
    ensures { (b : ℕ) → b < 2 → block_at ⟦<u8x32 as Lane8>⟧.lane result b ≡ B.block_in blocks.now (2 * i + b) }
{
    let first = REGISTER_BLOCKS * i;
    u8x32::load(&[blocks.block(first), blocks.block(first + 1)])
}

// The blocks of lanes are added to those of registers.
#[inline(always)]
fn add_blocks<B: LaneBlocks, const N: usize>(registers: &mut [u8x32; N], blocks: &B)
    requires registers { 2 * N ≤ AES_LANES }
    requires lanes { B.lanes_of blocks.now ≡ AES_LANES }
    ensures { (i b : ℕ) (d : List ℕ) → i < N → b < 2 → block_at ⟦<u8x32 as Lane8>⟧.lane (slice_index_or registers.new i d) b
        ≡ xor_lists (B.block_in blocks.now (2 * i + b)) (block_at ⟦<u8x32 as Lane8>⟧.lane (slice_index_or registers.old i d) b) }
{
    'registers: for i in 0..N {
        registers[i] = blocks_of(blocks, i).xored(registers[i]);
    }
}

/// The round keys of the first `many` blocks of `N` registers, two in each, laid out.
#[derive(Drop)]
pub struct FewKeys<'a, const N: usize> {
    pub keys: &'a [[[u8; 16]; MAX_ROUND_KEYS]; FEW_LANES],
    pub rounds: usize,
    pub many: usize,
    pub ghost least: { 1 ≤ rounds },
    pub ghost most: { rounds < MAX_ROUND_KEYS },
    pub ghost few: { many ≤ 2 * N },
    pub ghost registers: { 2 * N ≤ FEW_LANES },
}

impl<const N: usize> BlocksCipher<FEW_LANES> for FewKeys<'_, N> {
    type Chains = [u8x32; N];

    ghost lanes_of = { λ k. k.many };

    ghost schedule_of = { λ k p. few_schedule k.rounds k.keys.now p };

    ghost chain_in = { λ chains p. block_at ⟦<u8x32 as Lane8>⟧.lane (slice_index_or chains (p / 2) []) (p % 2) };

    #[inline(always)]
    fn lane_count(&self) -> usize {
        self.many
    }

    #[inline(always)]
    fn load<B: LaneBlocks>(&self, blocks: &B) -> [u8x32; N] {
        let mut chains = [<u8x32 as Lane8>::splat(0); N];
        'registers: for i in 0..N {
            chains[i] = blocks_of(blocks, i);
        }
        chains
    }

    #[inline(always)]
    fn chain<B: LaneBlocks>(&self, blocks: &B, chains: &mut [u8x32; N]) {
        add_blocks(chains, blocks);
        let keys = self.keys;
        let rounds = self.rounds;
        encrypt_all(&EachKeys { keys, rounds }, chains);
    }

    #[inline(always)]
    fn store(&self, chains: &[u8x32; N]) -> [[u8; 16]; FEW_LANES] {
        let mut blocks = [[0; BLOCK_BYTES]; FEW_LANES];
        'registers: for i in 0..N {
            chains[i].store(&mut blocks[REGISTER_BLOCKS * i..]);
        }
        blocks
    }
}
