//! Blocks that are chained side by side, each under a schedule of its own.
ghost use Rattle.std.specs.Prelude.{◌≡◌, ℕ, ◌<◌, ◌≤◌, List, [], slice_index_or};
ghost use Rattle.mbj_types.specs.Aes.{encipher};
ghost use Rattle.mbj_types.specs.Blocks.{xor_lists};
ghost use Rattle.mbj_types.specs.Lanes.{lane_at};
ghost use Rattle.mbj_types.specs.declared.kind.TheConstants.{AES_LANES};
ghost use Rattle.mbj_aes_lanes.specs.Inside.Wide.{state_lane};
ghost use Rattle.mbj_aes_lanes.specs.Inside.WideKeys.{schedule_in};

use crate::blocks::{load_state, store_state};
use crate::lane_blocks::LaneBlocks;
use crate::wide::lane_schedules::RoundKeys;
use crate::wide::rounds::encrypt;
use crate::wide::state::{State, add_round_key};
use mbj_types::{AES_LANES, AesWord, BLOCK_BYTES};

/// CIPHER (FIPS 197, 5.1) in the first of `L` lanes, each of which has a schedule.
pub trait BlocksCipher<const L: usize> {
    /// A chaining value in each lane.
    type Chains: Copy;

    /// How many lanes have a schedule.
    ghost lanes_of: { Self → ℕ };

    /// The schedule in a lane.
    ghost schedule_of: { Self → ℕ → List ℕ };

    /// The chaining value in a lane.
    ghost chain_in: { Self.Chains → ℕ → List ℕ };

    /// How many lanes have a schedule.
    fn lane_count(&self) -> usize
        ensures value { result ≡ lanes_of self.now }
        ensures most { result ≤ L };

    /// These blocks as chaining values.
    fn load<B: LaneBlocks>(&self, blocks: &B) -> Self::Chains
        requires { B.lanes_of blocks.now ≡ AES_LANES }
        ensures { (i : ℕ) → i < lanes_of self.now → chain_in result i ≡ B.block_in blocks.now i };

    /// The block in each lane is xored with the chaining value and enciphered, which gives the next one (SP 800-38A, 6.2).
    fn chain<B: LaneBlocks>(&self, blocks: &B, chains: &mut Self::Chains)
        requires { B.lanes_of blocks.now ≡ AES_LANES }
        ensures { (i : ℕ) → i < lanes_of self.now → chain_in chains.new i
            ≡ encipher (schedule_of self.now i) (xor_lists (B.block_in blocks.now i) (chain_in chains.old i)) };

    /// The chaining values as blocks.
    fn store(&self, chains: &Self::Chains) -> [[u8; 16]; L]
        ensures { (i : ℕ) → i < lanes_of self.now → slice_index_or result i [] ≡ chain_in chains.now i };
}

impl BlocksCipher<AES_LANES> for RoundKeys<'_, AesWord> {
    type Chains = State<AesWord>;

    ghost lanes_of = { λ s. AES_LANES };

    ghost schedule_of = { λ s i. schedule_in (lane_at 8) s.words.now i };

    ghost chain_in = { state_lane (lane_at 8) };

    #[inline(always)]
    fn lane_count(&self) -> usize {
        AES_LANES
    }

    #[inline(always)]
    fn load<B: LaneBlocks>(&self, blocks: &B) -> State<AesWord> {
        load_state(blocks)
    }

    #[inline(always)]
    fn chain<B: LaneBlocks>(&self, blocks: &B, chains: &mut State<AesWord>) {
        *chains = add_round_key(load_state(blocks), *chains);
        encrypt(self, chains);
    }

    #[inline(always)]
    fn store(&self, chains: &State<AesWord>) -> [[u8; 16]; AES_LANES] {
        let mut blocks = [[0; BLOCK_BYTES]; AES_LANES];
        store_state(&mut blocks, chains);
        blocks
    }
}
