//! Blocks, one for each lane, as lane words, word j having byte j of each block, or as a state, and back. Sixteen rows of two blocks are a
//! matrix of 16 times 16 bytes in each half of the words, and both are transposed at once.
ghost use Rattle.std.specs.Prelude.{◌≡◌, ◌≢◌, ℕ, ◌+◌, ◌*◌, ◌/◌, ◌%◌, ◌<◌, ◌≤◌, [], length, slice_index_or};
ghost use Rattle.mbj_types.specs.Lanes.{lane_at, lane_of};
ghost use Rattle.mbj_types.specs.declared.kind.TheConstants.{AES_LANES};
ghost use Rattle.mbj_aes.specs.BlockWords.{block_at};
ghost use Rattle.mbj_aes_lanes.specs.Inside.Matrix.{byte_at_row, in_turn};
ghost use Rattle.mbj_aes_lanes.specs.Inside.Wide.{state_lane};

use crate::lane_blocks::LaneBlocks;
use crate::wide::state::State;
use crate::wide::words::{put_state, state_at};
use mbj_aes::BlockWord;
use mbj_types::{AES_LANES, AesWord, BLOCK_BYTES, Lane8};

// The places in two words of what stands in turn: the lower halves of their blocks, and the upper halves.
const LOWER_HALVES: [usize; AES_LANES] = [
    0, 32, 1, 33, 2, 34, 3, 35, 4, 36, 5, 37, 6, 38, 7, 39, 16, 48, 17, 49, 18, 50, 19, 51, 20, 52,
    21, 53, 22, 54, 23, 55,
];

const UPPER_HALVES: [usize; AES_LANES] = [
    8, 40, 9, 41, 10, 42, 11, 43, 12, 44, 13, 45, 14, 46, 15, 47, 24, 56, 25, 57, 26, 58, 27, 59,
    28, 60, 29, 61, 30, 62, 31, 63,
];

// The lower halves of the blocks of two words, a byte of the one and a byte of the other in turn.
#[inline(always)]
fn lower_in_turn(one: AesWord, other: AesWord) -> AesWord
    ensures { (g k : ℕ) → 16 * g < AES_LANES → k < 16
        → lane_at 8 result (16 * g + k) ≡ lane_at 8 (in_turn one other k) (16 * g + k / 2) }
{
    one.shuffle(other, LOWER_HALVES)
}

// The upper halves likewise.
#[inline(always)]
fn upper_in_turn(one: AesWord, other: AesWord) -> AesWord
    ensures { (g k : ℕ) → 16 * g < AES_LANES → k < 16
        → lane_at 8 result (16 * g + k) ≡ lane_at 8 (in_turn one other k) (16 * g + (8 + k / 2)) }
{
    one.shuffle(other, UPPER_HALVES)
}

// Row `k` of the blocks: blocks `k` and `16 + k`.
#[inline(always)]
fn row<B: LaneBlocks>(blocks: &B, k: usize) -> AesWord
    requires row { k < 16 }
    requires lanes { AES_LANES ≤ B.lanes_of blocks.now }
    ensures { (g : ℕ) → 16 * g < AES_LANES → block_at (lane_at 8) result g ≡ B.block_in blocks.now (16 * g + k) }
{
    AesWord::load(&[blocks.block(k), blocks.block(BLOCK_BYTES + k)])
}

// Writes the blocks of row `k`.
#[inline(always)]
fn put_row(row: AesWord, to: &mut [[u8; 16]], k: usize)
    requires row { k < 16 }
    requires lanes { length to.old ≡ AES_LANES }
    ensures written { (g : ℕ) → 16 * g < AES_LANES → slice_index_or to.new (16 * g + k) [] ≡ block_at (lane_at 8) row g }
    ensures others { (g j : ℕ) → j < 16 → j ≢ k → slice_index_or to.new (16 * g + j) [] ≡ slice_index_or to.old (16 * g + j) [] }
{
    let mut both = [[0; BLOCK_BYTES]; 2];
    row.store(&mut both);
    to[k] = both[0];
    to[BLOCK_BYTES + k] = both[1];
}

// Row j and row j + 8 in turn, at rows 2 * j and 2 * j + 1. The place of a byte in its half has eight bits, four of its row
// and four within it: the highest of them has become the lowest.
#[inline(always)]
fn shuffle(rows: &mut [AesWord])
    requires { length rows.old ≡ 16 }
    ensures { (j g k : ℕ) → j < 16 → 16 * g < AES_LANES → k < 16 → byte_at_row (lane_at 8) rows.new j (16 * g + k)
        ≡ byte_at_row (lane_at 8) rows.old (j / 2 + 8 * (k % 2)) (16 * g + (8 * (j % 2) + k / 2)) }
{
    let (r0, r1, r2, r3) = (rows[0], rows[1], rows[2], rows[3]);
    let (r4, r5, r6, r7) = (rows[4], rows[5], rows[6], rows[7]);
    let (r8, r9, r10, r11) = (rows[8], rows[9], rows[10], rows[11]);
    let (r12, r13, r14, r15) = (rows[12], rows[13], rows[14], rows[15]);
    rows[0] = lower_in_turn(r0, r8);
    rows[1] = upper_in_turn(r0, r8);
    rows[2] = lower_in_turn(r1, r9);
    rows[3] = upper_in_turn(r1, r9);
    rows[4] = lower_in_turn(r2, r10);
    rows[5] = upper_in_turn(r2, r10);
    rows[6] = lower_in_turn(r3, r11);
    rows[7] = upper_in_turn(r3, r11);
    rows[8] = lower_in_turn(r4, r12);
    rows[9] = upper_in_turn(r4, r12);
    rows[10] = lower_in_turn(r5, r13);
    rows[11] = upper_in_turn(r5, r13);
    rows[12] = lower_in_turn(r6, r14);
    rows[13] = upper_in_turn(r6, r14);
    rows[14] = lower_in_turn(r7, r15);
    rows[15] = upper_in_turn(r7, r15);
}

// In each half byte k of row j becomes byte j of row k.
#[inline(always)]
fn transpose(rows: &mut [AesWord])
    requires { length rows.old ≡ 16 }
    ensures { (j g k : ℕ) → j < 16 → 16 * g < AES_LANES → k < 16
        → byte_at_row (lane_at 8) rows.new j (16 * g + k) ≡ byte_at_row (lane_at 8) rows.old k (16 * g + j) }
{
    shuffle(rows);
    shuffle(rows);
    shuffle(rows);
    shuffle(rows);
}

/// The blocks as 16 lane words.
#[inline(always)]
pub fn words_of<B: LaneBlocks>(words: &mut [AesWord], blocks: &B)
    requires words { length words.old ≡ 16 }
    requires lanes { AES_LANES ≤ B.lanes_of blocks.now }
    ensures { (i : ℕ) → i < AES_LANES → lane_of (lane_at 8) words.new i ≡ B.block_in blocks.now i }
{
    'rows: for k in 0..BLOCK_BYTES {
        words[k] = row(blocks, k);
    }
    transpose(words);
}

// Writes the blocks of 16 lane words, which become the rows of these blocks.
#[inline(always)]
fn put_blocks(to: &mut [[u8; 16]], words: &mut [AesWord])
    requires words { length words.old ≡ 16 }
    requires lanes { length to.old ≡ AES_LANES }
    ensures { (i : ℕ) → i < AES_LANES → slice_index_or to.new i [] ≡ lane_of (lane_at 8) words.old i }
{
    transpose(words);
    'rows: for k in 0..BLOCK_BYTES {
        put_row(words[k], to, k);
    }
}

/// The state of the block in each lane.
#[inline(always)]
pub fn load_state<B: LaneBlocks>(blocks: &B) -> State<AesWord>
    requires { AES_LANES ≤ B.lanes_of blocks.now }
    ensures { (i : ℕ) → i < AES_LANES → state_lane (lane_at 8) result i ≡ B.block_in blocks.now i }
{
    let mut words = [<AesWord as Lane8>::splat(0); BLOCK_BYTES];
    words_of(&mut words, blocks);
    state_at(&words, 0)
}

/// Writes the block in each lane, of which this is the state.
#[inline(always)]
pub fn store_state(to: &mut [[u8; 16]], s: &State<AesWord>)
    requires { length to.old ≡ AES_LANES }
    ensures { (i : ℕ) → i < AES_LANES → slice_index_or to.new i [] ≡ state_lane (lane_at 8) s.now i }
{
    let mut words = [<AesWord as Lane8>::splat(0); BLOCK_BYTES];
    put_state(&mut words, s);
    put_blocks(to, &mut words);
}
