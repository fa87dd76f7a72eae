//! Texts of any number of blocks, four at a time.
ghost use Rattle.std.specs.Prelude.{◌≡◌, ℕ, ◌<◌, [], length, slice_index_or};

use crate::narrow::directions::Direction;
use crate::narrow::text_key::LaidKey;
use mbj_types::BLOCK_BYTES;

/// The blocks of a text that go at once, in two registers side by side. More of them would take no less time each.
pub const BATCH_BLOCKS: usize = 4;

// Fewer than four blocks, with others behind them: in one register, or in two if there are three.
#[inline(always)]
fn change_first<D: Direction>(key: &LaidKey<D>, four: &mut [[u8; 16]; BATCH_BLOCKS], many: usize)
    requires { many < BATCH_BLOCKS }
    ensures { (i : ℕ) → i < many → slice_index_or four.new i [] ≡ D.change key.now (slice_index_or four.old i []) }
{
    if many <= 2 {
        key.change_two(four);
    } else {
        key.change_four(four);
    }
}

// Fewer than four blocks.
#[inline(always)]
fn change_rest<D: Direction>(key: &LaidKey<D>, blocks: &mut [[u8; 16]])
    requires { length blocks.old < BATCH_BLOCKS }
    ensures { (i : ℕ) → i < length blocks.old
        → slice_index_or blocks.new i [] ≡ D.change key.now (slice_index_or blocks.old i []) }
{
    let many = blocks.len();
    if many > 0 {
        let mut four = [[0; BLOCK_BYTES]; BATCH_BLOCKS];
        four[..many].copy_from_slice(blocks);
        change_first(key, &mut four, many);
        blocks.copy_from_slice(&four[..many]);
    }
}

/// Changes each block.
#[inline(always)]
pub fn change_each<D: Direction>(key: &LaidKey<D>, blocks: &mut [[u8; 16]])
    ensures { (i : ℕ) → i < length blocks.old
        → slice_index_or blocks.new i [] ≡ D.change key.now (slice_index_or blocks.old i []) }
{
    let fours = blocks.len() / BATCH_BLOCKS;
    'fours: for k in 0..fours {
        key.change_four(&mut blocks[BATCH_BLOCKS * k..]);
    }
    change_rest(key, &mut blocks[BATCH_BLOCKS * fours..]);
}
