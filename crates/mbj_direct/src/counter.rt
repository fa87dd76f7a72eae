//! The key stream of GCM from any place of a text on (SP 800-38D, 6.5). The first counter block of a text is the one after its
//! pre-counter block, J0.
ghost use Rattle.std.specs.Prelude.{◌≡◌, ◌+◌, ◌≤◌, ◌-◌, ◌/◌, ◌%◌, ◌^◌, length, drop};
ghost use Rattle.std.specs.List.{concat};
ghost use Rattle.mbj_types.specs.Aes.{encipher};
ghost use Rattle.mbj_types.specs.Blocks.{blocks, xor_lists};
ghost use Rattle.mbj_types.specs.Gcm.{gctr, inc32};
ghost use Rattle.mbj_direct.specs.Inside.Stream.{streamed};

use mbj_aes_lanes::{BATCH_BLOCKS, TextKey};
use mbj_blocks::xor_blocks;
use mbj_gcm::{incremented, outputs_after};
use mbj_types::{BLOCK_BYTES, xor_in_place};

// Xors the blocks of a text from the counter block after `before` on.
fn xor_after(key: &TextKey, before: &[u8; 16], text: &mut [u8])
    ensures { text.new ≡ concat (gctr (encipher key.now) (inc32 before.now) (blocks text.old)) }
{
    let many = text.len().div_ceil(BLOCK_BYTES);
    let mut counter = *before;
    'batches: for b in 0..many.div_ceil(BATCH_BLOCKS) {
        let here = (many - BATCH_BLOCKS * b).min(BATCH_BLOCKS);
        let outputs = outputs_after(key, &counter, here);
        xor_blocks(text, BATCH_BLOCKS * b, &outputs[..here]);
        counter = incremented(&counter, BATCH_BLOCKS as u32);
    }
}

/// An enciphered block.
pub(crate) fn enciphered(key: &TextKey, block: &[u8; 16]) -> [u8; 16]
    ensures { result ≡ encipher key.now block.now }
{
    let mut blocks = [*block];
    key.encrypt(&mut blocks);
    blocks[0]
}

// Xors bytes, if there are any, with those of an enciphered counter block from its byte `used` on.
fn xor_within(key: &TextKey, counter: &[u8; 16], used: usize, bytes: &mut [u8])
    requires { used + length bytes.old ≤ 16 }
    ensures { bytes.new ≡ xor_lists bytes.old (drop used (encipher key.now counter.now)) }
{
    if bytes.is_empty() {
        return;
    }
    let mask = enciphered(key, counter);
    xor_in_place(bytes, &mask[used..]);
}

// The number of blocks that a text of this many bytes begins, modulo 2^32.
fn begun_blocks(bytes: u64) -> u32
    ensures { result ≡ (bytes + 15) / 16 % 2 ^ 32 }
{
    (bytes.div_ceil(BLOCK_BYTES as u64) % (1 << u32::BITS)) as u32
}

/// How many bytes a block lacks that a text of this many bytes leaves open: none where it ends with a whole one.
pub(crate) fn open_room(bytes: u64) -> usize
    ensures { result ≡ (16 - bytes % 16) % 16 }
{
    let open = (bytes % BLOCK_BYTES as u64) as usize;
    (BLOCK_BYTES - open) % BLOCK_BYTES
}

/// Xors a part of a text with the key stream. `at` bytes of the text come before the part.
pub(crate) fn xor_part(key: &TextKey, pre_counter: &[u8; 16], at: u64, part: &mut [u8])
    requires { 16 ≤ length key.now }
    ensures { part.new ≡ streamed (encipher key.now) pre_counter.now at part.old }
{
    let begun = incremented(pre_counter, begun_blocks(at));
    let used = (at % BLOCK_BYTES as u64) as usize;
    let (open, rest) = part.split_at_mut(open_room(at).min(part.len()));
    xor_within(key, &begun, used, open);
    xor_after(key, &begun, rest);
}
