use crate::compare::expect;
use mbj_blocks::{block_at, block_from, filled_block, put_block, xor_block};
use mbj_types::BLOCK_BYTES;
use std::process::Abort;

#[test]
fn a_text_of_20_bytes_has_a_whole_block_and_one_of_4_bytes(rt: HostRuntime) {
    let mut text = [0x0f; 20];
    put_block(&mut text, 0, &[0xf0; BLOCK_BYTES]);
    expect(&rt, "put", block_at(&text, 0), [0xf0; BLOCK_BYTES]);

    let mut mask = [0x11; BLOCK_BYTES];
    mask[0] = 0xff;
    xor_block(&mut text, 1, &mask);
    expect(&rt, "before", block_at(&text, 0), [0xf0; BLOCK_BYTES]);
    expect(&rt, "xored", &text[16..], &[0xf0, 0x1e, 0x1e, 0x1e]);
    check_parts(&rt, &text);
}

/// The last 16 bytes, and the bytes on both sides of the block's end.
fn check_parts(rt: &impl Abort, text: &[u8; 20]) {
    expect(
        rt,
        "last",
        &block_from(text, 4)[11..],
        &[0xf0, 0xf0, 0x1e, 0x1e, 0x1e],
    );
    expect(
        rt,
        "filled",
        filled_block(&text[15..18]),
        [0xf0, 0xf0, 0x1e, 0, 0, 0, 0, 0, 0, 0, 0, 0, 0, 0, 0, 0],
    );
}
