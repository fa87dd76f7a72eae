use super::*;

/// The data of a packet of 54 bytes that is authenticated by GCM-AES-128 and GCM-AES-256 (IEEE 802.1AE, annex C.1), with its IV.
const DATA: &str =
    "d609b1f056637a0d46df998d88e5222ab2c2846512153524c0895e8108000f101112131415161718191a1b1c1d1e1f202122232425262728292a2b2c2d2e2f30313233340001";

const DATA_BYTES: usize = 70;

const IV: &str = "12153524c0895e81b2c28465";

/// The length of a key, the key and zeros behind it, and the tag.
const TAGS: [(usize, &str, &str); 2] = [
    (
        16,
        "ad7a2bd03eac835a6f620fdcb506b34500000000000000000000000000000000",
        "f09478a9b09007d06f46e9b6a1da25dd",
    ),
    (
        32,
        "e3c08a8f06c6e3ad95a70557b23f75483ce33021a9c72b7025666204c69c0b72",
        "2f0bc5af409e06d609ea8b7d0fa5ea50",
    ),
];

/// The bytes of the second of three parts, a block and one more.
const SECOND: usize = 17;

/// Data in three parts, of which the first one has `cut` bytes, has the tag; and so has what a copy takes.
fn check_cut(rt: &impl Abort, len: usize, key: &str, cut: usize, tag: &str) {
    let key: [u8; 32] = read(rt, key);
    let iv: [u8; 12] = read(rt, IV);
    let bytes: [u8; DATA_BYTES] = read(rt, DATA);
    let (first, rest) = bytes.split_at(cut.min(DATA_BYTES));
    let (second, third) = rest.split_at(rest.len().min(SECOND));
    assert!(rt; matches!(len, 16 | 24 | 32));
    let mut state = GmacState::begin(&key[..len], &iv);
    state.update(first);
    state.update(second);
    let mut copy = state;
    state.update(third);
    expect_bytes(rt, &state.finish(), tag);
    copy.update(third);
    expect_bytes(rt, &copy.finish(), tag);
    assert!(rt; !state.is_state() && !copy.is_state());
}

#[test]
fn data_that_is_cut_anywhere_has_the_tag_of_ieee_802_1ae(rt: HostRuntime) {
    for (len, key, tag) in &TAGS {
        for cut in 0..DATA_BYTES + 1 {
            check_cut(&rt, *len, key, cut, tag);
        }
    }
    any_cutting_gives_one_tag();
}

/// The tag of no data: test case 1 of the GCM specification (McGrew and Viega, appendix B).
#[test]
fn no_data_has_a_tag(rt: HostRuntime) {
    let mut state = GmacState::begin(&[0; 16], &[0; 12]);
    expect_bytes(&rt, &state.finish(), "58e2fccefa7e3061367f1d57a4e7455a");
}
