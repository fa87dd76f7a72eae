//! Places of bytes and tables of 16 bytes, which stand in registers. At a place of 128 or more there is no byte, but 0.
//!
//! Byte `i` of a block holds the coefficients of x^(8 i) to x^(8 i + 7), the highest bit first (SP 800-38D, 6.3). So `0x80` is 1, and a
//! byte `v` stands for its high half and x^4 times its low half.

/// The place before each, that before the first being the last.
pub const BEFORE: [u8; 16] = [15, 0, 1, 2, 3, 4, 5, 6, 7, 8, 9, 10, 11, 12, 13, 14];

/// What the lowest bit of the byte before comes to as the block is multiplied by x: the highest bit, but x^128 is 1 + x + x^2 + x^7.
pub const CARRIED: [u8; 16] = [
    0xe1, 0x80, 0x80, 0x80, 0x80, 0x80, 0x80, 0x80, 0x80, 0x80, 0x80, 0x80, 0x80, 0x80, 0x80, 0x80,
];

/// For each of four bytes of a block four places: none, the byte, none, the byte. In the second half they are 8 bytes further.
pub const ODD: [u8; 32] = [
    128, 0, 128, 0, 128, 1, 128, 1, 128, 2, 128, 2, 128, 3, 128, 3, 128, 8, 128, 8, 128, 9, 128, 9,
    128, 10, 128, 10, 128, 11, 128, 11,
];

/// Likewise: none, none, the byte, the byte.
pub const LAST_TWO: [u8; 32] = [
    128, 128, 0, 0, 128, 128, 1, 1, 128, 128, 2, 2, 128, 128, 3, 3, 128, 128, 8, 8, 128, 128, 9, 9,
    128, 128, 10, 10, 128, 128, 11, 11,
];

/// The low two bits of each half of a byte.
pub const LOW_PAIR: [u8; 16] = [0, 1, 2, 3, 0, 1, 2, 3, 0, 1, 2, 3, 0, 1, 2, 3];

/// Its high two bits.
pub const HIGH_PAIR: [u8; 16] = [0, 0, 0, 0, 1, 1, 1, 1, 2, 2, 2, 2, 3, 3, 3, 3];

/// x^128 times a byte, which is two bytes: the first one, by the low half.
pub const FOLD_LOW: [u8; 16] = [
    0x00, 0x01, 0x03, 0x02, 0x07, 0x06, 0x04, 0x05, 0x0e, 0x0f, 0x0d, 0x0c, 0x09, 0x08, 0x0a, 0x0b,
];

/// And by the high half.
pub const FOLD_HIGH: [u8; 16] = [
    0x00, 0x1c, 0x38, 0x24, 0x70, 0x6c, 0x48, 0x54, 0xe1, 0xfd, 0xd9, 0xc5, 0x91, 0x8d, 0xa9, 0xb5,
];

/// The second one, by the low half.
pub const FOLD_NEXT_LOW: [u8; 16] = [
    0x00, 0xc2, 0x84, 0x46, 0x08, 0xca, 0x8c, 0x4e, 0x10, 0xd2, 0x94, 0x56, 0x18, 0xda, 0x9c, 0x5e,
];

/// And by the high half.
pub const FOLD_NEXT_HIGH: [u8; 16] = [
    0x00, 0x20, 0x40, 0x60, 0x80, 0xa0, 0xc0, 0xe0, 0x00, 0x20, 0x40, 0x60, 0x80, 0xa0, 0xc0, 0xe0,
];
