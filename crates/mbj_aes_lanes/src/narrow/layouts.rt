//! Where the bytes of a state stand in a block of a register. SHIFTROWS moves nothing: after `r` rounds the state is in layout `r`, in
//! which row `w` stands `r * w` columns further on, and MIXCOLUMNS takes the bytes of a column from there. Layouts repeat after four.

/// How many layouts there are.
pub const LAYOUTS: usize = 4;

/// Where each byte of the state stands, in each layout.
pub const PLACES: [[u8; 16]; LAYOUTS] = [
    [0, 1, 2, 3, 4, 5, 6, 7, 8, 9, 10, 11, 12, 13, 14, 15],
    [0, 5, 10, 15, 4, 9, 14, 3, 8, 13, 2, 7, 12, 1, 6, 11],
    [0, 9, 2, 11, 4, 13, 6, 15, 8, 1, 10, 3, 12, 5, 14, 7],
    [0, 13, 10, 7, 4, 1, 14, 11, 8, 5, 2, 15, 12, 9, 6, 3],
];

/// At the place of each byte, where the byte in the next row of its column stands.
pub const NEXT_ROW: [[u8; 16]; LAYOUTS] = [
    [1, 2, 3, 0, 5, 6, 7, 4, 9, 10, 11, 8, 13, 14, 15, 12],
    [5, 6, 7, 4, 9, 10, 11, 8, 13, 14, 15, 12, 1, 2, 3, 0],
    [9, 10, 11, 8, 13, 14, 15, 12, 1, 2, 3, 0, 5, 6, 7, 4],
    [13, 14, 15, 12, 1, 2, 3, 0, 5, 6, 7, 4, 9, 10, 11, 8],
];

/// At the place of each byte, where the byte two rows on stands.
pub const ROW_AFTER_NEXT: [[u8; 16]; LAYOUTS] = [
    [2, 3, 0, 1, 6, 7, 4, 5, 10, 11, 8, 9, 14, 15, 12, 13],
    [10, 11, 8, 9, 14, 15, 12, 13, 2, 3, 0, 1, 6, 7, 4, 5],
    [2, 3, 0, 1, 6, 7, 4, 5, 10, 11, 8, 9, 14, 15, 12, 13],
    [10, 11, 8, 9, 14, 15, 12, 13, 2, 3, 0, 1, 6, 7, 4, 5],
];
