//! INVMIXCOLUMNS (FIPS 197, 5.3.3) of one block, by shifts and sums of bits: no index and no branch depends on a byte.
ghost use Rattle.std.specs.Prelude.{◌≡◌, [], ◌∷◌};
ghost use Rattle.mbj_types.specs.Aes.{xtime, times, inv_mixed_byte, inv_mix_columns};

// What a bit that is shifted out of a byte comes back as: the lower bits of the field's polynomial (FIPS 197, 4.2).
const REDUCTION: u8 = 0x1b;

// XTIMES (FIPS 197, 4.2): the product by x.
#[inline(always)]
fn xtime(a: u8) -> u8
    ensures { result ≡ xtime a }
{
    (a << 1) ^ (a >> 7) * REDUCTION
}

// The products of a byte by 02, 04 and 08.
#[derive(Clone, Copy)]
struct Doubles {
    two: u8,
    four: u8,
    eight: u8,
}

#[inline(always)]
fn doubled_thrice(a: u8) -> Doubles
    ensures two { result.two ≡ xtime a }
    ensures four { result.four ≡ xtime (xtime a) }
    ensures eight { result.eight ≡ xtime (xtime (xtime a)) }
{
    let two = xtime(a);
    let four = xtime(two);
    Doubles {
        two,
        four,
        eight: xtime(four),
    }
}

#[inline(always)]
fn times_0e(a: u8) -> u8
    ensures { result ≡ times 0x0e a }
{
    let Doubles { two, four, eight } = doubled_thrice(a);
    eight ^ four ^ two
}

#[inline(always)]
fn times_0b(a: u8) -> u8
    ensures { result ≡ times 0x0b a }
{
    let Doubles { two, eight, .. } = doubled_thrice(a);
    eight ^ two ^ a
}

#[inline(always)]
fn times_0d(a: u8) -> u8
    ensures { result ≡ times 0x0d a }
{
    let Doubles { four, eight, .. } = doubled_thrice(a);
    eight ^ four ^ a
}

#[inline(always)]
fn times_09(a: u8) -> u8
    ensures { result ≡ times 0x09 a }
{
    doubled_thrice(a).eight ^ a
}

// The first byte of the column a b c d.
#[inline(always)]
fn inv_mixed_byte(a: u8, b: u8, c: u8, d: u8) -> u8
    ensures { result ≡ inv_mixed_byte a b c d }
{
    times_0e(a) ^ times_0b(b) ^ times_0d(c) ^ times_09(d)
}

// One column.
#[inline(always)]
fn inv_mixed_column(a: u8, b: u8, c: u8, d: u8) -> [u8; 4]
    ensures { result ≡ inv_mixed_byte a b c d ∷ inv_mixed_byte b c d a ∷ inv_mixed_byte c d a b ∷ inv_mixed_byte d a b c ∷ [] }
{
    [
        inv_mixed_byte(a, b, c, d),
        inv_mixed_byte(b, c, d, a),
        inv_mixed_byte(c, d, a, b),
        inv_mixed_byte(d, a, b, c),
    ]
}

/// INVMIXCOLUMNS of a block.
pub(crate) fn inv_mix_columns(block: &[u8; 16]) -> [u8; 16]
    ensures { result ≡ inv_mix_columns block.now }
{
    let [
        s0,
        s1,
        s2,
        s3,
        s4,
        s5,
        s6,
        s7,
        s8,
        s9,
        s10,
        s11,
        s12,
        s13,
        s14,
        s15,
    ] = *block;
    let [a0, a1, a2, a3] = inv_mixed_column(s0, s1, s2, s3);
    let [b0, b1, b2, b3] = inv_mixed_column(s4, s5, s6, s7);
    let [c0, c1, c2, c3] = inv_mixed_column(s8, s9, s10, s11);
    let [d0, d1, d2, d3] = inv_mixed_column(s12, s13, s14, s15);
    [
        a0, a1, a2, a3, b0, b1, b2, b3, c0, c1, c2, c3, d0, d1, d2, d3,
    ]
}
