ghost use Rattle.std.specs.Prelude.{length};
ghost use Rattle.mbj_aes.specs.Bytes.{IsKeySize};

use super::*;

/// The keys of FIPS 197, appendix C, are the first 16, 24 and 32 of these bytes.
const COUNTING: [u8; 32] = [
    0x00, 0x01, 0x02, 0x03, 0x04, 0x05, 0x06, 0x07, 0x08, 0x09, 0x0a, 0x0b, 0x0c, 0x0d, 0x0e, 0x0f,
    0x10, 0x11, 0x12, 0x13, 0x14, 0x15, 0x16, 0x17, 0x18, 0x19, 0x1a, 0x1b, 0x1c, 0x1d, 0x1e, 0x1f,
];

/// FIPS 197, appendix C.1: the key of each round of the cipher (k_sch), and of the equivalent inverse cipher (ik_sch).
const ROUNDS_128: [(u128, u128); 11] = [
    (
        0x000102030405060708090a0b0c0d0e0f,
        0x13111d7fe3944a17f307a78b4d2b30c5,
    ),
    (
        0xd6aa74fdd2af72fadaa678f1d6ab76fe,
        0x13aa29be9c8faff6f770f58000f7bf03,
    ),
    (
        0xb692cf0b643dbdf1be9bc5006830b3fe,
        0x1362a4638f2586486bff5a76f7874a83,
    ),
    (
        0xb6ff744ed2c2c9bf6c590cbf0469bf41,
        0x8d82fc749c47222be4dadc3e9c7810f5,
    ),
    (
        0x47f7f7bc95353e03f96c32bcfd058dfd,
        0x72e3098d11c5de5f789dfe1578a2cccb,
    ),
    (
        0x3caaa3e8a99f9deb50f3af57adf622aa,
        0x2ec410276326d7d26958204a003f32de,
    ),
    (
        0x5e390f7df7a69296a7553dc10aa31f6b,
        0xa8a2f5044de2c7f50a7ef79869671294,
    ),
    (
        0x14f9701ae35fe28c440adf4d4ea9c026,
        0xc7c6e391e54032f1479c306d6319e50c,
    ),
    (
        0x47438735a41c65b9e016baf4aebf7ad2,
        0xa0db02992286d160a2dc029c2485d561,
    ),
    (
        0x549932d1f08557681093ed9cbe2c974e,
        0x8c56dff0825dd3f9805ad3fc8659d7fd,
    ),
    (
        0x13111d7fe3944a17f307a78b4d2b30c5,
        0x000102030405060708090a0b0c0d0e0f,
    ),
];

/// FIPS 197, appendix C.2: the key of each round of the cipher (k_sch), and of the equivalent inverse cipher (ik_sch).
const ROUNDS_192: [(u128, u128); 13] = [
    (
        0x000102030405060708090a0b0c0d0e0f,
        0xa4970a331a78dc09c418c271e3a41d5d,
    ),
    (
        0x10111213141516175846f2f95c43f4fe,
        0xd6bebd0dc209ea494db073803e021bb9,
    ),
    (
        0x544afef55847f0fa4856e2e95c43f4fe,
        0x8fb999c973b26839c7f9d89d85c68c72,
    ),
    (
        0x40f949b31cbabd4d48f043b810b7b342,
        0xf77d6ec1423f54ef5378317f14b75744,
    ),
    (
        0x58e151ab04a2a5557effb5416245080c,
        0x1147659047cf663b9b0ece8dfc0bf1f0,
    ),
    (
        0x2ab54bb43a02f8f662e3a95d66410c08,
        0xdcc1a8b667053f7dcc5c194ab5423a2e,
    ),
    (
        0xf501857297448d7ebdf1c6ca87f33e3c,
        0xc6deb0ab791e2364a4055fbe568803ab,
    ),
    (
        0xe510976183519b6934157c9ea351f1e0,
        0xdd1b7cdaf28d5c158a49ab1dbbc497cb,
    ),
    (
        0x1ea0372a995309167c439e77ff12051e,
        0x78c4f708318d3cd69655b701bfc093cf,
    ),
    (
        0xdd7e0e887e2fff68608fc842f9dcc154,
        0x60dcef10299524ce62dbef152f9620cf,
    ),
    (
        0x859f5f237a8d5a3dc0c02952beefd63a,
        0x4b4ecbdb4d4dcfda5752d7c74949cbde,
    ),
    (
        0xde601e7827bcdf2ca223800fd8aeda32,
        0x1a1f181d1e1b1c194742c7d74949cbde,
    ),
    (
        0xa4970a331a78dc09c418c271e3a41d5d,
        0x000102030405060708090a0b0c0d0e0f,
    ),
];

/// FIPS 197, appendix C.3: the key of each round of the cipher (k_sch), and of the equivalent inverse cipher (ik_sch).
const ROUNDS_256: [(u128, u128); 15] = [
    (
        0x000102030405060708090a0b0c0d0e0f,
        0x24fc79ccbf0979e9371ac23c6d68de36,
    ),
    (
        0x101112131415161718191a1b1c1d1e1f,
        0x34f1d1ffbfceaa2ffce9e25f2558016e,
    ),
    (
        0xa573c29fa176c498a97fce93a572c09c,
        0x5e1648eb384c350a7571b746dc80e684,
    ),
    (
        0x1651a8cd0244beda1a5da4c10640bade,
        0xc8a305808b3f7bd043274870d9b1e331,
    ),
    (
        0xae87dff00ff11b68a68ed5fb03fc1567,
        0xb5708e13665a7de14d3d824ca9f151c2,
    ),
    (
        0x6de1f1486fa54f9275f8eb5373b8518d,
        0x74da7ba3439c7e50c81833a09a96ab41,
    ),
    (
        0xc656827fc9a799176f294cec6cd5598b,
        0x3ca69715d32af3f22b67ffade4ccd38e,
    ),
    (
        0x3de23a75524775e727bf9eb45407cf39,
        0xf85fc4f3374605f38b844df0528e98e1,
    ),
    (
        0x0bdc905fc27b0948ad5245a4c1871c2f,
        0xde69409aef8c64e7f84d0c5fcfab2c23,
    ),
    (
        0x45f5a66017b2d387300d4d33640a820a,
        0xaed55816cf19c100bcc24803d90ad511,
    ),
    (
        0x7ccff71cbeb4fe5413e6bbf0d261a7df,
        0x15c668bd31e5247d17c168b837e6207c,
    ),
    (
        0xf01afafee7a82979d7a5644ab3afe640,
        0x7fd7850f61cc991673db890365c89d12,
    ),
    (
        0x2541fe719bf500258813bbd55a721c0a,
        0x2a2840c924234cc026244cc5202748c4,
    ),
    (
        0x4e5a6699a9f24fe07e572baacdf8cdea,
        0x1a1f181d1e1b1c191217101516131411,
    ),
    (
        0x24fc79ccbf0979e9371ac23c6d68de36,
        0x000102030405060708090a0b0c0d0e0f,
    ),
];

/// Both schedules have the round keys of the table, and zeros behind them.
fn expect_schedules(rt: &impl Abort, key: &[u8], rounds: &[(u128, u128)])
    requires { IsKeySize (length key.now) }
{
    let schedule = Schedule::expand(key);
    let (forward, inverse) = (encryption_schedule(&schedule), inverse_schedule(&schedule));
    let (forward, inverse) = (
        forward.as_chunks::<16>().0.iter(),
        inverse.as_chunks::<16>().0.iter(),
    );
    for (r, (found, opened)) in forward.zip(inverse).enumerate() {
        let (wanted, wanted_opened) = rounds.get(r).copied().unwrap_or((0, 0));
        expect_number(rt, u128::from_be_bytes(*found), wanted);
        expect_number(rt, u128::from_be_bytes(*opened), wanted_opened);
    }
}

#[test]
fn schedules_are_those_of_the_standard(rt: HostRuntime) {
    expect_schedules(&rt, &COUNTING[..16], &ROUNDS_128);
    expect_schedules(&rt, &COUNTING[..24], &ROUNDS_192);
    expect_schedules(&rt, &COUNTING, &ROUNDS_256);
}
