//! A key of its own in each lane: byte j of lane i's key is 16 i + j modulo 256, and each byte of its block is i. The ciphertexts are
//! those of OpenSSL (`openssl enc -aes-128-ecb -nopad`, and likewise for 192 and 256 bits).
ghost use Rattle.std.specs.Prelude.{◌≡◌, ◌+◌, ◌*◌, ◌/◌, length};
ghost use Rattle.mbj_aes.specs.Bytes.{IsKeySize};
ghost use Rattle.mbj_aes_lanes.specs.KeyLanes.{IsFull};

use crate::compare::expect;
use mbj_aes::Schedule;
use mbj_aes_lanes::{LaneKeys, decrypt32, encrypt32};
use mbj_types::AES_LANES;
use std::process::Abort;

/// The ciphertexts under keys of 128 bits, lane by lane.
const CIPHERTEXTS_128: [u128; AES_LANES] = [
    0xc6a1_3b37_878f_5b82_6f4f_8162_a1c8_d879,
    0x0138_08e8_1ac0_84d3_edac_f690_e035_0922,
    0xd1d5_310b_f9b9_22c4_e603_00e2_1e43_ec53,
    0x5411_d5e9_1d41_980f_71af_5c97_0418_6183,
    0x78dd_2b94_efb0_388a_fd5b_012d_946d_8916,
    0x942f_acac_56b2_a608_6788_eb02_e38b_e92d,
    0xf8f4_a87b_d16c_cb7b_9b3e_805a_0ae4_0545,
    0x5c47_38cc_e22c_5ef6_de86_ee13_c8b0_aa90,
    0x35f9_22f7_3dec_ac16_2703_7b25_e262_d040,
    0x0ba3_2328_a771_40ef_800c_046c_a858_ddcc,
    0x225c_109d_b5fd_013b_fcf3_fe9e_1153_176b,
    0xe627_49b5_a96e_8e77_f50f_db0d_439c_d430,
    0x8eba_2096_6fd5_a1c8_6207_bbcb_af3f_fefc,
    0xc372_1ba9_35a4_71d1_5ded_7583_a3ba_8842,
    0x1581_5d90_6e26_b6e5_7013_69fc_45c9_9797,
    0x3024_f633_09e9_06ca_32fa_7f92_89fd_2918,
    0x954f_64f2_e4e8_6e9e_ee82_d202_1668_4899,
    0xdeb9_fa37_6bcb_8f61_da45_d87d_7cc3_1afc,
    0xee15_0e0f_3798_8798_62e5_e6d8_477b_c915,
    0x0320_1509_922e_a814_38b4_ddb8_9095_29e7,
    0x52d2_505a_5e62_4c0a_a350_9c62_bb12_49ce,
    0x39a7_7bf9_3c12_d81d_5d60_7981_51e8_2efc,
    0x3b79_ad2a_e14d_b65d_bf15_0b7d_b5a6_84ae,
    0xace6_97cd_0cb1_5969_706f_65db_987e_9584,
    0x66b4_3db2_ff28_29a9_b2c0_3536_f965_cf7d,
    0xbd72_8499_3efb_6c9c_0bde_7503_7f1d_8240,
    0x0c94_2fba_1e06_2b50_6414_f0c8_118c_cbbc,
    0x38d9_da5f_67d8_9a79_bb42_7bed_1987_a7ec,
    0x27cc_9ce7_14ed_8e77_adef_8a55_8a65_7ece,
    0x9298_ca02_55d5_1a22_f537_bbc5_43c0_796f,
    0xd955_da51_6682_04c1_33cc_37ac_e660_fff6,
    0x44ad_5f09_14e5_1284_1b77_fe23_9b88_02e1,
];

/// Those under keys of 192 bits.
const CIPHERTEXTS_192: [u128; AES_LANES] = [
    0x9162_5182_1c73_a522_c396_d627_3801_9607,
    0x93da_9e22_cdaa_2be4_904d_9a5e_da55_cf13,
    0x0d43_3ec6_8db4_6f08_5b11_f1a4_35a3_bc42,
    0xd684_d006_f4f8_0292_619e_38ad_13a6_d1b4,
    0xceb6_8d2a_044c_4add_7cfa_cbf1_5472_3d4f,
    0x12b2_10a8_db36_f61d_7582_f741_ad80_7753,
    0x50ce_fab5_1e10_cf2f_063e_7c0f_f255_76a8,
    0x28f4_fe1e_7076_0ff1_7333_5ac5_1cbd_5363,
    0x7037_611e_8dc6_16aa_a1f2_c7dd_87aa_45f9,
    0x8b50_33a5_beca_550b_2191_59af_de86_ce33,
    0x6a1c_cb23_9e7c_4f9f_2574_6491_7d10_27a1,
    0xd78d_dedc_9a11_e3b4_927a_400c_6acb_886d,
    0xb778_40c7_9b79_c712_c68f_238e_b2c6_66bb,
    0xa45e_a8b5_0dc5_707e_8dd9_3fc9_01ab_3d38,
    0x5fcb_931b_cf36_df75_b1e9_fa00_8da1_1b39,
    0xf3b3_0dce_1f54_8c7d_0f25_b05a_fc15_d940,
    0x3fe7_286a_bde5_f039_43d5_7770_2025_9626,
    0xbbfd_fe8c_a687_92c3_d9c4_0eca_8fcd_ea9e,
    0xe011_191c_9478_3e0c_e2e5_0583_89f2_71f3,
    0x8347_2c45_0793_8c2d_c2f2_9dac_135e_9b7f,
    0x5874_8f9a_8a3a_4722_b465_19a2_8142_5eee,
    0xa546_c747_5e89_ad3c_e385_ed3e_afad_2f3d,
    0xe959_7297_e33e_3a68_c92c_af54_f4c1_e89e,
    0x9f54_4654_674d_e6c4_2180_a8af_3da9_bcb2,
    0x1c58_676b_b86c_410b_9cbd_e4cf_f316_1f43,
    0xbc8b_ccfb_248b_fab8_cfff_50fe_555c_c04e,
    0x1891_320c_0604_5727_b82b_bb21_886f_e870,
    0xceae_99e6_c3c2_1bc6_e7e8_2080_9f37_978c,
    0x4ade_7fdf_11ea_8e0b_ef9e_10ab_daad_b389,
    0x737a_2394_168a_e4ff_c6f3_bb29_a14c_4550,
    0xdb7d_bf3b_04af_351a_0880_68ca_9290_5247,
    0x5031_93ca_4911_fef1_1e0a_e5dd_0e1b_23bd,
];

/// Those under keys of 256 bits.
const CIPHERTEXTS_256: [u128; AES_LANES] = [
    0xf290_00b6_2a49_9fd0_a9f3_9a6a_dd2e_7780,
    0x4161_817c_8da8_159b_4515_31ae_da4a_3fe8,
    0x71c8_1777_c727_4684_63a9_643b_d1b3_0885,
    0x704f_918c_d4f0_8611_0104_d693_8475_fb5c,
    0xb0ad_e1e5_1659_ea36_08db_73c0_763c_fa62,
    0x3bdf_c968_929d_9a86_4ce3_6387_61f3_1731,
    0x0cc4_753d_c7b4_3628_43d8_40b7_b788_552a,
    0x1fc7_a33d_e9cf_69b5_b776_d09f_c71a_3a0b,
    0x665e_3c06_a257_fa27_3ccd_9a54_9e5f_3a4a,
    0x48f8_16d5_35e1_c95c_728e_852c_e956_daef,
    0x9449_cf0d_31c3_9242_5cc4_1b0b_d377_798b,
    0x6964_2098_a595_18fc_ea18_2525_fa80_bfba,
    0x9d9a_8908_7a8c_39af_77f7_636c_28eb_4043,
    0x1c29_935c_95c9_a0c1_d59b_ed3f_a723_79a7,
    0x5c7f_cdc6_7f21_733f_97ae_e952_aac4_ce54,
    0x9b3f_9370_4974_d9e0_79e1_9591_2fb7_6c70,
    0x9f3b_7504_926f_8bd3_6e31_18e9_03a4_cd4a,
    0x4c6a_1bd2_8e6d_85c4_bcf4_def8_d1ba_b48f,
    0x3750_c131_a73d_7e4a_6633_98a2_89e9_a492,
    0x7fee_a7c6_7416_0208_aece_e4d0_427d_d2c6,
    0xf8b5_5391_2ba5_7b6b_b764_acf4_91f5_3ab0,
    0xde9e_8f6f_7a4d_2007_92e9_1d0f_2c50_42ae,
    0xdef4_04fe_0eda_cbf3_eb40_6603_7cb3_d5a0,
    0xad86_9ea3_b302_231c_a3d3_0053_1abe_fc9e,
    0x46b8_c209_6f7e_862f_2d73_197a_228c_4ced,
    0x4f49_d569_82fc_dd18_6ca3_cf19_8db0_26d1,
    0xc6dc_75c2_e653_d3ef_adba_c173_4aa6_d6c2,
    0x4842_403c_fe5e_806c_ec2f_d6da_fc3a_1b1e,
    0xf814_23ae_0078_6005_cbf4_f156_2dd7_560b,
    0xfc73_53cb_40b8_9e6c_5ccb_b22c_8c53_bc76,
    0x5451_97a0_6188_25fd_7e85_353c_937d_c261,
    0x9444_f678_e5d5_dbc2_5413_8169_7470_d832,
];

/// The longest key of a lane, of which the shorter ones are the first bytes.
fn key_of(lane: u8) -> [u8; 32] {
    let mut key = [0; 32];
    for j in 0..32usize {
        key[j] = lane.wrapping_mul(16).wrapping_add(j as u8);
    }
    key
}

/// The schedule of a lane's key of `key_bytes` bytes.
fn schedule_of(lane: u8, key_bytes: usize) -> Schedule
    requires { IsKeySize key_bytes }
    ensures { length result ≡ 16 * (key_bytes / 4 + 7) }
{
    Schedule::expand(&key_of(lane)[..key_bytes])
}

/// Lanes whose keys have `key_bytes` bytes, each with its own.
fn own_keys(key_bytes: usize) -> LaneKeys
    requires { IsKeySize key_bytes }
    ensures { IsFull result }
{
    let mut keys = LaneKeys::all(&schedule_of(0, key_bytes));
    'lanes: for lane in 1..AES_LANES as u32 {
        keys.put(lane, &schedule_of(lane as u8, key_bytes));
    }
    keys
}

/// Each lane's block is encrypted to its ciphertext and back.
fn check(rt: &impl Abort, keys: &LaneKeys, ciphertexts: &[u128; AES_LANES])
    requires { IsFull keys.now }
{
    let mut blocks = [[0; 16]; AES_LANES];
    for lane in 0..AES_LANES {
        blocks[lane] = [lane as u8; 16];
    }
    encrypt32(keys, &mut blocks);
    for (block, ciphertext) in blocks.iter().zip(ciphertexts) {
        expect(rt, "encrypted", *block, ciphertext.to_be_bytes());
    }
    decrypt32(keys, &mut blocks);
    for (lane, block) in blocks.iter().enumerate() {
        expect(rt, "decrypted", *block, [lane as u8; 16]);
    }
}

#[test]
fn each_lane_goes_by_its_own_key(rt: HostRuntime) {
    check(&rt, &own_keys(16), &CIPHERTEXTS_128);
    check(&rt, &own_keys(24), &CIPHERTEXTS_192);
    check(&rt, &own_keys(32), &CIPHERTEXTS_256);
}
