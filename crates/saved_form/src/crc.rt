//! The CRC-64/XZ of bytes, eight at a time.
ghost use Rattle.std.specs.Prelude.{◌≡◌, ◌+◌, ◌*◌, ◌<◌, ◌≤◌, ◌++◌, List, ℕ, length, drop, codes};
ghost use Rattle.saved_form.specs.{Crc.{bit_step, bit_steps, byte_step, crc64, nibble}, Reading.{eight_in}};

/// The polynomial with its bits in the other order.
const REFLECTED: u64 = 0xc96c_5795_d787_0f42;

/// What each four bits of eight bytes make of the register: sixteen numbers for each four bits, the lowest bits of the
/// first byte first.
static OF_BITS: [u64; 256] = [
    0x0000_0000_0000_0000,
    0xdabe_95af_c787_5f40,
    0x27a5_8474_2000_a005,
    0xfd1b_11db_e787_ff45,
    0x4f4b_08e8_4001_400a,
    0x95f5_9d47_8786_1f4a,
    0x68ee_8c9c_6001_e00f,
    0xb250_1933_a786_bf4f,
    0x9e96_11d0_8002_8014,
    0x4428_847f_4785_df54,
    0xb933_95a4_a002_2011,
    0x638d_000b_6785_7f51,
    0xd1dd_1938_c003_c01e,
    0x0b63_8c97_0784_9f5e,
    0xf678_9d4c_e003_601b,
    0x2cc6_08e3_2784_3f5b,
    0x0000_0000_0000_0000,
    0xaff4_8c8a_af0b_1ead,
    0xcd31_b63e_f118_23df,
    0x62c5_3ab4_5e13_3d72,
    0x08bb_c356_4d3e_593b,
    0xa74f_4fdc_e235_4796,
    0xc58a_7568_bc26_7ae4,
    0x6a7e_f9e2_132d_6449,
    0x1177_86ac_9a7c_b276,
    0xbe83_0a26_3577_acdb,
    0xdc46_3092_6b64_91a9,
    0x73b2_bc18_c46f_8f04,
    0x19cc_45fa_d742_eb4d,
    0xb638_c970_7849_f5e0,
    0xd4fd_f3c4_265a_c892,
    0x7b09_7f4e_8951_d63f,
    0x0000_0000_0000_0000,
    0x22ef_0d59_34f9_64ec,
    0x45de_1ab2_69f2_c9d8,
    0x6731_17eb_5d0b_ad34,
    0x8bbc_3564_d3e5_93b0,
    0xa953_383d_e71c_f75c,
    0xce62_2fd6_ba17_5a68,
    0xec8d_228f_8eee_3e84,
    0x85a0_c5e2_08c5_39e5,
    0xa74f_c8bb_3c3c_5d09,
    0xc07e_df50_6137_f03d,
    0xe291_d209_55ce_94d1,
    0x0e1c_f086_db20_aa55,
    0x2cf3_fddf_efd9_ceb9,
    0x4bc2_ea34_b2d2_638d,
    0x692d_e76d_862b_0761,
    0x0000_0000_0000_0000,
    0x9999_24ef_be84_6d4f,
    0xa1ea_e6f4_d206_c41b,
    0x3873_c21b_6c82_a954,
    0xd10d_62c2_0b03_96b3,
    0x4894_462d_b587_fbfc,
    0x70e7_8436_d905_52a8,
    0xe97e_a0d9_6781_3fe7,
    0x30c2_6aaf_b909_33e3,
    0xa95b_4e40_078d_5eac,
    0x9128_8c5b_6b0f_f7f8,
    0x08b1_a8b4_d58b_9ab7,
    0xe1cf_086d_b20a_a550,
    0x7856_2c82_0c8e_c81f,
    0x4025_ee99_600c_614b,
    0xd9bc_ca76_de88_0c04,
    0x0000_0000_0000_0000,
    0x6184_d55f_7212_67c6,
    0xc309_aabe_e424_cf8c,
    0xa28d_7fe1_9636_a84a,
    0x14cb_fa56_6747_819d,
    0x754f_2f09_1555_e65b,
    0xd7c2_50e8_8363_4e11,
    0xb646_85b7_f171_29d7,
    0x2997_f4ac_ce8f_033a,
    0x4813_21f3_bc9d_64fc,
    0xea9e_5e12_2aab_ccb6,
    0x8b1a_8b4d_58b9_ab70,
    0x3d5c_0efa_a9c8_82a7,
    0x5cd8_dba5_dbda_e561,
    0xfe55_a444_4dec_4d2b,
    0x9fd1_711b_3ffe_2aed,
    0x0000_0000_0000_0000,
    0x532f_e959_9d1e_0674,
    0xa65f_d2b3_3a3c_0ce8,
    0xf570_3bea_a722_0a9c,
    0xde67_0a4d_db76_0755,
    0x8d48_e314_4668_0121,
    0x7838_d8fe_e14a_0bbd,
    0x2b17_31a7_7c54_0dc9,
    0x2e16_bbb0_19e2_102f,
    0x7d39_52e9_84fc_165b,
    0x8849_6903_23de_1cc7,
    0xdb66_805a_bec0_1ab3,
    0xf071_b1fd_c294_177a,
    0xa35e_58a4_5f8a_110e,
    0x562e_634e_f8a8_1b92,
    0x0501_8a17_65b6_1de6,
    0x0000_0000_0000_0000,
    0x5c2d_7760_33c4_205e,
    0xb85a_eec0_6788_40bc,
    0xe477_99a0_544c_60e2,
    0xe26d_72ab_601e_9ffd,
    0xbe40_05cb_53da_bfa3,
    0x5a37_9c6b_0796_df41,
    0x061a_eb0b_3452_ff1f,
    0x5602_4a7d_6f33_217f,
    0x0a2f_3d1d_5cf7_0121,
    0xee58_a4bd_08bb_61c3,
    0xb275_d3dd_3b7f_419d,
    0xb46f_38d6_0f2d_be82,
    0xe842_4fb6_3ce9_9edc,
    0x0c35_d616_68a5_fe3e,
    0x5018_a176_5b61_de60,
    0x0000_0000_0000_0000,
    0xac04_94fa_de66_42fe,
    0xcad1_86de_13c2_9b79,
    0x66d5_1224_cda4_d987,
    0x077b_a297_888b_2877,
    0xab7f_366d_56ed_6a89,
    0xcdaa_2449_9b49_b30e,
    0x61ae_b0b3_452f_f1f0,
    0x0ef7_452f_1116_50ee,
    0xa2f3_d1d5_cf70_1210,
    0xc426_c3f1_02d4_cb97,
    0x6822_570b_dcb2_8969,
    0x098c_e7b8_999d_7899,
    0xa588_7342_47fb_3a67,
    0xc35d_6166_8a5f_e3e0,
    0x6f59_f59c_5439_a11e,
    0x0000_0000_0000_0000,
    0x1dee_8a5e_222c_a1dc,
    0x3bdd_14bc_4459_43b8,
    0x2633_9ee2_6675_e264,
    0x77ba_2978_88b2_8770,
    0x6a54_a326_aa9e_26ac,
    0x4c67_3dc4_cceb_c4c8,
    0x5189_b79a_eec7_6514,
    0xef74_52f1_1165_0ee0,
    0xf29a_d8af_3349_af3c,
    0xd4a9_464d_553c_4d58,
    0xc947_cc13_7710_ec84,
    0x98ce_7b89_99d7_8990,
    0x8520_f1d7_bbfb_284c,
    0xa313_6f35_dd8e_ca28,
    0xbefd_e56b_ffa2_6bf4,
    0x0000_0000_0000_0000,
    0x4c30_0ac9_8dc4_0345,
    0x9860_1593_1b88_068a,
    0xd450_1f5a_964c_05cf,
    0xa218_840d_981e_1391,
    0xee28_8ec4_15da_10d4,
    0x3a78_919e_8396_151b,
    0x7648_9b57_0e52_165e,
    0xd6e9_a730_9f32_39a7,
    0x9ad9_adf9_12f6_3ae2,
    0x4e89_b2a3_84ba_3f2d,
    0x02b9_b86a_097e_3c68,
    0x74f1_233d_072c_2a36,
    0x38c1_29f4_8ae8_2973,
    0xec91_36ae_1ca4_2cbc,
    0xa0a1_3c67_9160_2ff9,
    0x0000_0000_0000_0000,
    0x3f0b_e14a_916a_6dcb,
    0x7e17_c295_22d4_db96,
    0x411c_23df_b3be_b65d,
    0xfc2f_852a_45a9_b72c,
    0xc324_6460_d4c3_dae7,
    0x8238_47bf_677d_6cba,
    0xbd33_a6f5_f617_0171,
    0x6a87_a57f_245d_70dd,
    0x558c_4435_b537_1d16,
    0x1490_67ea_0689_ab4b,
    0x2b9b_86a0_97e3_c680,
    0x96a8_2055_61f4_c7f1,
    0xa9a3_c11f_f09e_aa3a,
    0xe8bf_e2c0_4320_1c67,
    0xd7b4_038a_d24a_71ac,
    0x0000_0000_0000_0000,
    0xd50f_4afe_48ba_e1ba,
    0x38c6_3ad7_3e7b_ddf1,
    0xedc9_7029_76c1_3c4b,
    0x718c_75ae_7cf7_bbe2,
    0xa483_3f50_344d_5a58,
    0x494a_4f79_428c_6613,
    0x9c45_0587_0a36_87a9,
    0xe318_eb5c_f9ef_77c4,
    0x3617_a1a2_b155_967e,
    0xdbde_d18b_c794_aa35,
    0x0ed1_9b75_8f2e_4b8f,
    0x9294_9ef2_8518_cc26,
    0x479b_d40c_cda2_2d9c,
    0xaa52_a425_bb63_11d7,
    0x7f5d_eedb_f3d9_f06d,
    0x0000_0000_0000_0000,
    0x54e9_7992_5cd0_f10d,
    0xa9d2_f324_b9a1_e21a,
    0xfd3b_8ab6_e571_1317,
    0xc17d_4962_dc4d_dab1,
    0x9594_30f0_809d_2bbc,
    0x68af_ba46_65ec_38ab,
    0x3c46_c3d4_393c_c9a6,
    0x1022_3dee_1795_abe7,
    0x44cb_447c_4b45_5aea,
    0xb9f0_ceca_ae34_49fd,
    0xed19_b758_f2e4_b8f0,
    0xd15f_748c_cbd8_7156,
    0x85b6_0d1e_9708_805b,
    0x788d_87a8_7279_934c,
    0x2c64_fe3a_2ea9_6241,
    0x0000_0000_0000_0000,
    0x2044_7bdc_2f2b_57ce,
    0x4088_f7b8_5e56_af9c,
    0x60cc_8c64_717d_f852,
    0x8111_ef70_bcad_5f38,
    0xa155_94ac_9386_08f6,
    0xc199_18c8_e2fb_f0a4,
    0xe1dd_6314_cdd0_a76a,
    0x90fb_71ca_d654_a0f5,
    0xb0bf_0a16_f97f_f73b,
    0xd073_8672_8802_0f69,
    0xf037_fdae_a729_58a7,
    0x11ea_9eba_6af9_ffcd,
    0x31ae_e566_45d2_a803,
    0x5162_6902_34af_5051,
    0x7126_12de_1b84_079f,
    0x0000_0000_0000_0000,
    0xb32e_4cbe_03a7_5f6f,
    0xf484_3657_a840_a05b,
    0x47aa_7ae9_abe7_ff34,
    0x7bd0_c384_ff8f_5e33,
    0xc8fe_8f3a_fc28_015c,
    0x8f54_f5d3_57cf_fe68,
    0x3c7a_b96d_5468_a107,
    0xf7a1_8709_ff1e_bc66,
    0x448f_cbb7_fcb9_e309,
    0x0325_b15e_575e_1c3d,
    0xb00b_fde0_54f9_4352,
    0x8c71_448d_0091_e255,
    0x3f5f_0833_0336_bd3a,
    0x78f5_72da_a8d1_420e,
    0xcbdb_3e64_ab76_1d61,
    0x0000_0000_0000_0000,
    0x7d9b_a138_5133_6649,
    0xfb37_4270_a266_cc92,
    0x86ac_e348_f355_aadb,
    0x64b6_2bca_ebc3_87a1,
    0x192d_8af2_baf0_e1e8,
    0x9f81_69ba_49a5_4b33,
    0xe21a_c882_1896_2d7a,
    0xc96c_5795_d787_0f42,
    0xb4f7_f6ad_86b4_690b,
    0x325b_15e5_75e1_c3d0,
    0x4fc0_b4dd_24d2_a599,
    0xadda_7c5f_3c44_88e3,
    0xd041_dd67_6d77_eeaa,
    0x56ed_3e2f_9e22_4471,
    0x2b76_9f17_cf11_2238,
];

/// What four bits of the register make of it, once 64 bits have gone out.
#[inline(always)]
fn of_nibble(place: usize, register: u64) -> u64
    requires { place < 16 }
    ensures { result ≡ bit_steps 64 (nibble place register) }
{
    let bits = register >> (4 * place) & 15;
    OF_BITS[16 * place + bits as usize]
}

/// The register once 64 bits have gone out.
#[inline(always)]
fn after_eight(register: u64) -> u64
    ensures { result ≡ bit_steps 64 register }
{
    let mut after = 0;
    for place in 0..16 {
        after ^= of_nibble(place, register);
    }
    after
}

/// The register once a bit has gone out.
fn after_bit(register: u64) -> u64
    ensures { result ≡ bit_step register }
{
    if register % 2 == 1 {
        register / 2 ^ REFLECTED
    } else {
        register / 2
    }
}

/// The register once a byte has come in.
fn after_byte(register: u64, byte: u8) -> u64
    ensures { result ≡ byte_step register byte }
{
    let mut after = register ^ byte as u64;
    for _ in 0..8u32 {
        after = after_bit(after);
    }
    after
}

/// The eight bytes at the place, as a number.
#[inline(always)]
pub(crate) fn eight_at(bytes: &[u8], at: usize) -> u64
    requires { at + 8 ≤ length bytes.now }
    ensures { result ≡ eight_in bytes.now at }
{
    let eight = &bytes[at..at + 8];
    u64::from_le_bytes([
        eight[0], eight[1], eight[2], eight[3], eight[4], eight[5], eight[6], eight[7],
    ])
}

/// The CRC-64/XZ of bytes behind those whose CRC is `sum`, which is 0 for none. The check value is that of the
/// catalogue of CRC algorithms.
#[inline(always)]
pub fn sum_of(sum: u64, bytes: &[u8]) -> u64
    ensures value { result ≡ crc64 sum bytes.now }
    ensures goes_on { (more : List ℕ) → crc64 result more ≡ crc64 sum (bytes.now ++ more) }
    ensures check_value { crc64 0 (codes "123456789") ≡ 0x995d_c9bb_df19_39fa }
{
    let mut register = !sum;
    let whole = bytes.len() / 8;
    for i in 0..whole {
        register = after_eight(register ^ eight_at(bytes, 8 * i));
    }
    for byte in &bytes[8 * whole..] {
        register = after_byte(register, *byte);
    }
    !register
}
