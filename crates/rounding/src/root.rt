// The square root of an `f32` and of an `f64`, correctly rounded, worked out from the bits of the
// number: no float instruction does it.

ghost use Rattle.std.specs.Prelude.{◌≡◌, ◌+◌, ◌*◌, ◌/◌, ◌^◌, ◌<◌, ◌≤◌, if◌then◌else◌, Some, None, from_bits};
ghost use Rattle.std.specs.Float.{binary32, binary64};
ghost use Rattle.std.specs.Float.Ieee.{prec, emax, low, hid, ones};
ghost use Rattle.rounding.specs.Root.{sqrt_of, root_of, near_one};
ghost use Rattle.rounding.specs.Steps.{Root, Rooted, Guessed, Radicand};

use crate::binary::Binary;

// Near the root of n, for an n from 2^52 up: a parabola in its first 16 digits, and Newton's step with
// its first 32. No proof looks at how near it is.
fn guess(n: u64) -> u64
    requires { n < 2 ^ 54 }
    ensures { Guessed result }
{
    let a = n / 0x40_0000;
    let t = a / 0x1_0000;
    let g = 17270 + t * (33967 - t * 9997 / 0x1_0000) / 0x8000;
    (g + a / g) * 0x400
}

// The whole root of n, searched one by one from g.
fn root_from(n: u64, g: u64) -> u64
    requires n_bound { n < 2 ^ 54 }
    requires g_bound { g < 2 ^ 28 }
    ensures { Root result n }
{
    let mut r = g;
    while r * r > n {
        r = r - 1;
    }
    while (r + 1) * (r + 1) <= n {
        r = r + 1;
    }
    r
}

// The whole root of n: Newton's step from the guess, which is the root for about 999 in 1000 numbers
// from 2^52 up.
fn root(n: u64) -> u64
    requires { n < 2 ^ 54 }
    ensures { Root result n }
{
    let g = guess(n);
    let r = (g + n / g) / 2 % 0x1000_0000;
    if r * r <= n && n < (r + 1) * (r + 1) {
        return r;
    }
    root_from(n, r)
}

// The whole root of h * 2^54: s is that of h, its upper half, and the lower half q is what is left
// of h divided by twice s, or one less.
fn root_wide(h: u64) -> u64
    requires h_least { 2 ^ 52 ≤ h }
    requires h_bound { h < 2 ^ 54 }
    ensures { Root result (h * 2 ^ 54) }
{
    let s = root(h);
    let left = (h - s * s) * 0x400_0000;
    let q = left / s;
    let rest = left % s * 0x1000_0000;
    let r = s * 0x800_0000 + q;
    if rest < q * q { r - 1 } else { r }
}

// The whole root of y * 2^n, where n is the number of digits, for the two types that there are.
fn root_digits<T: Binary>(y: u64) -> u64
    requires { Radicand y T.DIGITS }
    ensures { Root result (y * 2 ^ T.DIGITS) }
{
    if T::DIGITS == 24 {
        root(y * 0x1000_0000) / 4
    } else {
        root_wide(y / 2)
    }
}

// The bits of the root of m * 2^k times the smallest value of the format.
#[inline(always)]
fn root_of<T: Binary>(m: u64, k: u64) -> u64
    requires m_some { 0 < m }
    requires m_bound { m < 2 ^ prec T.format }
    requires k_bound { k < 2 * emax T.format }
    ensures { Rooted T.format (root_of T.format (m * 2 ^ k) (2 ^ low T.format)) result }
{
    let (p, e) = (T::DIGITS, T::EMAX);
    let z = (u64::leading_zeros(m) as u64) - (64 - p);
    let d = k + (e - 1) - z;
    let y = (m << z) << (1 + d % 2);
    let r = root_digits::<T>(y);
    ((d / 2) << (p - 1)) + (r + 1) / 2
}

// The bits of the root of the number with the bits b, which is finite and above zero.
fn root_bits<T: Binary>(b: u64) -> u64
    requires b_some { 0 < b }
    requires b_finite { b < ones T.format * hid T.format }
    ensures { Rooted T.format (sqrt_of T.format (from_bits T.format b)) result }
{
    let p = T::DIGITS;
    let lead: u64 = 1 << (p - 1);
    let field = b >> (p - 1);
    let digits = b & (lead - 1);
    if field == 0 {
        root_of::<T>(digits, 0)
    } else {
        root_of::<T>(lead + digits, field - 1)
    }
}

// The parabolas of `trial`, packed: one for each of the first seven binary places, under an even field of
// the exponent and under an odd one. No proof looks at what they are.
static PARABOLAS: [u64; 256] = [
    0x6a09_e771_6809_82d0,
    0x6b73_3d09_66a1_aac8,
    0x6cdb_2cc9_653d_b2bf,
    0x6e41_bac9_63de_02b7,
    0x6fa6_eb21_6282_8ab0,
    0x710a_c1c1_612a_baa8,
    0x726d_4291_5fd6_baa0,
    0x73ce_7159_5e86_ba99,
    0x752e_51e1_5d3a_6a92,
    0x768c_e7e1_5bf1_728a,
    0x77ea_36e1_5aac_4a83,
    0x7946_4279_596a_9a7c,
    0x7aa1_0e21_582c_9a76,
    0x7bfa_9d49_56f1_b26f,
    0x7d52_f351_55ba_1a68,
    0x7eaa_1379_5486_0262,
    0x8000_0109_5355_1a5c,
    0x8154_bf31_5227_1255,
    0x82a8_5111_50fc_624f,
    0x83fa_b9c1_4fd4_b249,
    0x854b_fc41_4eb0_0243,
    0x869c_1b91_4d8e_7a3e,
    0x87eb_1a99_4c6f_9a38,
    0x8938_fc41_4b53_8a32,
    0x8a85_c359_4a3a_822d,
    0x8bd1_72a9_4923_fa27,
    0x8d1c_0cf1_4810_6222,
    0x8e65_94e1_46ff_721d,
    0x8fae_0d21_45f1_1a18,
    0x90f5_7849_44e5_1a12,
    0x923b_d8e9_43db_da0d,
    0x9381_3191_42d5_5a09,
    0x94c5_84b9_41d1_0a04,
    0x9608_d4c9_40cf_29ff,
    0x974b_2439_3fcf_a1fa,
    0x988c_7561_3ed2_b1f6,
    0x99cc_caa1_3dd7_c9f1,
    0x9b0c_2639_3cdf_31ec,
    0x9c4a_8a71_3be9_09e8,
    0x9d87_f989_3af5_19e4,
    0x9ec4_75a9_3a03_11df,
    0xa000_0109_3913_71db,
    0xa13a_9dc1_3825_e9d7,
    0xa274_4df1_373a_71d3,
    0xa3ad_13a9_3651_01cf,
    0xa4e4_f0f1_3569_99cb,
    0xa61b_e7d9_3484_29c7,
    0xa751_fa49_33a0_b1c3,
    0xa887_2a41_32bf_29bf,
    0xa9bb_79b9_31df_81bb,
    0xaaee_ea81_3101_f9b8,
    0xac21_7e81_3026_11b4,
    0xad53_3799_2f4b_f9b0,
    0xae84_1799_2e73_e9ad,
    0xafb4_2049_2d9d_61a9,
    0xb0e3_5369_2cc8_d9a6,
    0xb211_b2d1_2bf5_c9a2,
    0xb33f_4019_2b24_a99f,
    0xb46b_fd09_2a55_399c,
    0xb597_eb51_2987_3198,
    0xb6c3_0c89_28bb_1195,
    0xb7ed_6261_27f0_8992,
    0xb916_ee69_2727_998f,
    0xba3f_b249_2660_398c,
    0xbb67_af89_259a_6989,
    0xbc8e_e7b9_24d6_1986,
    0xbdb5_5c59_2413_5183,
    0xbedb_0ef1_2352_0980,
    0xc000_0101_2292_397d,
    0xc124_3401_21d3_d97a,
    0xc247_a969_2116_e977,
    0xc36a_6299_205b_6974,
    0xc48c_6109_1fa1_4971,
    0xc5ad_a619_1ee8_d16f,
    0xc6ce_3331_1e31_716c,
    0xc7ee_09a9_1d7b_6969,
    0xc90d_2ad9_1cc6_f967,
    0xca2b_9819_1c13_9964,
    0xcb49_52b9_1b61_8961,
    0xcc66_5c01_1ab1_015f,
    0xcd82_b549_1a01_795c,
    0xce9e_5fc9_1953_715a,
    0xcfb9_5cc1_18a6_6957,
    0xd0d3_ad69_17fa_d955,
    0xd1ed_5309_1750_8153,
    0xd306_4ed1_16a7_1950,
    0xd41e_a1e9_15ff_214e,
    0xd536_4d91_1558_114b,
    0xd64d_52e1_14b2_6949,
    0xd763_b311_140d_e147,
    0xd879_6f39_136a_8145,
    0xd98e_8881_12c7_f942,
    0xdaa3_0001_1226_d140,
    0xdbb6_d6d1_1186_b93e,
    0xdcca_0e11_10e7_b93c,
    0xdddc_a6c9_1049_c93a,
    0xdeee_a219_0fac_e138,
    0xe000_0109_0f11_0936,
    0xe110_c499_0e76_3934,
    0xe220_edd1_0ddc_7132,
    0xe330_7dc1_0d43_a930,
    0xe43f_7571_0cab_d92e,
    0xe54d_d5d1_0c15_092c,
    0xe65b_9fe1_0b7f_392a,
    0xe768_d499_0aea_5928,
    0xe875_74f9_0a56_7126,
    0xe981_81e9_09c3_7924,
    0xea8c_fc69_0931_7122,
    0xeb97_e559_08a0_5120,
    0xeca2_3db1_0810_211e,
    0xedac_0651_0781_111d,
    0xeeb5_4021_06f2_b11b,
    0xefbd_ec19_0665_2919,
    0xf0c6_0b09_05d8_8917,
    0xf1cd_9dd1_054d_0116,
    0xf2d4_a559_04c2_1914,
    0xf3db_2279_0438_0912,
    0xf4e1_1609_03af_1111,
    0xf5e6_80e1_0326_b10f,
    0xf6eb_63d9_029f_210d,
    0xf7ef_bfc1_0218_a10c,
    0xf8f3_9561_0192_b90a,
    0xf9f6_e5a1_010d_9108,
    0xfaf9_b131_0089_7907,
    0xfbfb_f8f1_0005_e905,
    0xfcfd_bd98_ff83_6104,
    0xfdff_0000_ff01_6102,
    0xfeff_c0e0_fe80_6101,
    0x0000_0108_fdff_b1fd,
    0x00ff_8188_fd01_29f7,
    0x01fe_0500_fc05_89f1,
    0x02fb_8e58_fb0d_09ec,
    0x03f8_2068_fa17_11e6,
    0x04f3_be08_f924_21e1,
    0x05ee_69f8_f833_a1db,
    0x06e8_26e0_f746_01d6,
    0x07e0_f770_f65b_01d1,
    0x08d8_de40_f572_91cc,
    0x09cf_dde0_f48c_a1c7,
    0x0ac5_f8d0_f3a9_29c2,
    0x0bbb_3180_f2c8_19bd,
    0x0caf_8a60_f1e9_b1b9,
    0x0da3_05e0_f10d_59b4,
    0x0e95_a640_f033_49af,
    0x0f87_6dd0_ef5b_c1ab,
    0x1078_5ee0_ee86_29a6,
    0x1168_7b90_edb3_01a2,
    0x1257_c620_ece2_019e,
    0x1346_40a8_ec13_199a,
    0x1433_ed50_eb46_4196,
    0x1520_ce18_ea7b_7992,
    0x160c_e518_e9b2_a98e,
    0x16f8_3450_e8eb_d18a,
    0x17e2_bda8_e826_f186,
    0x18cc_8320_e763_f182,
    0x19b5_86a0_e6a2_d97e,
    0x1a9d_c9f8_e5e3_d17b,
    0x1b85_4f18_e526_5977,
    0x1c6c_17b8_e46a_f174,
    0x1d52_25b0_e3b1_0970,
    0x1e37_7ac0_e2f9_196d,
    0x1f1c_18a0_e242_a169,
    0x2000_0108_e18e_1166,
    0x20e3_35a0_e0db_2963,
    0x21c5_b810_e029_a95f,
    0x22a7_8a00_df79_f95c,
    0x2388_ad00_decb_e959,
    0x2469_22b0_de1f_5956,
    0x2548_ec98_dd74_5953,
    0x2628_0c38_dcca_e150,
    0x2706_8320_dc22_d94d,
    0x27e4_52c0_db7c_514a,
    0x28c1_7c98_dad7_3947,
    0x299e_0218_da33_8944,
    0x2a79_e4a8_d991_8142,
    0x2b55_25b0_d8f0_a13f,
    0x2c2f_c698_d851_193c,
    0x2d09_c8b8_d7b3_293a,
    0x2de3_2d68_d716_5137,
    0x2ebb_f600_d67a_c134,
    0x2f94_23c0_d5e0_c132,
    0x306b_b808_d547_c12f,
    0x3142_b410_d4b0_412d,
    0x3219_1918_d419_c12a,
    0x32ee_e858_d384_b928,
    0x33c4_2318_d2f0_a125,
    0x3498_ca80_d25d_f923,
    0x356c_dfc0_d1cc_8121,
    0x3640_6408_d13b_f11e,
    0x3713_5880_d0ac_c11c,
    0x37e5_be48_d01e_b11a,
    0x38b7_9680_cf91_c118,
    0x3988_e240_cf05_e916,
    0x3a59_a2b0_ce7a_e113,
    0x3b29_d8d8_cdf1_3111,
    0x3bf9_85d0_cd68_890f,
    0x3cc8_aaa0_cce0_f10d,
    0x3d97_4850_cc5a_590b,
    0x3e65_5ff0_cbd4_c909,
    0x3f32_f280_cb50_3907,
    0x4000_0100_cacc_a905,
    0x40cc_8c70_ca4a_1103,
    0x4198_95c8_c9c8_7101,
    0x4264_1df8_c947_c0ff,
    0x432f_25f8_c8c8_48fe,
    0x43f9_aec0_c849_78fc,
    0x44c3_b940_c7cb_90fa,
    0x458d_4658_c74e_98f8,
    0x4656_56f8_c6d2_80f6,
    0x471e_ebf8_c657_90f5,
    0x47e7_0648_c5dd_40f3,
    0x48ae_a6d0_c563_c8f1,
    0x4975_ce58_c4eb_30ef,
    0x4a3c_7dc8_c473_a8ee,
    0x4b02_b5f8_c3fc_c0ec,
    0x4bc8_77c0_c386_a8ea,
    0x4c8d_c3e0_c311_a0e9,
    0x4d52_9b48_c29d_20e7,
    0x4e16_fea8_c229_b8e6,
    0x4eda_eee8_c1b6_d0e4,
    0x4f9e_6cc0_c144_b8e2,
    0x5061_78f8_c0d3_a0e1,
    0x5124_1458_c063_08df,
    0x51e6_3fa0_bff3_78de,
    0x52a7_fba0_bf84_60dc,
    0x5369_4900_bf16_48db,
    0x542a_2890_bea8_e8da,
    0x54ea_9af8_be3c_08d8,
    0x55aa_a100_bdd0_18d7,
    0x566a_3b60_bd64_98d5,
    0x5729_6ab8_bcfa_10d4,
    0x57e8_2fd0_bc90_38d3,
    0x58a6_8b50_bc26_d0d1,
    0x5964_7de0_bbbe_50d0,
    0x5a22_0838_bb56_40ce,
    0x5adf_2af8_baef_18cd,
    0x5b9b_e6d8_ba88_98cc,
    0x5c58_3c70_ba22_b8cb,
    0x5d14_2c70_b9bd_40c9,
    0x5dcf_b778_b958_b0c8,
    0x5e8a_de20_b8f4_b8c7,
    0x5f45_a118_b891_60c6,
    0x6000_0100_b82e_68c4,
    0x60b9_fe68_b7cc_48c3,
    0x6173_99f8_b76a_c0c2,
    0x622c_d438_b709_d8c1,
    0x62e5_add0_b6a9_80c0,
    0x639e_2758_b649_80be,
    0x6456_4158_b5ea_50bd,
    0x650d_fc70_b58b_b8bc,
    0x65c5_5928_b52d_b0bb,
    0x667c_5818_b4d0_38ba,
    0x6732_f9d0_b473_48b9,
    0x67e9_3ed8_b416_e8b8,
    0x689f_27c8_b3bb_10b7,
    0x6954_b518_b35f_c8b6,
];

// Near the root of the normal `f32` with the bits b, in 24 digits: right for 99 in 100, else one off. No
// proof looks at how near it is.
fn trial(b: u64) -> u64
    ensures { result < 2 ^ 26 }
{
    let w = PARABOLAS[((b >> 16) & 0xff) as usize];
    let d = b & 0xffff;
    let c = w / 0x800 % 0x100_0000 + 0x4000 - w % 0x800 * d / 0x2000;
    (w / 0x8_0000_0000 + 0x2000_0000 + c * d / 0x1_0000) / 0x40
}

// The bits of the root of the normal `f32` with the bits b. The digits v are moved up by 24 places, under
// an odd field of the exponent by 23. The trial r is right where v and its square are at most r apart.
fn root_normal(b: u64) -> u64
    requires b_normal { 2 ^ 23 ≤ b }
    requires b_finite { b < 255 * 2 ^ 23 }
    ensures { Rooted binary32 (sqrt_of binary32 (from_bits binary32 b)) result }
{
    let field = b >> 23;
    let digits = b & 0x7f_ffff;
    let v = (0x80_0000 + digits) << (24 - (field & 1));
    let r = trial(b);
    let square = r * r;
    if square < v + r && v <= square + r {
        return (((field + 125) >> 1) << 23) + r;
    }
    root_bits::<f32>(b)
}

// The root of the number with the bits b, next to 1: it lies half as far from 1.
fn near_one(b: u64) -> f32
    requires { (b + 0x1000) / 0x2000 ≡ 0x1_fc00 }
    ensures { result ≡ sqrt_of binary32 (from_bits binary32 b) }
{
    f32::from_bits(((b + 0x3f80_0000) >> 1) as u32)
}

// The root of x, if x lies next to 1: the first 19 bits of x, to the nearest, are those of 1. Lengths of
// directions have such roots.
pub fn root_near_one(x: f32) -> Option<f32>
    ensures { result ≡ (if near_one x then Some (sqrt_of binary32 x) else None) }
{
    if x != x {
        return None;
    }
    let b = f32::to_bits(x) as u64;
    if (b + 0x1000) >> 13 == 0x1_fc00 {
        return Some(near_one(b));
    }
    None
}

// The square root of x, rounded to the nearest `f32`, a tie to the even one.
pub fn sqrt32(x: f32) -> f32
    ensures { result ≡ sqrt_of binary32 x }
{
    if x != x {
        return x;
    }
    let b = f32::to_bits(x);
    let head = b >> 23; // the sign and the exponent
    if head != 0 && head < 0xff {
        return f32::from_bits(root_normal(b as u64) as u32);
    }
    root_any(x)
}

// The square root of x, rounded to the nearest `f64`, a tie to the even one.
pub fn sqrt64(x: f64) -> f64
    ensures { result ≡ sqrt_of binary64 x }
{
    root_any(x)
}

// The root of any number of either format. A zero, the infinity above zero and a NaN are their own
// roots, and their bits are at most those of -0.
fn root_any<T: Binary>(x: T) -> T
    ensures { T.float result ≡ sqrt_of T.format (T.float x) }
{
    let b = x.bits();
    if 0 < b && b < T::INFINITY {
        return T::of_bits(root_bits::<T>(b));
    }
    if b <= T::SIGN {
        return x;
    }
    T::of_bits(T::INFINITY + 1) // below zero: a NaN
}
