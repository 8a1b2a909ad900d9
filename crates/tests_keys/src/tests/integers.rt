//! Integers of all widths, arrays of bytes, pairs and triples as keys.

use super::seen;
use hash_path::Path;

/// The hashes of the eight bytes were computed by another program of FNV-1a, in Python.
#[test]
fn integers_are_keys(rt: HostRuntime) {
    assert_eq!(rt; seen(&0u64, &1), (Path(0xa8c7_f832_281a_39c5), true));
    assert_eq!(rt;
        seen(&0x0102_0304_0506_0708u64, &1),
        (Path(0x0c6d_4496_e178_59d5), false)
    );
    assert_eq!(rt;
        seen(&u64::MAX, &u64::MAX),
        (Path(0x8cf5_1a8b_fca3_883d), false)
    );
    assert_eq!(rt; seen(&1i64, &0), (Path(0x89cd_3129_1d2a_efa4), false));
    assert_eq!(rt; seen(&-1i64, &0), (Path(0x8cf5_1a8b_fca3_883d), true));
    assert_eq!(rt; seen(&i64::MIN, &-1), (Path(0xa8c7_7832_2819_6045), true));
}

/// The hashes of the four bytes, and of the sixteen, were computed by another program of FNV-1a, in Python.
#[test]
fn integers_of_other_widths_are_keys(rt: HostRuntime) {
    assert_eq!(rt; seen(&0u32, &1), (Path(0x4d25_767f_9dce_13f5), true));
    assert_eq!(rt;
        seen(&0x0102_0304u32, &1),
        (Path(0xb345_225e_3644_edb5), false)
    );
    assert_eq!(rt; seen(&-1i32, &0), (Path(0x994f_7665_3e2a_3951), true));
    assert_eq!(rt; seen(&i32::MIN, &-1), (Path(0x4d24_f67f_9dcd_3a75), true));
    assert_eq!(rt; seen(&1u128, &0), (Path(0x3922_09f1_4dea_4c24), false));
    assert_eq!(rt;
        seen(&0x0102_0304_0506_0708_090a_0b0c_0d0e_0f10u128, &u128::MAX),
        (Path(0xef3b_2954_838f_d245), true)
    );
}

/// The same of one byte and of two, of the sixteen of an `i128`, and of the eight of `usize` and `isize`.
#[test]
fn each_width_is_a_key(rt: HostRuntime) {
    assert_eq!(rt; seen(&7u8, &8), (Path(0xaf63_ba4c_8601_b2c6), true));
    assert_eq!(rt; seen(&u8::MAX, &0), (Path(0xaf64_724c_8602_eb6e), false));
    assert_eq!(rt; seen(&-1i8, &0), (Path(0xaf64_724c_8602_eb6e), true));
    assert_eq!(rt; seen(&i8::MIN, &-1), (Path(0xaf64_3d4c_8602_915f), true));
    assert_eq!(rt; seen(&0x0102u16, &1), (Path(0x0839_5307_b4f1_348c), false));
    assert_eq!(rt; seen(&u16::MAX, &0), (Path(0x0a99_c907_b6f6_4763), false));
    assert_eq!(rt; seen(&-2i16, &-1), (Path(0x0a9d_c907_b6fa_303a), true));
    assert_eq!(rt; seen(&-1i128, &0), (Path(0xd660_7508_f5a1_e855), true));
    assert_eq!(rt; seen(&i128::MIN, &-1), (Path(0x881f_9fb9_60fe_8ae5), true));
    assert_eq!(rt;
        seen(&0x0102_0304_0506_0708usize, &1),
        (Path(0x0c6d_4496_e178_59d5), false)
    );
    assert_eq!(rt; seen(&-1isize, &0), (Path(0x8cf5_1a8b_fca3_883d), true));
}

/// The same program computed the hashes of the 24 bytes of three words.
#[test]
fn triples_are_keys(rt: HostRuntime) {
    assert_eq!(rt;
        seen(&(1u64, 2u64, 3u32), &(1, 2, 4)),
        (Path(0x01e8_3772_21bd_0561), true)
    );
    assert_eq!(rt;
        seen(&(7u8, -1i64, *b"ab"), &(7, -2, *b"zz")),
        (Path(0x5c98_f942_c709_0d07), false)
    );
}

/// The same program computed the hashes of the sixteen bytes of both words, and that of 16 bytes.
#[test]
fn pairs_and_arrays_are_keys(rt: HostRuntime) {
    assert_eq!(rt;
        seen(&(0u64, 1u64), &(1, 0)),
        (Path(0xc5ff_bd62_1291_b2a0), true)
    );
    assert_eq!(rt;
        seen(&(1u64, 0u64), &(0, 1)),
        (Path(0x2660_0d45_0bd9_2cd4), false)
    );
    assert_eq!(rt;
        seen(&(7u32, -1i64), &(7, 0)),
        (Path(0xd14c_972f_2b50_9a58), true)
    );
    assert_eq!(rt;
        seen(&((1u64, 2u64), 3u32), &((1, 2), 3)),
        (Path(0xab4a_15cf_ef80_c63c), false)
    );
    assert_eq!(rt;
        seen(b"foobar", b"fooba0"),
        (Path(0x8594_4171_f739_67e8), false)
    );
    assert_eq!(rt;
        seen(
            &[0u8, 1, 2, 3, 4, 5, 6, 7, 8, 9, 10, 11, 12, 13, 14, 15],
            &[1; 16]
        ),
        (Path(0x7c84_dc94_7785_1775), true)
    );
}
