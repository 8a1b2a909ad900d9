//! Path words: hashes, digits and positions.

use hash_path::{Path, WORD_DIGITS};

/// The vectors of FNV-1a with 64 bits that its authors publish.
#[test]
fn fnv1a_gives_published_hashes(rt: HostRuntime) {
    let vectors = [
        ("", 0xcbf2_9ce4_8422_2325),
        ("a", 0xaf63_dc4c_8601_ec8c),
        ("b", 0xaf63_df4c_8601_f1a5),
        ("c", 0xaf63_de4c_8601_eff2),
        ("d", 0xaf63_d94c_8601_e773),
        ("fo", 0x0898_5907_b541_d342),
        ("foo", 0xdcb2_7518_fed9_d577),
        ("foob", 0xdd12_0e79_0c25_12af),
        ("fooba", 0xcac1_65af_a2fe_f40a),
        ("foobar", 0x8594_4171_f739_67e8),
    ];
    for (text, hash) in vectors {
        assert_eq!(rt; Path::fnv1a(text.as_bytes()), Path(hash), "of {text:?}");
    }
}

/// Those of the same test suite with bytes from 0x80 on, and the two bytes 0x80 and 0xff alone. Another program of
/// FNV-1a, in Python, gives the same.
#[test]
fn fnv1a_of_bytes_from_0x80_on(rt: HostRuntime) {
    let vectors: [(&[u8], u64); 9] = [
        (b"\xff\x00\x00\x01", 0x6961_1964_91cc_682d),
        (b"\x01\x00\x00\xff", 0xad2b_b177_4799_dfe9),
        (b"\xff\x00\x00\x02", 0x6961_1664_91cc_6314),
        (b"\x02\x00\x00\xff", 0x8d1b_b390_4a3b_1236),
        (b"\xff\x00\x00\x03", 0x6961_1764_91cc_64c7),
        (b"\x03\x00\x00\xff", 0xed20_5d87_f404_34c7),
        (b"\xff\x00\x00\x04", 0x6961_1464_91cc_5fae),
        (b"\x80", 0xaf64_3d4c_8602_915f),
        (b"\xff", 0xaf64_724c_8602_eb6e),
    ];
    for (bytes, hash) in vectors {
        assert_eq!(rt; Path::fnv1a(bytes), Path(hash), "of {bytes:?}");
    }
}

#[test]
fn digits_are_least_significant_first(rt: HostRuntime) {
    let a = [12, 4, 27, 3, 0, 3, 18, 9, 28, 30, 24, 30, 10];
    let foobar = [8, 31, 25, 18, 19, 27, 7, 14, 1, 2, 5, 11, 8];
    for level in 0..WORD_DIGITS {
        assert_eq!(rt;
            Path::fnv1a(b"a").digit(level),
            a[level as usize],
            "of \"a\" at {level}"
        );
        assert_eq!(rt;
            Path::fnv1a(b"foobar").digit(level),
            foobar[level as usize],
            "of \"foobar\" at {level}"
        );
    }
}

#[test]
fn first_digit_is_most_significant_in_position(rt: HostRuntime) {
    let positions = [
        (0, 0),
        (0xc000_0000_0000_0000, 12),
        (0xaf63_dc4c_8601_ec8c, 0x6136_300e_49e7_b1ea),
        (0x8594_4171_f739_67e8, 0x47f3_29ec_ee08_8ab8),
        (0xffff_ffff_ffff_ffff, 18_446_744_073_709_551_615),
    ];
    for (word, position) in positions {
        assert_eq!(rt; Path(word).position(), position, "of {word:#x}");
    }
}
