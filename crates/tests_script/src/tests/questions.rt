//! What tests, maps and pair maps say of pairs.
use arguments::{Key, Mapping, PairMapping, Test};
use std::test::Fail;

#[test]
fn each_test_passes_its_values(rt: HostRuntime) -> Result<(), Fail> {
    let numbers = [i64::MIN, -3, -1, 0, 1, 4, i64::MAX];
    let table = [
        (Test::All, [true, true, true, true, true, true, true]),
        (Test::Even, [true, false, false, true, false, true, false]),
        (Test::Odd, [false, true, true, false, true, false, true]),
        (
            Test::Below(0),
            [true, true, true, false, false, false, false],
        ),
        (
            Test::AtLeast(0),
            [false, false, false, true, true, true, true],
        ),
        (
            Test::Equal(-1),
            [false, false, true, false, false, false, false],
        ),
        (Test::Below(i64::MIN), [false; 7]),
        (Test::AtLeast(i64::MIN), [true; 7]),
        (
            Test::Equal(i64::MAX),
            [false, false, false, false, false, false, true],
        ),
    ];
    for (test, wanted) in table {
        let same = test.try_clone()?;
        for (value, want) in numbers.into_iter().zip(wanted) {
            assert_eq!(rt; test.passes(b"a", value), want, "{value}");
            assert_eq!(rt; same.passes(b"a", value), want, "{value}");
        }
    }
    Ok(())
}

#[test]
fn a_prefix_passes_the_keys_that_begin_with_it(rt: HostRuntime) -> Result<(), Fail> {
    let alloc = rt.alloc();
    let front = Key::new(alloc, b"ab")?.ok_or("a key")?;
    let test = Test::Prefix(front).try_clone()?;
    for (key, want) in [
        (b"ab".as_slice(), true),
        (b"abc", true),
        (b"a", false),
        (b"ba", false),
        (b"aB", false),
    ] {
        assert_eq!(rt; test.passes(key, 7), want);
    }
    Ok(())
}

#[test]
fn each_map_has_its_new_value(rt: HostRuntime) {
    assert_eq!(rt; Mapping::Set(i64::MIN).new_value(b"a", 5), i64::MIN);
    assert_eq!(rt; Mapping::Add(-2).new_value(b"a", 5), 3);
    assert_eq!(rt; Mapping::Add(1).new_value(b"a", i64::MAX), i64::MIN);
    assert_eq!(rt; Mapping::Add(i64::MIN).new_value(b"a", i64::MIN), 0);
    assert_eq!(rt; Mapping::KeyLength.new_value(&[b'k'; 64], 5), 64);
    assert_eq!(rt; Mapping::KeyLength.new_value(b"abc", -1), 3);
}

#[test]
fn each_pair_map_has_its_image(rt: HostRuntime) -> Result<(), Fail> {
    let alloc = rt.alloc();
    let target = Key::new(alloc, b"z!")?.ok_or("a key")?;
    let longest = [b'~'; 64];
    for (map, key, value, new_key, new_value) in [
        (
            PairMapping::To(target.try_clone()?),
            b"a".as_slice(),
            5,
            b"z!".as_slice(),
            5,
        ),
        (PairMapping::To(target), b"", i64::MIN, b"z!", i64::MIN),
        (PairMapping::Initial, b"abc", -1, b"a", -1),
        (PairMapping::Initial, b"b", 2, b"b", 2),
        (PairMapping::Initial, b"", 3, b"", 3),
        (PairMapping::ByValue, b"abc", 0, b"0", 3),
        (
            PairMapping::ByValue,
            &longest,
            i64::MIN,
            b"-9223372036854775808",
            64,
        ),
        (
            PairMapping::ByValue,
            b"",
            i64::MAX,
            b"9223372036854775807",
            0,
        ),
    ] {
        let same = map.try_clone()?;
        let (image, number) = map.image(alloc, key, value)?;
        assert_eq!(rt; image.as_bytes(), new_key);
        assert_eq!(rt; number, new_value);
        let (image, number) = same.image(alloc, key, value)?;
        assert_eq!(rt; image.as_bytes(), new_key);
        assert_eq!(rt; number, new_value);
    }
    Ok(())
}
