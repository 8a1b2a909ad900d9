//! What the laws of path words say of words.
ghost use Rattle.std.specs.Prelude.{◌≡◌, ◌↔◌, [], IsTrue};
ghost use Rattle.hash_path.specs.Digits.{digit, fnv1a};

use hash_path::{Path, laws};

// Words are distinguished by their positions alone, since position is a bijection.
fn is_one_word(a: u64, b: u64) -> bool
    ensures { IsTrue result ↔ (a ≡ b) }
{
    laws::position_is_bijection();
    Path(a).position() == Path(b).position()
}

// The words under the root's last child are those of the last interval of positions, 31 * 2^59 and on.
fn is_under_last_child(word: u64) -> bool
    ensures { IsTrue result ↔ (digit word 0 ≡ 31) }
{
    laws::shared_digits_are_interval();
    Path(word).position() >= 0xf800_0000_0000_0000
}

// Where the hash starts, by the law.
fn hash_of_nothing() -> u64
    ensures { result ≡ fnv1a [] }
{
    laws::fnv1a_is_word();
    0xcbf2_9ce4_8422_2325
}

#[test]
fn laws_tell_words_by_their_positions(rt: HostRuntime) {
    assert!(rt; is_one_word(0xaf63_dc4c_8601_ec8c, 0xaf63_dc4c_8601_ec8c));
    assert!(rt; !is_one_word(0xaf63_dc4c_8601_ec8c, 0x2f63_dc4c_8601_ec8c));
    assert!(rt; is_under_last_child(0x8000_0000_0000_001f));
    assert!(rt; is_under_last_child(0xffff_ffff_ffff_ffff));
    assert!(rt; !is_under_last_child(0xffff_ffff_ffff_fffe));
    assert_eq!(rt; hash_of_nothing(), Path::fnv1a(b"").0);
}
