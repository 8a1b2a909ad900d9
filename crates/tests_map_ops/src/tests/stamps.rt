//! Stamps, by hand.
use super::{assert_is, next};
use generation::Source;
use trie_node::Stamp;

#[test]
fn stamps_rise_from_one(rt: HostRuntime) {
    let mut source = Source::new();
    assert_is(&rt, source.issued(), 0);
    assert_is(&rt, next(&rt, &mut source), Stamp(1));
    assert_is(&rt, next(&rt, &mut source), Stamp(2));
    assert_is(&rt, next(&rt, &mut source), Stamp(3));
    assert_is(&rt, source.issued(), 3);
    let mut later = Source::after(Stamp(41));
    assert_is(
        &rt,
        (later.issued(), next(&rt, &mut later)),
        (41, Stamp(42)),
    );
}
