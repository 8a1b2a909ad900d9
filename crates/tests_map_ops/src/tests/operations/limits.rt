//! Operations on a map that holds as many pairs as it may.
use super::{Answer, Call, assert_answers};
use crate::tests::{assert_is, empty, len};
use versions::Refusal;

#[test]
fn a_new_key_is_refused_where_the_map_is_full(rt: HostRuntime) {
    let alloc = rt.alloc();
    let mut map = empty(&rt, alloc, 2);
    assert_answers(
        &rt,
        alloc,
        &mut map,
        &[
            (Call::Put(1), "a", Ok(Answer::Was(None))),
            (Call::Put(2), "b", Ok(Answer::Was(None))),
            (Call::Put(3), "c", Err(Refusal::Full)),
            (Call::PutIfAbsent(3), "c", Err(Refusal::Full)),
            (Call::GetOrElseUpdate(3), "c", Err(Refusal::Full)),
            (Call::Get, "c", Ok(Answer::Was(None))),
            (Call::Put(4), "a", Ok(Answer::Was(Some(1)))),
            (Call::PutIfAbsent(5), "a", Ok(Answer::Was(Some(4)))),
            (Call::GetOrElseUpdate(6), "a", Ok(Answer::Is(4, false))),
            (Call::Replace(3), "c", Ok(Answer::Was(None))),
            (Call::ReplaceIf(3, 4), "c", Ok(Answer::Done(false))),
            (Call::Remove, "b", Ok(Answer::Was(Some(2)))),
            (Call::Put(3), "c", Ok(Answer::Was(None))),
        ],
    );
    assert_is(&rt, len(&map), 2);
}
