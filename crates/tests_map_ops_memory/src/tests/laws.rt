//! What the laws on maps show of values.
ghost use Rattle.std.specs.Prelude.{◌≡◌, [], map, None, Some, OnOk, Contains};
ghost use Rattle.versions.specs.Map.{value_at};

use super::{Chosen, chosen, empty, shared};
use hash_path::PathKey;
use std::alloc::Global;
use std::panic::Expect;
use std::sync::Arc;
use versions::{Refusal, Version, law_of_equal_maps, law_of_names, law_of_put, law_of_removal};

// The root's name is the empty prefix, so each version has it.
fn has_a_root<K: PathKey + Drop>(version: &Version<K, i64>)
    ensures { Contains (map (λ node. node.0) version.now.nodes) [] }
{
    law_of_names(version);
}

// What is put is there.
fn put_there<K: PathKey + Drop>(
    alloc: Global,
    version: &mut Version<K, i64>,
    key: Arc<K>,
    value: Arc<i64>,
) -> Result<(), Refusal>
    ensures { OnOk result (value_at K.cmp version.new.entries key.value ≡ Some value.value) }
{
    law_of_put::<K, i64>();
    version.put(alloc, key, value)?;
    Ok(())
}

// A key that was not there is put and removed, and the map is the one before: it has the same value at every key.
fn put_and_removed<K: PathKey + Drop>(
    alloc: Global,
    version: &mut Version<K, i64>,
    key: &Arc<K>,
    value: Arc<i64>,
) -> Result<(), Refusal>
    ensures { OnOk result (value_at K.cmp version.old.entries key.now.value ≡ None → version.new.entries ≡ version.old.entries) }
{
    law_of_put::<K, i64>();
    law_of_removal::<K, i64>();
    law_of_equal_maps::<K, i64>();
    let _ = version.len();
    let same = Arc::try_clone(key)?;
    version.put(alloc, same, value)?;
    version.remove(alloc, &**key)?;
    Ok(())
}

#[test]
fn laws_tell_of_versions(rt: HostRuntime) {
    let alloc = rt.alloc();
    let mut version: Chosen = empty(&rt, alloc, 1);
    has_a_root(&version);
    let key = Arc::new(alloc, chosen(0, 0)).expect(&rt, "no key");
    let put = put_and_removed(alloc, &mut version, &key, shared(&rt, alloc, 1));
    put.expect(&rt, "not put and removed");
    assert!(rt; version.is_empty());
    let put = put_there(alloc, &mut version, key, shared(&rt, alloc, 1));
    put.expect(&rt, "not put");
    assert!(rt; version.contains_key(&chosen(0, 0)));
}
