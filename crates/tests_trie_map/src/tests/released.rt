//! What a map lets go of: nobody holds a value once its pair is removed.
use std::alloc::Global;
use std::process::Abort;
use std::sync::atomic::{AtomicU32, Ordering};
use std::sync::{Arc, Wait};
use test_keys::ChosenKey;
use trie_map::{TrieMap, Version};

// How many values were dropped.
type Count = Arc<AtomicU32, Global>;

// A value that counts its drop.
struct Counted {
    dropped: Count,
}

impl Drop for Counted {
    fn drop(self) {
        let Counted { dropped } = self;
        dropped.fetch_add(1, Ordering::SeqCst);
    }
}

type Counting = TrieMap<ChosenKey, Counted>;

// What each child of a row is.
#[derive(Clone, Copy, Debug)]
enum Child {
    Pair,
    // Two pairs with one path word.
    Bucket,
    // Two pairs whose words part at the next digit.
    Branch,
}

// Who holds the row when a pair is removed.
#[derive(Clone, Copy, Debug)]
enum Holder {
    // The map alone.
    Map,
    // A snapshot too, which is dropped after the removals.
    Snapshot,
    // The map that is made of it by a filter which all pairs pass, alone. Its row is that of the first digits.
    Filtered,
}

// A row of children.
#[derive(Clone, Copy, Debug)]
struct Row {
    count: u32,
    child: Child,
    holder: Holder,
}

impl Row {
    // How many pairs a child has.
    fn pairs(self) -> u32 {
        match self.child {
            Child::Pair => 1,
            Child::Bucket | Child::Branch => 2,
        }
    }

    // The key of a pair of the child at the place.
    fn key(self, place: u32, number: u32) -> ChosenKey {
        let (digit, id) = match self.child {
            Child::Branch => (number, 0),
            _ => (0, number),
        };
        let digits = u64::from(digit << 5 | place);
        let path = match self.holder {
            Holder::Filtered => digits,
            // A map that threads share has a lock for each first digit, so its widest rows are those of the second.
            _ => digits << 5 | 7,
        };
        ChosenKey { path, id }
    }
}

fn filled<R: AllocGlobal + Wait + Abort>(rt: &R, row: Row, dropped: &Count) -> Counting {
    let map = TrieMap::new(rt).expect(rt, "no map");
    for place in 0..row.count {
        for number in 0..row.pairs() {
            let dropped = Arc::try_clone(dropped).expect(rt, "too many handles");
            map.put(rt, row.key(place, number), Counted { dropped })
                .expect(rt, "not put");
        }
    }
    map
}

// The same pairs, in a map that alone holds their row.
fn filtered<R: AllocGlobal + Wait + Abort>(
    rt: &R,
    row: Row,
    dropped: &Count,
) -> Version<ChosenKey, Counted> {
    let map = filled(rt, row, dropped);
    map.filter(rt, |_, _| true).expect(rt, "no filtered map")
}

// How many values were dropped after each removal of a pair of the child at the place.
fn dropped_by_map<R: AllocGlobal + Wait + Abort>(
    rt: &R,
    row: Row,
    place: u32,
    dropped: &Count,
) -> [u32; 2] {
    let map = filled(rt, row, dropped);
    let mut counts = [0u32; 2];
    for number in 0..row.pairs() {
        drop(
            map.remove(rt, &row.key(place, number))
                .expect(rt, "not removed"),
        );
        counts[number as usize] = dropped.load(Ordering::SeqCst);
    }
    counts
}

// The same where a snapshot holds the row while each pair is removed.
fn dropped_beside_snapshot<R: AllocGlobal + Wait + Abort>(
    rt: &R,
    row: Row,
    place: u32,
    dropped: &Count,
) -> [u32; 2] {
    let map = filled(rt, row, dropped);
    let mut counts = [0u32; 2];
    for number in 0..row.pairs() {
        let snapshot = map.snapshot(rt).expect(rt, "no snapshot");
        drop(
            map.remove(rt, &row.key(place, number))
                .expect(rt, "not removed"),
        );
        drop(snapshot);
        counts[number as usize] = dropped.load(Ordering::SeqCst);
    }
    counts
}

// The same of the map of one owner.
fn dropped_by_version<R: AllocGlobal + Wait + Abort>(
    rt: &R,
    row: Row,
    place: u32,
    dropped: &Count,
) -> [u32; 2] {
    let mut made = filtered(rt, row, dropped);
    let mut counts = [0u32; 2];
    for number in 0..row.pairs() {
        let removed = made.remove(rt.alloc(), &row.key(place, number));
        drop(removed.expect(rt, "not removed"));
        counts[number as usize] = dropped.load(Ordering::SeqCst);
    }
    counts
}

// The same, whoever holds the row.
fn dropped<R: AllocGlobal + Wait + Abort>(rt: &R, row: Row, place: u32) -> [u32; 2] {
    let count = Arc::new(rt.alloc(), AtomicU32::new(0)).expect(rt, "no count");
    match row.holder {
        Holder::Map => dropped_by_map(rt, row, place, &count),
        Holder::Snapshot => dropped_beside_snapshot(rt, row, place, &count),
        Holder::Filtered => dropped_by_version(rt, row, place, &count),
    }
}

// Rows of 2, 4, 8, 16 and 32 places, with room for a child and without.
const COUNTS: [u32; 10] = [1, 2, 3, 4, 7, 8, 15, 16, 31, 32];

const CHILDREN: [Child; 3] = [Child::Pair, Child::Bucket, Child::Branch];

const HOLDERS: [Holder; 3] = [Holder::Map, Holder::Snapshot, Holder::Filtered];

// The first child, one in the middle and the last is removed, pair by pair: the value of each is dropped by then.
fn assert_dropped<R: AllocGlobal + Wait + Abort>(rt: &R, row: Row) {
    let wanted = match row.child {
        Child::Pair => [1, 0],
        Child::Bucket | Child::Branch => [1, 2],
    };
    for place in [0, row.count / 2, row.count.wrapping_sub(1)] {
        assert_eq!(rt; dropped(rt, row, place), wanted, "{row:?}, {place}");
    }
}

#[test]
fn nobody_holds_what_was_removed(rt: HostRuntime) {
    for count in COUNTS {
        for child in CHILDREN {
            for holder in HOLDERS {
                let row = Row {
                    count,
                    child,
                    holder,
                };
                assert_dropped(&rt, row);
            }
        }
    }
}
