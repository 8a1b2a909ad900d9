//! Two lists of rows in order of their groups, put together to one.
ghost use Rattle.std.specs.Prelude.{◌≡◌, ◌+◌, ◌<◌, ◌^◌, [], length, map, IfOk, MatchOption};
ghost use Rattle.group_counts.specs.Counts.{IsSum, row_pair, total};
ghost use Rattle.group_counts.specs.Joining.{TakesRow};
ghost use Rattle.versions.specs.Map.{IsMap};

use hash_path::PathKey;
use std::alloc::Global;
use std::cmp::Ordering;
use std::sync::Arc;
use trie_node::NoMemory;

// A group and how many pairs it has.
type GroupCount<G> = (Arc<G>, u64);

// The next row of two lists put together, and what is left of both.
type Next<'a, G> = (GroupCount<G>, &'a [GroupCount<G>], &'a [GroupCount<G>]);

/// The rows of both lists, in order; where both have a group, one row with the sum of their counts.
pub(crate) fn joined_rows<G: PathKey + Drop>(
    alloc: Global,
    first: &[GroupCount<G>],
    second: &[GroupCount<G>],
) -> Result<Vec<GroupCount<G>>, NoMemory>
    requires first_rises { IsMap G.cmp (map row_pair first.now) }
    requires second_rises { IsMap G.cmp (map row_pair second.now) }
    requires few { total (map row_pair first.now) + total (map row_pair second.now) < 2 ^ 64 }
    ensures { IfOk result (λ rows. IsSum G.cmp (map row_pair first.now) (map row_pair second.now) (map row_pair rows.items)) }
{
    let mut rows = Vec::new(alloc);
    let mut left = first;
    let mut right = second;
    while let Some((row, left_rest, right_rest)) = next_row(left, right)? {
        rows.push(row)?;
        left = left_rest;
        right = right_rest;
    }
    Ok(rows)
}

// The next row of two lists, none where both are empty.
fn next_row<'a, G: PathKey + Drop>(
    left: &'a [GroupCount<G>],
    right: &'a [GroupCount<G>],
) -> Result<Option<Next<'a, G>>, NoMemory>
    requires { total (map row_pair left.now) + total (map row_pair right.now) < 2 ^ 64 }
    ensures { IfOk result (λ next. MatchOption next ((left.now ≡ []) × (right.now ≡ [])) (λ n. TakesRow G.cmp (map row_pair left.now) (map row_pair right.now) (row_pair n.0) (map row_pair n.1.now) (map row_pair n.2.now) × (length n.1.now + length n.2.now < length left.now + length right.now))) }
{
    let Some((x, left_rest)) = left.split_first() else {
        let Some((y, right_rest)) = right.split_first() else {
            return Ok(None);
        };
        return Ok(Some((row_of(y, y.1)?, left, right_rest)));
    };
    let Some((y, right_rest)) = right.split_first() else {
        return Ok(Some((row_of(x, x.1)?, left_rest, right)));
    };
    let group: &G = &x.0;
    match group.cmp(&y.0) {
        Ordering::Less => Ok(Some((row_of(x, x.1)?, left_rest, right))),
        Ordering::Equal => Ok(Some((row_of(x, x.1 + y.1)?, left_rest, right_rest))),
        Ordering::Greater => Ok(Some((row_of(y, y.1)?, left, right_rest))),
    }
}

// A row of the same group with this count.
fn row_of<G: Drop>(row: &GroupCount<G>, count: u64) -> Result<GroupCount<G>, NoMemory>
    ensures { IfOk result (λ made. row_pair made ≡ (row.now.0.value, count)) }
{
    Ok((Arc::try_clone(&row.0)?, count))
}
