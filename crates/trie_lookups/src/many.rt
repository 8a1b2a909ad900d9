//! The look-ups of a list of keys.
ghost use Rattle.std.specs.Prelude.{◌≡◌, ◌++◌, [], IfOk, OnOk, flat_map, map, option_map};
ghost use Rattle.std.specs.Option.{option_to_list};
ghost use Rattle.trie_shape.specs.Map.{value_at};
ghost use Rattle.trie_shape.specs.Roots.{IsRoot, map_of};
ghost use Rattle.trie_shape.specs.View.{tree};

use crate::way::Way;
use arrayvec::ArrayVec;
use hash_path::{PathKey, Sought, WORD_DIGITS};
use slots::Slots;
use std::alloc::Global;
use trie_shape::{NoMemory, Node};

/// How many keys go down side by side.
const AT_ONCE: usize = 8;

/// Look-ups that go down side by side. They lie in the call itself, and take no memory. A place holds an option, since
/// it has to hold something from the start.
type Ways<'a, 'k, K, V, S, Q> = ArrayVec<Option<Way<'a, 'k, K, V, S, Q>>, AT_ONCE>;

/// Takes each look-up down by one level, and says whether one of them went.
fn go_down<'a, 'k, K: PathKey, V, S: Slots<K, V>, Q: Sought<K>>(
    ways: &mut [Option<Way<'a, 'k, K, V, S, Q>>],
) -> bool
    ensures { ways.new ≡ ways.old }
{
    let mut went = false;
    for place in ways.iter_mut() {
        if let Some(way) = place {
            if way.go_down() {
                went = true;
            }
        }
    }
    went
}

/// Takes look-ups down, level by level, until none goes any further.
fn go_to_ends<'a, 'k, K: PathKey, V, S: Slots<K, V>, Q: Sought<K>>(
    ways: &mut [Option<Way<'a, 'k, K, V, S, Q>>],
)
    ensures { ways.new ≡ ways.old }
{
    for _ in 0..WORD_DIGITS {
        if !go_down(ways) {
            return;
        }
    }
}

/// Takes look-ups to their ends, and appends what they find.
fn end<'a, 'k, K: PathKey, V, S: Slots<K, V>, Q: Sought<K>>(
    ways: &mut Ways<'a, 'k, K, V, S, Q>,
    answers: &mut Vec<Option<&'a S::Value>>,
) -> Result<(), NoMemory>
    ensures answers { OnOk result (map (option_map (λ value. S.value_of value.now)) answers.new.items ≡ map (option_map (λ value. S.value_of value.now)) answers.old.items ++ flat_map option_to_list ways.old.items) }
    ensures none { OnOk result (ways.new.items ≡ []) }
{
    go_to_ends(ways.as_mut_slice());
    for place in ways.as_slice() {
        if let Some(way) = place {
            answers.push(way.answer())?;
        }
    }
    ways.clear();
    Ok(())
}

/// The values of keys, in the order of the keys: for each its value, or none, as `find` gives it.
///
/// Several keys are looked up side by side, so a key takes less time than by `find` where the nodes have to be fetched
/// from memory. A key may stand twice. No memory is requested but for the list.
pub fn find_many<'a, K: PathKey, V, S: Slots<K, V>, Q: Sought<K>>(
    alloc: Global,
    root: &'a Node<K, V, S>,
    keys: &[Q],
) -> Result<Vec<Option<&'a S::Value>>, NoMemory>
    requires { IsRoot K.cmp K.path_of (tree root.now) }
    ensures { IfOk result (λ answers. map (option_map (λ value. S.value_of value.now)) answers.items ≡ map (λ key. value_at K.cmp (map_of K.cmp (tree root.now)) (Q.key_of key)) keys.now) }
{
    let mut answers = Vec::with_capacity(alloc, keys.len())?;
    let mut ways = ArrayVec::new();
    for key in keys {
        if ways.is_full() {
            end(&mut ways, &mut answers)?;
        }
        ways.push(Some(Way::from_root(root, key)));
    }
    end(&mut ways, &mut answers)?;
    Ok(answers)
}
