//! Items of a list that wait for their turn.
ghost use Rattle.std.specs.Prelude.{◌≡◌, ◌≤◌, ◌++◌, [], All, length, vec_capacity};
ghost use Rattle.many_writes.specs.Turns.{IsDone, answers_in, done_from, left_in};

use hash_path::Path;
use std::alloc::Global;

/// An item that waits, with the path word of its key, or what came of it.
#[derive(Drop)]
pub(crate) enum Turn<T, B> {
    Waits(Path, T),
    Done(B),
}

/// Nothing came of any item yet.
pub(crate) fn none_done<B: Drop>(alloc: Global) -> Vec<(usize, B)>
    ensures { result.items ≡ [] }
{
    Vec::new(alloc)
}

/// What came of all items.
pub(crate) fn answers_of<T: Drop, B: Drop>(turns: Vec<Turn<T, B>>, mut answers: Vec<B>) -> Vec<B>
    requires done { All IsDone turns.items }
    requires empty { answers.items ≡ [] }
    requires room { length turns.items ≤ vec_capacity answers }
    ensures { result.items ≡ answers_in turns.items }
{
    for turn in turns {
        match turn {
            Turn::Done(answer) => answers.push_reserved(answer),
            Turn::Waits(..) => unreachable!(),
        }
    }
    answers
}

/// What came of the items that had their turn, each with its place.
pub(crate) fn done_of<T: Drop, B: Drop>(
    turns: Vec<Turn<T, B>>,
    mut done: Vec<(usize, B)>,
) -> Vec<(usize, B)>
    requires empty { done.items ≡ [] }
    requires room { length turns.items ≤ vec_capacity done }
    ensures { result.items ≡ done_from 0 turns.items }
{
    let mut place = 0usize;
    for turn in turns {
        if let Turn::Done(answer) = turn {
            done.push_reserved((place, answer));
        }
        place += 1;
    }
    done
}

/// What came of the items that had their turn, each with its place, and the items that wait.
pub(crate) fn parted<T: Drop, B: Drop>(
    turns: Vec<Turn<T, B>>,
    mut done: Vec<(usize, B)>,
    mut rest: Vec<T>,
) -> (Vec<(usize, B)>, Vec<T>)
    requires empty { done.items ≡ [] }
    requires room { length turns.items ≤ vec_capacity done }
    requires rest { rest.items ≡ [] }
    requires room_of_rest { length turns.items ≤ vec_capacity rest }
    ensures done { result.0.items ≡ done_from 0 turns.items }
    ensures rest { result.1.items ≡ left_in turns.items }
{
    let mut place = 0usize;
    for turn in turns {
        match turn {
            Turn::Done(answer) => done.push_reserved((place, answer)),
            Turn::Waits(_, item) => rest.push_reserved(item),
        }
        place += 1;
    }
    (done, rest)
}
