//! A view of the whole map, with the marks of what was written since.
ghost use Rattle.std.specs.Prelude.{◌≡◌, IfSome, option_map};
ghost use Rattle.map_reader.specs.Sights.{AllTold};
ghost use Rattle.stripe.specs.Rules.{AllKeep};
ghost use Rattle.versions.specs.Map.{value_at};
ghost use Rattle.write_history.specs.Histories.{value_in};
ghost use Rattle.write_history.specs.Rules.{HasHistory};

use crate::sight::Sight;
use crate::since::Since;
use hash_path::{Path, PathKey, Sought};
use std::marker::{Model, PhantomData};
use std::sync::Arc;
use stripes::{Keeps, Marks};
use trie_node::{Shared, Slots};
use versions::View;
use write_history::Naming;

/// A view of the whole map, whose pairs keep the rule, with the marks of what was written since it was taken. A clause
/// sees its pairs and the history of its moment, if the map has one: each key has the value there that it leaves.
#[derive(Drop)]
pub struct Base<K: PathKey, V, P: Keeps<K, V>, J: Naming, W: Since<K, V>, S: Slots<K, V> = Shared> {
    plain: View<K, V, S>,
    marks: Arc<Marks>,
    rule: PhantomData<P>,
    sight: Sight<K, V, J, W>,
}

impl<K: PathKey, V, P: Keeps<K, V>, J: Naming, W: Since<K, V>, S: Slots<K, V>> Model
    for Base<K, V, P, J, W, S> {
    ghost use Rattle.map_reader.specs.Sights.{Based, IsBase};

    ghost Value = { Based K V };

    ghost view = { λ b. record { pairs = b.plain; log = b.sight } };

    ghost invariant = { λ b. IsBase K.cmp K.path_of P.holds J.book b.plain b.sight };
}

impl<K: PathKey + Drop, V: Drop, P: Keeps<K, V>, J: Naming, W: Since<K, V>, S: Slots<K, V>> Base<
    K,
    V,
    P,
    J,
    W,
    S,
>
where
    S::Key: Drop,
    S::Value: Drop,
{
    /// The view, the marks that each stripe has had since the view was taken, and what was seen when it was.
    pub fn new(
        plain: View<K, V, S>,
        marks: Arc<Marks>,
        sight: Sight<K, V, J, W>,
    ) -> Base<K, V, P, J, W, S>
        requires kept { AllKeep K.cmp P.holds plain }
        requires told { HasHistory J.book → AllTold K.cmp K.path_of plain sight }
        ensures pairs { result.pairs ≡ plain }
        ensures log { result.log ≡ sight }
    {
        Base {
            plain,
            marks,
            rule: PhantomData,
            sight,
        }
    }

    /// Whether the keys with this path word still had the values of the view when this call looked.
    pub fn is_clear(&self, path: Path) -> bool {
        self.marks.is_clear(path)
    }

    /// Whether the marks have ended, so that every read goes to a lock.
    pub fn is_over(&self) -> bool {
        self.marks.is_over()
    }

    /// What was seen when the view was taken.
    pub fn sight(&self) -> &Sight<K, V, J, W>
        ensures { result.now ≡ self.now.log }
    {
        &self.sight
    }

    /// The value that the key had in the view, or none.
    pub fn value<Q: Sought<K>>(&self, key: Q, path: Path) -> Option<&V>
        requires { path.0 ≡ K.path_of (Q.key_of key) }
        ensures value { option_map (λ value. value.now) result ≡ value_at K.cmp self.now.pairs (Q.key_of key) }
        ensures told { HasHistory J.book → option_map (λ value. value.now) result ≡ value_in K.cmp K.path_of self.now.log (Q.key_of key) }
        ensures kept { IfSome result (λ value. P.holds (Q.key_of key) value.now) }
    {
        match trie_node::find_along(self.plain.root(), key, path) {
            Some(value) => Some(S::lend_value(value)),
            None => None,
        }
    }
}
