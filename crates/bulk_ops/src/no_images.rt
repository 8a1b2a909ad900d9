//! The closure of queries that ask for no images.
use crate::closure::ImageFn;
use trie_node::NoMemory;

/// What stands in a query's type for the closure of images where none is asked for.
///
/// <!-- quoted from crates/example_expiry/src/queries.rt -->
/// ```rust
/// pub type Question = Query<ByteText, Lease, At, Renewed, Sum, SecondsLeft, NoImages>;
/// ```
///
/// It never finds memory for an image. So a query for images by it is refused, but that of an empty map.
#[derive(Drop)]
pub struct NoImages;

impl<K, V> ImageFn<K, V> for NoImages {
    ghost use Rattle.std.specs.Prelude.{IfOk};

    ghost can = { λ none. Unit {0} };

    ghost gives = { λ none key value image. IfOk image (λ x. ⊥) };

    fn image(&self, _key: &K, _value: &V) -> Result<(K, V), NoMemory> {
        Err(NoMemory)
    }
}
