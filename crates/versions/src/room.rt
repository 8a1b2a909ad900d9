//! A condition that keeps a map within its limit.

ghost use Rattle.std.specs.Prelude.{◌&&◌, ◌||◌, not, Option, is_some};

use trie_node::Condition;

/// The condition holds, and there is room: the map is not full, or the key is there.
#[derive(Drop)]
pub struct WithinRoom<'c, C> {
    /// The condition of the write.
    pub condition: &'c C,
    /// Whether the map holds as many pairs as it may.
    pub full: bool,
}

impl<'c, V, C: Condition<V>> Condition<V> for WithinRoom<'c, C> {
    ghost holds = { λ c found. C.holds c.condition.now found && (not c.full || is_some found) };

    fn holds(&self, found: Option<&V>) -> bool {
        (!self.full || found.is_some()) && self.condition.holds(found)
    }
}
