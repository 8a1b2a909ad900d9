//! The marks of what was written to a stripe.
ghost use Rattle.std.specs.Prelude.{◌≡◌};

use super::Stripe;
use crate::keeps::Keeps;
use crate::marks::Marks;
use hash_path::PathKey;
use std::mem;
use std::sync::Arc;
use trie_node::Slots;
use write_history::Naming;

impl<K: PathKey + Drop, V: Drop, P: Keeps<K, V>, J: Naming, S: Slots<K, V>> Stripe<K, V, P, J, S>
where
    S::Key: Drop,
    S::Value: Drop,
{
    /// Has the stripe's writes marked there from now on, and returns where they were marked before. The pairs stay as
    /// they are.
    ///
    /// The marks before have to end before the stripe's lock is released.
    pub fn follow(&mut self, marks: Arc<Marks>) -> Option<Arc<Marks>>
        ensures { self.new ≡ self.old }
    {
        mem::replace(&mut self.marks, Some(marks))
    }

    // Ends the marks and drops them, before all pairs are removed.
    pub(super) fn end_marks(&mut self)
        ensures { self.new ≡ self.old }
    {
        if let Some(marks) = self.marks.take() {
            marks.end();
        }
    }
}
