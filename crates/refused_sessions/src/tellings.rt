//! What the history is told of a removal.
ghost use Rattle.std.specs.Prelude.{◌≡◌, ◌++◌, ◌∷◌, ℕ, [], IsTrue, List, Some};
ghost use mathlib.Core.List.{IsPrefix};
ghost use Rattle.write_history.specs.declared.entry.Entry.{Entry};
ghost use Rattle.write_history.specs.declared.entry.Write.TheVariants.{Remove};
ghost use Rattle.write_history.specs.Histories.{IsOf};
ghost use Rattle.write_history.specs.Rules.{HasHistory};

use hash_path::{PathKey, Sought};
use write_history::{Author, Naming, Part};

/// Tells the history of the key's removal, where the key was there.
pub fn removal_told<K: PathKey, V, J: Naming, Q: Sought<K>>(
    part: &mut Part<K, V, J>,
    author: &mut Author<J>,
    key: Q,
    there: bool,
)
    requires { HasHistory J.book → (d : ℕ) × (part.old.digit ≡ Some d) × IsOf K.path_of {V = V} d (Remove (Q.key_of key)) }
    ensures { HasHistory J.book → IsTrue there → (h : List (Entry K V)) × IsPrefix part.old.log h × (part.new.log ≡ h ++ record { by = author.old.by; write = Remove (Q.key_of key) } ∷ []) }
{
    let intent = part.removing(author, &key);
    if there {
        part.write(&intent, author);
    }
}
