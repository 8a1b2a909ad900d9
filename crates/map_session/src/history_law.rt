//! What a history says of a key that is not written again.
ghost use Rattle.std.specs.Prelude.{◌≡◌, ◌++◌, ◌∷◌, ℕ, [], List, Option, Some};
ghost use Rattle.map_session.specs.Sessions.{Untouched};
ghost use Rattle.write_history.specs.declared.entry.Entry.{Entry};
ghost use Rattle.write_history.specs.declared.entry.Write.TheVariants.{Put};
ghost use Rattle.write_history.specs.Histories.{value_in};

use hash_path::PathKey;

/// A history leaves a key the value that was put, where no entry behind that put writes the key. It does nothing.
pub fn law_of_last_put<K: PathKey, V>()
    ensures { (h rest : List (Entry K V)) (by : Option ℕ) (k : K) (v : V) → Untouched K.cmp k rest → value_in K.cmp K.path_of ((h ++ record { by = by; write = Put k v } ∷ []) ++ rest) k ≡ Some v }
{}
