//! Maps that have a history, and the calls of a thread on one.
ghost use Rattle.std.specs.Prelude.{◌≡◌, [], IfOk, Some};

use super::TrieMap;
use hash_path::PathKey;
use map_session::Session;
use stripes::{Keeps, Stripes, told_empties};
use trie_node::{NoMemory, Slots};
use write_history::{Author, Authors, Front, Naming, Opened, Parts};

impl<K: PathKey + Drop, V: Drop, P: Keeps<K, V>, J: Naming, S: Slots<K, V>> TrieMap<K, V, P, J, S>
where
    S::Key: Drop,
    S::Value: Drop,
{
    /// A map with no pairs that has a history, which is the book's; what has seen nothing of it; and the book's authors.
    ///
    /// Cost: O(1), no lock. Refused: `NoMemory`, if memory runs out.
    pub fn with_history<R: AllocGlobal>(
        rt: &R,
        opened: Opened<K, V>,
    ) -> Result<(TrieMap<K, V, P, J, S>, Front<K, V, J>, Authors<J>), NoMemory>
        requires { J.book ≡ Some opened.book }
        ensures front { IfOk result (λ made. made.1 ≡ []) }
        ensures authors { IfOk result (λ made. made.2 ≡ opened.authors) }
    {
        let alloc = rt.alloc();
        let front = Front::of(&opened);
        let (stripes, authors) = told_empties(alloc, Parts::of(opened))?;
        let row = Stripes::new(alloc, stripes)?;
        Ok((TrieMap { alloc, row }, front, authors))
    }

    /// The calls of a thread that has seen this much of the map's history, and signs its writes so.
    ///
    /// Cost: O(1), no lock. Refused: never.
    pub fn session(&self, front: Front<K, V, J>, author: Author<J>) -> Session<'_, K, V, P, J, S>
        ensures log { result.log ≡ front }
        ensures signer { result.signer ≡ author }
    {
        Session::of(self.alloc, &self.row, front, author)
    }
}
