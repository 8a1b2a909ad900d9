//! The stripe of a part of a map, and stripes that exchange their pairs.
ghost use Rattle.std.specs.Prelude.{◌≡◌, ◌<◌, Err, IfErr, IfOk, length};
ghost use Rattle.stripe.specs.Rules.{AllKeep, IsPutRefusal};
ghost use Rattle.stripe.specs.Contents.{IsPart};

use super::Stripe;
use crate::keeps::Keeps;
use crate::stripe::MOST_PAIRS_OF_STRIPE;
use hash_path::PathKey;
use std::alloc::Global;
use std::marker::PhantomData;
use std::mem;
use trie_node::{Slots, root_is_map, size};
use united_roots::part_of_root;
use versions::{Refusal, Version};
use write_history::{Part, Unnamed};

impl<K: PathKey + Drop, V: Drop, P: Keeps<K, V>, S: Slots<K, V>> Stripe<K, V, P, Unnamed, S>
where
    S::Key: Drop,
    S::Value: Drop,
{
    /// The stripe of a first digit, with the pairs that the map has at the keys of that digit. It shares every node with
    /// the map but its root.
    ///
    /// The error is `Full` where these are more than a stripe may hold, and `NoMemory` if memory runs out.
    pub fn part_of(
        alloc: Global,
        whole: &Version<K, V, S>,
        first_digit: u32,
    ) -> Result<Stripe<K, V, P, Unnamed, S>, Refusal>
        requires rule { AllKeep K.cmp P.holds whole.now.entries }
        ensures part { IfOk result (IsPart K.cmp K.path_of whole.now.entries) }
        ensures digit { IfOk result (λ stripe. stripe.digit ≡ first_digit) }
        ensures full { result ≡ Err Refusal.Full → MOST_PAIRS_OF_STRIPE < length whole.now.entries }
        ensures err { IfErr result IsPutRefusal }
    {
        root_is_map::<K, V>();
        let newest = whole.stamp();
        let root = part_of_root(alloc, whole.root(), first_digit, newest)?;
        if size(&root) > MOST_PAIRS_OF_STRIPE {
            return Err(Refusal::Full);
        }
        Ok(Stripe {
            version: Version::from_root(root, MOST_PAIRS_OF_STRIPE, newest),
            first_digit,
            marks: None,
            rule: PhantomData,
            part: Part::idle(),
        })
    }

    /// Exchanges the pairs with those of another stripe of the same digit. The stripe's marks end before that, and are
    /// dropped.
    pub fn exchange(&mut self, other: &mut Stripe<K, V, P, Unnamed, S>)
        requires { other.old.digit ≡ self.old.digit }
        ensures mine { self.new ≡ other.old }
        ensures theirs { other.new ≡ self.old }
    {
        self.end_marks();
        mem::swap(&mut self.version, &mut other.version);
        mem::swap(&mut self.part, &mut other.part);
    }
}
