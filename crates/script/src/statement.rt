//! What a script says.

use arguments::{Folding, Key, Mapping, PairMapping, Test};

/// What a client asks of the table. Handles are numbers, whether a table has them or not.
#[derive(Debug, Drop)]
pub enum Statement {
    /// Makes the handle live with the empty map.
    Open {
        handle: u32,
    },
    /// Makes the handle `to` live with the map of the handle.
    Snap {
        handle: u32,
        to: u32,
    },
    /// Closes the handle.
    Drop {
        handle: u32,
    },
    /// Asks for the value of the key.
    Get {
        handle: u32,
        key: Key,
    },
    /// Maps the key to the value.
    Put {
        handle: u32,
        key: Key,
        value: i64,
    },
    /// Maps the key to the value where the key is absent.
    PutIfAbsent {
        handle: u32,
        key: Key,
        value: i64,
    },
    /// Maps the key to the value where the key is present.
    Replace {
        handle: u32,
        key: Key,
        value: i64,
    },
    /// Maps the key to the new value where it is mapped to the old one.
    ReplaceIf {
        handle: u32,
        key: Key,
        old: i64,
        new: i64,
    },
    /// Removes the key.
    Remove {
        handle: u32,
        key: Key,
    },
    /// Removes the key where it is mapped to the value.
    RemoveIf {
        handle: u32,
        key: Key,
        value: i64,
    },
    /// Asks for the value of the key, and maps the key to this one where there is none.
    GetOrElse {
        handle: u32,
        key: Key,
        value: i64,
    },
    /// Asks for the number of pairs.
    Size {
        handle: u32,
    },
    /// Removes all pairs.
    Clear {
        handle: u32,
    },
    /// Asks for all pairs, in the order of their keys.
    Pairs {
        handle: u32,
    },
    /// Asks how many pairs pass the test.
    Count {
        handle: u32,
        test: Test,
    },
    /// Asks whether some pair passes the test.
    Exists {
        handle: u32,
        test: Test,
    },
    /// Asks whether every pair passes the test.
    ForAll {
        handle: u32,
        test: Test,
    },
    /// Asks for a pair that passes the test.
    Find {
        handle: u32,
        test: Test,
    },
    /// Makes the handle `to` live with the pairs that pass the test.
    Filter {
        handle: u32,
        test: Test,
        to: u32,
    },
    /// Makes the handle `to` live with the same keys and their new values.
    MapValues {
        handle: u32,
        map: Mapping,
        to: u32,
    },
    /// Makes the handle `to` live with the images of the pairs.
    MapPairs {
        handle: u32,
        map: PairMapping,
        to: u32,
    },
    /// Asks what the fold makes of all values.
    Fold {
        handle: u32,
        folding: Folding,
    },
}

/// A statement, the client that makes it and the number of its line, which counts from 1.
#[derive(Debug, Drop)]
pub struct CommandLine {
    pub number: u32,
    pub client: u32,
    pub statement: Statement,
}
