//! Where the keys and values of a measured map lie.

/// Where the keys and values of a map lie.
#[derive(Clone, Copy, Debug)]
pub enum Storage {
    /// In the rows of its trie: `slots::InPlace`.
    Rows,
    /// Behind handles: `slots::Shared`.
    Handles,
}

/// The storage that the first of the words names, and the words after it. Where it names none, the rows, and all words.
pub fn storage_of(words: &[String]) -> (Storage, &[String]) {
    match words {
        [first, rest @ ..] => match first.as_str() {
            "rows" => (Storage::Rows, rest),
            "handles" => (Storage::Handles, rest),
            _ => (Storage::Rows, words),
        },
        [] => (Storage::Rows, words),
    }
}
