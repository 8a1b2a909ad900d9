//! Tests of `iter` and `splitter` with requests for memory refused: walks, cuts and roots answer as with ample memory, or
//! leave what they were asked of. What those answers are stands in `tests_splitter`.
#![tactic(auto)]

#[cfg(test)]
mod tests;
