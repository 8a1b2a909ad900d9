//! Tests of `iter` and `splitter` over keys whose path words are chosen: small maps by hand, and many random ones beside
//! plain sorted lists.
#![tactic(auto)]

#[cfg(test)]
mod maps;
#[cfg(test)]
mod plain;
#[cfg(test)]
mod tests;
