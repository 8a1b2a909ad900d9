//! Tests of `arguments` and `script`: what scripts spell, the text of each fault, and the texts of replies.
#![tactic(auto)]

#[cfg(test)]
mod tests;
