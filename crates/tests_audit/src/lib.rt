//! Tests of `journal_text` and `audit`: which texts are those of legal journals, and which line spoils another.
#![tactic(auto)]

#[cfg(test)]
mod tests;
