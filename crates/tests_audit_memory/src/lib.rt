//! Tests of `journal_text` and `audit` with requests for memory refused. Which texts are those of legal journals stands in
//! `tests_audit`.
#![tactic(auto)]

#[cfg(test)]
mod tests;
