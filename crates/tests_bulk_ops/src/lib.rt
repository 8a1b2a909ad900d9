//! Tests of `combiner`, `bulk_work` and `bulk_ops`: what queries are answered, which requests for memory they make, when a work
//! stops, how maps are merged, and what the laws of sums and of folds show of values.
#![tactic(auto)]

#[cfg(test)]
mod tests;
