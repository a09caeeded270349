//! Tests of shards, of reports that are joined, judged, compared and shown, and of a watch. The crate has no other code.
#![tactic(auto)]

#[cfg(test)]
mod tests;
