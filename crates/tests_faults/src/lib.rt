//! Tests of faults, refused memory, hostile texts and worker threads. There is no code but these.
#![tactic(auto)]

#[cfg(test)]
mod tests;
