//! Tests of selection, and of whole runs over memory: reports, lists, runners. There is no code but these.
#![tactic(auto)]

#[cfg(test)]
mod tests;
