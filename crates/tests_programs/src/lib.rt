//! Tests of programs over memory: outputs, clocks, faults, and whole programs on a machine whose parts are known. There is no code
//! but these.
#![tactic(auto)]

#[cfg(test)]
mod tests;
