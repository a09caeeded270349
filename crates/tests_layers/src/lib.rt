//! Tests of the library's layers one by one: texts, trials, command lines, printing, and the pool. There is no code but these.
#![tactic(auto)]

#[cfg(test)]
mod tests;
