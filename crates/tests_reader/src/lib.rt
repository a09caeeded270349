//! Tests of the reader: reports read whole and in pieces, runs read back, and the line of `readreport`. There is no code but these.
#![tactic(auto)]

#[cfg(test)]
mod tests;
