//! Work for tests.

/// What `count` rounds of xorshift64 make of the state.
pub(crate) fn rounds(mut state: u64, count: u64) -> u64 {
    for _ in 0..count {
        state ^= state << 13;
        state ^= state >> 7;
        state ^= state << 17;
    }
    state
}
