//! What a refusal displays.
use libtest_mimic::{RunError, WriteFault};
use std::alloc::Global;
use std::fmt::Display;

fn displays<T: Display>(alloc: Global, refused: &T, text: &str) -> bool {
    match &format!(in alloc; "{refused}") {
        Ok(shown) => shown.as_str() == text,
        Err(_) => false,
    }
}

#[test]
fn tells_each_refusal(rt: HostRuntime) {
    let alloc = rt.alloc();
    let zero = WriteFault::Zero;
    assert!(rt; displays(alloc, &zero, "the writer took no byte"));
    let refused = RunError::Write(zero);
    assert!(rt; displays(alloc, &refused, "cannot write the report"));
    assert!(rt; displays(alloc, &RunError::OutOfMemory, "out of memory"));
    assert!(rt; displays(alloc, &RunError::ZeroThreads, "no threads to run trials"));
    assert!(rt; displays(alloc, &RunError::Spawn, "cannot start a worker"));
    let refused = RunError::Arrival { place: 7 };
    let text = "outcome of trial 7 differs from its worker's answer";
    assert!(rt; displays(alloc, &refused, text));
}
