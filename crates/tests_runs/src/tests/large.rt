//! What is large: a call that says of it that there was no memory would meet its contract.
use libtest_mimic::{Arguments, Failed, Trial};
use mimic_trial::{Shard, shard_of};
use std::alloc::Global;
use std::test::Fail;

const MEBIBYTE: usize = 1 << 20;

#[test]
fn keeps_a_long_message(rt: HostRuntime) -> Result<(), Fail> {
    let alloc = rt.alloc();
    let text = "x".repeat(alloc, MEBIBYTE)?;
    let failed = Failed::because(alloc, &text);
    assert!(rt; failed.message() == Some(text.as_str()));
    Ok(())
}

fn passes(_number: usize) -> Result<(), Failed> {
    Ok(())
}

// As many cases.
fn cases(alloc: Global, count: usize) -> Result<Vec<(&'static str, usize)>, Fail> {
    let mut cases = Vec::new(alloc);
    for number in 0..count {
        cases.push(("a", number))?;
    }
    Ok(cases)
}

#[test]
fn makes_tests_of_many_cases(rt: HostRuntime) -> Result<(), Fail> {
    let alloc = rt.alloc();
    let tests = Trial::of_cases(alloc, cases(alloc, 20_000)?, passes)?;
    assert!(rt; tests.len() == 20_000);
    let shard = Shard::new(1, 2).ok_or("no shard")?;
    assert!(rt; shard_of(alloc, shard, tests)?.len() == 10_000);
    Ok(())
}

#[test]
fn reads_many_filters(rt: HostRuntime) -> Result<(), Fail> {
    let words = vec![in rt.alloc(); "filter"; 1001]?;
    let args = Arguments::from_iter(rt.alloc(), words.as_slice())?;
    assert!(rt; args.filter.len() == 1000);
    Ok(())
}
