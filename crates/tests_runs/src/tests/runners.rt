//! Trials over runners of one's own: plain data, closures that no box holds, and one function for all cases.
ghost use Rattle.std.specs.Prelude.{◌≡◌, ◌+◌, ◌==◌, None, if◌then◌else◌};
ghost use Rattle.mimic_trial.specs.declared.outcome.Outcome.TheVariants.{Failed as AFailed, Passed as APassed};

use super::in_memory::{NOTHING, run_ample};
use libtest_mimic::{Failed, Outcome, Task, Trial};
use std::alloc::Global;
use std::test::Fail;

// A sum and what it is to be: plain data.
#[derive(Drop)]
struct Sum {
    summands: (u32, u32),
    total: u64,
}

impl Task for Sum {
    // It passes exactly if the sum is right.
    ghost gives = { λ sum _ o. o ≡ (if sum.summands.0 + sum.summands.1 == sum.total then APassed else AFailed None) };

    fn run(self, _test_mode: bool) -> Outcome {
        if u64::from(self.summands.0) + u64::from(self.summands.1) == self.total {
            Outcome::Passed
        } else {
            Outcome::Failed(Failed::without_message())
        }
    }
}

// Trials that a function makes and returns, each named by its sum.
fn sums(alloc: Global, cases: &[(u32, u32, u64)]) -> Result<Vec<Trial<Sum>>, Fail> {
    let mut trials = Vec::new(alloc);
    for (left, right, total) in cases {
        let name = format!(in alloc; "{left} + {right}")?;
        let sum = Sum {
            summands: (*left, *right),
            total: *total,
        };
        trials.push(Trial::new(name, sum))?;
    }
    Ok(trials)
}

static SUMS: &[u8] =
    b"\nrunning 3 tests\ntest 1 + 1          ... ok\ntest 2 + 2          ... FAILED\ntest 4294967295 + 1 ... ok\n\nfailures:\n\n---- 2 + 2 ----\n\n\nfailures:\n    2 + 2\n\ntest result: FAILED. 2 passed; 1 failed; 0 ignored; 0 measured; 0 filtered out; finished in 0.00s\n\n";

#[test]
fn runs_plain_data(rt: HostRuntime) -> Result<(), Fail> {
    let alloc = rt.alloc();
    let trials = sums(alloc, &[(1, 1, 2), (2, 2, 5), (u32::MAX, 1, 1 << 32)])?;
    let left = run_ample(alloc, &NOTHING, trials)?;
    assert!(rt; left.conclusion.has_failed());
    assert!(rt; left.bytes() == SUMS);
    Ok(())
}

// One function for all cases.
fn is_short(word: &str) -> Result<(), Failed> {
    if word.len() < 6 {
        Ok(())
    } else {
        Err(Failed::without_message())
    }
}

#[test]
fn runs_closures_without_boxes(rt: HostRuntime) -> Result<(), Fail> {
    let alloc = rt.alloc();
    let mut trials = Vec::new(alloc);
    for word in ["apple", "banana", "fig"] {
        let name = String::from_str(alloc, word)?;
        trials.push(Trial::new(name, move || is_short(word)))?;
    }
    let left = run_ample(alloc, &NOTHING, trials)?;
    assert!(rt; left.counts() == [2, 1, 0, 0, 0]);
    Ok(())
}
