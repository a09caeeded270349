//! The example at the head of the library.
use libtest_mimic::{Arguments, Sink, Stopwatch, Trial, check, run_here};
use mimic_testkit::TwoReadings;
use std::test::Fail;

#[test]
fn first_page(rt: HostRuntime) -> Result<(), Fail> {
    let alloc = rt.alloc();
    let clock = TwoReadings::still();
    let cases = vec![in alloc; ("one", 1), ("two", 2)]?;
    let tests = Trial::of_cases(alloc, cases, move |number| {
        check!(in alloc; number < 2, "{number} is too large")
    })?;
    let mut args = Arguments::new(alloc);
    args.filter.push(String::from_str(alloc, "t")?)?;
    let mut sink = Sink::new(Vec::new(alloc));
    let mut watch = Stopwatch::new(clock);
    let counts = run_here(alloc, &args, tests, &mut sink, &mut watch, false)?;
    assert_eq!(rt; (counts.num_failed, counts.num_filtered_out), (1, 1));
    let report = String::from_utf8(sink.into_inner())?;
    assert!(rt; report.starts_with("\nrunning 1 test\ntest two ... FAILED\n"));
    Ok(())
}
