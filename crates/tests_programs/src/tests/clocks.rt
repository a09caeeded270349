//! The machine's clock, over one whose readings are known.
use libtest_mimic::{Clock, Stopwatch};
use mimic_main::{MonotonicClock, StillClock};
use mimic_testkit::KnownReadings;
use std::test::Fail;
use std::time::Duration;

static NANOS: [u64; 7] = [
    0,
    1_500_000_007,
    1_500_000_007,
    3_000_000_000,
    3_000_000_000,
    2,
    2,
];

// A reading counts nanoseconds; one that fails, and one that no `u64` holds, repeats the one before.
#[test]
fn reads_nanoseconds(rt: HostRuntime) -> Result<(), Fail> {
    let machine = KnownReadings::new([
        None,
        Some(Duration::new(1, 500_000_007)),
        None,
        Some(Duration::new(3, 0)),
        Some(Duration::new(u64::MAX, 0)),
        Some(Duration::new(0, 2)),
    ]);
    let mut clock = MonotonicClock::new(&machine);
    for nanos in &NANOS {
        assert!(rt; clock.now() == *nanos);
    }
    assert!(rt; machine.count() == 7);
    // After the last one all readings fail.
    assert!(rt; std::rt::Clock::monotonic(&machine).is_err());
    Ok(())
}

#[test]
fn measures_a_duration(rt: HostRuntime) -> Result<(), Fail> {
    let start = Duration::new(7, 999_999_999);
    let stop = Duration::new(8, 1);
    let machine = KnownReadings::new([Some(start), Some(stop), None, None, None, None]);
    let mut watch = Stopwatch::new(MonotonicClock::new(&machine));
    watch.start();
    watch.stop();
    assert!(rt; watch.elapsed() == Some(2));
    let mut still = Stopwatch::new(StillClock);
    still.start();
    still.stop();
    assert!(rt; still.elapsed() == Some(0));
    Ok(())
}
