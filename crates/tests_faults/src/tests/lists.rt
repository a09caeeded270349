//! Lists into writers that fail.
use super::faulty_writer::FAULTS;
use super::runs::{asking, run_into};
use libtest_mimic::{Arguments, FormatSetting, Outcome, Spawner, Task, TestInfo, Trial};
use mimic_testkit::{Fault, FaultPlace, FaultyWriter};
use std::alloc::{AllocError, Global};
use std::io::ErrorKind;
use std::process::Abort;
use std::test::Fail;

// What is listed and never run.
#[derive(Drop)]
struct Unrun;

impl Task for Unrun {
    fn run(self, _test_mode: bool) -> Outcome {
        Outcome::Passed
    }
}

const LIST: &[u8] = b"[a] b: test\nc: bench\n";

fn listed(
    alloc: Global,
    kind: &str,
    name: &str,
    is_bench: bool,
) -> Result<Trial<Unrun>, AllocError> {
    let info = TestInfo {
        name: String::from_str(alloc, name)?,
        kind: String::from_str(alloc, kind)?,
        is_ignored: false,
        is_bench,
    };
    Ok(Trial::from_parts(info, Unrun))
}

fn all_listed(alloc: Global) -> Result<Vec<Trial<Unrun>>, AllocError> {
    let mut tests = Vec::with_capacity(alloc, 2)?;
    tests.push(listed(alloc, "a", "b", false)?)?;
    tests.push(listed(alloc, "", "c", true)?)?;
    Ok(tests)
}

// How a call at the place reports the fault: a flush can't return that it took no byte.
fn told_at(place: FaultPlace, fault: Fault) -> Fault {
    match (place, fault) {
        (FaultPlace::Flush(_), Fault::TakesNone) => Fault::Error(ErrorKind::WriteZero),
        _ => fault,
    }
}

// Whether `len` bytes of the list may be written if a call at the place failed.
fn may_stand(place: FaultPlace, len: usize) -> bool {
    match place {
        FaultPlace::Byte(count) => len == count,
        FaultPlace::Write(_) => len < LIST.len(),
        FaultPlace::Nowhere | FaultPlace::Flush(_) => len == LIST.len(),
    }
}

// Whether the list is stopped by the fault of this writer, after a beginning of its text that may be written then, and the
// watch runs on.
fn stops<T: Spawner + 'static>(
    rt: &T,
    alloc: Global,
    args: &Arguments,
    writer: FaultyWriter,
) -> Result<bool, AllocError> {
    let (place, fault) = (writer.place, writer.fault);
    let left = run_into(rt, alloc, args, all_listed(alloc)?, writer);
    let bytes = left.writer.bytes.as_slice();
    Ok(
        left.is_stopped_by(Some(told_at(place, fault)))
            && LIST.starts_with(bytes)
            && may_stand(place, bytes.len())
            && left.is_running,
    )
}

// The places at which a list that is written whole, at most `most` bytes a write, can fail.
fn places_of_list<T: Spawner + 'static>(
    rt: &T,
    alloc: Global,
    args: &Arguments,
    most: usize,
) -> Result<Vec<FaultPlace>, Fail> {
    let writer = FaultyWriter::new(alloc).taking(most);
    let ample = run_into(rt, alloc, args, all_listed(alloc)?, writer).writer;
    if ample.bytes.as_slice() != LIST || ample.flushes != 1 {
        return Err(Fail::new("the list is not whole"));
    }
    Ok(ample.places(alloc)?)
}

// The list is stopped at this place in each way.
fn check_place<T: Spawner + Abort + 'static>(
    rt: &T,
    alloc: Global,
    args: &Arguments,
    most: usize,
    place: FaultPlace,
) -> Result<(), AllocError> {
    for (fault, lasts) in &FAULTS {
        let mut writer = FaultyWriter::new(alloc).taking(most).failing(place, *fault);
        writer.lasts = *lasts;
        assert!(rt; stops(rt, alloc, args, writer)?, "{place:?}");
    }
    Ok(())
}

// The threads that a list has no use for, and the most bytes that a write takes.
static LISTED: [(Option<usize>, usize); 4] = [(None, 1), (None, 3), (Some(2), 1), (Some(2), 3)];

// A list, for which JSON is asked, into a writer of which one call fails, in each way at each byte,
// write and flush, and which is well again or fails for ever. There is one flush, behind the whole
// list, and nothing is asked of the writer after its fault.
#[test]
fn stops_a_list_at_each_place(rt: HostRuntime) -> Result<(), Fail> {
    let alloc = rt.alloc();
    for (threads, most) in &LISTED {
        let mut args = asking(alloc, FormatSetting::Json, *threads);
        args.list = true;
        for place in &places_of_list(&rt, alloc, &args, *most)? {
            check_place(&rt, alloc, &args, *most, *place)?;
        }
    }
    Ok(())
}
