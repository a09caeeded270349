//! What calls of the faulty writer return before, at and after its fault.
use mimic_testkit::{Fault, FaultPlace, FaultyWriter};
use std::io;
use std::io::{ErrorKind, Write};

// What a call returns; a flush that is well returns 0.
type Answer = Result<usize, ErrorKind>;

pub(super) const FULL: Fault = Fault::Error(ErrorKind::StorageFull);

// How a call fails, and whether each call after it fails likewise.
pub(super) static FAULTS: [(Fault, bool); 4] = [
    (FULL, false),
    (FULL, true),
    (Fault::Error(ErrorKind::Interrupted), false),
    (Fault::TakesNone, false),
];

fn answer(called: io::Result<usize>) -> Answer {
    called.map_err(|error| error.kind())
}

// Whether the calls return these: three bytes, two, a flush, one byte, and a flush.
fn answers(writer: &mut FaultyWriter, want: &[Answer; 5]) -> bool {
    answer(writer.write(b"abc")) == want[0]
        && answer(writer.write(b"de")) == want[1]
        && answer(writer.flush().map(|()| 0)) == want[2]
        && answer(writer.write(b"f")) == want[3]
        && answer(writer.flush().map(|()| 0)) == want[4]
}

// How many bytes a writer takes at most, the place at which it fails, how, and whether for ever; what those calls return, the
// bytes that it holds then, and how many calls came after its fault.
struct Row {
    most: usize,
    place: FaultPlace,
    fault: Fault,
    lasts: bool,
    answers: [Answer; 5],
    bytes: &'static str,
    calls_after: u64,
}

const NO_SPACE: Answer = Err(ErrorKind::StorageFull);

const ZERO: Answer = Err(ErrorKind::WriteZero);

macro_rules! rows {
    ($($most:expr, $place:expr, $fault:expr, $lasts:expr, $answers:expr, $bytes:expr, $calls_after:expr;)*) => {
        [$(Row {
            most: $most,
            place: $place,
            fault: $fault,
            lasts: $lasts,
            answers: $answers,
            bytes: $bytes,
            calls_after: $calls_after,
        }),*]
    };
}

const MOST: usize = usize::MAX;

const INTERRUPTED: Fault = Fault::Error(ErrorKind::Interrupted);

static ROWS: [Row; 8] = rows![
    MOST, FaultPlace::Nowhere, FULL, false, [Ok(3), Ok(2), Ok(0), Ok(1), Ok(0)], "abcdef", 0;
    1, FaultPlace::Nowhere, FULL, false, [Ok(1), Ok(1), Ok(0), Ok(1), Ok(0)], "adf", 0;
    MOST, FaultPlace::Byte(4), FULL, false, [Ok(3), Ok(1), Ok(0), NO_SPACE, Ok(0)], "abcd", 1;
    MOST, FaultPlace::Byte(3), FULL, true, [Ok(3), NO_SPACE, NO_SPACE, NO_SPACE, NO_SPACE], "abc", 3;
    MOST, FaultPlace::Byte(3), Fault::TakesNone, true, [Ok(3), Ok(0), ZERO, Ok(0), ZERO], "abc", 3;
    MOST, FaultPlace::Write(1), INTERRUPTED, false, [Err(ErrorKind::Interrupted), Ok(2), Ok(0), Ok(1), Ok(0)], "def", 4;
    MOST, FaultPlace::Flush(1), FULL, false, [Ok(3), Ok(2), NO_SPACE, Ok(1), Ok(0)], "abcdef", 2;
    MOST, FaultPlace::Flush(2), Fault::TakesNone, false, [Ok(3), Ok(2), Ok(0), Ok(1), ZERO], "abcdef", 0;
];

#[test]
fn fails_where_it_is_to(rt: HostRuntime) {
    for row in &ROWS {
        let mut writer = FaultyWriter::new(rt.alloc())
            .taking(row.most)
            .failing(row.place, row.fault);
        writer.lasts = row.lasts;
        assert!(rt; answers(&mut writer, &row.answers));
        assert!(rt; writer.bytes.as_slice() == row.bytes.as_bytes());
        assert!(rt; writer.calls_after == row.calls_after);
        assert!(rt; writer.writes == 3 && writer.flushes == 2);
    }
}

// What other tests go through: an error that stays one, one that is no reason to give up, and a write of nothing.
#[test]
fn has_each_fault(rt: HostRuntime) {
    assert!(rt; Fault::ALL == [FULL, INTERRUPTED, Fault::TakesNone]);
}
