//! Calls whose writer fails: each returns the fault that the writer had, has written what comes before it, and doesn't call the
//! writer again.
use super::compare::{AFTER, BEFORE, OPTIONS};
use super::cut::join_cut_into;
use super::hashing::usual_hashes;
use super::lines::{KILLED, read, text_of};
use super::reading::Slow;
use super::times::TIMED;
use mimic_compare::write_comparison;
use mimic_events::{Ending, Report, Row, RowsRead, Stop, read_from, read_into, write_report};
use mimic_expect::{ExpectOptions, Lines, write_known, write_unexpected};
use mimic_join::join_reports;
use mimic_printer::{Piece, Place, Sink, add_escaped, add_pieces};
use mimic_reports::{
    PageContents, Slowest, Suite, add_running, show_cut, show_failures, show_report, write_junit,
    write_page, write_slowest, write_suite,
};
use mimic_testkit::{Fault, FaultPlace, FaultyWriter};
use mimic_watch::{Screen, watch};
use std::alloc::Global;
use std::fmt::Display;
use std::io;
use std::io::ErrorKind;
use std::process::Abort;
use std::test::Fail;
use std::time::Duration;

// A call that writes to a sink.
#[derive(Clone, Copy, Debug, PartialEq, Eq)]
enum Call {
    Pieces,
    LongPieces,
    Escaped,
    Extent,
    Running,
    Report,
    Joined,
    JoinedCut,
    Shown,
    ShownCut,
    Failures,
    Page,
    Junit,
    JunitAlone,
    Slowest,
    Comparison,
    Unexpected,
    Known,
    Watch,
    LiveWatch,
}

static CALLS: [Call; 20] = [
    Call::Pieces,
    Call::LongPieces,
    Call::Escaped,
    Call::Extent,
    Call::Running,
    Call::Report,
    Call::Joined,
    Call::JoinedCut,
    Call::Shown,
    Call::ShownCut,
    Call::Failures,
    Call::Page,
    Call::Junit,
    Call::JunitAlone,
    Call::Slowest,
    Call::Comparison,
    Call::Unexpected,
    Call::Known,
    Call::Watch,
    Call::LiveWatch,
];

// The pieces are gathered if they are short.
const SHORT: Piece<'_> = Piece::Text("some text");

const LONG: Piece<'_> = Piece::Spaces(1000);

// Returns the text of the fault, if there is one.
fn fault_of<T: Drop, E: Display + Drop>(
    alloc: Global,
    written: Result<T, E>,
) -> Result<Option<String>, Fail> {
    match written {
        Ok(_) => Ok(None),
        Err(fault) => Ok(Some(format!(in alloc; "{fault}")?)),
    }
}

fn report(alloc: Global) -> Result<Report, Fail> {
    let text = text_of(alloc, AFTER)?;
    Ok(read_from(alloc, &mut Slow::of(text.as_str()))?)
}

// What a call wrote, and the text of the fault.
type Written = Result<(FaultyWriter, Option<String>), Fail>;

// What a call writes to a sink over the writer. Each call has a function of its own, which promises nothing: a proof is quick
// that has one contract before it.
macro_rules! written {
    ($alloc:expr, $writer:expr, $sink:ident => $call:expr) => {{
        let mut $sink = Sink::new($writer);
        let fault = fault_of($alloc, $call)?;
        Ok(($sink.into_inner(), fault))
    }};
}

fn pieces(alloc: Global, pieces: &[Piece<'_>], writer: FaultyWriter) -> Written {
    written!(alloc, writer, sink => {
        add_pieces(&mut sink, pieces);
        sink.end()
    })
}

fn escaped(alloc: Global, writer: FaultyWriter) -> Written {
    written!(alloc, writer, sink => {
        add_escaped(&mut sink, b"a\x1bb\x1bc", Place::Terminal);
        sink.end()
    })
}

// The rows of a report that is cut, and how far it goes.
fn cut(alloc: Global, lines: &[&str]) -> Result<(Vec<Row>, Stop), Fail> {
    let RowsRead { rows, ending } = read(alloc, lines)?;
    match ending {
        Ending::Cut(stop) => Ok((rows, stop)),
        Ending::Whole { .. } | Ending::Failed(_) => Err("no cut report".into()),
    }
}

fn extent(alloc: Global, writer: FaultyWriter) -> Written {
    let (_, stop) = cut(alloc, &["what\n"])?;
    written!(alloc, writer, sink => {
        stop.add_extent(&mut sink, 0);
        sink.end()
    })
}

fn running(alloc: Global, writer: FaultyWriter) -> Written {
    let (_, stop) = cut(alloc, KILLED)?;
    written!(alloc, writer, sink => {
        add_running(&mut sink, Place::Line, &stop);
        sink.end()
    })
}

fn whole(alloc: Global, writer: FaultyWriter) -> Written {
    let report = report(alloc)?;
    written!(alloc, writer, sink => write_report(&report, &mut sink))
}

fn joined(alloc: Global, text: &str, writer: FaultyWriter) -> Written {
    let inputs = vec![in alloc; Slow::of(text)]?;
    written!(alloc, writer, sink => join_reports(alloc, usual_hashes(), inputs, 1, false, &mut sink))
}

fn joined_cut(alloc: Global, writer: FaultyWriter) -> Written {
    let killed = text_of(alloc, KILLED)?;
    let inputs = vec![in alloc; Slow::of(killed.as_str())]?;
    let (writer, joined) = join_cut_into(alloc, inputs, 1, writer);
    Ok((writer, fault_of(alloc, joined)?))
}

fn shown_cut(alloc: Global, writer: FaultyWriter) -> Written {
    let (rows, stop) = cut(alloc, KILLED)?;
    written!(alloc, writer, sink => show_cut(alloc, rows, &stop, false, &mut sink))
}

fn shown(alloc: Global, writer: FaultyWriter) -> Written {
    let report = report(alloc)?;
    written!(alloc, writer, sink => show_report(alloc, report, false, &mut sink))
}

fn failures(alloc: Global, writer: FaultyWriter) -> Written {
    let RowsRead { rows, ending } = read(alloc, KILLED)?;
    written!(alloc, writer, sink => show_failures(alloc, rows, &ending, &mut sink))
}

fn page(alloc: Global, writer: FaultyWriter) -> Written {
    let RowsRead { rows, ending } = read(alloc, AFTER)?;
    let contents = PageContents {
        title: "a",
        notes: &[],
        rows: rows.as_slice(),
        ending: &ending,
        cause: "",
        most: u64::MAX,
    };
    written!(alloc, writer, sink => write_page(&contents, &mut sink))
}

fn junit(alloc: Global, text: &str, writer: FaultyWriter) -> Written {
    let suites = vec![in alloc; Suite::read(alloc, "a", Slow::of(text))?]?;
    written!(alloc, writer, sink => write_junit(&suites, &mut sink))
}

fn alone(alloc: Global, text: &str, writer: FaultyWriter) -> Written {
    let suite = Suite::read(alloc, "a", Slow::of(text))?;
    written!(alloc, writer, sink => write_suite(&suite, &mut sink))
}

fn slowest(alloc: Global, writer: FaultyWriter) -> Written {
    let mut slowest = Slowest::new(alloc, 3);
    let text = text_of(alloc, TIMED)?;
    read_into(alloc, Slow::of(text.as_str()), &mut slowest)?;
    written!(alloc, writer, sink => write_slowest(slowest, &mut sink))
}

fn comparison(alloc: Global, writer: FaultyWriter) -> Written {
    let (old, new) = (text_of(alloc, BEFORE)?, text_of(alloc, AFTER)?);
    let (old, new) = (Slow::of(old.as_str()), Slow::of(new.as_str()));
    written!(alloc, writer, sink => write_comparison(alloc, usual_hashes(), old, new, &OPTIONS, &mut sink))
}

// Of the first input all rows are judged, also if the writer fails in those of the second.
fn unexpected(alloc: Global, text: &str, writer: FaultyWriter) -> Written {
    let inputs = vec![in alloc; Slow::of(text), Slow::of(text)]?;
    let options = ExpectOptions {
        lax: false,
        lines: Lines::Readable,
    };
    written!(alloc, writer, sink => write_unexpected(alloc, usual_hashes(), &[], inputs, options, &mut sink))
}

fn known(alloc: Global, text: &str, writer: FaultyWriter) -> Written {
    written!(alloc, writer, sink => write_known(alloc, Slow::of(text), &mut sink))
}

fn watched(alloc: Global, text: &str, live: bool, writer: FaultyWriter) -> Written {
    let screen = Screen {
        live,
        columns: 39,
        colours: false,
    };
    let mut input = Slow::of(text);
    written!(alloc, writer, sink => watch(alloc, &mut input, &mut sink, &Stopped, screen))
}

fn write(alloc: Global, call: Call, writer: FaultyWriter) -> Written {
    let text = text_of(alloc, AFTER)?;
    let text = text.as_str();
    match call {
        Call::Pieces => pieces(alloc, &[SHORT, SHORT], writer),
        Call::LongPieces => pieces(alloc, &[SHORT, LONG, SHORT], writer),
        Call::Escaped => escaped(alloc, writer),
        Call::Extent => extent(alloc, writer),
        Call::Running => running(alloc, writer),
        Call::Report => whole(alloc, writer),
        Call::Joined => joined(alloc, text, writer),
        Call::JoinedCut => joined_cut(alloc, writer),
        Call::Shown => shown(alloc, writer),
        Call::ShownCut => shown_cut(alloc, writer),
        Call::Failures => failures(alloc, writer),
        Call::Page => page(alloc, writer),
        Call::Junit => junit(alloc, text, writer),
        Call::JunitAlone => alone(alloc, text, writer),
        Call::Slowest => slowest(alloc, writer),
        Call::Comparison => comparison(alloc, writer),
        Call::Unexpected => unexpected(alloc, text, writer),
        Call::Known => known(alloc, text, writer),
        Call::Watch => watched(alloc, text, false, writer),
        Call::LiveWatch => watched(alloc, text, true, writer),
    }
}

// A clock that stays.
#[derive(Drop)]
struct Stopped;

impl std::rt::Clock for Stopped {
    fn monotonic(&self) -> io::Result<Duration> {
        Ok(Duration::from_millis(0))
    }

    fn since_1970(&self) -> io::Result<Duration> {
        Err(io::Error::from(ErrorKind::Unsupported))
    }
}

// What is shown of the writer's fault.
fn text_of_fault(place: FaultPlace, fault: Fault) -> &'static str {
    match (place, fault) {
        (_, Fault::Error(ErrorKind::StorageFull)) => "no storage space",
        (_, Fault::Error(_)) => "operation interrupted",
        (FaultPlace::Flush(_), Fault::TakesNone) => "write zero",
        (_, Fault::TakesNone) => "the writer took no byte",
    }
}

// Checks what the call leaves and returns if the writer fails at the place.
fn check_fault(
    rt: &impl Abort,
    alloc: Global,
    call: Call,
    sound: &FaultyWriter,
    place: FaultPlace,
) -> Result<(), Fail> {
    let before = match place {
        FaultPlace::Byte(count) => &sound.bytes[..count.min(sound.bytes.len())],
        _ => sound.bytes.as_slice(),
    };
    for fault in Fault::ALL {
        let writer = FaultyWriter::new(alloc).failing(place, fault);
        let (writer, shown) = write(alloc, call, writer)?;
        let expected = text_of_fault(place, fault);
        assert!(rt;
            matches!(&shown, Some(text) if text.as_str() == expected),
            "{call:?} {place:?} {shown:?}"
        );
        assert!(rt;
            writer.has_failed && writer.calls_after == 0 && writer.bytes.as_slice() == before,
            "{call:?} {place:?} {fault:?}"
        );
    }
    Ok(())
}

// A writer that fails at the first byte, in the middle, at the last byte, and at the last flush, if the call flushes.
#[test]
fn returns_the_fault_of_the_writer(rt: HostRuntime) -> Result<(), Fail> {
    let alloc = rt.alloc();
    for call in CALLS {
        let (sound, fault) = write(alloc, call, FaultyWriter::new(alloc))?;
        assert!(rt; fault.is_none() && sound.bytes.len() > 1, "{call:?}");
        for count in [0, sound.bytes.len() / 2, sound.bytes.len() - 1] {
            check_fault(&rt, alloc, call, &sound, FaultPlace::Byte(count))?;
        }
        if sound.flushes > 0 {
            check_fault(&rt, alloc, call, &sound, FaultPlace::Flush(sound.flushes))?;
        }
    }
    Ok(())
}
