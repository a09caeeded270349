//! What no clause states about a watch: when it draws, which times the lines show, and whole runs byte for byte. Expected texts
//! are worked out by hand.
use mimic_events::ReadFault;
use mimic_printer::Sink;
use mimic_testkit::KnownReadings;
use mimic_watch::{Screen, WatchFault, watch};
use std::alloc::Global;
use std::cell::Cell;
use std::io;
use std::io::{ErrorKind, Read};
use std::test::Fail;
use std::time::Duration;

// Gives these pieces, one a read. At an empty piece it times out, at `BLOCKED` it would block, at `INTERRUPTED` it is interrupted, and
// at `BROKEN` it fails.
#[derive(Drop)]
struct Pieces<'a> {
    pieces: &'a [&'a str],
    at: usize,
}

impl Read for Pieces<'_> {
    fn read(&mut self, buf: &mut [u8]) -> io::Result<usize> {
        let Some(piece) = self.pieces.get(self.at) else {
            return Ok(0);
        };
        self.at = self.at.saturating_add(1);
        if piece.is_empty() {
            return Err(io::Error::from(ErrorKind::TimedOut));
        }
        if *piece == BLOCKED {
            return Err(io::Error::from(ErrorKind::WouldBlock));
        }
        if *piece == INTERRUPTED {
            return Err(io::Error::from(ErrorKind::Interrupted));
        }
        if *piece == BROKEN {
            return Err(io::Error::from(ErrorKind::BrokenPipe));
        }
        let count = piece.len().min(buf.len());
        buf[..count].copy_from_slice(&piece.as_bytes()[..count]);
        Ok(count)
    }
}

// A clock that moves on by `step` milliseconds at each reading.
#[derive(Drop)]
struct Steps {
    now: Cell<u64>,
    step: u64,
}

impl std::rt::Clock for Steps {
    fn monotonic(&self) -> io::Result<Duration> {
        let now = self.now.get().saturating_add(self.step);
        self.now.set(now);
        Ok(Duration::from_millis(now))
    }

    fn since_1970(&self) -> io::Result<Duration> {
        Err(io::Error::from(ErrorKind::Unsupported))
    }
}

// Watches the input, and returns the status, or 99 for a fault of the input, and what was written.
fn watched<I: Read, C: std::rt::Clock>(
    alloc: Global,
    input: &mut I,
    clock: &C,
    screen: Screen,
) -> Result<(u8, String), Fail> {
    let mut sink = Sink::new(Vec::new(alloc));
    let status = match watch(alloc, input, &mut sink, clock, screen) {
        Ok(verdict) => verdict.status(),
        Err(WatchFault::Read(ReadFault::Input(error))) if error.kind() == ErrorKind::BrokenPipe =>
            99,
        Err(_) => return Err("another fault".into()),
    };
    Ok((status, String::from_utf8(sink.into_inner())?))
}

// Watches these pieces, by a clock of such steps.
pub(super) fn watched_pieces(
    alloc: Global,
    pieces: &[&str],
    step: u64,
    screen: Screen,
) -> Result<(u8, String), Fail> {
    let clock = Steps {
        now: Cell::new(0),
        step,
    };
    watched(alloc, &mut Pieces { pieces, at: 0 }, &clock, screen)
}

// A log, and a terminal.
pub(super) const LOG: Screen = Screen {
    live: false,
    columns: 79,
    colours: false,
};

pub(super) const TERMINAL: Screen = Screen {
    live: true,
    columns: 39,
    colours: false,
};

const BLOCKED: &str = "blocked";

const INTERRUPTED: &str = "interrupted";

const BROKEN: &str = "broken";

const TITLE: &str = "{ \"type\": \"suite\", \"event\": \"started\", \"test_count\": 2 }\n";

const ANNOUNCED: &str =
    "{ \"type\": \"test\", \"event\": \"started\", \"name\": \"a\\u001bb\", \"kind\": \"k\" }\n";

const FAILED: &str =
    "{ \"type\": \"test\", \"name\": \"a\\u001bb\", \"kind\": \"k\", \"event\": \"failed\", \"stdout\": \"Error: \\\"no\\\"\\n\" }\n";

const REST: &str =
    "{ \"type\": \"test\", \"event\": \"started\", \"name\": \"b\" }\n{ \"type\": \"bench\", \"name\": \"b\", \"median\": 1234, \"deviation\": 5 }\n{ \"type\": \"suite\", \"event\": \"failed\", \"passed\": 0, \"failed\": 1, \"ignored\": 0, \"measured\": 1, \"filtered_out\": 0, \"exec_time\": 1.5 }\n";

const SUMMARY: &str =
    "\nfailures:\n    [k] a\\u{1b}b\n\ntest result: FAILED. 0 passed; 1 failed; 0 ignored; 1 measured; 0 filtered out; finished in 1.50s\n\n";

const FAILURE: &str = "FAILED [k] a\\u{1b}b\n    no\n";

const BENCH: &str = "bench  b: 1,234 ns/iter (+/- 5)\n";

#[test]
fn plain(rt: HostRuntime) -> Result<(), Fail> {
    let alloc = rt.alloc();
    let pieces = [TITLE, ANNOUNCED, "", FAILED, REST];
    let (status, text) = watched_pieces(alloc, &pieces, 4_000, LOG)?;
    // The third reading after the one at the start is 12 seconds later.
    let line = "[      ] 0/2 12s; waiting 12s for [k] a\\u{1b}b\n";
    let expected = format!(in alloc; "{line}{FAILURE}{BENCH}{SUMMARY}")?;
    assert!(rt; status == 101, "{status}");
    assert!(rt; text == expected, "{text}");
    Ok(())
}

// A read that is interrupted is tried again.
#[test]
fn interrupted(rt: HostRuntime) -> Result<(), Fail> {
    let pieces = [TITLE, INTERRUPTED, ANNOUNCED, INTERRUPTED, FAILED, REST];
    let (status, text) = watched_pieces(rt.alloc(), &pieces, 1, LOG)?;
    let expected = format!(in rt.alloc(); "{FAILURE}{BENCH}{SUMMARY}")?;
    assert!(rt; status == 101, "{status}");
    assert!(rt; text == expected, "{text}");
    Ok(())
}

#[test]
fn live(rt: HostRuntime) -> Result<(), Fail> {
    let alloc = rt.alloc();
    let pieces = [TITLE, ANNOUNCED, "", FAILED, REST];
    let (status, text) = watched_pieces(alloc, &pieces, 1_000, TERMINAL)?;
    let expected = concat!(
        "\x1b[?7l\r[      ] 0/2 1s\x1b[J\n\x1b[1A\r\x1b[?7h",
        "\x1b[?7l\r[      ] 0/2 2s\x1b[J\nwaiting 2s for [k] a\\u{1b}b\x1b[1A\r\x1b[?7h",
        "\x1b[?7l\r[      ] 0/2 3s\x1b[J\nwaiting 3s for [k] a\\u{1b}b\x1b[1A\r\x1b[?7h",
        "\r \x1b[J\r\x1b[KFAILED [k] a\\u{1b}b\n    no\n",
        "\x1b[?7l\r[===   ] 1/2 1 failed 4s 4s left\x1b[J\n\x1b[1A\r\x1b[?7h",
        "\r \x1b[J\r\x1b[Kbench  b: 1,234 ns/iter (+/- 5)\n",
        "\x1b[?7l\r[======] 2/2 1 failed 5s\x1b[J\n\x1b[1A\r\x1b[?7h",
        "\r \x1b[J\r\x1b[K",
    );
    let expected = format!(in alloc; "{expected}{SUMMARY}")?;
    assert!(rt; status == 101, "{status}");
    assert!(rt; text == expected, "{text}");
    Ok(())
}

// The words of outcomes in red and cyan, as the harness prints them.
#[test]
fn coloured(rt: HostRuntime) -> Result<(), Fail> {
    let alloc = rt.alloc();
    let screen = Screen {
        live: false,
        columns: 79,
        colours: true,
    };
    let pieces = [TITLE, ANNOUNCED, FAILED, REST];
    let (status, text) = watched_pieces(alloc, &pieces, 1, screen)?;
    let expected = concat!(
        "\x1b[31mFAILED\x1b[0m [k] a\\u{1b}b\n    no\n",
        "\x1b[36mbench\x1b[0m  b: 1,234 ns/iter (+/- 5)\n",
        "\nfailures:\n    [k] a\\u{1b}b\n",
        "\ntest result: \x1b[31mFAILED\x1b[0m. 0 passed; 1 failed; 0 ignored; 1 measured; 0 filtered out; finished in 1.50s\n\n",
    );
    assert!(rt; status == 101, "{status}");
    assert!(rt; text.as_str() == expected, "{text:?}");
    Ok(())
}

const FOUR: &str = "{ \"type\": \"suite\", \"event\": \"started\", \"test_count\": 4 }\n";

const TWENTY: &str = "{ \"type\": \"suite\", \"event\": \"started\", \"test_count\": 20 }\n";

const PASSES: &str =
    "{ \"type\": \"test\", \"event\": \"started\", \"name\": \"p\" }\n{ \"type\": \"test\", \"name\": \"p\", \"event\": \"ok\" }\n";

const FAILS: &str =
    "{ \"type\": \"test\", \"event\": \"started\", \"name\": \"f\" }\n{ \"type\": \"test\", \"name\": \"f\", \"event\": \"failed\" }\n";

const IGNORED: &str =
    "{ \"type\": \"test\", \"event\": \"started\", \"name\": \"i\" }\n{ \"type\": \"test\", \"name\": \"i\", \"event\": \"ignored\" }\n";

// A turn of a watch: the piece that is read, and the first line that is drawn then.
struct Turn {
    piece: &'static str,
    first: &'static str,
}

// Watches these turns, one every `seconds`, on a terminal of this many columns.
fn check_turns(alloc: Global, turns: &[Turn], seconds: u64, columns: usize) -> Result<(), Fail> {
    let mut pieces = Vec::new(alloc);
    for turn in turns {
        pieces.push(turn.piece)?;
    }
    let screen = Screen {
        live: true,
        columns,
        colours: false,
    };
    let (_, text) = watched_pieces(alloc, &pieces, seconds.saturating_mul(1_000), screen)?;
    let mut frames = text.as_str().split("\x1b[?7l\r").skip(1);
    for turn in turns {
        let first = frames
            .next()
            .unwrap_or("")
            .split("\x1b[J")
            .next()
            .unwrap_or("");
        if first != turn.first {
            return Err(format!(in alloc; "{first} is not {}", turn.first)?.into());
        }
    }
    Ok(())
}

// The trial after the first one hangs: while it is waited for, the estimate falls by the two minutes that a trial takes, and no
// more. It is there after a failure too.
static HANGS: [Turn; 6] = [
    Turn {
        piece: FOUR,
        first: "[      ] 0/4 1:00",
    },
    Turn {
        piece: PASSES,
        first: "[=     ] 1/4 2:00 6:00 left",
    },
    Turn {
        piece: "",
        first: "[=     ] 1/4 3:00 5:00 left",
    },
    Turn {
        piece: "",
        first: "[=     ] 1/4 4:00 4:00 left",
    },
    Turn {
        piece: "",
        first: "[=     ] 1/4 5:00 4:00 left",
    },
    Turn {
        piece: FAILS,
        first: "[===   ] 2/4 1 failed 6:00 6:00 left",
    },
];

// Ignored rows are done, but the estimate is of those that run: one took 30 seconds, of which 10 are taken off in the last turn.
static SOME_IGNORED: [Turn; 4] = [
    Turn {
        piece: FOUR,
        first: "[      ] 0/4 10s",
    },
    Turn {
        piece: IGNORED,
        first: "[=     ] 1/4 20s",
    },
    Turn {
        piece: PASSES,
        first: "[===   ] 2/4 30s 1:00 left",
    },
    Turn {
        piece: IGNORED,
        first: "[====  ] 3/4 40s 20s left",
    },
];

static HOURS: [Turn; 2] = [
    Turn {
        piece: FOUR,
        first: "[      ] 0/4 1:02:10",
    },
    Turn {
        piece: FAILS,
        first: "[=     ] 1/4 1 failed 2:04:20 6:13:00 left",
    },
];

#[test]
fn times(rt: HostRuntime) -> Result<(), Fail> {
    let alloc = rt.alloc();
    check_turns(alloc, &HANGS, 60, 39)?;
    check_turns(alloc, &SOME_IGNORED, 10, 39)?;
    check_turns(alloc, &HOURS, 3_730, 79)
}

// The estimate goes by the last ten marks. The tenth row ends 90 seconds after the first, and as many are to come.
#[test]
fn long_run(rt: HostRuntime) -> Result<(), Fail> {
    let mut pieces = [PASSES; 11];
    pieces[0] = TWENTY;
    let (_, text) = watched_pieces(rt.alloc(), &pieces, 10_000, TERMINAL)?;
    assert!(rt;
        text.as_str()
            .contains("\r[===   ] 10/20 1:50 1:40 left\x1b[J"),
        "{text:?}"
    );
    Ok(())
}

// A reading that fails repeats the one before: the row ends at two seconds, and five have gone by at the end.
#[test]
fn failing_clock(rt: HostRuntime) -> Result<(), Fail> {
    let seconds = |count| Some(Duration::from_secs(count));
    let clock = KnownReadings::new([seconds(1), seconds(2), None, seconds(5), None, None]);
    let mut input = Pieces {
        pieces: &[FOUR, PASSES, ""],
        at: 0,
    };
    let (_, text) = watched(rt.alloc(), &mut input, &clock, TERMINAL)?;
    assert!(rt; text.as_str().contains("\r[=     ] 1/4 4s"), "{text:?}");
    assert!(rt; text.as_str().contains("nothing ended for 3s"), "{text:?}");
    Ok(())
}

// How many columns there are, and the first line that is drawn in them: the fullest that fits.
static NARROW: [(usize, &str); 6] = [
    (36, "[=     ] 1/4 1 failed 2:00 6:00 left"),
    (35, "[=     ] 1/4 1 failed 6:00 left"),
    (30, "1/4 1 failed 2:00 6:00 left"),
    (26, "1/4 1 failed 6:00 left"),
    (21, "1/4 1 failed"),
    (11, ""),
];

#[test]
fn narrow_lines(rt: HostRuntime) -> Result<(), Fail> {
    let alloc = rt.alloc();
    for (columns, expected) in &NARROW {
        let screen = Screen {
            live: true,
            columns: *columns,
            colours: false,
        };
        let (_, text) = watched_pieces(alloc, &[FOUR, FAILS], 60_000, screen)?;
        let drawn = format!(in alloc; "\x1b[?7l\r{expected}\x1b[J\n\x1b[1A\r\x1b[?7h")?;
        assert!(rt; text.as_str().contains(drawn.as_str()), "{text:?}");
    }
    Ok(())
}

// A trial that runs, and the second line in this many columns. 15 of them are before the name. A wide character takes two, and one that
// is laid over another counts as one.
static WAITED: [(&str, usize, &str); 9] = [
    ("\"name\": \"abc\"", 39, "waiting 4s for abc"),
    (
        "\"name\": \"abcdefghijkl\"",
        27,
        "waiting 4s for abcdefghijkl",
    ),
    (
        "\"name\": \"abcdefghijkl\"",
        26,
        "waiting 4s for abcdefghi..",
    ),
    ("\"name\": \"abc\"", 16, "waiting 4s for ."),
    ("\"name\": \"abc\"", 12, "waiting 4s f"),
    ("\"name\": \"日本語の試験\"", 27, "waiting 4s for 日本語の試験"),
    ("\"name\": \"日本語の試験\"", 26, "waiting 4s for 日本語の.."),
    (
        "\"name\": \"e\u{301}e\u{301}\"",
        19,
        "waiting 4s for e\u{301}e\u{301}",
    ),
    (
        "\"name\": \"\u{9b}x\", \"kind\": \"K\"",
        39,
        "waiting 4s for [K] \\u{9b}x",
    ),
];

#[test]
fn waited_names(rt: HostRuntime) -> Result<(), Fail> {
    let alloc = rt.alloc();
    for (label, columns, expected) in &WAITED {
        let begins = format!(in alloc;
            "{{ \"type\": \"test\", \"event\": \"started\", {label} }}\n"
        )?;
        let screen = Screen {
            live: true,
            columns: *columns,
            colours: false,
        };
        let pieces = [ONE_TITLE, begins.as_str()];
        let (_, text) = watched_pieces(alloc, &pieces, 2_000, screen)?;
        let drawn = format!(in alloc; "\x1b[J\n{expected}\x1b[1A\r\x1b[?7h")?;
        assert!(rt; text.as_str().contains(drawn.as_str()), "{text:?}");
    }
    Ok(())
}

// In a log nothing is said of rows that ended just now, and at most one line comes in ten seconds.
#[test]
fn quiet_log(rt: HostRuntime) -> Result<(), Fail> {
    let alloc = rt.alloc();
    let pieces = [FOUR, "", BLOCKED, PASSES, PASSES, "", BLOCKED, "", "", ""];
    let (_, text) = watched_pieces(alloc, &pieces, 5_000, LOG)?;
    // Lines come at 10, 20, 30, 40 and 50 seconds. The rows end at 20 and 25 seconds: each took 12.5.
    let expected = concat!(
        "[      ] 0/4 10s; nothing ended for 10s\n",
        "[=     ] 1/4 20s 1:00 left\n",
        "[===   ] 2/4 30s 20s left; nothing ended for 5s\n",
        "[===   ] 2/4 40s 12s left; nothing ended for 15s\n",
        "[===   ] 2/4 50s 12s left; nothing ended for 25s\n",
    );
    assert!(rt; text.as_str() == expected, "{text}");
    Ok(())
}

// Pieces, the status, and what is shown.
static NO_REPORTS: [(&[&str], u8, &str); 7] = [
    (&[], 1, ""),
    (&["what"], 1, ""),
    (&[TITLE, ANNOUNCED, FAILED], 1, FAILURE),
    (&[TITLE, ANNOUNCED, FAILED, BROKEN, REST], 99, FAILURE),
    (&[TITLE, ANNOUNCED, FAILED, FAILED, REST], 1, FAILURE),
    (&[TITLE, ANNOUNCED, FAILED, FAILED, BROKEN], 1, FAILURE),
    (
        &[TITLE, ANNOUNCED, FAILED, REST, "\n"],
        1,
        "FAILED [k] a\\u{1b}b\n    no\nbench  b: 1,234 ns/iter (+/- 5)\n",
    ),
];

// If a report is cut or spoilt, or its input fails, the rows before that are shown, and nothing after them.
#[test]
fn no_reports(rt: HostRuntime) -> Result<(), Fail> {
    for (pieces, ended, expected) in &NO_REPORTS {
        let (status, text) = watched_pieces(rt.alloc(), *pieces, 1, LOG)?;
        assert!(rt; status == *ended, "{status}");
        assert!(rt; text.as_str() == *expected, "{text}");
    }
    Ok(())
}

const ONE_TITLE: &str = "{ \"type\": \"suite\", \"event\": \"started\", \"test_count\": 1 }\n";

const ODD: &str = "{ \"type\": \"test\", \"event\": \"started\", \"name\": \"\u{9b}\" }\n";

// Returns the line of a failure whose message has 22 lines, each of which would move the cursor and looks like a number.
fn long_failure(alloc: Global) -> Result<String, Fail> {
    let mut line = String::from_str(
        alloc,
        "{ \"type\": \"test\", \"name\": \"\u{9b}\", \"event\": \"failed\", \"stdout\": \"Error: \\\"",
    )?;
    for _ in 0..22_u32 {
        line.push_str("\\u001b[2J \\\\u{ \\\\u\\n")?;
    }
    line.push_str("\\\"\\n\" }\n")?;
    Ok(line)
}

// Returns what is shown of this failure.
fn long_failure_shown(alloc: Global) -> Result<String, Fail> {
    let mut text = String::from_str(alloc, "FAILED \\u{9b}\n")?;
    for _ in 0..20_u32 {
        text.push_str("    \\u{1b}[2J \\u{5c}u{ \\u\n")?;
    }
    text.push_str("    .. 2 more lines\n")?;
    Ok(text)
}

fn watched_failure(alloc: Global, line: &str) -> Result<(u8, String), Fail> {
    watched_pieces(alloc, &[ONE_TITLE, ODD, line], 1, LOG)
}

#[test]
fn long_message(rt: HostRuntime) -> Result<(), Fail> {
    let alloc = rt.alloc();
    let line = long_failure(alloc)?;
    let (status, text) = watched_failure(alloc, line.as_str())?;
    let expected = long_failure_shown(alloc)?;
    assert!(rt; status == 1, "{status}");
    assert!(rt; text == expected, "{text}");
    Ok(())
}

// Gives the lines of `rows` rows, one row a read. None of them fails.
#[derive(Drop)]
struct Many {
    rows: u32,
    begun: bool,
}

impl Read for Many {
    fn read(&mut self, buf: &mut [u8]) -> io::Result<usize> {
        let text = if !self.begun {
            self.begun = true;
            "{ \"type\": \"suite\", \"event\": \"started\", \"test_count\": 100000 }\n"
        } else if self.rows > 0 {
            self.rows = self.rows.saturating_sub(1);
            "{ \"type\": \"test\", \"event\": \"started\", \"name\": \"x\" }\n{ \"type\": \"test\", \"name\": \"x\", \"event\": \"ok\" }\n"
        } else {
            ""
        };
        let count = text.len().min(buf.len());
        buf[..count].copy_from_slice(&text.as_bytes()[..count]);
        Ok(count)
    }
}

// 100,000 rows in 100 seconds are drawn 1,000 times, in 39 columns.
#[test]
fn many_rows(rt: HostRuntime) -> Result<(), Fail> {
    let alloc = rt.alloc();
    let mut input = Many {
        rows: 100_000,
        begun: false,
    };
    let clock = Steps {
        now: Cell::new(0),
        step: 1,
    };
    let (status, text) = watched(alloc, &mut input, &clock, TERMINAL)?;
    assert!(rt; status == 1, "{status}");
    let mut drawn = 0_u32;
    for frame in text.as_str().split("\x1b[?7l\r").skip(1) {
        drawn = drawn.saturating_add(1);
        let first = frame.split("\x1b[J").next().unwrap_or("");
        assert!(rt; first.len() <= 39, "{first:?}");
    }
    assert!(rt; drawn == 1_000, "{drawn}");
    Ok(())
}
