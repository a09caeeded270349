//! What three readers report after each byte of a report, and after lines that no report has there.
use mimic_events::{Feed, Follower, Label, Tally};
use mimic_testkit::TWO_TESTS_JSON;
use std::alloc::{AllocError, Global};
use std::process::Abort;
use std::test::Fail;

// What is known after a line: how many trials were announced, and the kind and the name of the one that runs.
type Known = (Option<u64>, Option<(&'static str, &'static str)>);

const NOTHING: Known = (None, None);

// Before the first line of `TWO_TESTS_JSON`, and after each.
static OF_TWO_TESTS: [Known; 7] = [
    NOTHING,
    (Some(2), None),
    (Some(2), Some(("", "succeeding_test"))),
    (Some(2), None),
    (Some(2), Some(("", "failing_test"))),
    (Some(2), None),
    (Some(2), None),
];

// The trials of two threads, in the order in which they ended: both lines of each came at once.
const TWO_THREADS: &str = r#"{ "type": "suite", "event": "started", "test_count": 3 }
{ "type": "test", "event": "started", "name": "owl", "kind": "bird" }
{ "type": "test", "name": "owl", "kind": "bird", "event": "ignored" }
{ "type": "test", "event": "started", "name": "b" }
{ "type": "bench", "name": "b", "median": 32, "deviation": 3 }
{ "type": "test", "event": "started", "name": "a\"b\n" }
{ "type": "test", "name": "a\"b\n", "event": "failed" }
{ "type": "suite", "event": "failed", "passed": 0, "failed": 1, "ignored": 1, "measured": 1, "filtered_out": 4, "exec_time": 0.25 }
"#;

static OF_TWO_THREADS: [Known; 9] = [
    NOTHING,
    (Some(3), None),
    (Some(3), Some(("bird", "owl"))),
    (Some(3), None),
    (Some(3), Some(("", "b"))),
    (Some(3), None),
    (Some(3), Some(("", "a\"b\n"))),
    (Some(3), None),
    (Some(3), None),
];

// The three readers of the same bytes, and how many rows one of them has handed out.
#[derive(Drop)]
struct Readers {
    feed: Feed,
    tally: Tally,
    follower: Follower,
    rows: usize,
}

// Whether this is the trial that runs.
fn is_running(found: Option<&Label>, want: Option<(&str, &str)>) -> bool {
    match (found, want) {
        (None, None) => true,
        (Some(label), Some((kind, name))) => {
            label.kind.as_str() == kind && label.name.as_str() == name
        }
        _ => false,
    }
}

impl Readers {
    fn new(alloc: Global) -> Result<Readers, AllocError> {
        Ok(Readers {
            feed: Feed::new(alloc)?,
            tally: Tally::new(alloc),
            follower: Follower::new(alloc),
            rows: 0,
        })
    }

    // Feeds all three the next piece.
    fn take(mut self, piece: &[u8]) -> Result<Readers, AllocError> {
        self.feed.feed(piece)?;
        self.tally = self.tally.feed(piece)?;
        let mut left = piece;
        // A bound for the proof: no more rows end than there are bytes.
        for _ in 0..=piece.len() {
            let Some((_, after)) = self.follower.next_row(left)? else {
                break;
            };
            self.rows = self.rows.saturating_add(1);
            left = after;
        }
        Ok(self)
    }

    // Whether all three say this and the number of the first wrong line, and know of as many rows.
    fn say(&self, (announced, running): Known, wrong: Option<u128>) -> bool {
        let feed = self.feed.announced() == announced
            && self.feed.first_wrong_line() == wrong
            && is_running(self.feed.running(), running);
        let follower = self.follower.announced() == announced
            && self.follower.first_wrong_line() == wrong
            && is_running(self.follower.running(), running);
        let tally = self.tally.announced() == announced && self.tally.first_wrong_line() == wrong;
        let rows = self.feed.rows().is_some_and(|rows| rows.len() == self.rows);
        feed && follower && tally && rows
    }
}

// The line comes byte by byte, and up to its end no more is reported than before it.
fn line_of_bytes(
    rt: &impl Abort,
    mut readers: Readers,
    line: &str,
    before: Known,
) -> Result<Readers, AllocError> {
    for byte in line.as_bytes().chunks(1) {
        assert!(rt; readers.say(before, None), "{line}");
        readers = readers.take(byte)?;
    }
    Ok(readers)
}

// Each byte of the text comes by itself, and behind the summary a line more.
fn check_bytes(rt: &impl Abort, alloc: Global, text: &str, known: &[Known]) -> Result<(), Fail> {
    let mut readers = Readers::new(alloc)?;
    for (line, before) in text.split_inclusive('\n').zip(known) {
        readers = line_of_bytes(rt, readers, line, *before)?;
    }
    let end = known.last().copied().ok_or("nothing is known")?;
    assert!(rt; readers.say(end, None));
    readers = readers.take(b"\n")?;
    assert!(rt; readers.say(end, Some(known.len() as u128)));
    Ok(())
}

// What comes in place of a line: a piece without a line end, and what follows that.
#[derive(Clone, Copy, Debug)]
enum Mistake {
    // A sign before the line.
    Sign,
    // The half of it as a line.
    Half,
    // A byte that is no text, as a line.
    NoText,
    // An empty line.
    Empty,
    // Nothing: the next line comes.
    Nothing,
}

static MISTAKES: [Mistake; 5] = [
    Mistake::Sign,
    Mistake::Half,
    Mistake::NoText,
    Mistake::Empty,
    Mistake::Nothing,
];

fn replaced(line: &[u8], mistake: Mistake) -> (&[u8], &[u8]) {
    match mistake {
        Mistake::Sign => (b"[", line),
        Mistake::Half => (line.split_at(line.len() / 2).0, b"\n"),
        Mistake::NoText => (b"\xff", b"\n"),
        Mistake::Empty => (b"", b"\n"),
        Mistake::Nothing => (b"", b""),
    }
}

// The line at this place, from 0, is another. A line is judged when its end has come, and only the first wrong one counts.
fn check_mistake(
    rt: &impl Abort,
    readers: Readers,
    text: &str,
    known: &[Known],
    place: usize,
    mistake: Mistake,
) -> Result<(), Fail> {
    let mut readers = readers;
    let mut now = NOTHING;
    let mut wrong = None;
    for (at, line) in text.split_inclusive('\n').enumerate() {
        let mut pieces = (b"".as_slice(), line.as_bytes());
        if at == place {
            pieces = replaced(line.as_bytes(), mistake);
        }
        readers = readers.take(pieces.0)?;
        assert!(rt; readers.say(now, wrong), "{place}, {mistake:?}");
        readers = readers.take(pieces.1)?;
        if at < place {
            now = known.get(at + 1).copied().ok_or("too many lines")?;
        } else if !pieces.1.is_empty() {
            wrong = Some(place as u128 + 1);
        }
        assert!(rt; readers.say(now, wrong), "{place}, {mistake:?}");
    }
    Ok(())
}

fn check_mistakes(rt: &impl Abort, alloc: Global, text: &str, known: &[Known]) -> Result<(), Fail> {
    for place in 0..known.len() {
        for mistake in &MISTAKES {
            check_mistake(rt, Readers::new(alloc)?, text, known, place, *mistake)?;
        }
    }
    Ok(())
}

#[test]
fn says_what_is_known_after_each_byte(rt: HostRuntime) -> Result<(), Fail> {
    let alloc = rt.alloc();
    check_bytes(&rt, alloc, TWO_TESTS_JSON, &OF_TWO_TESTS)?;
    check_bytes(&rt, alloc, TWO_THREADS, &OF_TWO_THREADS)
}

#[test]
fn says_which_line_is_wrong(rt: HostRuntime) -> Result<(), Fail> {
    let alloc = rt.alloc();
    check_mistakes(&rt, alloc, TWO_TESTS_JSON, &OF_TWO_TESTS)?;
    check_mistakes(&rt, alloc, TWO_THREADS, &OF_TWO_THREADS)
}

// Both lines of a trial come at once, as a run with workers writes them: no trial runs between such pieces.
#[test]
fn says_that_none_runs_between_rows(rt: HostRuntime) -> Result<(), Fail> {
    let mut readers = Readers::new(rt.alloc())?;
    let (title, rows) = TWO_THREADS.split_once('\n').ok_or("no title")?;
    readers = readers.take(title.as_bytes())?.take(b"\n")?;
    for row in rows.split_inclusive("}\n{ \"type\": \"test\", \"event\": \"started\"") {
        readers = readers.take(row.as_bytes())?;
        assert!(rt; readers.say((Some(3), None), None));
    }
    Ok(())
}
