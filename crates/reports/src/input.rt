//! Where a report is read from.
use std::alloc::{AllocError, Global};
use std::fs::File;
use std::io::{ErrorKind, Read, Stdin};
use std::path::Path;
use std::{fs, io};

// The name that stands for standard input.
pub(crate) const STANDARD: &str = "-";

// The name of the program whose report is read from standard input.
const NAMELESS: &str = "report";

// How many bytes a first line has at most. A report's title has fewer than 100.
const LONGEST_TITLE: usize = 4096;

// The same of known failures, whose lines have messages.
const LONGEST_KNOWN: usize = 1 << 20;

// How many bytes a report may have that is no regular file, if a call keeps its rows.
const KEPT_BYTES: u64 = 256 << 20;

/// A file, which is opened at the first read, or standard input.
#[derive(Drop)]
pub(crate) struct Input<'a> {
    source: Source<'a>,
    // How many more bytes may be read.
    left: u64,
    first_line: FirstLine,
}

#[derive(Drop)]
enum Source<'a> {
    Unopened { rt: &'a HostRuntime, path: &'a str },
    Open(File),
    Standard(Stdin),
}

impl<'a> Source<'a> {
    fn new(rt: &'a HostRuntime, path: &'a str) -> Source<'a> {
        if path == STANDARD {
            Source::Standard(rt.stdin())
        } else {
            Source::Unopened { rt, path }
        }
    }
}

/// How much was read of the first line of an input. Readers keep a line until it ends.
#[derive(Clone, Copy, Debug)]
pub(crate) enum FirstLine {
    /// It has not ended, and may have this many more bytes, else the fault is this.
    Open { left: usize, fault: &'static str },
    Ended,
}

impl FirstLine {
    /// That of a report of which nothing was read.
    pub(crate) fn of_report() -> FirstLine {
        FirstLine::Open {
            left: LONGEST_TITLE,
            fault: "its first line is too long for a report",
        }
    }

    /// That of known failures of which nothing was read.
    fn of_known() -> FirstLine {
        FirstLine::Open {
            left: LONGEST_KNOWN,
            fault: "its first line is too long for a known failure",
        }
    }

    /// Takes the next piece of the input. It is refused if the line is too long.
    pub(crate) fn read_on(&mut self, piece: &[u8]) -> io::Result<()> {
        let FirstLine::Open { left, fault } = *self else {
            return Ok(());
        };
        let end = piece.iter().position(|byte| *byte == b'\n');
        let Some(left) = left.checked_sub(end.unwrap_or(piece.len())) else {
            return Err(io::Error::new(ErrorKind::InvalidData, fault));
        };
        *self = match end {
            Some(_) => FirstLine::Ended,
            None => FirstLine::Open { left, fault },
        };
        Ok(())
    }
}

impl<'a> Input<'a> {
    /// The report of this name.
    pub(crate) fn new(rt: &'a HostRuntime, path: &'a str) -> Input<'a> {
        Input {
            source: Source::new(rt, path),
            left: u64::MAX,
            first_line: FirstLine::of_report(),
        }
    }

    /// The same, for a caller that keeps its rows. If it is no regular file, it may never end, so reading it fails if it has more than
    /// 256 MiB.
    pub(crate) fn limited(rt: &'a HostRuntime, path: &'a str) -> Input<'a> {
        let mut input = Input::new(rt, path);
        if path == STANDARD || !is_regular(rt, path) {
            input.left = KEPT_BYTES;
        }
        input
    }

    /// The known failures of this name.
    pub(crate) fn known(rt: &'a HostRuntime, path: &'a str) -> Input<'a> {
        Input {
            source: Source::new(rt, path),
            left: u64::MAX,
            first_line: FirstLine::of_known(),
        }
    }

    /// The report of this name, which is opened here.
    pub(crate) fn open(rt: &'a HostRuntime, path: &'a str) -> io::Result<Input<'a>> {
        let source = if path == STANDARD {
            Source::Standard(rt.stdin())
        } else {
            Source::Open(fs::open(rt, path)?)
        };
        Ok(Input {
            source,
            left: u64::MAX,
            first_line: FirstLine::of_report(),
        })
    }

    /// The reports of these names, in their order.
    pub(crate) fn all(
        rt: &'a HostRuntime,
        alloc: Global,
        paths: &'a [String],
    ) -> Result<Vec<Input<'a>>, AllocError> {
        paths
            .iter()
            .map(|path| Input::new(rt, path.as_str()))
            .collect(alloc)
    }
}

/// The name of the program whose report the file has: the file's name without its folder and its ending.
pub(crate) fn name_of(file: &str) -> &str {
    if file == STANDARD {
        return NAMELESS;
    }
    Path::new(file).file_stem().unwrap_or(file)
}

fn is_regular(rt: &HostRuntime, path: &str) -> bool {
    fs::metadata(rt, path).is_ok_and(|metadata| metadata.is_file())
}

impl Read for Input<'_> {
    fn read(&mut self, buf: &mut [u8]) -> io::Result<usize> {
        if let Source::Unopened { rt, path } = &self.source {
            let file = fs::open(*rt, *path)?;
            self.source = Source::Open(file);
        }
        let count = match &mut self.source {
            Source::Open(file) => file.read(buf)?,
            Source::Standard(stdin) => stdin.read(buf)?,
            // The file was opened above.
            Source::Unopened { .. } => 0,
        };
        let Some(left) = self.left.checked_sub(count as u64) else {
            return Err(io::Error::new(
                ErrorKind::Other,
                "it is too long to be kept; write it into a file",
            ));
        };
        self.left = left;
        self.first_line.read_on(&buf[..count])?;
        Ok(count)
    }
}
