//! Unicode's GraphemeBreakTest and WordBreakTest: a text, and where it may be cut.
use crate::case::Case;
use crate::code_points::{CodePoints, text_of};
use crate::error::{LineError, SuiteError};
use crate::lines::case_lines;
use libtest_mimic::{Failed, Trial, check};
use std::alloc::Global;
use std::fmt;
use unicode_segmentation::UnicodeSegmentation;

/// What a text is cut into.
#[derive(Clone, Copy)]
pub(crate) enum Unit {
    /// Extended grapheme clusters.
    Grapheme,
    Word,
}

/// A text, and the pieces that it must be cut into.
#[derive(Drop)]
pub(crate) struct BreakCase {
    unit: Unit,
    text: String,
    pieces: Vec<String>,
}

/// A trial for each line of the file at the path.
pub(crate) fn trials(
    unit: Unit,
    path: &String,
    file: &String,
) -> Result<Vec<Trial<Case>>, SuiteError> {
    let alloc = *file.allocator();
    let kind = match unit {
        Unit::Grapheme => "graphemes",
        Unit::Word => "words",
    };
    let mut trials = Vec::new(alloc);
    for line in case_lines(alloc, file.as_str())? {
        let read = BreakCase::read(alloc, unit, line.text).map(Case::Break);
        trials.push(line.trial(kind, path, read)?)?;
    }
    Ok(trials)
}

impl BreakCase {
    // Reads a line like `÷ 0020 × 0308 ÷`: it has ÷ where the text may be cut, and × where it may not.
    fn read(alloc: Global, unit: Unit, line: &str) -> Result<BreakCase, LineError> {
        let inner = line
            .strip_prefix('÷')
            .and_then(|line| line.strip_suffix('÷'));
        let Some(inner) = inner else {
            return Err(LineError::Ends);
        };
        let (mut text, mut pieces) = (String::new(alloc), Vec::new(alloc));
        for piece in inner.split('÷') {
            let piece = text_of(alloc, piece, '×')?;
            text.push_str(piece.as_str())?;
            pieces.push(piece)?;
        }
        Ok(BreakCase { unit, text, pieces })
    }

    pub(crate) fn check(&self) -> Result<(), Failed> {
        let BreakCase { unit, text, pieces } = self;
        let alloc = *text.allocator();
        let expected: Vec<&str> = pieces.iter().map(String::as_str).collect(alloc)?;
        let answered: Vec<&str> = match unit {
            Unit::Grapheme => text.as_str().graphemes(true).collect(alloc)?,
            Unit::Word => text.as_str().split_word_bounds().collect(alloc)?,
        };
        let is_same = expected == answered;
        let (expected, answered) = (Breaks(&expected), Breaks(&answered));
        check!(in alloc; is_same, "expected {expected}, answered {answered}")
    }
}

// Shows pieces as the suite does.
#[derive(Clone, Copy)]
struct Breaks<'a>(&'a [&'a str]);

impl fmt::Display for Breaks<'_> {
    fn fmt<W: fmt::Write>(&self, f: &mut fmt::Formatter<W>) -> fmt::Result {
        for piece in self.0 {
            let piece = CodePoints {
                text: piece,
                separator: " × ",
            };
            write!(f, "÷ {piece} ")?;
        }
        f.write_str("÷")
    }
}
