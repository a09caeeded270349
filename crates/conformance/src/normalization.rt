//! Unicode's NormalizationTest: five columns a line, and what each is in each form.
use crate::case::Case;
use crate::code_points::{CodePoints, text_of};
use crate::error::{LineError, SuiteError};
use crate::lines::case_lines;
use libtest_mimic::{Failed, Trial, check};
use std::alloc::Global;
use unicode_normalization::{to_nfc, to_nfd, to_nfkc, to_nfkd};

/// The columns of a line.
#[derive(Drop)]
pub(crate) struct NormalizationCase {
    source: String,
    nfc: String,
    nfd: String,
    nfkc: String,
    nfkd: String,
}

/// A trial for each line of the file at the path.
pub(crate) fn trials(path: &String, file: &String) -> Result<Vec<Trial<Case>>, SuiteError> {
    let alloc = *file.allocator();
    let mut trials = Vec::new(alloc);
    for line in case_lines(alloc, file.as_str())? {
        let read = NormalizationCase::read(alloc, line.text).map(Case::Normalization);
        trials.push(line.trial("normalization", path, read)?)?;
    }
    Ok(trials)
}

impl NormalizationCase {
    fn read(alloc: Global, line: &str) -> Result<NormalizationCase, LineError> {
        let columns: Vec<&str> = line.split(';').collect(alloc)?;
        let [source, nfc, nfd, nfkc, nfkd, ""] = columns.as_slice() else {
            return Err(LineError::Columns);
        };
        Ok(NormalizationCase {
            source: text_of(alloc, source, ' ')?,
            nfc: text_of(alloc, nfc, ' ')?,
            nfd: text_of(alloc, nfd, ' ')?,
            nfkc: text_of(alloc, nfkc, ' ')?,
            nfkd: text_of(alloc, nfkd, ' ')?,
        })
    }

    /// Fails at the first of the twenty equations in the file's head that does not hold.
    pub(crate) fn check(&self) -> Result<(), Failed> {
        self.check_column("c1", &self.source, &self.nfc, &self.nfd)?;
        self.check_column("c2", &self.nfc, &self.nfc, &self.nfd)?;
        self.check_column("c3", &self.nfd, &self.nfc, &self.nfd)?;
        self.check_column("c4", &self.nfkc, &self.nfkc, &self.nfkd)?;
        self.check_column("c5", &self.nfkd, &self.nfkc, &self.nfkd)
    }

    // The canonical forms of a column are given, and its compatible ones are c4 and c5.
    fn check_column(
        &self,
        name: &str,
        column: &String,
        nfc: &String,
        nfd: &String,
    ) -> Result<(), Failed> {
        let (alloc, text) = (*column.allocator(), column.as_str());
        check_form("NFC", name, nfc, &to_nfc(alloc, text)?)?;
        check_form("NFD", name, nfd, &to_nfd(alloc, text)?)?;
        check_form("NFKC", name, &self.nfkc, &to_nfkc(alloc, text)?)?;
        check_form("NFKD", name, &self.nfkd, &to_nfkd(alloc, text)?)
    }
}

fn check_form(
    form: &str,
    column: &str,
    expected: &String,
    answered: &String,
) -> Result<(), Failed> {
    let alloc = *expected.allocator();
    let is_same = expected == answered;
    let expected = code_points(expected);
    let answered = code_points(answered);
    check!(in alloc; is_same, "{form} of {column}: expected {expected}, answered {answered}")
}

fn code_points(text: &String) -> CodePoints<'_> {
    CodePoints {
        text: text.as_str(),
        separator: " ",
    }
}
