//! The lines of Unicode's test files.
use crate::case::Case;
use crate::error::{LineError, SuiteError};
use libtest_mimic::Trial;
use std::alloc::{AllocError, Global};

/// A line that holds a case.
#[derive(Clone, Copy)]
pub(crate) struct CaseLine<'a> {
    /// Counted from 1.
    number: usize,
    /// What is before the comment, without blanks around it.
    pub(crate) text: &'a str,
    comment: &'a str,
}

/// The lines that hold cases: not those of comments, nor those that begin with `@` and name a part of the file.
pub(crate) fn case_lines(alloc: Global, file: &str) -> Result<Vec<CaseLine<'_>>, AllocError> {
    let mut lines = Vec::new(alloc);
    for (index, line) in file.lines().enumerate() {
        let (text, comment) = line.split_once('#').unwrap_or((line, ""));
        let (text, comment) = (text.trim(), comment.trim());
        if !text.is_empty() && !text.starts_with('@') {
            lines.push(CaseLine {
                number: index + 1,
                text,
                comment,
            })?;
        }
    }
    Ok(lines)
}

impl CaseLine<'_> {
    /// The trial of the case that was read from the line of the file at the path.
    pub(crate) fn trial(
        &self,
        kind: &str,
        path: &String,
        read: Result<Case, LineError>,
    ) -> Result<Trial<Case>, SuiteError> {
        let CaseLine {
            number,
            comment,
            ..
        } = *self;
        let alloc = *path.allocator();
        match read {
            Ok(case) => {
                let name = format!(in alloc; "line {number}: {comment}")?;
                Ok(Trial::new(name, case).with_kind(String::from_str(alloc, kind)?))
            }
            Err(error) => Err(SuiteError::Line {
                path: path.clone()?,
                number,
                error,
            }),
        }
    }
}
