//! The URLs of the web-platform-tests: a list of texts and comments, and the parts of the URL that each text is. The member
//! `searchParams`, which a few have, isn't compared.
use crate::case::Case;
use crate::error::{EntryError, SuiteError};
use libtest_mimic::{Failed, Trial, check_ok, fail};
use serde_json::Value;
use std::alloc::{AllocError, Global};
use url::{ParseError, ParseResult, Url, quirks};

/// A text that is parsed, against a base if it has one.
#[derive(Drop)]
pub(crate) struct UrlCase {
    input: String,
    base: Option<String>,
    /// What the suite says of it.
    entry: Value,
}

/// A trial for each object in the list of the file at the path. The others are comments.
pub(crate) fn trials(path: &String, file: &String) -> Result<Vec<Trial<Case>>, SuiteError> {
    let alloc = *file.allocator();
    let mut trials = Vec::new(alloc);
    let mut number = 0_u64;
    for entry in entries(path, file)? {
        if entry.is_string() {
            continue;
        }
        number = number.saturating_add(1);
        trials.push(trial(path, number, UrlCase::read(alloc, entry))?)?;
    }
    Ok(trials)
}

// The trial of the case that was read from the entry of this number.
fn trial(
    path: &String,
    number: u64,
    read: Result<UrlCase, EntryError>,
) -> Result<Trial<Case>, SuiteError> {
    let alloc = *path.allocator();
    match read {
        Ok(case) => {
            let input = &case.input;
            let name = format!(in alloc; "{number}: {input:?}")?;
            let kind = String::from_str(alloc, "url")?;
            Ok(Trial::new(name, Case::Url(case)).with_kind(kind))
        }
        Err(error) => Err(SuiteError::Entry {
            path: path.clone()?,
            number,
            error,
        }),
    }
}

fn entries(path: &String, file: &String) -> Result<Vec<Value>, SuiteError> {
    match Value::from_str(*file.allocator(), file.as_str()) {
        Ok(Value::Array(entries)) => Ok(entries),
        Ok(_) => Err(SuiteError::NoList(path.clone()?)),
        Err(error) => Err(SuiteError::Json {
            path: path.clone()?,
            error,
        }),
    }
}

fn text_under<'a>(entry: &'a Value, key: &str) -> Option<&'a str> {
    entry.get(key).and_then(Value::as_str)
}

impl UrlCase {
    fn read(alloc: Global, entry: Value) -> Result<UrlCase, EntryError> {
        let Some(input) = text_under(&entry, "input") else {
            return Err(EntryError::Input);
        };
        let input = String::from_str(alloc, input)?;
        let base = match entry.get("base") {
            Some(Value::String(base)) => Some(base.clone()?),
            Some(Value::Null) | None => None,
            Some(_) => return Err(EntryError::Base),
        };
        let fails = entry.get("failure").and_then(Value::as_bool) == Some(true);
        if fails == text_under(&entry, "href").is_some() {
            return Err(EntryError::Outcome);
        }
        Ok(UrlCase { input, base, entry })
    }

    pub(crate) fn check(&self) -> Result<(), Failed> {
        let alloc = *self.input.allocator();
        match (self.parse(), text_under(&self.entry, "href")) {
            (Err(ParseError::OutOfMemory), _) => Err(AllocError.into()),
            (Err(_), None) => Ok(()),
            (Err(error), Some(href)) => {
                Err(fail!(in alloc; "expected {href:?}, answered a failure: {error}"))
            }
            (Ok(url), None) => Err(
                fail!(in alloc; "expected a failure, answered {:?}", url.as_str()),
            ),
            (Ok(url), Some(_)) => self.check_parts(alloc, &url),
        }
    }

    // It is a failure, too, if the base can't be parsed.
    fn parse(&self) -> ParseResult<Url> {
        let alloc = *self.input.allocator();
        match &self.base {
            Some(base) => Url::parse(alloc, base.as_str())?.join(self.input.as_str()),
            None => Url::parse(alloc, self.input.as_str()),
        }
    }

    // Fails with each part that is another one.
    fn check_parts(&self, alloc: Global, url: &Url) -> Result<(), Failed> {
        let origin = check_ok!(in alloc; quirks::origin(url))?;
        let mut differences = String::new(alloc);
        for (name, answered) in parts_of(url, origin.as_str()) {
            // The suite leaves out some origins.
            if let Some(expected) = self.entry.get(name)
                && expected.as_str() != Some(answered)
            {
                let end = if differences.is_empty() { "" } else { "\n" };
                write!(
                    differences,
                    "{end}{name}: expected {expected}, answered {answered:?}"
                )?;
            }
        }
        if differences.is_empty() {
            Ok(())
        } else {
            Err(fail!(in alloc; "{differences}"))
        }
    }
}

// The parts of a URL, under their names in the URL Standard's API.
fn parts_of<'a>(url: &'a Url, origin: &'a str) -> [(&'static str, &'a str); 11] {
    [
        ("href", quirks::href(url)),
        ("origin", origin),
        ("protocol", quirks::protocol(url)),
        ("username", quirks::username(url)),
        ("password", quirks::password(url)),
        ("host", quirks::host(url)),
        ("hostname", quirks::hostname(url)),
        ("port", quirks::port(url)),
        ("pathname", quirks::pathname(url)),
        ("search", quirks::search(url)),
        ("hash", quirks::hash(url)),
    ]
}
