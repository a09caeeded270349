//! What a caller may choose when reports are judged.

/// How reports are judged by known failures, and how what is found is written.
#[derive(Clone, Copy, Debug)]
pub struct ExpectOptions {
    /// Whether known failures may pass: then such a line is written, but doesn't count.
    pub lax: bool,
    /// How the trials are written.
    pub lines: Lines,
}

/// How the trials are written that are unexpected or were running.
#[derive(Clone, Copy, Debug)]
pub enum Lines {
    /// For people: the kind in brackets, the name, and of a failure the first line of its message. Control characters are written
    /// as their numbers, so that nothing in a name or a message ends the line.
    Readable,
    /// As a report in JSON without times has them.
    Json,
}
