//! Writes the page of a report.
ghost use Rattle.std.specs.Prelude.{◌≡◌, ◌<◌, ◌^◌, ◌-◌, map, string_bytes};
ghost use Rattle.std.specs.List.{flat_map};
ghost use Rattle.mimic_printer.specs.Sink.{Adds, HasFaultLeft, Puts};
ghost use Rattle.mimic_events.specs.Contents.{entry_read};
ghost use Rattle.mimic_reports.specs.Page.{PageLaws, bar_of, found_after, greatest_time, group_text, header_text, missing_in, note_text, page_text, row_in, rows_text, time_of};

use crate::bar::bar_of;
use crate::page_elements::{
    add_counts, add_end, add_ending, add_links, add_list_end, add_note, add_start, add_times,
    add_unlisted,
};
use crate::page_row::add_row;
use mimic_events::{Ending, Row, counts_of_rows};
use mimic_printer::{Sink, WriteFault};
use mimic_trial::Outcome;
use std::io::Write;

/// What a page shows.
#[derive(Clone, Copy, Debug)]
pub struct PageContents<'a> {
    /// What is in the heading and in the title, such as the name of the program.
    pub title: &'a str,
    /// What is below the heading, such as the host and the commit. Each is a paragraph.
    pub notes: &'a [String],
    /// The rows that have ended.
    pub rows: &'a [Row],
    /// How the report ended.
    pub ending: &'a Ending,
    /// Why the reader failed, as a user is to see it; read only if `ending` is `Failed`.
    pub cause: &'a str,
    /// How many rows of trials that did not fail are listed at most: none with 0, and all with `u64::MAX`. Failures are always listed, and
    /// the page says how many other rows are not.
    pub most: u64,
}

// The rows that are under one heading.
#[derive(Clone, Copy, Debug)]
pub(crate) enum Group {
    Failed,
    Measured,
    // Passed or ignored.
    Others,
}

// How the rows of a group are listed: how many at most, and how long the longest bar is.
#[derive(Clone, Copy)]
pub(crate) struct Listing {
    pub(crate) group: Group,
    pub(crate) limit: u64,
    pub(crate) longest: u64,
}

/// Writes a report as a page of HTML, and flushes it. The page needs nothing from outside, and can be read without its script.
///
/// Each failure is listed once, and so is each other row, up to the limit of the contents. Of these come first those that were measured.
/// A row has an id that is made of its kind and name, so that a link to it leads to the trial of that name on a later page too. Rows with
/// the same kind and name have the same id, and a link leads to the first of them.
///
/// Of a report that is cut or was not read to its end these are the rows that have ended. The page says why, and how many are missing
/// of a cut one that has a title, or how many have ended of the other. With a fault a beginning of the page was written.
#[tactic(auto, using(crate::proofs::PageLaws::page_laws))]
pub fn write_page<W: Write>(page: &PageContents<'_>, sink: &mut Sink<W>) -> Result<(), WriteFault>
    requires { HasFaultLeft sink.old }
    ensures page { Puts W.contents sink.old sink.new (page_text page.now) result }

    // No failure is left out, nor any row if the limit is at least their number, and none is there twice. Each text can be unescaped,
    // and escaped text has no markup. Rows with other kinds or names have other ids.
    ensures laws { PageLaws }
{
    add_header(sink, page);
    add_groups(sink, page.rows, page.most);
    add_end(sink);
    sink.end()
}

// Adds what comes before the rows.
fn add_header<W: Write>(sink: &mut Sink<W>, page: &PageContents<'_>)
    ensures { Adds W.contents sink.old sink.new (header_text page.now) }
{
    let counts = counts_of_rows(page.rows, 0);
    add_start(sink, page.title, &counts, page.ending);
    add_notes(sink, page.notes);
    add_ending(sink, page.rows.len() as u64, page.ending, page.cause);
    add_times(sink, page.rows);
    add_counts(sink, &counts, missing(page.rows.len() as u64, page.ending));
    add_links(sink, &counts);
}

fn add_notes<W: Write>(sink: &mut Sink<W>, notes: &[String])
    ensures { Adds W.contents sink.old sink.new (flat_map (λ note. note_text (string_bytes note)) notes.now) }
{
    for note in notes {
        add_note(sink, note.as_str());
    }
}

// Returns how many rows are missing after `ended` rows.
fn missing(ended: u64, ending: &Ending) -> u64
    ensures { result ≡ missing_in ended ending.now }
{
    match ending {
        Ending::Cut(stop) => stop.announced.unwrap_or(0).saturating_sub(ended),
        Ending::Whole { .. } | Ending::Failed(_) => 0,
    }
}

// Adds the rows, failures first.
fn add_groups<W: Write>(sink: &mut Sink<W>, rows: &[Row], most: u64)
    ensures { Adds W.contents sink.old sink.new (rows_text most (map entry_read rows.now)) }
{
    let longest = bar_of(greatest_time(rows));
    let left = most.saturating_sub(counts_of_rows(rows, 0).num_measured);
    let failed = Listing {
        group: Group::Failed,
        limit: rows.len() as u64,
        longest,
    };
    let measured = Listing {
        group: Group::Measured,
        limit: most,
        longest,
    };
    let others = Listing {
        group: Group::Others,
        limit: left,
        longest,
    };
    add_group(sink, failed, rows);
    add_group(sink, measured, rows);
    add_group(sink, others, rows);
}

// Adds the rows of a group under its heading, and how many are not listed.
fn add_group<W: Write>(sink: &mut Sink<W>, listing: Listing, rows: &[Row])
    ensures { Adds W.contents sink.old sink.new
        (group_text listing (map entry_read rows.now)) }
{
    sink.add(listing.group.heading());
    let mut found = 0;
    for row in rows {
        if sink.has_fault() {
            return;
        }
        found = add_row_of(sink, listing, found, row);
    }
    add_unlisted(sink, found.saturating_sub(listing.limit));
}

// Adds the row if it is in the group, and is one of those that are listed. `found` rows of the group come before it. Returns how many
// there are with it.
fn add_row_of<W: Write>(sink: &mut Sink<W>, listing: Listing, found: u64, row: &Row) -> u64
    requires { found < 2 ^ 64 - 1 }
    ensures written { Adds W.contents sink.old sink.new
        (row_in listing found (entry_read row.now)) }
    ensures count { result ≡ found_after listing.group found (entry_read row.now) }
{
    if !listing.group.has(&row.outcome) {
        return found;
    }
    if found >= listing.limit {
        return found + 1;
    }
    add_row(sink, row, listing.longest);
    add_list_end(sink, found + 1);
    found + 1
}

fn greatest_time(rows: &[Row]) -> u64
    ensures { result ≡ greatest_time (map (λ row. row.outcome) rows.now) }
{
    let mut greatest = 0;
    for row in rows {
        greatest = time_of(&row.outcome).max(greatest);
    }
    greatest
}

fn time_of(outcome: &Outcome) -> u64
    ensures { result ≡ time_of outcome.now }
{
    match outcome {
        Outcome::Measured(measurement) => measurement.avg,
        _ => 0,
    }
}

impl Group {
    ghost use Rattle.std.specs.Prelude.{◌≡◌};
    ghost use Rattle.mimic_reports.specs.Page.{heading, is_in};

    fn has(self, outcome: &Outcome) -> bool
        ensures { result ≡ is_in self outcome.now }
    {
        match outcome {
            Outcome::Failed(_) => matches!(self, Group::Failed),
            Outcome::Measured(_) => matches!(self, Group::Measured),
            Outcome::Passed | Outcome::Ignored => matches!(self, Group::Others),
        }
    }

    fn heading(self) -> &'static [u8]
        ensures { result.now ≡ heading self }
    {
        match self {
            Group::Failed => b"<section id=\"failed\">\n<h2>Failed</h2>\n<ol>\n",
            Group::Measured => b"<section id=\"measured\">\n<h2>Measured</h2>\n<ol>\n",
            Group::Others => b"<section id=\"others\">\n<h2>Passed or ignored</h2>\n<ol>\n",
        }
    }
}
