//! Writes the elements of a page around its rows.
ghost use Rattle.std.specs.Prelude.{◌≡◌, is_some, map};
ghost use Rattle.std.specs.List.{list_any};
ghost use Rattle.mimic_printer.specs.Sink.{Adds};
ghost use Rattle.mimic_reports.specs.Page.{counts_text, end_text, ending_text, kind_end, kind_start, links_text, list_end, missing_part, note_text, running_part, slowest_time, start_text, stop_text, times_text, total_time, unlisted_text, unread_text, verdict, verdict_class, whole_text};

use crate::human_time::human_pieces;
use crate::page_row::add_label;
use crate::script::{FILTER, SCRIPT, SCRIPT_DIGEST};
use crate::style::STYLE;
use mimic_events::{Ending, Row, Stop};
use mimic_printer::{Piece, Place, Sink, add_pieces};
use mimic_trial::Conclusion;
use std::io::Write;

// How many rows are in one list at most.
const LIST: u64 = 500;

// Returns what comes before and after a kind.
pub(crate) fn kind_tags(kind: &str) -> (&'static str, &'static str)
    ensures start { result.0.now ≡ kind_start kind.now }
    ensures end { result.1.now ≡ kind_end kind.now }
{
    if kind.is_empty() {
        ("", "<bdi>")
    } else {
        ("<bdi class=\"kind\">", "</bdi> <bdi>")
    }
}

// Adds the head and the heading.
#[tactic(auto, unfolding(crate::specs::Page::start_text))]
pub(crate) fn add_start<W: Write>(
    sink: &mut Sink<W>,
    title: &str,
    counts: &Conclusion,
    ending: &Ending,
)
    ensures { Adds W.contents sink.old sink.new
        (start_text title.now counts.now ending.now) }
{
    let verdict = verdict(counts.num_failed, ending);
    let pieces = [
        Piece::Text(
            "<!doctype html>\n<html lang=\"en\">\n<head>\n<meta charset=\"utf-8\">\n<meta name=\"viewport\" content=\"width=device-width, initial-scale=1\">\n<meta http-equiv=\"Content-Security-Policy\" content=\"default-src 'none'; style-src 'unsafe-inline'; script-src '",
        ),
        Piece::Text(SCRIPT_DIGEST),
        Piece::Text("'\">\n<title>"),
        Piece::Escaped(Place::Html, title),
        Piece::Text(": "),
        Piece::Text(verdict),
        Piece::Text(". "),
        Piece::Number(counts.num_failed),
        Piece::Text(" failed; "),
        Piece::Number(counts.num_passed),
        Piece::Text(" passed; "),
        Piece::Number(counts.num_ignored),
        Piece::Text(" ignored; "),
        Piece::Number(counts.num_measured),
        Piece::Text(" measured</title>\n<style>\n"),
        Piece::Text(STYLE),
        Piece::Text("</style>\n</head>\n<body>\n<header>\n<h1><bdi>"),
        Piece::Escaped(Place::Html, title),
        Piece::Text("</bdi> <strong class=\""),
        Piece::Text(verdict_class(counts.num_failed, ending)),
        Piece::Text("\">"),
        Piece::Text(verdict),
        Piece::Text("</strong></h1>\n"),
    ];
    add_pieces(sink, &pieces);
}

fn verdict(failed: u64, ending: &Ending) -> &'static str
    ensures { result.now ≡ verdict failed ending.now }
{
    match ending {
        Ending::Whole { .. } => { if failed == 0 { "ok" } else { "FAILED" } }
        Ending::Cut(stop) => match stop.announced {
            None => "no report",
            Some(_) => "cut",
        },
        Ending::Failed(_) => "unread",
    }
}

// Returns the class of the verdict, by which it has its colour.
fn verdict_class(failed: u64, ending: &Ending) -> &'static str
    ensures { result.now ≡ verdict_class failed ending.now }
{
    if failed > 0 {
        return "failed";
    }
    if ending.is_whole() { "passed" } else { "cut" }
}

// Adds a paragraph below the heading.
#[tactic(auto, unfolding(crate::specs::Page::note_text))]
pub(crate) fn add_note<W: Write>(sink: &mut Sink<W>, note: &str)
    ensures { Adds W.contents sink.old sink.new (note_text note.now) }
{
    let pieces = [
        Piece::Text("<p><bdi>"),
        Piece::Escaped(Place::Html, note),
        Piece::Text("</bdi></p>\n"),
    ];
    add_pieces(sink, &pieces);
}

// Adds how the report ended, after `ended` rows.
pub(crate) fn add_ending<W: Write>(sink: &mut Sink<W>, ended: u64, ending: &Ending, cause: &str)
    ensures { Adds W.contents sink.old sink.new (ending_text ended ending.now cause.now) }
{
    match ending {
        Ending::Whole {
            filtered_out,
            nanos,
        } => add_whole(sink, *filtered_out, *nanos),
        Ending::Cut(stop) => add_stop(sink, ended, stop),
        Ending::Failed(_) => add_unread(sink, ended, cause),
    }
}

fn add_whole<W: Write>(sink: &mut Sink<W>, filtered_out: u64, nanos: u64)
    ensures { Adds W.contents sink.old sink.new (whole_text filtered_out nanos) }
{
    let (great, unit, small, small_unit) = human_pieces(nanos);
    let pieces = [
        Piece::Text("<p>"),
        Piece::Number(filtered_out),
        Piece::Text(" filtered out; finished in "),
        great,
        unit,
        small,
        small_unit,
        Piece::Text("</p>\n"),
    ];
    add_pieces(sink, &pieces);
}

#[tactic(auto, unfolding(crate::specs::Page::unread_text))]
fn add_unread<W: Write>(sink: &mut Sink<W>, ended: u64, cause: &str)
    ensures { Adds W.contents sink.old sink.new (unread_text ended cause.now) }
{
    let pieces = [
        Piece::Text("<p class=\"cut\">the report can't be read to its end: <bdi>"),
        Piece::Escaped(Place::Html, cause),
        Piece::Text("</bdi>; trials that ended before: "),
        Piece::Number(ended),
        Piece::Text("</p>\n"),
    ];
    add_pieces(sink, &pieces);
}

fn add_stop<W: Write>(sink: &mut Sink<W>, ended: u64, stop: &Stop)
    ensures { Adds W.contents sink.old sink.new (stop_text ended stop.now) }
{
    sink.add(b"<p class=\"cut\">");
    stop.add_extent(sink, u128::from(ended));
    add_missing(sink, ended, stop.announced);
    add_running(sink, stop);
    sink.add(b"</p>\n");
}

fn add_missing<W: Write>(sink: &mut Sink<W>, ended: u64, announced: Option<u64>)
    ensures { Adds W.contents sink.old sink.new (missing_part ended announced) }
{
    let Some(announced) = announced else {
        return;
    };
    let pieces = [
        Piece::Text("; missing: "),
        Piece::Number(announced.saturating_sub(ended)),
    ];
    add_pieces(sink, &pieces);
}

fn add_running<W: Write>(sink: &mut Sink<W>, stop: &Stop)
    ensures { Adds W.contents sink.old sink.new (running_part stop.now.running) }
{
    let Some(label) = &stop.running else {
        return;
    };
    sink.add(b"; running: ");
    add_label(sink, label.kind.as_str(), label.name.as_str());
}

// Adds how long the trials took together, and the slowest of them, if the report says it of one.
pub(crate) fn add_times<W: Write>(sink: &mut Sink<W>, rows: &[Row])
    ensures { Adds W.contents sink.old sink.new
        (times_text (map (λ row. row.nanos) rows.now)) }
{
    if !has_times(rows) {
        return;
    }
    let (great, unit, small, small_unit) = human_pieces(total_time(rows));
    let (slow_great, slow_unit, slow_small, slow_small_unit) = human_pieces(slowest_time(rows));
    let pieces = [
        Piece::Text("<p>total "),
        great,
        unit,
        small,
        small_unit,
        Piece::Text(", slowest "),
        slow_great,
        slow_unit,
        slow_small,
        slow_small_unit,
        Piece::Text("</p>\n"),
    ];
    add_pieces(sink, &pieces);
}

fn has_times(rows: &[Row]) -> bool
    ensures { result ≡ list_any is_some (map (λ row. row.nanos) rows.now) }
{
    rows.iter()
        .map(|row| row.nanos)
        .any(|nanos| nanos.is_some())
}

fn total_time(rows: &[Row]) -> u64
    ensures { result ≡ total_time (map (λ row. row.nanos) rows.now) }
{
    let mut total = 0_u64;
    for row in rows {
        total = total.saturating_add(row.nanos.unwrap_or(0));
    }
    total
}

fn slowest_time(rows: &[Row]) -> u64
    ensures { result ≡ slowest_time (map (λ row. row.nanos) rows.now) }
{
    let mut slowest = 0;
    for row in rows {
        slowest = row.nanos.unwrap_or(0).max(slowest);
    }
    slowest
}

// Adds the counts, as a bar and in words.
#[tactic(auto, unfolding(crate::specs::Page::counts_text))]
pub(crate) fn add_counts<W: Write>(sink: &mut Sink<W>, counts: &Conclusion, missing: u64)
    ensures { Adds W.contents sink.old sink.new (counts_text counts.now missing) }
{
    let pieces = [
        Piece::Text(
            "<div class=\"bar\" aria-hidden=\"true\"><i class=\"failed\" style=\"flex-grow: ",
        ),
        Piece::Number(counts.num_failed),
        Piece::Text("\"></i><i class=\"passed\" style=\"flex-grow: "),
        Piece::Number(counts.num_passed),
        Piece::Text("\"></i><i class=\"ignored\" style=\"flex-grow: "),
        Piece::Number(counts.num_ignored),
        Piece::Text("\"></i><i class=\"measured\" style=\"flex-grow: "),
        Piece::Number(counts.num_measured),
        Piece::Text("\"></i><i class=\"cut\" style=\"flex-grow: "),
        Piece::Number(missing),
        Piece::Text("\"></i></div>\n<ul class=\"counts\">\n<li class=\"failed\">"),
        Piece::Number(counts.num_failed),
        Piece::Text(" failed</li>\n<li class=\"passed\">"),
        Piece::Number(counts.num_passed),
        Piece::Text(" passed</li>\n<li class=\"ignored\">"),
        Piece::Number(counts.num_ignored),
        Piece::Text(" ignored</li>\n<li class=\"measured\">"),
        Piece::Number(counts.num_measured),
        Piece::Text(" measured</li>\n</ul>\n</header>\n"),
    ];
    add_pieces(sink, &pieces);
}

// Adds links to the groups that have rows, and the filter.
#[tactic(auto, unfolding(crate::specs::Page::links_text))]
pub(crate) fn add_links<W: Write>(sink: &mut Sink<W>, counts: &Conclusion)
    ensures { Adds W.contents sink.old sink.new (links_text counts.now) }
{
    let others = u128::from(counts.num_passed) + u128::from(counts.num_ignored);
    let pieces = [
        Piece::Text("<nav>\n<a href=\"#failed\" data-rows=\""),
        Piece::Number(counts.num_failed),
        Piece::Text("\">Failed: "),
        Piece::Number(counts.num_failed),
        Piece::Text("</a>\n<a href=\"#measured\" data-rows=\""),
        Piece::Number(counts.num_measured),
        Piece::Text("\">Measured: "),
        Piece::Number(counts.num_measured),
        Piece::Text("</a>\n<a href=\"#others\" data-rows=\""),
        Piece::Long(&others),
        Piece::Text("\">Passed or ignored: "),
        Piece::Long(&others),
        Piece::Text("</a>\n</nav>\n"),
        Piece::Text(FILTER),
        Piece::Text("<main>\n"),
    ];
    add_pieces(sink, &pieces);
}

// Adds what follows `count` rows of a group.
pub(crate) fn add_list_end<W: Write>(sink: &mut Sink<W>, count: u64)
    ensures { Adds W.contents sink.old sink.new (list_end count) }
{
    if count % LIST == 0 {
        sink.add(b"</ol>\n<ol>\n");
    }
}

// Adds the end of a group, of which this many rows are not listed.
pub(crate) fn add_unlisted<W: Write>(sink: &mut Sink<W>, count: u64)
    ensures { Adds W.contents sink.old sink.new (unlisted_text count) }
{
    if count == 0 {
        sink.add(b"</ol>\n</section>\n");
        return;
    }
    let pieces = [
        Piece::Text("</ol>\n<p class=\"unlisted\">not listed: "),
        Piece::Number(count),
        Piece::Text("</p>\n</section>\n"),
    ];
    add_pieces(sink, &pieces);
}

// Adds what follows the rows, and flushes the page.
pub(crate) fn add_end<W: Write>(sink: &mut Sink<W>)
    ensures { Adds W.contents sink.old sink.new end_text }
{
    let pieces = [
        Piece::Text("</main>\n<script>"),
        Piece::Text(SCRIPT),
        Piece::Text("</script>\n</body>\n</html>\n"),
    ];
    add_pieces(sink, &pieces);
    sink.add_flush();
}
