//! Adds the lines of a report in JSON, of trials that need no `TestInfo`.
ghost use Rattle.std.specs.Prelude.{◌≡◌, ◌∷◌, ◌++◌, [], Some, codes, drop, false, take};
ghost use Rattle.std.specs.List.{concat};
ghost use Rattle.mimic_printer.specs.Json.{json_announcement, json_end, json_outcome, json_summary, json_title, json_verdict, kind_field, outcome_front, time_field};
ghost use Rattle.mimic_printer.specs.Lines.{announced_before, json_lines};
ghost use Rattle.mimic_printer.specs.Sink.{Adds};
ghost use Rattle.mimic_trial.specs.Escape.{escaped};
ghost use Rattle.mimic_trial.specs.declared.outcome.Outcome.TheVariants.{Failed, Measured};

use crate::piece::{Piece, add_pieces, name_piece};
use crate::sink::Sink;
use mimic_trial::{Conclusion, Measurement, Outcome};
use std::io::Write;

// Adds the line of an outcome, and before it the line that announces its trial if that was not written: then no piece ends a line
// but the last, so that both lines go out at once.
macro_rules! add_trial {
    ($sink:expr, $both:expr, $type:literal, $name:expr, $kind:expr, $($end:expr),+) => {{
        let name = name_piece($name);
        if $both {
            let pieces = [
                Piece::Text("{ \"type\": \"test\", \"event\": \"started\", \"name\": \""),
                name,
                Piece::Kind($kind),
                Piece::Text(concat!("\" }\n{ \"type\": \"", $type, "\", \"name\": \"")),
                name,
                Piece::Kind($kind),
                $($end),+
            ];
            add_pieces($sink, &pieces)
        } else {
            let front = concat!("{ \"type\": \"", $type, "\", \"name\": \"");
            add_pieces($sink, &[Piece::Text(front), name, Piece::Kind($kind), $($end),+])
        }
    }};
}

/// Adds the line that begins a report: how many trials it shows.
#[tactic(auto, unfolding(crate::specs::Json::json_title))]
pub fn add_title<W: Write>(sink: &mut Sink<W>, num_tests: u64)
    ensures { Adds W.contents sink.old sink.new (json_title num_tests) }
{
    let pieces = [
        Piece::Text("{ \"type\": \"suite\", \"event\": \"started\", \"test_count\": "),
        Piece::Number(num_tests),
        Piece::Text(" }\n"),
    ];
    add_pieces(sink, &pieces);
}

/// Adds the line that announces a trial, with its kind if that isn't empty.
pub fn add_announcement<'a, W: Write>(sink: &mut Sink<W>, name: &'a str, kind: &'a str)
    ensures { Adds W.contents sink.old sink.new
        (json_announcement (record { kind = kind.now; name = name.now })) }
{
    let pieces = [
        Piece::Text("{ \"type\": \"test\", \"event\": \"started\", \"name\": \""),
        Piece::Json(name),
        Piece::Kind(kind),
        Piece::Text("\" }\n"),
    ];
    add_pieces(sink, &pieces);
}

/// Adds the line of a trial's outcome, with its kind if that isn't empty, and with the nanoseconds that it took if there are any.
pub fn add_outcome<'a, W: Write>(
    sink: &mut Sink<W>,
    name: &'a str,
    kind: &'a str,
    outcome: &'a Outcome,
    nanos: Option<u64>,
)
    ensures { Adds W.contents sink.old sink.new
        (json_outcome (record { kind = kind.now; name = name.now }) outcome.now nanos) }
{
    add_lines(sink, false, name, kind, outcome, nanos);
}

/// Adds both lines of a trial that has ended: the one that announces it, and the one of its outcome. No piece ends a line but
/// the last.
#[inline(never)]
pub fn add_row<'a, W: Write>(
    sink: &mut Sink<W>,
    name: &'a str,
    kind: &'a str,
    outcome: &'a Outcome,
    nanos: Option<u64>,
)
    ensures { Adds W.contents sink.old sink.new
        (json_announcement (record { kind = kind.now; name = name.now })
        ++ json_outcome (record { kind = kind.now; name = name.now }) outcome.now nanos) }
{
    add_lines(sink, true, name, kind, outcome, nanos);
}

// Adds the line of an outcome, and before it the line that announces its trial if that was not written.
#[inline(always)]
fn add_lines<'a, W: Write>(
    sink: &mut Sink<W>,
    both: bool,
    name: &'a str,
    kind: &'a str,
    outcome: &'a Outcome,
    nanos: Option<u64>,
)
    ensures { Adds W.contents sink.old sink.new (json_lines both
        (record { kind = kind.now; name = name.now }) outcome.now nanos) }
{
    match outcome {
        Outcome::Passed => add_word(sink, both, name, kind, "\", \"event\": \"ok\"", nanos),
        Outcome::Ignored => add_word(sink, both, name, kind, "\", \"event\": \"ignored\"", nanos),
        Outcome::Measured(measurement) => {
            add_measurement(sink, both, name, kind, measurement, nanos)
        }
        Outcome::Failed(failed) => match failed.message() {
            None => add_word(sink, both, name, kind, "\", \"event\": \"failed\"", nanos),
            Some(message) => add_failure(sink, both, name, kind, message, nanos),
        },
    }
}

// The same of an outcome that is one word. `word` begins with the quote after the name or the kind.
//
// Most reports have no times, and a piece less is seen in the time of a row.
#[inline(always)]
fn add_word<'a, W: Write>(
    sink: &mut Sink<W>,
    both: bool,
    name: &'a str,
    kind: &'a str,
    word: &'a str,
    nanos: Option<u64>,
)
    requires { take 1 word.now ≡ codes "\"" }
    ensures { Adds W.contents sink.old sink.new
        (announced_before both (record { kind = kind.now; name = name.now })
        ++ concat (outcome_front false ∷ escaped name.now ∷ codes "\"" ∷ kind_field kind.now
        ∷ drop 1 word.now ∷ time_field nanos ∷ json_end ∷ [])) }
{
    match nanos {
        None => {
            let end = Piece::Text(" }\n");
            add_trial!(sink, both, "test", name, kind, Piece::Text(word), end)
        }
        Some(nanos) => add_timed_word(sink, both, name, kind, word, nanos),
    }
}

// The same with a time.
#[inline(never)]
fn add_timed_word<'a, W: Write>(
    sink: &mut Sink<W>,
    both: bool,
    name: &'a str,
    kind: &'a str,
    word: &'a str,
    nanos: u64,
)
    requires { take 1 word.now ≡ codes "\"" }
    ensures { Adds W.contents sink.old sink.new
        (announced_before both (record { kind = kind.now; name = name.now })
        ++ concat (outcome_front false ∷ escaped name.now ∷ codes "\"" ∷ kind_field kind.now
        ∷ drop 1 word.now ∷ time_field (Some nanos) ∷ json_end ∷ [])) }
{
    let time = Piece::Time(Some(nanos));
    let end = Piece::Text(" }\n");
    add_trial!(sink, both, "test", name, kind, Piece::Text(word), time, end);
}

fn add_failure<'a, W: Write>(
    sink: &mut Sink<W>,
    both: bool,
    name: &'a str,
    kind: &'a str,
    message: &'a str,
    nanos: Option<u64>,
)
    ensures { Adds W.contents sink.old sink.new
        (json_lines both (record { kind = kind.now; name = name.now })
        (Failed (Some message.now)) nanos) }
{
    add_trial!(
        sink,
        both,
        "test",
        name,
        kind,
        Piece::Text("\", \"event\": \"failed\""),
        Piece::Time(nanos),
        Piece::Text(", \"stdout\": \"Error: \\\""),
        Piece::Json(message),
        Piece::Text("\\\"\\n\" }\n")
    );
}

fn add_measurement<'a, W: Write>(
    sink: &mut Sink<W>,
    both: bool,
    name: &'a str,
    kind: &'a str,
    measurement: &Measurement,
    nanos: Option<u64>,
)
    ensures { Adds W.contents sink.old sink.new
        (json_lines both (record { kind = kind.now; name = name.now })
        (Measured measurement.now) nanos) }
{
    add_trial!(
        sink,
        both,
        "bench",
        name,
        kind,
        Piece::Text("\", \"median\": "),
        Piece::Number(measurement.avg),
        Piece::Text(", \"deviation\": "),
        Piece::Number(measurement.variance),
        Piece::Time(nanos),
        Piece::Text(" }\n")
    );
}

/// Adds the line that ends a report: its verdict, its counts, and the time in nanoseconds as seconds.
#[tactic(auto, unfolding(crate::specs::Json::json_summary))]
pub fn add_summary<W: Write>(sink: &mut Sink<W>, conclusion: &Conclusion, nanos: u64)
    ensures { Adds W.contents sink.old sink.new (json_summary conclusion.now nanos) }
{
    let pieces = [
        Piece::Text("{ \"type\": \"suite\", \"event\": \""),
        Piece::Text(json_verdict(conclusion.num_failed)),
        Piece::Text("\", \"passed\": "),
        Piece::Number(conclusion.num_passed),
        Piece::Text(", \"failed\": "),
        Piece::Number(conclusion.num_failed),
        Piece::Text(", \"ignored\": "),
        Piece::Number(conclusion.num_ignored),
        Piece::Text(", \"measured\": "),
        Piece::Number(conclusion.num_measured),
        Piece::Text(", \"filtered_out\": "),
        Piece::Number(conclusion.num_filtered_out),
        Piece::Text(", \"exec_time\": "),
        Piece::Seconds(nanos),
        Piece::Text(" }\n"),
    ];
    add_pieces(sink, &pieces);
}

/// Returns the word for a whole run in the line that ends its report: `failed` if a trial failed, else `ok`.
pub fn json_verdict(num_failed: u64) -> &'static str
    ensures { result.now ≡ json_verdict num_failed }
{
    if num_failed > 0 { "failed" } else { "ok" }
}
