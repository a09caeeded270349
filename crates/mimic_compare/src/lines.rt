//! Prints what became of kinds and names.
ghost use Rattle.std.specs.Prelude.{◌≡◌, ◌∷◌, ◌++◌, [], codes, count_by, decimal, not};
ghost use Rattle.std.specs.List.{concat, flat_map};
ghost use Rattle.mimic_printer.specs.Piece.{first_line, pieces_text};
ghost use Rattle.mimic_printer.specs.Sink.{Adds};
ghost use Rattle.mimic_compare.specs.Changes.{is_slower};
ghost use Rattle.mimic_compare.specs.Text.{amount, change_text, classes, comparison_text, count_of, first_message, is_listed, line_in, listed_lines, change_name, colon_before, shown_message, number_text, numbers_text, ratio_of, ratio_part, rounded_seconds, speeds_text, unit_part, word};

use crate::change::{Change, Quantity};
use crate::class::Class;
use crate::fates::KeptFate;
use crate::trials::Comparison;
use mimic_printer::{Piece, Place, Sink, add_pieces};
use std::io::Write;

// All classes, in the order in which they are printed.
const CLASSES: [Class; 11] = [
    Class::NewFailure,
    Class::Regressed,
    Class::Missing,
    Class::NotRun,
    Class::New,
    Class::NotRunBefore,
    Class::NewlyIgnored,
    Class::NewlyPassing,
    Class::AnotherMessage,
    Class::StillFailing,
    Class::Unchanged,
];

fn word(class: Class) -> &'static str
    ensures { result.now ≡ word class }
{
    match class {
        Class::NewFailure => "new failure",
        Class::Regressed => "regressed",
        Class::Missing => "missing",
        Class::NotRun => "not run",
        Class::New => "new",
        Class::NotRunBefore => "not run before",
        Class::NewlyIgnored => "newly ignored",
        Class::NewlyPassing => "newly passing",
        Class::AnotherMessage => "another message",
        Class::StillFailing => "still failing",
        Class::Unchanged => "unchanged",
    }
}

// Whether the kinds and names of the class have lines.
fn is_listed(lists_not_run: bool, class: Class) -> bool
    ensures { result ≡ is_listed lists_not_run class }
{
    match class {
        Class::NotRun | Class::NotRunBefore => lists_not_run,
        Class::StillFailing | Class::Unchanged => false,
        _ => true,
    }
}

// Returns the message of the first failure, and an empty one if there is none.
fn first_message(fates: &[KeptFate]) -> &str
    ensures { result.now ≡ first_message fates.now }
{
    for fate in fates {
        if let Some(failed) = fate.failed() {
            return failed.message().unwrap_or("");
        }
    }
    ""
}

// Returns the message whose first line is printed behind a name, which is empty for most classes.
fn shown_message(class: Class, new: &[KeptFate]) -> &str
    ensures { result.now ≡ shown_message class new.now }
{
    match class {
        Class::NewFailure | Class::Regressed | Class::AnotherMessage => first_message(new),
        _ => "",
    }
}

// Returns what comes before the first line of the message.
fn colon_before(message: &str) -> &'static str
    ensures { result.now ≡ colon_before (first_line message.now) }
{
    let Some(first) = message.as_bytes().first() else {
        return "";
    };
    if *first == b'\n' { "" } else { ": " }
}

// Adds the line of a kind and a name if they are of the class.
#[tactic(auto, unfolding(crate::specs::Text::line_text))]
fn add_line<'a, W: Write>(sink: &mut Sink<W>, class: Class, comparison: &Comparison<'a>)
    ensures { Adds W.contents sink.old sink.new (line_in class comparison.now) }
{
    if comparison.class != class {
        return;
    }
    let label = comparison.label;
    let message = shown_message(class, comparison.fates.new.as_slice());
    let pieces = [
        Piece::Text(word(class)),
        Piece::Text(": "),
        Piece::Bracketed(Place::Line, label.kind.as_str()),
        Piece::Escaped(Place::Line, label.name.as_str()),
        Piece::Text(colon_before(message)),
        Piece::FirstLine(Place::Line, message),
        Piece::Text("\n"),
    ];
    add_pieces(sink, &pieces);
}

// Adds the lines of the class if it is listed.
fn add_lines<W: Write>(
    sink: &mut Sink<W>,
    class: Class,
    found: &[Comparison<'_>],
    lists_not_run: bool,
)
    ensures { Adds W.contents sink.old sink.new (listed_lines lists_not_run found.now class) }
{
    if !is_listed(lists_not_run, class) {
        return;
    }
    for comparison in found {
        if sink.has_fault() {
            break;
        }
        add_line(sink, class, comparison);
    }
}

// Adds the lines of the classes that are listed.
fn add_classes<W: Write>(sink: &mut Sink<W>, found: &[Comparison<'_>], lists_not_run: bool)
    ensures { Adds W.contents sink.old sink.new
        (flat_map (listed_lines lists_not_run found.now) classes) }
{
    for class in &CLASSES {
        add_lines(sink, *class, found, lists_not_run);
    }
}

// Returns the new number divided by the old one, in hundredths.
fn ratio_of(old: u64, new: u64) -> Option<u128>
    ensures { result ≡ ratio_of old new }
{
    if old == 0 {
        return None;
    }
    let (old, new) = (u128::from(old), u128::from(new));
    Some((200 * new + old) / (2 * old))
}

// Adds the ratio with two decimals, or `-` if there is none, and the end of the line.
fn add_ratio<W: Write>(sink: &mut Sink<W>, ratio: Option<u128>)
    ensures { Adds W.contents sink.old sink.new (concat (ratio_part ratio)) }
{
    match ratio {
        None => sink.add(b"-)\n"),
        Some(ratio) => {
            let digits = (ratio / 100, ratio / 10 % 10, ratio % 10);
            add_pieces(sink, &ratio_pieces(&digits));
        }
    }
}

// Returns the pieces of a ratio: the whole part and two decimals, and the end of the line.
fn ratio_pieces(digits: &(u128, u128, u128)) -> [Piece<'_>; 5]
    ensures { pieces_text result ≡ concat (decimal digits.now.0 ∷ codes "." ∷ decimal digits.now.1
        ∷ decimal digits.now.2 ∷ codes ")\n" ∷ []) }
{
    [
        Piece::Long(&digits.0),
        Piece::Text("."),
        Piece::Long(&digits.1),
        Piece::Long(&digits.2),
        Piece::Text(")\n"),
    ]
}

// Returns the pieces of a time in seconds, to the nearest thousandth.
fn seconds_pieces<'a>(nanos: u64) -> [Piece<'a>; 5]
    ensures { pieces_text result ≡ rounded_seconds nanos ++ codes "s" }
{
    let thousandths = (u128::from(nanos) + 500_000) / 1_000_000;
    [
        Piece::Number((thousandths / 1000) as u64),
        Piece::Text("."),
        Piece::Number((thousandths / 100 % 10) as u64),
        Piece::TwoDigits((thousandths % 100) as u8),
        Piece::Text("s"),
    ]
}

// Adds the number with the first part of its unit.
fn add_amount<W: Write>(sink: &mut Sink<W>, quantity: Quantity, nanos: u64)
    ensures { Adds W.contents sink.old sink.new (amount quantity nanos) }
{
    match quantity {
        Quantity::Average => add_pieces(sink, &[Piece::Grouped(nanos)]),
        Quantity::Time => add_pieces(sink, &seconds_pieces(nanos)),
    }
}

// Adds the second part of the unit, up to the ratio.
fn add_unit<W: Write>(sink: &mut Sink<W>, quantity: Quantity)
    ensures { Adds W.contents sink.old sink.new (unit_part quantity ++ codes " (") }
{
    match quantity {
        Quantity::Average => sink.add(b" ns/iter ("),
        Quantity::Time => sink.add(b" ("),
    }
}

// Adds whether the change is a slower or a faster one, and the kind and the name.
#[tactic(auto, unfolding(crate::specs::Text::change_name))]
fn add_change_name<'a, W: Write>(sink: &mut Sink<W>, change: &Change<'a>)
    ensures { Adds W.contents sink.old sink.new (change_name change.now) }
{
    let label = change.label;
    let word = if change.is_slower() {
        "slower: "
    } else {
        "faster: "
    };
    let pieces = [
        Piece::Text(word),
        Piece::Bracketed(Place::Line, label.kind.as_str()),
        Piece::Escaped(Place::Line, label.name.as_str()),
        Piece::Text(": "),
    ];
    add_pieces(sink, &pieces);
}

// Adds the line of a change: its name, both numbers and their ratio.
fn add_change<W: Write>(sink: &mut Sink<W>, change: &Change<'_>)
    ensures { Adds W.contents sink.old sink.new (change_text change.now) }
{
    add_change_name(sink, change);
    add_amount(sink, change.quantity, change.old);
    sink.add(b" -> ");
    add_amount(sink, change.quantity, change.new);
    add_unit(sink, change.quantity);
    add_ratio(sink, ratio_of(change.old, change.new));
}

// Adds the lines of the changes.
fn add_changes<W: Write>(sink: &mut Sink<W>, changes: &[Change<'_>])
    ensures { Adds W.contents sink.old sink.new (flat_map change_text changes.now) }
{
    for change in changes {
        if sink.has_fault() {
            break;
        }
        add_change(sink, change);
    }
}

// Returns how many kinds and names are of the class.
pub(crate) fn count_of(found: &[Comparison<'_>], class: Class) -> usize
    ensures { result ≡ count_of class found.now }
{
    found.iter().filter(|c| c.class == class).count()
}

// Adds how many kinds and names are of the class.
#[tactic(auto, unfolding(crate::specs::Text::number_text))]
fn add_number<W: Write>(sink: &mut Sink<W>, found: &[Comparison<'_>], class: Class)
    ensures { Adds W.contents sink.old sink.new (number_text found.now class) }
{
    let pieces = [
        Piece::Number(count_of(found, class) as u64),
        Piece::Text(" "),
        Piece::Text(word(class)),
        Piece::Text("; "),
    ];
    add_pieces(sink, &pieces);
}

fn slower_in(changes: &[Change<'_>]) -> usize
    ensures { result ≡ count_by is_slower changes.now }
{
    changes.iter().filter(|change| change.is_slower()).count()
}

fn faster_in(changes: &[Change<'_>]) -> usize
    ensures { result ≡ count_by (λ change. not (is_slower change)) changes.now }
{
    changes.iter().filter(|change| !change.is_slower()).count()
}

// Adds how many changes are slower and how many faster.
#[tactic(auto, unfolding(crate::specs::Text::speeds_text))]
fn add_speeds<W: Write>(sink: &mut Sink<W>, changes: &[Change<'_>])
    ensures { Adds W.contents sink.old sink.new (speeds_text changes.now) }
{
    let pieces = [
        Piece::Number(slower_in(changes) as u64),
        Piece::Text(" slower; "),
        Piece::Number(faster_in(changes) as u64),
        Piece::Text(" faster\n"),
    ];
    add_pieces(sink, &pieces);
}

// Adds the numbers of all classes and of the changes.
fn add_numbers<W: Write>(sink: &mut Sink<W>, found: &[Comparison<'_>], changes: &[Change<'_>])
    ensures { Adds W.contents sink.old sink.new (numbers_text found.now changes.now) }
{
    for class in &CLASSES {
        add_number(sink, found, *class);
    }
    add_speeds(sink, changes);
}

// Adds the whole comparison, and flushes it.
pub(crate) fn add_comparison<W: Write>(
    sink: &mut Sink<W>,
    found: &[Comparison<'_>],
    changes: &[Change<'_>],
    lists_not_run: bool,
)
    ensures { Adds W.contents sink.old sink.new
        (comparison_text lists_not_run found.now changes.now) }
{
    add_classes(sink, found, lists_not_run);
    add_changes(sink, changes);
    add_numbers(sink, found, changes);
    sink.add_flush();
}
