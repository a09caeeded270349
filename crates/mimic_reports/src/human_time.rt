//! Makes pieces of times as people say them.
ghost use Rattle.std.specs.Prelude.{◌≡◌, ◌++◌};
ghost use Rattle.mimic_printer.specs.Piece.{piece_text};
ghost use Rattle.mimic_reports.specs.HumanTime.{human_time, two_units};

use mimic_printer::Piece;

// Returns the pieces of a time, to the nearest of its last unit: `350 ms`, `83.1 s`, `2 min 5 s` or `1 h 2 min`.
pub(crate) fn human_pieces<'a>(nanos: u64) -> (Piece<'a>, Piece<'a>, Piece<'a>, Piece<'a>)
    ensures { piece_text result.0 ++ (piece_text result.1 ++ (piece_text result.2 ++ piece_text result.3))
        ≡ human_time nanos }
{
    let nanos = u128::from(nanos);
    let millis = ((nanos + 500_000) / 1_000_000) as u64;
    if millis < 1000 {
        let none = Piece::Text("");
        return (Piece::Number(millis), Piece::Text(" ms"), none, none);
    }
    let tenths = ((nanos + 50_000_000) / 100_000_000) as u64;
    if tenths < 1200 {
        return two(tenths / 10, ".", tenths % 10, " s");
    }
    let seconds = ((nanos + 500_000_000) / 1_000_000_000) as u64;
    if seconds < 3600 {
        return two(seconds / 60, " min ", seconds % 60, " s");
    }
    let minutes = ((nanos + 30_000_000_000) / 60_000_000_000) as u64;
    two(minutes / 60, " h ", minutes % 60, " min")
}

// Returns the pieces of two numbers with their units.
fn two<'a>(
    great: u64,
    unit: &'static str,
    small: u64,
    small_unit: &'static str,
) -> (Piece<'a>, Piece<'a>, Piece<'a>, Piece<'a>)
    ensures { piece_text result.0 ++ (piece_text result.1 ++ (piece_text result.2 ++ piece_text result.3))
        ≡ two_units great unit.now small small_unit.now }
{
    (
        Piece::Number(great),
        Piece::Text(unit),
        Piece::Number(small),
        Piece::Text(small_unit),
    )
}
