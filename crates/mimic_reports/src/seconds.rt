//! Makes pieces of times.
ghost use Rattle.std.specs.Prelude.{◌≡◌, ◌++◌};
ghost use Rattle.mimic_printer.specs.Piece.{piece_text};
ghost use Rattle.mimic_printer.specs.Report.{nearest_thousandths};
ghost use Rattle.mimic_reports.specs.Seconds.{rounded_seconds};

use mimic_printer::Piece;

// Returns the pieces of a time in seconds, to the nearest thousandth.
pub(crate) fn rounded_pieces<'a>(nanos: u64) -> (Piece<'a>, Piece<'a>, Piece<'a>, Piece<'a>)
    ensures { piece_text result.0 ++ (piece_text result.1 ++ (piece_text result.2 ++ piece_text result.3))
        ≡ rounded_seconds nanos }
{
    let thousandths = nearest_thousandths(u128::from(nanos));
    (
        Piece::Number((thousandths / 1000) as u64),
        Piece::Text("."),
        Piece::Number((thousandths / 100 % 10) as u64),
        Piece::TwoDigits((thousandths % 100) as u8),
    )
}

// Returns a time in thousandths of a second, to the nearest one.
pub(crate) fn nearest_thousandths(nanos: u128) -> u128
    ensures { result ≡ nearest_thousandths nanos }
{
    nanos / 1_000_000 + u128::from(nanos % 1_000_000 >= 500_000)
}
