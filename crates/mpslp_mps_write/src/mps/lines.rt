//! Prints lines of canonical MPS, field by field.

ghost use Rattle.std.specs.Prelude.{[], ◌∷◌, ◌++◌, codes};
ghost use Rattle.mpslp_decimal.specs.NumberText.{number_text};
ghost use Rattle.mpslp_mps_text.specs.CanonicalMps.{line_text, short_line, long_line};
ghost use Rattle.mpslp_io.specs.Printing.{Puts, Prints};

use mpslp_decimal::Decimal;
use mpslp_io::{Output, put_number};
use mpslp_model::Sink;

/// Prints the line of two fields after one space.
pub(crate) fn put_short_line<W: Sink>(output: &mut Output<W>, first: &[u8], second: &[u8])
    ensures { Prints line_text W.Sink output.old output.new (short_line (first.now ∷ second.now ∷ []) ∷ []) }
{
    output.put_header();
    output.put_between(b" ", first, b"  ");
    output.put_between(b"", second, b"\n");
}

/// Prints the line of two names and a number after four spaces.
#[inline(always)]
pub(crate) fn put_value_line<W: Sink>(
    output: &mut Output<W>,
    first: &[u8],
    second: &[u8],
    value: Decimal,
)
    ensures { Prints line_text W.Sink output.old output.new (long_line (first.now ∷ second.now ∷ number_text value ∷ []) ∷ []) }
{
    output.put_header();
    output.put_between(b"    ", first, b"  ");
    output.put_between(b"", second, b"  ");
    put_number(output, b"", value, b"\n");
}

/// Prints the line of a bound without a value.
pub(crate) fn put_bare_bound<W: Sink>(output: &mut Output<W>, letters: &[u8], column: &[u8])
    ensures { Prints line_text W.Sink output.old output.new (short_line (letters.now ∷ codes "BND" ∷ column.now ∷ []) ∷ []) }
{
    output.put_header();
    output.put_between(b" ", letters, b"  BND  ");
    output.put_between(b"", column, b"\n");
}

/// Prints the line of a bound with a value.
pub(crate) fn put_valued_bound<W: Sink>(
    output: &mut Output<W>,
    letters: &[u8],
    column: &[u8],
    value: Decimal,
)
    ensures { Prints line_text W.Sink output.old output.new (short_line (letters.now ∷ codes "BND" ∷ column.now ∷ number_text value ∷ []) ∷ []) }
{
    output.put_header();
    output.put_between(b" ", letters, b"  BND  ");
    output.put_between(b"", column, b"  ");
    put_number(output, b"", value, b"\n");
}
