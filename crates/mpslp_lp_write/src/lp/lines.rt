//! Prints lines of canonical LP, piece by piece.

ghost use Rattle.std.specs.Prelude.{◌≡◌, [], ◌∷◌, ◌++◌, codes};
ghost use Rattle.mpslp_decimal.specs.Decimal.{is_negative, size_of};
ghost use Rattle.mpslp_decimal.specs.NumberText.{number_text};
ghost use Rattle.mpslp_lp_tokens.specs.declared.relations.Relation.TheVariants as relations;
ghost use Rattle.mpslp_lp_text.specs.Printed.{line_text, sign_bytes, word, number, sense, minus_infinity};
ghost use Rattle.mpslp_lp_text.specs.CanonicalLp.{short_line, long_line, label_line, term_line, signed_lexemes, right_line, minus_large};
ghost use Rattle.mpslp_lp_write.specs.LpLinesAt.{between_line};
ghost use Rattle.mpslp_io.specs.Printing.{Puts, Prints};

use mpslp_decimal::Decimal;
use mpslp_io::{Output, put_number, put_size};
use mpslp_model::Sink;

/// A sign, with two spaces before it and one after it.
fn sign_text(minus: bool) -> &'static [u8]
    ensures { result.now ≡ codes "  " ++ (sign_bytes minus ++ codes " ") }
{
    if minus {
        b"  - ".as_slice()
    } else {
        b"  + ".as_slice()
    }
}

/// Prints the sign of a number and its absolute value after two spaces, and then this piece.
#[inline(always)]
fn put_signed<W: Sink>(output: &mut Output<W>, value: Decimal, back: &[u8])
    ensures { Puts W.Sink output.old output.new ((codes "  " ++ (sign_bytes (is_negative value) ++ codes " ")) ++ (number_text (size_of value) ++ back.now)) }
{
    put_size(output, sign_text(value.is_negative()), value, back);
}

/// Prints the line of a name and a colon.
pub(crate) fn put_label_line<W: Sink>(output: &mut Output<W>, name: &[u8])
    ensures { Prints line_text W.Sink output.old output.new (label_line name.now ∷ []) }
{
    output.put_header();
    output.put_between(b" ", name, b":\n");
}

/// Prints the line of a column and its coefficient.
#[inline(always)]
pub(crate) fn put_term_line<W: Sink>(output: &mut Output<W>, column: &[u8], value: Decimal)
    ensures { Prints line_text W.Sink output.old output.new (term_line (column.now, value) ∷ []) }
{
    output.put_header();
    put_signed(output, value, b" ");
    output.put_between(b"", column, b"\n");
}

/// Prints the line of a constant.
pub(crate) fn put_constant_line<W: Sink>(output: &mut Output<W>, value: Decimal)
    ensures { Prints line_text W.Sink output.old output.new (long_line (signed_lexemes value) ∷ []) }
{
    output.put_header();
    put_signed(output, value, b"\n");
}

/// Prints the line of a lower limit before the terms of a row.
pub(crate) fn put_left_line<W: Sink>(output: &mut Output<W>, lower: Decimal)
    ensures { Prints line_text W.Sink output.old output.new (long_line (number lower ∷ sense relations.AtMost ∷ []) ∷ []) }
{
    output.put_header();
    put_number(output, b"  ", lower, b" <=\n");
}

/// Prints the line of the upper limit of a row, after its terms.
pub(crate) fn put_at_most_line<W: Sink>(output: &mut Output<W>, upper: Decimal)
    ensures { Prints line_text W.Sink output.old output.new (right_line relations.AtMost upper ∷ []) }
{
    output.put_header();
    put_number(output, b"  <= ", upper, b"\n");
}

/// Prints the line of the lower limit of a row, after its terms.
pub(crate) fn put_at_least_line<W: Sink>(output: &mut Output<W>, lower: Decimal)
    ensures { Prints line_text W.Sink output.old output.new (right_line relations.AtLeast lower ∷ []) }
{
    output.put_header();
    put_number(output, b"  >= ", lower, b"\n");
}

/// Prints the line of the right-hand side of an equality row, after its terms.
pub(crate) fn put_equal_line<W: Sink>(output: &mut Output<W>, value: Decimal)
    ensures { Prints line_text W.Sink output.old output.new (right_line relations.EqualTo value ∷ []) }
{
    output.put_header();
    put_number(output, b"  = ", value, b"\n");
}

/// Prints the line of a row without limits, after its terms.
pub(crate) fn put_free_row_line<W: Sink>(output: &mut Output<W>)
    ensures { Prints line_text W.Sink output.old output.new (right_line relations.AtLeast minus_large ∷ []) }
{
    output.put_header();
    output.put(b"  >= -1e20\n");
}

/// Prints a line with only the name of a column.
pub(crate) fn put_name_line<W: Sink>(output: &mut Output<W>, column: &[u8])
    ensures { Prints line_text W.Sink output.old output.new (short_line (word column.now ∷ []) ∷ []) }
{
    output.put_header();
    output.put_between(b" ", column, b"\n");
}

/// Prints the line of a column without bounds.
pub(crate) fn put_free_column_line<W: Sink>(output: &mut Output<W>, column: &[u8])
    ensures { Prints line_text W.Sink output.old output.new (short_line (word column.now ∷ word (codes "free") ∷ []) ∷ []) }
{
    output.put_header();
    output.put_between(b" ", column, b" free\n");
}

/// Prints the line of a column with only an upper bound.
pub(crate) fn put_upper_bound_line<W: Sink>(output: &mut Output<W>, column: &[u8], upper: Decimal)
    ensures { Prints line_text W.Sink output.old output.new (between_line minus_infinity column.now upper ∷ []) }
{
    output.put_header();
    output.put_between(b" -infinity <= ", column, b" <= ");
    put_number(output, b"", upper, b"\n");
}

/// Prints the line of a column with only a lower bound.
pub(crate) fn put_lower_bound_line<W: Sink>(output: &mut Output<W>, column: &[u8], lower: Decimal)
    ensures { Prints line_text W.Sink output.old output.new (short_line (word column.now ∷ sense relations.AtLeast ∷ number lower ∷ []) ∷ []) }
{
    output.put_header();
    output.put_between(b" ", column, b" >= ");
    put_number(output, b"", lower, b"\n");
}

/// Prints the line of a column whose bounds are equal.
pub(crate) fn put_fixed_line<W: Sink>(output: &mut Output<W>, column: &[u8], value: Decimal)
    ensures { Prints line_text W.Sink output.old output.new (short_line (word column.now ∷ sense relations.EqualTo ∷ number value ∷ []) ∷ []) }
{
    output.put_header();
    output.put_between(b" ", column, b" = ");
    put_number(output, b"", value, b"\n");
}

/// Prints the line of a column between two bounds.
pub(crate) fn put_between_line<W: Sink>(
    output: &mut Output<W>,
    column: &[u8],
    lower: Decimal,
    upper: Decimal,
)
    ensures { Prints line_text W.Sink output.old output.new (between_line (number lower) column.now upper ∷ []) }
{
    output.put_header();
    put_number(output, b" ", lower, b" <= ");
    output.put_between(b"", column, b" <= ");
    put_number(output, b"", upper, b"\n");
}
