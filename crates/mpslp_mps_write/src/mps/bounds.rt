//! The section BOUNDS.

ghost use Rattle.std.specs.Prelude.{◌≡◌, ◌<◌, [], ◌∷◌, ◌++◌, Some, None, map, if◌then◌else◌};
ghost use Rattle.std.specs.List.{flat_map};
ghost use Rattle.std.specs.FinMap.{entries};
ghost use Rattle.mpslp_model_core.specs.Views.{num_columns};
ghost use Rattle.mpslp_mps_text.specs.CanonicalMps.{line_text, bound_line, column_bound_lines, bounds_section};
ghost use Rattle.mpslp_mps_text.specs.PrintedValues.{is_fixed, printed_lower, printed_upper, printed_bounds};
ghost use Rattle.mpslp_model_core.specs.Model.{listing_of};
ghost use Rattle.mpslp_io.specs.LinesAt.{lines_at};
ghost use Rattle.mpslp_mps_write.specs.MpsLinesAt.{fixed_value, are_free};
ghost use Rattle.mpslp_io.specs.Printing.{Prints, PrintsSection};

use crate::mps::lines::{put_bare_bound, put_valued_bound};
use mpslp_decimal::Decimal;
use mpslp_io::{Output, put_each};
use mpslp_model::{Kind, Limit, Model, Sink};

/// Prints the line of a lower bound, unless it is 0.
fn put_lower<W: Sink>(output: &mut Output<W>, column: &[u8], lower: &Limit)
    ensures { Prints line_text W.Sink output.old output.new (map (bound_line column.now) (printed_lower lower.now)) }
{
    match lower {
        Limit::MinusInf => put_bare_bound(output, b"MI", column),
        Limit::Finite(value) => {
            if !value.is_zero() {
                put_valued_bound(output, b"LO", column, *value);
            }
        }
        Limit::PlusInf => {}
    }
}

/// Prints the line of a finite upper bound. The type `SC` also declares its column semi-continuous.
fn put_finite_upper<W: Sink>(output: &mut Output<W>, column: &[u8], kind: Kind, value: Decimal)
    ensures { Prints line_text W.Sink output.old output.new (map (bound_line column.now) (printed_upper kind (Limit.Finite value))) }
{
    match kind {
        Kind::Continuous | Kind::Integer => put_valued_bound(output, b"UP", column, value),
        Kind::Semi => put_valued_bound(output, b"SC", column, value),
    }
}

/// Prints the line of an upper bound. An infinite one is printed only for an integer column, whose upper bound would
/// otherwise be 1.
fn put_upper<W: Sink>(output: &mut Output<W>, column: &[u8], kind: Kind, upper: &Limit)
    ensures { Prints line_text W.Sink output.old output.new (map (bound_line column.now) (printed_upper kind upper.now)) }
{
    match upper {
        Limit::MinusInf => {}
        Limit::Finite(value) => put_finite_upper(output, column, kind, *value),
        Limit::PlusInf => match kind {
            Kind::Integer => put_bare_bound(output, b"PL", column),
            Kind::Continuous | Kind::Semi => {}
        },
    }
}

/// Prints the lines of a lower and an upper bound, one after the other.
fn put_both<W: Sink>(
    output: &mut Output<W>,
    column: &[u8],
    kind: Kind,
    lower: &Limit,
    upper: &Limit,
)
    ensures { Prints line_text W.Sink output.old output.new (map (bound_line column.now) (printed_lower lower.now ++ printed_upper kind upper.now)) }
{
    put_lower(output, column, lower);
    put_upper(output, column, kind, upper);
}

/// Whether finite bounds are printed in one line: they have the same value, and the column is not semi-continuous. The upper
/// bound of a semi-continuous column needs its own line, which gives the type of the column.
fn is_fixed(kind: Kind, lower: Decimal, upper: Decimal) -> bool
    ensures { result ≡ is_fixed kind lower upper }
{
    match kind {
        Kind::Continuous | Kind::Integer => lower.has_same_value(upper),
        Kind::Semi => false,
    }
}

/// The value of a column whose bounds are printed in one line, if they are.
fn fixed_value(kind: Kind, lower: &Limit, upper: &Limit) -> Option<Decimal>
    ensures { result ≡ fixed_value kind lower.now upper.now }
{
    match lower {
        Limit::Finite(lower) => match upper {
            Limit::Finite(upper) => value_if_fixed(kind, *lower, *upper),
            _ => None,
        },
        _ => None,
    }
}

/// The upper bound, if both bounds are printed in one line.
fn value_if_fixed(kind: Kind, lower: Decimal, upper: Decimal) -> Option<Decimal>
    ensures { result ≡ (if is_fixed kind lower upper then Some upper else None) }
{
    if is_fixed(kind, lower, upper) {
        Some(upper)
    } else {
        None
    }
}

/// Whether neither bound is finite.
fn are_free(lower: &Limit, upper: &Limit) -> bool
    ensures { result ≡ are_free lower.now upper.now }
{
    match lower {
        Limit::MinusInf => match upper {
            Limit::PlusInf => true,
            _ => false,
        },
        _ => false,
    }
}

/// Prints the lines of the bounds of a column.
fn put_bounds_of<W: Sink>(
    output: &mut Output<W>,
    column: &[u8],
    kind: Kind,
    lower: &Limit,
    upper: &Limit,
)
    ensures { Prints line_text W.Sink output.old output.new (map (bound_line column.now) (printed_bounds kind lower.now upper.now)) }
{
    if are_free(lower, upper) {
        put_bare_bound(output, b"FR", column);
        return;
    }
    match fixed_value(kind, lower, upper) {
        Some(value) => put_valued_bound(output, b"FX", column, value),
        None => put_both(output, column, kind, lower, upper),
    }
}

/// Prints the lines of the bounds of column `j`.
fn put_bounds<W: Sink>(model: &Model, j: usize, output: &mut Output<W>)
    requires { j < num_columns model.now }
    ensures { Prints line_text W.Sink output.old output.new (lines_at column_bound_lines (entries model.now.columns) j) }
{
    let lower = model.col_lower(j);
    let upper = model.col_upper(j);
    let kind = model.column_kind(j);
    put_bounds_of(
        output,
        model.column_name(j).as_bytes(),
        kind,
        &lower,
        &upper,
    );
}

/// Prints the lines of the bounds of all columns.
fn put_all_bounds<W: Sink>(model: &Model, output: &mut Output<W>)
    ensures { Prints line_text W.Sink output.old output.new (flat_map column_bound_lines (entries model.now.columns)) }
{
    put_each(model.num_cols(), output, |j, output| {
        put_bounds(model, j, output)
    });
}

/// Prints the section BOUNDS, or nothing if every column has the bounds that it has by default.
pub(crate) fn put_mps_bounds_section<W: Sink>(model: &Model, output: &mut Output<W>)
    ensures { PrintsSection line_text W.Sink output.old output.new (bounds_section (listing_of model.now)) }
{
    output.open_section(b"BOUNDS\n");
    put_all_bounds(model, output);
    output.close_section();
}
