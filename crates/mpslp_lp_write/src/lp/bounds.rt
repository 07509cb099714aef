//! The Bounds section of canonical LP.

ghost use Rattle.std.specs.Prelude.{◌≡◌, ◌<◌};
ghost use Rattle.std.specs.List.{flat_map};
ghost use Rattle.std.specs.FinMap.{entries};
ghost use Rattle.mpslp_model_core.specs.Views.{num_columns};
ghost use Rattle.mpslp_types.specs.declared.kinds.Limit.{Limit};
ghost use Rattle.mpslp_lp_text.specs.Printed.{line_text};
ghost use Rattle.mpslp_model_core.specs.Model.{listing_of};
ghost use Rattle.mpslp_lp_text.specs.CanonicalLp.{bound_lexemes, line_of_some, bound_lines, bounds_section};
ghost use Rattle.mpslp_io.specs.LinesAt.{lines_at};
ghost use Rattle.mpslp_lp_write.specs.LpLinesAt.{lines_between, lines_from};
ghost use Rattle.mpslp_io.specs.Printing.{Prints, PrintsSection};

use crate::lp::lines::{
    put_between_line, put_fixed_line, put_free_column_line, put_lower_bound_line,
    put_upper_bound_line,
};
use mpslp_decimal::Decimal;
use mpslp_io::{Output, put_each};
use mpslp_model::{Limit, Model, Sink};

/// Prints the line of two finite bounds.
fn put_between<W: Sink>(output: &mut Output<W>, column: &[u8], lower: Decimal, upper: Decimal)
    ensures { Prints line_text W.Sink output.old output.new (lines_between column.now lower upper) }
{
    if lower.has_same_value(upper) {
        put_fixed_line(output, column, upper);
    } else {
        put_between_line(output, column, lower, upper);
    }
}

/// Prints the line of a column with only a lower bound, unless it is 0.
fn put_from<W: Sink>(output: &mut Output<W>, column: &[u8], lower: Decimal)
    ensures { Prints line_text W.Sink output.old output.new (lines_from column.now lower) }
{
    if !lower.is_zero() {
        put_lower_bound_line(output, column, lower);
    }
}

/// Prints the line of the bounds of a column, unless they are 0 and plus infinity.
fn put_bounds_of<W: Sink>(output: &mut Output<W>, column: &[u8], lower: &Limit, upper: &Limit)
    ensures { Prints line_text W.Sink output.old output.new (line_of_some (bound_lexemes column.now lower.now upper.now)) }
{
    match lower {
        Limit::MinusInf => match upper {
            Limit::Finite(upper) => put_upper_bound_line(output, column, *upper),
            Limit::MinusInf | Limit::PlusInf => put_free_column_line(output, column),
        },
        Limit::Finite(lower) => match upper {
            Limit::Finite(upper) => put_between(output, column, *lower, *upper),
            Limit::MinusInf | Limit::PlusInf => put_from(output, column, *lower),
        },
        Limit::PlusInf => put_free_column_line(output, column),
    }
}

/// Prints the line of the bounds of column `j`.
fn put_bounds<W: Sink>(model: &Model, j: usize, output: &mut Output<W>)
    requires { j < num_columns model.now }
    ensures { Prints line_text W.Sink output.old output.new (lines_at bound_lines (entries model.now.columns) j) }
{
    let lower = model.col_lower(j);
    let upper = model.col_upper(j);
    let column = model.column_name(j).as_bytes();
    put_bounds_of(output, column, &lower, &upper);
}

/// Prints the lines of the bounds of all columns.
fn put_all_bounds<W: Sink>(model: &Model, output: &mut Output<W>)
    ensures { Prints line_text W.Sink output.old output.new (flat_map bound_lines (entries model.now.columns)) }
{
    put_each(model.num_cols(), output, |j, output| {
        put_bounds(model, j, output)
    });
}

/// Prints the Bounds section, or nothing if all bounds are 0 and plus infinity.
pub(crate) fn put_lp_bounds_section<W: Sink>(model: &Model, output: &mut Output<W>)
    ensures { PrintsSection line_text W.Sink output.old output.new (bounds_section (listing_of model.now)) }
{
    output.open_section(b"Bounds\n");
    put_all_bounds(model, output);
    output.close_section();
}
