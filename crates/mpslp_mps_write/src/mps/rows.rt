//! The sections of rows: ROWS, RHS and RANGES.

ghost use Rattle.std.specs.Prelude.{◌≡◌, ◌<◌, [], ◌∷◌, Some, slice_get};
ghost use Rattle.std.specs.List.{flat_map};
ghost use Rattle.std.specs.Option.{option_map};
ghost use Rattle.std.specs.FinMap.{entries};
ghost use Rattle.mpslp_model_core.specs.Views.{num_rows, rows_of};
ghost use Rattle.mpslp_mps_text.specs.CanonicalMps.{line_text, row_line, rhs_lines, row_rhs_lines, range_lines, rows_section, rhs_section, ranges_section};
ghost use Rattle.mpslp_mps_text.specs.PrintedValues.{printed_rhs};
ghost use Rattle.mpslp_model_core.specs.Model.{listing_of};
ghost use Rattle.mpslp_io.specs.LinesAt.{lines_at};
ghost use Rattle.mpslp_mps_write.specs.MpsLinesAt.{printed_letter};
ghost use Rattle.mpslp_io.specs.Printing.{Prints, PrintsSection};

use crate::mps::lines::{put_short_line, put_value_line};
use mpslp_decimal::Decimal;
use mpslp_io::{Output, put_each};
use mpslp_model::laws::each_model_is_sound;
use mpslp_model::{Limit, Model, Sink};

/// The letter of a row in ROWS. A ranged row is G, and has an entry in RANGES.
fn printed_letter(sense: u8) -> u8
    ensures { result ≡ printed_letter sense }
{
    if sense == b'R' { b'G' } else { sense }
}

/// Prints the line of row `i` in ROWS.
fn put_row<W: Sink>(model: &Model, i: usize, output: &mut Output<W>)
    requires { i < num_rows model.now }
    ensures { Prints line_text W.Sink output.old output.new (lines_at (λ row. row_line row ∷ []) (entries model.now.rows) i) }
{
    each_model_is_sound(model);
    let letter = printed_letter(model.row_sense(i));
    put_short_line(output, [letter].as_slice(), model.row_name_bytes(i));
}

/// Prints the lines of all rows in ROWS.
fn put_rows<W: Sink>(model: &Model, output: &mut Output<W>)
    ensures { Prints line_text W.Sink output.old output.new (flat_map (λ row. row_line row ∷ []) (entries model.now.rows)) }
{
    put_each(model.num_rows(), output, |i, output| {
        put_row(model, i, output)
    });
}

/// Prints the section ROWS: the objective, and then the rows.
pub(crate) fn put_mps_rows_section<W: Sink>(model: &Model, output: &mut Output<W>)
    ensures { PrintsSection line_text W.Sink output.old output.new (rows_section (listing_of model.now)) }
{
    output.put(b"ROWS\n");
    put_short_line(output, b"N", model.objective_name().as_bytes());
    put_rows(model, output);
}

/// The right-hand side that is printed for row `i`: its lower limit if that is finite, or else its right-hand side.
fn rhs_at(model: &Model, i: usize) -> Decimal
    requires { i < num_rows model.now }
    ensures { option_map (λ row. printed_rhs row.lower row.upper) (slice_get (rows_of model.now) i) ≡ Some result }
{
    match model.row_lower(i) {
        Limit::Finite(lower) => lower,
        _ => model.right_hand_side(i),
    }
}

/// Prints the line of a right-hand side, unless it is 0.
fn put_rhs_line<W: Sink>(output: &mut Output<W>, row: &[u8], value: Decimal)
    ensures { Prints line_text W.Sink output.old output.new (rhs_lines row.now value) }
{
    if !value.is_zero() {
        put_value_line(output, b"RHS", row, value);
    }
}

/// Prints the right-hand side of row `i`.
fn put_row_rhs<W: Sink>(model: &Model, i: usize, output: &mut Output<W>)
    requires { i < num_rows model.now }
    ensures { Prints line_text W.Sink output.old output.new (lines_at row_rhs_lines (entries model.now.rows) i) }
{
    let side = rhs_at(model, i);
    put_rhs_line(output, model.row_name_bytes(i), side);
}

/// Prints the right-hand sides of all rows.
fn put_all_rhs<W: Sink>(model: &Model, output: &mut Output<W>)
    ensures { Prints line_text W.Sink output.old output.new (flat_map row_rhs_lines (entries model.now.rows)) }
{
    put_each(model.num_rows(), output, |i, output| {
        put_row_rhs(model, i, output)
    });
}

/// Prints the section RHS: the negated constant of the objective, and then the right-hand sides of the rows, unless they are
/// 0. If all are 0, prints nothing.
pub(crate) fn put_rhs_section<W: Sink>(model: &Model, output: &mut Output<W>)
    ensures { PrintsSection line_text W.Sink output.old output.new (rhs_section (listing_of model.now)) }
{
    output.open_section(b"RHS\n");
    let objective = model.objective_name().as_bytes();
    put_rhs_line(output, objective, model.objective_offset());
    put_all_rhs(model, output);
    output.close_section();
}

/// Prints the range of row `i`, unless it is 0.
fn put_range_line<W: Sink>(model: &Model, i: usize, output: &mut Output<W>)
    requires { i < num_rows model.now }
    ensures { Prints line_text W.Sink output.old output.new (lines_at range_lines (entries model.now.rows) i) }
{
    let range = model.row_range(i);
    if !range.is_zero() {
        put_value_line(output, b"RNG", model.row_name_bytes(i), range);
    }
}

/// Prints the ranges of all rows.
fn put_ranges<W: Sink>(model: &Model, output: &mut Output<W>)
    ensures { Prints line_text W.Sink output.old output.new (flat_map range_lines (entries model.now.rows)) }
{
    put_each(model.num_rows(), output, |i, output| {
        put_range_line(model, i, output)
    });
}

/// Prints the section RANGES, or nothing if no row has a range.
pub(crate) fn put_ranges_section<W: Sink>(model: &Model, output: &mut Output<W>)
    ensures { PrintsSection line_text W.Sink output.old output.new (ranges_section (listing_of model.now)) }
{
    output.open_section(b"RANGES\n");
    put_ranges(model, output);
    output.close_section();
}
