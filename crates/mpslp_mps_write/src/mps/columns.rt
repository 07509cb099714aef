//! The section COLUMNS.

ghost use Rattle.std.specs.Prelude.{◌≡◌, ◌+◌, ◌<◌, ◌≤◌, [], ◌∷◌, length};
ghost use Rattle.std.specs.FinMap.{entries};
ghost use Rattle.mpslp_model_core.specs.Views.{num_columns, column_name, column_elements};
ghost use Rattle.mpslp_mps_text.specs.CanonicalMps.{line_text, column_lines, columns_section, integer_part};
ghost use Rattle.mpslp_model_core.specs.Model.{listing_of};
ghost use Rattle.mpslp_io.specs.LinesAt.{lines_at};
ghost use Rattle.mpslp_mps_write.specs.MpsLinesAt.{is_wanted, of_part, lines_of_part, element_lines_at, lines_of_elements, IsRowOf, AreRowsOf, objective_lines};
ghost use Rattle.mpslp_io.specs.Printing.{Prints, PrintsSection};

use crate::mps::lines::put_value_line;
use mpslp_io::{Output, put_each};
use mpslp_model::laws::each_model_is_sound;
use mpslp_model::{Model, Sink};

/// The parts of COLUMNS, in this order.
#[derive(Clone, Copy)]
enum Part {
    /// The columns that are not integer.
    Plain,
    /// The integer columns, between marker lines.
    Integers,
}

/// How many rows are looked up before their lines are printed. The look-ups do not wait for one another, so that their misses of
/// the cache overlap.
const AHEAD: usize = 8;

/// The number of coefficients of a column up to which each row is looked up when its line is printed: for so few, filling [`AHEAD`]
/// places takes longer than the misses of the cache that it saves.
const FEW: usize = 3;

/// The name of the row of coefficient `from + n` of column `j`, among its coefficients in rows. Empty if there is none.
fn row_of_coefficient(model: &Model, j: usize, from: usize, n: usize) -> &[u8]
    requires column { j < num_columns model.now }
    requires within { from ≤ length (column_elements model.now (column_name model.now j)) }
    ensures { from + n < length (column_elements model.now (column_name model.now j)) → IsRowOf model.now j (from + n) result.now }
{
    if n >= model.column_len(j) - from {
        return &[];
    }
    let (i, _value) = model.entry(j, from + n);
    model.row_name_bytes(i)
}

/// The names of the rows of the coefficients of column `j` in rows, from number `from` on.
fn rows_from(model: &Model, j: usize, from: usize) -> [&[u8]; AHEAD]
    requires column { j < num_columns model.now }
    requires within { from ≤ length (column_elements model.now (column_name model.now j)) }
    ensures { AreRowsOf model.now j from AHEAD result }
{
    [
        row_of_coefficient(model, j, from, 0),
        row_of_coefficient(model, j, from, 1),
        row_of_coefficient(model, j, from, 2),
        row_of_coefficient(model, j, from, 3),
        row_of_coefficient(model, j, from, 4),
        row_of_coefficient(model, j, from, 5),
        row_of_coefficient(model, j, from, 6),
        row_of_coefficient(model, j, from, 7),
    ]
}

/// Prints the line of coefficient `k` of column `j`, among its coefficients in rows.
#[inline(always)]
fn put_element<W: Sink>(model: &Model, j: usize, k: usize, row: &[u8], output: &mut Output<W>)
    requires column { j < num_columns model.now }
    requires element { k < length (column_elements model.now (column_name model.now j)) }
    requires row { IsRowOf model.now j k row.now }
    ensures { Prints line_text W.Sink output.old output.new (element_lines_at model.now (column_name model.now j) k) }
{
    let (_i, value) = model.entry(j, k);
    put_value_line(output, model.column_name(j).as_bytes(), row, value);
}

/// Prints the lines of the coefficients of column `j` in rows, each of which is looked up when its line is printed.
fn put_few_elements<W: Sink>(model: &Model, j: usize, output: &mut Output<W>)
    requires { j < num_columns model.now }
    ensures { Prints line_text W.Sink output.old output.new (lines_of_elements model.now (column_name model.now j)) }
{
    for k in 0..model.column_len(j) {
        put_element(model, j, k, row_of_coefficient(model, j, 0, k), output);
    }
}

/// Prints the lines of the coefficients of column `j` in rows, of which [`AHEAD`] are looked up together.
fn put_many_elements<W: Sink>(model: &Model, j: usize, output: &mut Output<W>)
    requires { j < num_columns model.now }
    ensures { Prints line_text W.Sink output.old output.new (lines_of_elements model.now (column_name model.now j)) }
{
    let mut from = 0;
    let mut rows = rows_from(model, j, from);
    for k in 0..model.column_len(j) {
        if k - from == AHEAD {
            from = k;
            rows = rows_from(model, j, from);
        }
        put_element(model, j, k, rows[k - from], output);
    }
}

/// Prints the lines of the coefficients of column `j` in rows.
fn put_elements<W: Sink>(model: &Model, j: usize, output: &mut Output<W>)
    requires { j < num_columns model.now }
    ensures { Prints line_text W.Sink output.old output.new (lines_of_elements model.now (column_name model.now j)) }
{
    if model.column_len(j) <= FEW {
        put_few_elements(model, j, output);
    } else {
        put_many_elements(model, j, output);
    }
}

/// Prints the line of the objective in column `j` if it is not 0, or if the column has no coefficient in a row.
fn put_objective_coefficient<W: Sink>(model: &Model, j: usize, output: &mut Output<W>)
    requires { j < num_columns model.now }
    ensures { Prints line_text W.Sink output.old output.new (objective_lines model.now (column_name model.now j)) }
{
    let value = model.objective_coefficient(j);
    if value.is_zero() && model.column_len(j) > 0 {
        return;
    }
    let objective = model.objective_name().as_bytes();
    put_value_line(output, model.column_name(j).as_bytes(), objective, value);
}

/// Prints the lines of column `j`: the objective, and then the rows.
fn put_column<W: Sink>(model: &Model, j: usize, output: &mut Output<W>)
    requires { j < num_columns model.now }
    ensures { Prints line_text W.Sink output.old output.new (lines_at (column_lines (listing_of model.now)) (entries model.now.columns) j) }
{
    each_model_is_sound(model);
    put_objective_coefficient(model, j, output);
    put_elements(model, j, output);
}

/// Whether the part contains the column, by whether the column is integer.
fn is_wanted(part: Part, is_integer: bool) -> bool
    ensures { result ≡ is_wanted part is_integer }
{
    match part {
        Part::Plain => !is_integer,
        Part::Integers => is_integer,
    }
}

/// Prints the lines of column `j`, if it is in the part.
fn put_column_of_part<W: Sink>(model: &Model, j: usize, part: Part, output: &mut Output<W>)
    requires { j < num_columns model.now }
    ensures { Prints line_text W.Sink output.old output.new (lines_at (of_part part (column_lines (listing_of model.now))) (entries model.now.columns) j) }
{
    if is_wanted(part, model.is_integer(j)) {
        put_column(model, j, output);
    }
}

/// Prints the lines of all columns of the part.
fn put_columns<W: Sink>(model: &Model, part: Part, output: &mut Output<W>)
    ensures { Prints line_text W.Sink output.old output.new (lines_of_part model.now part) }
{
    put_each(model.num_cols(), output, |j, output| {
        put_column_of_part(model, j, part, output)
    });
}

/// Prints the lines of the integer columns between marker lines, or nothing if no column is integer.
fn put_integer_part<W: Sink>(model: &Model, output: &mut Output<W>)
    ensures { PrintsSection line_text W.Sink output.old output.new (integer_part (lines_of_part model.now Part.Integers)) }
{
    output.open_section(b"    MARKER  'MARKER'  'INTORG'\n");
    put_columns(model, Part::Integers, output);
    if output.close_section() {
        output.put(b"    MARKER  'MARKER'  'INTEND'\n");
    }
}

/// Prints the section COLUMNS: the columns that are not integer, and then the integer ones between marker lines.
pub(crate) fn put_columns_section<W: Sink>(model: &Model, output: &mut Output<W>)
    ensures { PrintsSection line_text W.Sink output.old output.new (columns_section (listing_of model.now)) }
{
    output.put(b"COLUMNS\n");
    put_columns(model, Part::Plain, output);
    put_integer_part(model, output);
}
