//! The objective of canonical LP.

ghost use Rattle.std.specs.Prelude.{◌≡◌, ◌<◌};
ghost use Rattle.std.specs.List.{flat_map};
ghost use Rattle.std.specs.FinMap.{entries};
ghost use Rattle.mpslp_model_core.specs.Views.{num_columns};
ghost use Rattle.mpslp_lp_text.specs.Printed.{line_text};
ghost use Rattle.mpslp_model_core.specs.Model.{listing_of};
ghost use Rattle.mpslp_lp_text.specs.CanonicalLp.{constant_lines, objective_section};
ghost use Rattle.mpslp_io.specs.LinesAt.{lines_at};
ghost use Rattle.mpslp_lp_write.specs.LpLinesAt.{objective_term_lines, sense_lines};
ghost use Rattle.mpslp_io.specs.Printing.{Prints, PrintsSection};

use crate::lp::lines::{put_constant_line, put_label_line, put_term_line};
use mpslp_decimal::Decimal;
use mpslp_io::{Output, put_each};
use mpslp_model::laws::each_model_is_sound;
use mpslp_model::{Model, Sense, Sink};

/// Prints the word with which the text begins.
fn put_sense<W: Sink>(sense: Sense, output: &mut Output<W>)
    ensures { PrintsSection line_text W.Sink output.old output.new (sense_lines sense) }
{
    match sense {
        Sense::Minimize => output.put(b"Minimize\n"),
        Sense::Maximize => output.put(b"Maximize\n"),
    }
}

/// Prints the term of column `j` if it is not 0, or if the column has no coefficient in a row.
fn put_objective_term<W: Sink>(model: &Model, j: usize, output: &mut Output<W>)
    requires { j < num_columns model.now }
    ensures { Prints line_text W.Sink output.old output.new (lines_at (objective_term_lines (listing_of model.now)) (entries model.now.columns) j) }
{
    each_model_is_sound(model);
    let value = model.objective_coefficient(j);
    if value.is_zero() && model.column_len(j) > 0 {
        return;
    }
    put_term_line(output, model.column_name(j).as_bytes(), value);
}

/// Prints the terms of all columns.
fn put_objective_terms<W: Sink>(model: &Model, output: &mut Output<W>)
    ensures { Prints line_text W.Sink output.old output.new (flat_map (objective_term_lines (listing_of model.now)) (entries model.now.columns)) }
{
    put_each(model.num_cols(), output, |j, output| {
        put_objective_term(model, j, output)
    });
}

/// Prints the constant of the objective, unless it is 0.
fn put_constant<W: Sink>(output: &mut Output<W>, value: Decimal)
    ensures { Prints line_text W.Sink output.old output.new (constant_lines value) }
{
    if !value.is_zero() {
        put_constant_line(output, value);
    }
}

/// Prints the objective: its sense, its name, its terms and its constant.
pub(crate) fn put_objective_section<W: Sink>(model: &Model, output: &mut Output<W>)
    ensures { PrintsSection line_text W.Sink output.old output.new (objective_section (listing_of model.now)) }
{
    put_sense(model.objective_sense(), output);
    put_label_line(output, model.objective_name().as_bytes());
    put_objective_terms(model, output);
    put_constant(output, model.objective_constant());
}
