//! The rows of canonical LP.

ghost use Rattle.std.specs.Prelude.{◌≡◌, ◌+◌, ◌<◌, ◌≤◌, Some, [], ◌∷◌, length, map, slice_get};
ghost use Rattle.std.specs.List.{flat_map};
ghost use Rattle.std.specs.FinMap.{entries};
ghost use Rattle.mpslp_model_core.specs.Views.{num_rows, row_name, row_columns, column_names};
ghost use Rattle.mpslp_lp_text.specs.Printed.{line_text};
ghost use Rattle.mpslp_model_core.specs.Model.{listing_of};
ghost use Rattle.mpslp_lp_text.specs.CanonicalLp.{term_line, row_terms, left_lines, last_line, row_lines, rows_section};
ghost use Rattle.mpslp_io.specs.LinesAt.{lines_at};
ghost use Rattle.mpslp_lp_write.specs.LpLinesAt.{IsTerm, AreTerms, AreNamesOf, term_lines_at, lines_of_terms, left_between, last_between};
ghost use Rattle.mpslp_io.specs.Printing.{Prints, PrintsSection};

use crate::lp::lines::{
    put_at_least_line, put_at_most_line, put_equal_line, put_free_row_line, put_label_line,
    put_left_line, put_term_line,
};
use mpslp_decimal::Decimal;
use mpslp_io::{Output, put_each};
use mpslp_model::laws::each_model_is_sound;
use mpslp_model::{Limit, Model, Sink};

/// Prints term `k` of row `i`, whose column has this name.
#[inline(always)]
fn put_term<W: Sink>(
    model: &Model,
    i: usize,
    k: usize,
    term: (usize, Decimal),
    name: &[u8],
    output: &mut Output<W>,
)
    requires row { i < num_rows model.now }
    requires term { IsTerm model.now i k term }
    requires name { slice_get (column_names model.now) term.0 ≡ Some name.now }
    ensures { Prints line_text W.Sink output.old output.new (term_lines_at model.now (row_name model.now i) k) }
{
    let (_j, value) = term;
    put_term_line(output, name, value);
}

/// How many terms are looked up before they are printed. The look-ups do not wait for one another, so that their misses of the
/// cache overlap.
const AHEAD: usize = 8;

/// The number of terms of a row up to which each is looked up when it is printed: for so few, filling [`AHEAD`] places takes longer
/// than the misses of the cache that it saves.
const FEW: usize = 3;

/// Looks up the terms of row `i` from number `from` on. Places at which there is no term keep their values.
fn look_up_terms(model: &Model, i: usize, from: usize, terms: &mut [(usize, Decimal); AHEAD])
    requires row { i < num_rows model.now }
    requires within { from ≤ length (row_columns model.now (row_name model.now i)) }
    ensures { AreTerms model.now i from AHEAD terms.new }
{
    let count = AHEAD.min(model.row_len(i) - from);
    for n in 0..count {
        terms[n] = model.row_entry(i, from + n);
    }
}

/// The name of the column of term `from + n` of row `i`, which is this one. Empty if there is no such term.
#[inline(always)]
fn name_of(model: &Model, i: usize, from: usize, n: usize, term: (usize, Decimal)) -> &[u8]
    requires row { i < num_rows model.now }
    requires within { from ≤ length (row_columns model.now (row_name model.now i)) }
    requires term { from + n < length (row_columns model.now (row_name model.now i)) → IsTerm model.now i (from + n) term }
    ensures { from + n < length (row_columns model.now (row_name model.now i)) → slice_get (column_names model.now) term.0 ≡ Some result.now }
{
    if n >= model.row_len(i) - from {
        return &[];
    }
    model.column_name(term.0).as_bytes()
}

/// The names of the columns of these terms of row `i`, which are those from number `from` on.
#[inline(always)]
fn names_of<'a>(
    model: &'a Model,
    i: usize,
    from: usize,
    terms: &[(usize, Decimal); AHEAD],
) -> [&'a [u8]; AHEAD]
    requires row { i < num_rows model.now }
    requires within { from ≤ length (row_columns model.now (row_name model.now i)) }
    requires terms { AreTerms model.now i from AHEAD terms.now }
    ensures { AreNamesOf model.now i from AHEAD terms.now result }
{
    [
        name_of(model, i, from, 0, terms[0]),
        name_of(model, i, from, 1, terms[1]),
        name_of(model, i, from, 2, terms[2]),
        name_of(model, i, from, 3, terms[3]),
        name_of(model, i, from, 4, terms[4]),
        name_of(model, i, from, 5, terms[5]),
        name_of(model, i, from, 6, terms[6]),
        name_of(model, i, from, 7, terms[7]),
    ]
}

/// Prints the terms of row `i`, each of which is looked up when it is printed.
fn put_few_terms<W: Sink>(model: &Model, i: usize, output: &mut Output<W>)
    requires { i < num_rows model.now }
    ensures { Prints line_text W.Sink output.old output.new (lines_of_terms model.now (row_name model.now i)) }
{
    for k in 0..model.row_len(i) {
        let term = model.row_entry(i, k);
        let column = model.column_name(term.0).as_bytes();
        put_term(model, i, k, term, column, output);
    }
}

/// Prints the terms of row `i`, of which [`AHEAD`] are looked up together.
fn put_many_terms<W: Sink>(model: &Model, i: usize, output: &mut Output<W>)
    requires { i < num_rows model.now }
    ensures { Prints line_text W.Sink output.old output.new (lines_of_terms model.now (row_name model.now i)) }
{
    let mut from = 0;
    let mut terms = [(0usize, Decimal::zero()); AHEAD];
    look_up_terms(model, i, from, &mut terms);
    let mut names = names_of(model, i, from, &terms);
    for k in 0..model.row_len(i) {
        if k - from == AHEAD {
            from = k;
            look_up_terms(model, i, from, &mut terms);
            names = names_of(model, i, from, &terms);
        }
        put_term(model, i, k, terms[k - from], names[k - from], output);
    }
}

/// Prints the terms of row `i`.
fn put_terms<W: Sink>(model: &Model, i: usize, output: &mut Output<W>)
    requires { i < num_rows model.now }
    ensures { Prints line_text W.Sink output.old output.new (lines_of_terms model.now (row_name model.now i)) }
{
    if model.row_len(i) <= FEW {
        put_few_terms(model, i, output);
    } else {
        put_many_terms(model, i, output);
    }
}

/// Prints the terms of row `i`. A row without terms gets the first column with coefficient 0.
fn put_row_terms<W: Sink>(model: &Model, i: usize, output: &mut Output<W>)
    requires { i < num_rows model.now }
    ensures { Prints line_text W.Sink output.old output.new (map term_line (row_terms (listing_of model.now) (row_name model.now i))) }
{
    each_model_is_sound(model);
    put_terms(model, i, output);
    if model.row_len(i) == 0 {
        let first = model.column_name(0).as_bytes();
        put_term_line(output, first, Decimal::zero());
    }
}

/// Prints the lower limit of a ranged row. Prints nothing if both limits are equal.
fn put_left_between<W: Sink>(output: &mut Output<W>, lower: Decimal, upper: Decimal)
    ensures { Prints line_text W.Sink output.old output.new (left_between lower upper) }
{
    if !lower.has_same_value(upper) {
        put_left_line(output, lower);
    }
}

/// Prints what comes before the terms of a row: the lower limit of a ranged row.
fn put_left_limit<W: Sink>(output: &mut Output<W>, lower: &Limit, upper: &Limit)
    ensures { Prints line_text W.Sink output.old output.new (left_lines lower.now upper.now) }
{
    match lower {
        Limit::Finite(lower) => match upper {
            Limit::Finite(upper) => put_left_between(output, *lower, *upper),
            Limit::MinusInf | Limit::PlusInf => {}
        },
        Limit::MinusInf | Limit::PlusInf => {}
    }
}

/// Prints the upper limit of a row, or the right-hand side if both limits are equal.
fn put_last_between<W: Sink>(output: &mut Output<W>, lower: Decimal, upper: Decimal)
    ensures { Prints line_text W.Sink output.old output.new (last_between lower upper) }
{
    if lower.has_same_value(upper) {
        put_equal_line(output, upper);
    } else {
        put_at_most_line(output, upper);
    }
}

/// Prints what comes after the terms of a row: its upper limit, or else its lower limit. A row without limits is printed as
/// at least -1e20.
fn put_last_limit<W: Sink>(output: &mut Output<W>, lower: &Limit, upper: &Limit)
    ensures { Prints line_text W.Sink output.old output.new (last_line lower.now upper.now ∷ []) }
{
    match lower {
        Limit::Finite(lower) => match upper {
            Limit::Finite(upper) => put_last_between(output, *lower, *upper),
            Limit::MinusInf | Limit::PlusInf => put_at_least_line(output, *lower),
        },
        Limit::MinusInf | Limit::PlusInf => match upper {
            Limit::Finite(upper) => put_at_most_line(output, *upper),
            Limit::MinusInf | Limit::PlusInf => put_free_row_line(output),
        },
    }
}

/// Prints row `i`.
fn put_row<W: Sink>(model: &Model, i: usize, output: &mut Output<W>)
    requires { i < num_rows model.now }
    ensures { Prints line_text W.Sink output.old output.new (lines_at (row_lines (listing_of model.now)) (entries model.now.rows) i) }
{
    let lower = model.row_lower(i);
    let upper = model.row_upper(i);
    put_label_line(output, model.row_name_bytes(i));
    put_left_limit(output, &lower, &upper);
    put_row_terms(model, i, output);
    put_last_limit(output, &lower, &upper);
}

/// Prints all rows.
fn put_rows<W: Sink>(model: &Model, output: &mut Output<W>)
    ensures { Prints line_text W.Sink output.old output.new (flat_map (row_lines (listing_of model.now)) (entries model.now.rows)) }
{
    put_each(model.num_rows(), output, |i, output| {
        put_row(model, i, output)
    });
}

/// Prints the rows and their heading.
pub(crate) fn put_lp_rows_section<W: Sink>(model: &Model, output: &mut Output<W>)
    ensures { PrintsSection line_text W.Sink output.old output.new (rows_section (listing_of model.now)) }
{
    output.put(b"Subject To\n");
    put_rows(model, output);
}
