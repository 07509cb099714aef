//! Which models LP can express: those whose names are all LP names.

ghost use Rattle.std.specs.Prelude.{◌≡◌};
ghost use Rattle.mpslp_model_core.specs.Views.{row_names, column_names};
ghost use Rattle.mpslp_lp_text.specs.Unfit.{first_unfit, unfit};

use mpslp_model::{Model, NameAt};

/// The index of the first row whose name is not an LP name.
fn first_unfit_row(model: &Model) -> Option<usize>
    ensures { result ≡ first_unfit (row_names model.now) }
{
    for i in 0..model.num_rows() {
        if !model.row_name(i).is_lp() {
            return Some(i);
        }
    }
    None
}

/// The index of the first column whose name is not an LP name.
fn first_unfit_column(model: &Model) -> Option<usize>
    ensures { result ≡ first_unfit (column_names model.now) }
{
    for j in 0..model.num_cols() {
        if !model.column_name(j).is_lp() {
            return Some(j);
        }
    }
    None
}

/// The place of the first name of a model that is not an LP name, if there is one: the objective, or else the first such
/// row, or else the first such column. Each name is checked at most once. Does not allocate.
pub fn first_unfit_name(model: &Model) -> Option<NameAt>
    ensures { result ≡ unfit model.now }
{
    if !model.objective_name().is_lp() {
        return Some(NameAt::Objective);
    }
    match first_unfit_row(model) {
        Some(i) => Some(NameAt::Row(i)),
        None => first_unfit_column(model).map(NameAt::Column),
    }
}
