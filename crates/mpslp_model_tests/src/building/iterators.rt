//! Tests of the iterators of models.

use super::calls::built;
use super::{Shown, TWO_OF_THREE, model_of};
use mpslp_decimal::DecimalText;
use mpslp_model_core::Model;
use mpslp_types::{BuildFault, Kind};
use std::alloc::{AllocError, Global};
use std::test::Fail;

/// What the iterators return for the model.
const VISITED: &str = "\
row r -inf 5
row s 0 inf
term a 1
term c 3
term b 2
term c 4
column a continuous 0 inf
column b integer 0 inf
column c continuous 0 inf
entry r 1
entry s 2
entry r 3
entry s 4
";

impl Shown {
    fn put_rows(&mut self, model: &Model) -> Result<(), AllocError> {
        for (name, limits) in model.rows() {
            self.put_name("row ", name.as_bytes())?;
            self.put_limit(limits.lower)?;
            self.put_limit(limits.upper)?;
            self.put(b"\n".as_slice())?;
        }
        Ok(())
    }

    fn put_columns(&mut self, model: &Model) -> Result<(), AllocError> {
        for (name, bounds) in model.columns() {
            let kind: &[u8] = match bounds.kind {
                Kind::Continuous => b" continuous",
                Kind::Integer => b" integer",
                Kind::Semi => b" semi",
            };
            self.put_name("column ", name.as_bytes())?;
            self.put(kind)?;
            self.put_limit(bounds.lower)?;
            self.put_limit(bounds.upper)?;
            self.put(b"\n".as_slice())?;
        }
        Ok(())
    }

    fn put_entries_of_row(&mut self, model: &Model, i: usize) -> Result<(), AllocError> {
        if i >= model.num_rows() {
            return Ok(());
        }
        for (j, value) in model.row_entries(i) {
            if j < model.num_cols() {
                self.put_name("term ", model.column_name(j).as_bytes())?;
                self.put_number(" ", value)?;
                self.put(b"\n".as_slice())?;
            }
        }
        Ok(())
    }

    fn put_entries_of_column(&mut self, model: &Model, j: usize) -> Result<(), AllocError> {
        if j >= model.num_cols() {
            return Ok(());
        }
        for (i, value) in model.column_entries(j) {
            if i < model.num_rows() {
                self.put_name("entry ", model.row_name_bytes(i))?;
                self.put_number(" ", value)?;
                self.put(b"\n".as_slice())?;
            }
        }
        Ok(())
    }

    fn put_visited(&mut self, model: &Model) -> Result<(), AllocError> {
        self.put_rows(model)?;
        for i in 0..model.num_rows() {
            self.put_entries_of_row(model, i)?;
        }
        self.put_columns(model)?;
        for j in 0..model.num_cols() {
            self.put_entries_of_column(model, j)?;
        }
        Ok(())
    }
}

/// What the iterators of a model return, as lines of words.
fn visited_of(alloc: Global, model: &Model) -> Result<Vec<u8>, AllocError> {
    let mut shown = Shown {
        text: Vec::new(alloc),
        number: DecimalText::new(),
    };
    shown.put_visited(model)?;
    Ok(shown.text)
}

/// The same for a model that may not be there.
fn visited_if_any(alloc: Global, model: &Option<Model>) -> Result<Vec<u8>, AllocError> {
    match model {
        Some(model) => visited_of(alloc, model),
        None => Ok(Vec::new(alloc)),
    }
}

/// The model of the calls, without lists by rows.
fn by_columns(alloc: Global) -> Result<Option<Model>, BuildFault> {
    let builder = built(alloc, TWO_OF_THREE)?;
    if !builder.has_objective() {
        return Ok(None);
    }
    Ok(builder.finish_by_columns().ok())
}

/// Whether the iterators return what is expected for this model.
fn is_visited(alloc: Global, model: &Option<Model>) -> Result<bool, AllocError> {
    let visited = visited_if_any(alloc, model)?;
    Ok(visited.as_slice() == VISITED.as_bytes())
}

/// Whether the iterators return what is expected for the model with lists by rows, and without.
fn are_visited(alloc: Global) -> Result<(bool, bool), BuildFault> {
    let with_lists = model_of(alloc, TWO_OF_THREE)?;
    let without_lists = by_columns(alloc)?;
    Ok((
        is_visited(alloc, &with_lists)?,
        is_visited(alloc, &without_lists)?,
    ))
}

#[test]
fn iterators_visit_all_in_order(rt: HostRuntime) -> Result<(), Fail> {
    assert_eq!(rt; are_visited(rt.alloc())?, (true, true));
    Ok(())
}

/// How many rows and columns are left before the first is visited, and after it.
fn left_in(model: &Model) -> [usize; 4] {
    let mut rows = model.rows();
    let mut columns = model.columns();
    let before = (rows.len(), columns.len());
    let _row = rows.next();
    let _column = columns.next();
    [before.0, rows.len(), before.1, columns.len()]
}

/// How many coefficients of the last row and of the last column are left before the first is visited, and after it.
fn entries_left_in(model: &Model) -> [usize; 4] {
    if model.num_rows() < 2 || model.num_cols() < 3 {
        return [0; 4];
    }
    let mut of_row = model.row_entries(1);
    let mut of_column = model.column_entries(2);
    let before = (of_row.len(), of_column.len());
    let _first = of_row.next();
    let _first = of_column.next();
    [before.0, of_row.len(), before.1, of_column.len()]
}

/// The numbers of `left_in` and `entries_left_in` for the model of the calls.
fn left(alloc: Global) -> Result<([usize; 4], [usize; 4]), BuildFault> {
    match model_of(alloc, TWO_OF_THREE)? {
        Some(model) => Ok((left_in(&model), entries_left_in(&model))),
        None => Ok(([0; 4], [0; 4])),
    }
}

#[test]
fn iterators_count_what_is_left(rt: HostRuntime) -> Result<(), Fail> {
    let (lines, entries) = left(rt.alloc())?;
    assert_eq!(rt; lines, [2, 1, 3, 2]);
    assert_eq!(rt; entries, [2, 1, 2, 1]);
    Ok(())
}

/// Whether both bounds are this number.
fn are_exactly(bounds: (usize, Option<usize>), count: usize) -> bool {
    match bounds {
        (least, Some(most)) => least == count && most == count,
        (_, None) => false,
    }
}

/// Whether the bounds of the rows and columns that are left are exact, before the first is visited.
fn are_lines_exact(model: &Model) -> bool {
    are_exactly(model.rows().size_hint(), 2) && are_exactly(model.columns().size_hint(), 3)
}

/// Whether the bounds of the coefficients of the last row and of the last column that are left are exact, after the first is
/// visited.
fn are_entries_exact(model: &Model) -> bool {
    if model.num_rows() < 2 || model.num_cols() < 3 {
        return false;
    }
    let mut of_row = model.row_entries(1);
    let mut of_column = model.column_entries(2);
    let _first = of_row.next();
    let _first = of_column.next();
    are_exactly(of_row.size_hint(), 1) && are_exactly(of_column.size_hint(), 1)
}

/// The same for the model of the calls.
fn are_exact(alloc: Global) -> Result<(bool, bool), BuildFault> {
    match model_of(alloc, TWO_OF_THREE)? {
        Some(model) => Ok((are_lines_exact(&model), are_entries_exact(&model))),
        None => Ok((false, false)),
    }
}

#[test]
fn iterators_have_exact_bounds(rt: HostRuntime) -> Result<(), Fail> {
    assert_eq!(rt; are_exact(rt.alloc())?, (true, true));
    Ok(())
}

/// The names of the integer columns, one on each line.
fn names_of_integers(alloc: Global, model: &Model) -> Result<Vec<u8>, AllocError> {
    let mut names = Vec::new(alloc);
    for (name, bounds) in model.columns() {
        if let Kind::Integer = bounds.kind {
            names.extend_from_slice(name.as_bytes())?;
            names.push(b'\n')?;
        }
    }
    Ok(names)
}

/// Whether the model of the calls has one integer column, which is named b.
fn has_one_integer(alloc: Global) -> Result<bool, BuildFault> {
    match model_of(alloc, TWO_OF_THREE)? {
        Some(model) => Ok(names_of_integers(alloc, &model)?.as_slice() == b"b\n".as_slice()),
        None => Ok(false),
    }
}

#[test]
fn iterators_find_integer_columns(rt: HostRuntime) -> Result<(), Fail> {
    assert!(rt; has_one_integer(rt.alloc())?);
    Ok(())
}
