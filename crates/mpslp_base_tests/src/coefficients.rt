//! Tests of the coefficients of all columns during building.

use mpslp_builder_parts::{ColumnTable, Inserted};
use mpslp_decimal::Decimal;
use mpslp_types::{FIXED_SEED, Name};
use std::alloc::{AllocError, Global};
use std::test::Fail;

/// The number of a literal, or 0 if it is none.
fn number(literal: &str) -> Decimal {
    match Decimal::parse(literal.as_bytes()) {
        Ok(value) => value,
        Err(_) => Decimal::zero(),
    }
}

/// Adds a column of this name, unless there is one.
fn add_column(table: &mut ColumnTable, alloc: Global, name: &str) -> Result<(), Fail> {
    table.insert(Name::new(alloc, name.as_bytes())?)?;
    Ok(())
}

/// The columns x, y and z without coefficients.
fn three_columns(alloc: Global) -> Result<ColumnTable, Fail> {
    let mut table = ColumnTable::new(alloc, FIXED_SEED);
    add_column(&mut table, alloc, "x")?;
    add_column(&mut table, alloc, "y")?;
    add_column(&mut table, alloc, "z")?;
    Ok(table)
}

/// Puts a coefficient, unless the column is not there or has one of this row. Returns whether it was put.
fn put(
    table: &mut ColumnTable,
    column: usize,
    row: u32,
    literal: &str,
) -> Result<bool, AllocError> {
    if table.name_at(column).is_none() {
        return Ok(false);
    }
    table.put_if_free(column, row, number(literal))
}

/// The columns with coefficients of these pairs of a column and a row, put in turn.
fn of_pairs(alloc: Global, pairs: &[(usize, u32)]) -> Result<ColumnTable, Fail> {
    let mut table = three_columns(alloc)?;
    for (column, row) in pairs {
        put(&mut table, *column, *row, "1")?;
    }
    Ok(table)
}

/// Whether a column has coefficients of the rows 0 to 4.
fn rows_of(table: &ColumnTable, column: usize) -> [bool; 5] {
    [
        table.has_cell(column, 0),
        table.has_cell(column, 1),
        table.has_cell(column, 2),
        table.has_cell(column, 3),
        table.has_cell(column, 4),
    ]
}

/// The same for the columns x, y and z, and for one that is not there.
fn presence(table: &ColumnTable) -> [[bool; 5]; 4] {
    [
        rows_of(table, 0),
        rows_of(table, 1),
        rows_of(table, 2),
        rows_of(table, 3),
    ]
}

/// The same after these coefficients were put in turn.
fn presence_of(alloc: Global, pairs: &[(usize, u32)]) -> Result<[[bool; 5]; 4], Fail> {
    Ok(presence(&of_pairs(alloc, pairs)?))
}

/// No rows.
const NONE: [bool; 5] = [false; 5];

/// The rows 1 and 3.
const ODD: [bool; 5] = [false, true, false, true, false];

/// The rows 0 and 2.
const EVEN: [bool; 5] = [true, false, true, false, false];

#[test]
fn keeps_few_coefficients(rt: HostRuntime) -> Result<(), Fail> {
    let empty = presence_of(rt.alloc(), &[])?;
    assert_eq!(rt; empty, [NONE; 4]);
    let one = presence_of(rt.alloc(), &[(1, 4)])?;
    assert_eq!(rt; one, [NONE, [false, false, false, false, true], NONE, NONE]);
    let two = presence_of(rt.alloc(), &[(2, 3), (2, 1)])?;
    assert_eq!(rt; two, [NONE, NONE, ODD, NONE]);
    Ok(())
}

#[test]
fn keeps_coefficients_column_by_column(rt: HostRuntime) -> Result<(), Fail> {
    let rising = [(0, 1), (0, 3), (1, 0), (1, 2), (2, 1), (2, 3)];
    let rows = presence_of(rt.alloc(), &rising)?;
    assert_eq!(rt; rows, [ODD, EVEN, ODD, NONE]);
    let falling = [(2, 2), (2, 0), (0, 3), (0, 1), (1, 2), (1, 0)];
    let rows = presence_of(rt.alloc(), &falling)?;
    assert_eq!(rt; rows, [ODD, EVEN, EVEN, NONE]);
    Ok(())
}

#[test]
fn keeps_coefficients_row_by_row(rt: HostRuntime) -> Result<(), Fail> {
    let rising = [(1, 0), (2, 0), (0, 1), (1, 2), (2, 2), (0, 3)];
    let rows = presence_of(rt.alloc(), &rising)?;
    assert_eq!(rt; rows, [ODD, EVEN, EVEN, NONE]);
    let falling = [(2, 3), (0, 3), (1, 2), (2, 1), (0, 1), (1, 0)];
    let rows = presence_of(rt.alloc(), &falling)?;
    assert_eq!(rt; rows, [ODD, EVEN, ODD, NONE]);
    Ok(())
}

/// Whether each of three coefficients of x was put, of which the last one is in the row of the first one, and whether the last one of x
/// is in row 2.
fn put_twice(alloc: Global) -> Result<([bool; 3], bool), Fail> {
    let mut table = three_columns(alloc)?;
    let first = put(&mut table, 0, 1, "1")?;
    let second = put(&mut table, 0, 2, "2")?;
    let third = put(&mut table, 0, 1, "3")?;
    Ok(([first, second, third], table.is_last_row(0, 2)))
}

#[test]
fn coefficient_is_put_once(rt: HostRuntime) -> Result<(), Fail> {
    let (were_put, is_last) = put_twice(rt.alloc())?;
    assert_eq!(rt; were_put, [true, true, false]);
    assert_eq!(rt; is_last, true);
    Ok(())
}

/// The number of a column that had its name already.
fn number_if_there(inserted: Inserted) -> Option<usize> {
    match inserted {
        Inserted::New(_number) => None,
        Inserted::There(number) => Some(number),
    }
}

/// The number of y, which is there with a coefficient, when it is added once more, and the rows of each column after that.
fn added_again(alloc: Global) -> Result<(Option<usize>, [[bool; 5]; 4]), Fail> {
    let mut table = of_pairs(alloc, &[(1, 4)])?;
    let inserted = table.insert(Name::new(alloc, b"y".as_slice())?)?;
    Ok((number_if_there(inserted), presence(&table)))
}

/// The number of w, which is not there, when it is added after three columns, and again if it was there.
fn added_last(alloc: Global) -> Result<(usize, Option<usize>), Fail> {
    let mut table = three_columns(alloc)?;
    let inserted = table.insert(Name::new(alloc, b"w".as_slice())?)?;
    Ok((inserted.number(), number_if_there(inserted)))
}

#[test]
fn new_column_has_the_next_number(rt: HostRuntime) -> Result<(), Fail> {
    let (number, if_there) = added_last(rt.alloc())?;
    assert_eq!(rt; number, 3);
    assert_eq!(rt; if_there, None);
    Ok(())
}

#[test]
fn column_that_is_there_keeps_its_coefficients(rt: HostRuntime) -> Result<(), Fail> {
    let (number, rows) = added_again(rt.alloc())?;
    assert_eq!(rt; number, Some(1));
    assert_eq!(rt;
        rows,
        [NONE, [false, false, false, false, true], NONE, NONE]
    );
    Ok(())
}

/// Pairs of which neither those of a column nor those of a row come together, and some of them twice.
const IN_ANY_ORDER: &[(usize, u32)] = &[
    (0, 1),
    (1, 2),
    (0, 2),
    (1, 1),
    (2, 1),
    (0, 2),
    (1, 4),
    (2, 0),
    (0, 4),
    (1, 1),
    (2, 3),
    (0, 0),
    (1, 3),
    (0, 1),
    (2, 4),
];

#[test]
fn keeps_coefficients_in_any_order(rt: HostRuntime) -> Result<(), Fail> {
    let rows = presence_of(rt.alloc(), IN_ANY_ORDER)?;
    let [x, y, z, none] = rows;
    assert_eq!(rt; x, [true, true, true, false, true]);
    assert_eq!(rt; y, [false, true, true, true, true]);
    assert_eq!(rt; z, [true, true, false, true, true]);
    assert_eq!(rt; none, NONE);
    Ok(())
}

/// Whether pairs that neither rows nor columns in order decide are there, before there is a set of pairs.
#[test]
fn finds_coefficients_in_any_order(rt: HostRuntime) -> Result<(), Fail> {
    let pairs = [(0, 1), (1, 2), (0, 2), (2, 1)];
    let rows = presence_of(rt.alloc(), &pairs)?;
    let [x, y, z, _none] = rows;
    assert_eq!(rt; x, [false, true, true, false, false]);
    assert_eq!(rt; y, [false, false, true, false, false]);
    assert_eq!(rt; z, [false, true, false, false, false]);
    Ok(())
}
