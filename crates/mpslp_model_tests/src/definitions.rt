//! Tests of the limits of rows and the bounds of columns, on worked examples. `building.rt` tests models and their accessors.

use crate::texts::{number, row_type, side, side_if_given};
use mpslp_decimal::Decimal;
use mpslp_model_core::{
    ColumnBounds, ColumnFault, DeclaredColumn, PackedColumn, PackedLimit, PackedRow, RowDefinition,
    RowFault, RowLimits, is_faulty_row, kind_of_column_fault, kind_of_row_fault, limits_of,
    plain_limits, row_has,
};
use mpslp_types::{Kind, Limit, RowType};

/// A row: its type or its limits, its right-hand side and its range, if it has one.
#[derive(Clone, Copy)]
struct Row {
    definition: RowDefinition,
    rhs: Decimal,
    range: Option<Decimal>,
}

/// The row of this type, right-hand side and range, separated by spaces. Without a range it has `-`.
fn row_of(text: &str) -> Row {
    let mut words = text.split(' ');
    let row_type = row_type(words.next().unwrap_or(""));
    let rhs = number(words.next().unwrap_or(""));
    let range = match words.next() {
        None | Some("-") => None,
        Some(range) => Some(number(range)),
    };
    Row {
        definition: RowDefinition::ByType(row_type),
        rhs,
        range,
    }
}

/// Rows by type, right-hand side and optional range, and their limits.
const LIMITED: &str = "\
N 7 - => -1e20 1e20
L 4 - => -1e20 4
G 4 - => 4 1e20
E 4 - => 4 4
L 4 -2.5 => 1.5 4
G 4 -2.5 => 4 6.5
E 4 2.5 => 4 6.5
E 4 -2.5 => 1.5 4
E 4 0 => 4 4";

/// The limits of a row, or none if it has none.
fn limits_of_row(row: Row) -> RowLimits {
    limits_of(&row.definition, row.rhs, &row.range).unwrap_or(plain_limits(
        RowType::Free,
        Decimal::zero(),
    ))
}

/// Whether a row has the limits after the arrow.
fn is_limited(line: &str) -> bool {
    let (row, limits) = line.split_once(" => ").unwrap_or((line, ""));
    let (lower, upper) = limits.split_once(' ').unwrap_or(("", ""));
    let limits = limits_of_row(row_of(row));
    limits.lower == side(lower) && limits.upper == side(upper)
}

#[test]
fn limits_rows_by_their_type(rt: HostRuntime) {
    for line in LIMITED.lines() {
        assert!(rt; is_limited(line), "at {line}");
    }
}

#[test]
fn limits_a_row_by_both_limits(rt: HostRuntime) {
    let definition = RowDefinition::ByLimits(side("-1"), side("1e20"));
    let limits = limits_of(&definition, number("9"), &None).unwrap_or(plain_limits(
        RowType::Equal,
        number("9"),
    ));
    assert!(rt; limits.lower == side("-1"));
    assert!(rt; limits.upper == Limit::PlusInf);
}

/// The name of the first error of a row, or none.
fn row_fault(row: &Row) -> &'static str {
    let faults = [
        RowFault::InfiniteLimit,
        RowFault::RangeInexact,
        RowFault::LimitTooLarge,
        RowFault::LimitsCrossed,
    ];
    for fault in faults {
        if row_has(fault, &row.definition, row.rhs, &row.range) {
            return kind_of_row_fault(fault).text();
        }
    }
    ""
}

/// Rows by type, right-hand side and optional range, and their first error.
const FAULTY_ROWS: &str = "\
L 4 2
L 1e20 -
L -1e20 -: InfiniteLimit
G 1e20 -: InfiniteLimit
E 1e25 -: InfiniteLimit
L 1e20 1: InfiniteLimit
L 1 1e-500: RangeInexact
G 9e19 1e19: LimitTooLarge";

/// Whether a row has the error after the colon, or none.
fn row_has_its_fault(line: &str) -> bool {
    let (row, fault) = line.split_once(": ").unwrap_or((line, ""));
    let row = row_of(row);
    let is_faulty = is_faulty_row(&row.definition, row.rhs, &row.range);
    row_fault(&row) == fault && is_faulty != fault.is_empty()
}

#[test]
fn reports_what_is_wrong_with_a_row(rt: HostRuntime) {
    for line in FAULTY_ROWS.lines() {
        assert!(rt; row_has_its_fault(line), "at {line}");
    }
    let crossed = Row {
        definition: RowDefinition::ByLimits(side("2"), side("1")),
        rhs: Decimal::zero(),
        range: None,
    };
    assert_eq!(rt; row_fault(&crossed), "LimitsCrossed");
}

/// The column of these bounds and this mark, separated by spaces: `-` for a bound that is not declared, then `marked`, `binary`,
/// `semi` or no mark.
fn column_of(text: &str) -> DeclaredColumn {
    let mut words = text.split(' ');
    let lower = side_if_given(words.next().unwrap_or("-"));
    let upper = side_if_given(words.next().unwrap_or("-"));
    let mark = words.next().unwrap_or("");
    DeclaredColumn {
        lower,
        upper,
        marked: mark == "marked",
        integer: false,
        binary: mark == "binary",
        semi: mark == "semi",
    }
}

/// Columns by what is declared of them, and their bounds and their kind.
const BOUNDED: &str = "\
- - => 0 1e20 continuous
-3 2.5 => -3 2.5 continuous
- - marked => 0 1 integer
- - binary => 0 1 integer";

fn name_of_kind(kind: Kind) -> &'static str {
    match kind {
        Kind::Continuous => "continuous",
        Kind::Integer => "integer",
        Kind::Semi => "semi",
    }
}

/// Whether these are the bounds and the kind of a text.
fn are_bounds(bounds: ColumnBounds, text: &str) -> bool {
    let mut words = text.split(' ');
    let lower = side(words.next().unwrap_or(""));
    let upper = side(words.next().unwrap_or(""));
    let kind = words.next().unwrap_or("");
    bounds.lower == lower && (bounds.upper == upper && name_of_kind(bounds.kind) == kind)
}

/// Whether a column has the bounds and the kind after the arrow.
fn is_bounded(line: &str) -> bool {
    match line.split_once(" => ") {
        Some((column, bounds)) => are_bounds(column_of(column).bounds(), bounds),
        None => false,
    }
}

#[test]
fn bounds_columns_by_what_is_declared(rt: HostRuntime) {
    for line in BOUNDED.lines() {
        assert!(rt; is_bounded(line), "at {line}");
    }
    let marked = column_of("- - marked");
    assert!(rt; marked.is_integer() && !marked.is_faulty());
}

/// The name of the first error of a column, or none.
fn column_fault(column: &DeclaredColumn) -> &'static str {
    let faults = [
        ColumnFault::NegativeUpper,
        ColumnFault::BoundsCrossed,
        ColumnFault::BinaryBounds,
        ColumnFault::SemiBounds,
    ];
    for fault in faults {
        if column.has_fault(fault) {
            return kind_of_column_fault(fault).text();
        }
    }
    ""
}

/// Columns by what is declared of them, and their first error.
const FAULTY_COLUMNS: &str = "\
-1 1
- -1: NegativeUpper
2 1: BoundsCrossed
0 2 binary: BinaryBounds
0 1e20 semi: SemiBounds";

/// Whether a column has the error after the colon, or none.
fn column_has_its_fault(line: &str) -> bool {
    let (column, fault) = line.split_once(": ").unwrap_or((line, ""));
    column_fault(&column_of(column)) == fault
}

#[test]
fn reports_what_is_wrong_with_a_column(rt: HostRuntime) {
    for line in FAULTY_COLUMNS.lines() {
        assert!(rt; column_has_its_fault(line), "at {line}");
    }
    let semi = column_of("0 1e20 semi");
    let is_semi = semi.bounds().kind == Kind::Semi;
    assert_eq!(rt; (semi.is_faulty(), is_semi), (true, true));
}

#[test]
fn packs_sides_rows_and_columns(rt: HostRuntime) {
    for text in [
        "-1e20",
        "-123456789012345678901234567890123456e-470",
        "0",
        "1e20",
    ] {
        assert!(rt; PackedLimit::of(side(text)).limit() == side(text), "{text}");
    }
    let limits = RowLimits {
        lower: side("-2"),
        upper: side("1e20"),
    };
    assert!(rt; PackedRow::of(limits).limits() == limits);
    let bounds = ColumnBounds {
        kind: Kind::Semi,
        lower: side("0"),
        upper: side("1.5"),
    };
    assert!(rt; PackedColumn::of(bounds).bounds() == bounds);
}
