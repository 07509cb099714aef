//! The accessors of a model, and comparisons of models.

use crate::decimals::number;
use mpslp_model::{Limit, Model, Sense};
use mpslp_mps::read_mps;
use std::alloc::Global;

/// Rows of all senses, ranges before right-hand sides.
const RANGED: &str = "ROWS
 N  C
 E  E1
 E  E2
 E  E3
 G  G1
 L  L1
COLUMNS
    X  E1  1  E2  1
    X  E3  1  G1  1
    X  L1  1
RANGES
    RNG  E1  3  E2  -3
    RNG  E3  0  G1  -2
    RNG  L1  -2
RHS
    RHS  E1  10  E2  10
    RHS  E3  10  G1  10
    RHS  L1  10
ENDATA
";

/// The rows: name, sense, lower limit, upper limit, right-hand side and range.
const ROWS: [(&str, u8, &str, &str, &str, &str); 5] = [
    ("E1", b'R', "10", "13", "13", "3"),
    ("E2", b'R', "7", "10", "10", "3"),
    ("E3", b'E', "10", "10", "10", "0"),
    ("G1", b'R', "10", "12", "12", "2"),
    ("L1", b'R', "8", "10", "10", "2"),
];

/// The model of an MPS text, if it has one.
fn model_of(alloc: Global, text: &str) -> Option<Model> {
    match read_mps(alloc, text.as_bytes()) {
        Ok(model) => Some(model),
        Err(_) => None,
    }
}

/// Whether a row of a model is that of this number in `ROWS`.
fn is_row(model: &Model, i: usize) -> bool {
    if i >= model.num_rows() || i >= ROWS.len() || model.num_cols() == 0 {
        return false;
    }
    let (name, sense, lower, upper, rhs, range) = ROWS[i];
    model.row_name(i).as_bytes() == name.as_bytes()
        && model.row_sense(i) == sense
        && model.row_lower(i) == Limit::of(number(lower))
        && model.row_upper(i) == Limit::of(number(upper))
        && model.right_hand_side(i) == number(rhs)
        && model.row_range(i) == number(range)
        && model.row_index(name.as_bytes()) == Some(i)
        && model.coefficient(i, 0) == number("1")
}

/// Whether the columns of a model are those of the text.
fn has_columns(model: &Model) -> bool {
    if model.num_cols() != 1 || model.column_len(0) != 5 {
        return false;
    }
    model.column_name(0).as_bytes() == b"X".as_slice()
        && model.column_index(b"X") == Some(0)
        && model.column_index(b"C").is_none()
        && model.col_lower(0) == Limit::of(number("0"))
        && model.col_upper(0) == Limit::PlusInf
        && !model.is_integer(0)
        && model.objective_coefficient(0).is_zero()
        && model.entry(0, 4) == (4, number("1"))
}

/// Whether the counts and the objective of a model are those of the text.
fn has_objective(model: &Model) -> bool {
    model.num_rows() == 5
        && model.num_elements() == 5
        && model.objective_name().as_bytes() == b"C".as_slice()
        && model.objective_sense() == Sense::Minimize
        && model.objective_constant().is_zero()
        && model.objective_offset().is_zero()
        && model.row_index(b"C").is_none()
}

#[test]
fn a_model_is_seen_by_its_accessors(rt: HostRuntime) {
    let is_seen = match model_of(rt.alloc(), RANGED) {
        Some(model) => {
            has_objective(&model) && has_columns(&model) && (0..5).all(|i| is_row(&model, i))
        }
        None => false,
    };
    assert!(rt; is_seen);
}

const TINY: &str = "ROWS\n N  C\nCOLUMNS\n    X  C  1\nRHS\n    RHS  C  5\nENDATA\n";

const MAXIMIZED: &str =
    "OBJSENSE MAX\nROWS\n N  C\nCOLUMNS\n    X  C  1\nRHS\n    RHS  C  5\nENDATA\n";

#[test]
fn models_are_compared(rt: HostRuntime) {
    let alloc = rt.alloc();
    let are_right = match (model_of(alloc, TINY), model_of(alloc, MAXIMIZED)) {
        (Some(first), Some(second)) => {
            first.objective_constant() == number("-5")
                && first.objective_offset() == number("5")
                && first.same(&first)
                && !first.same(&second)
        }
        _ => false,
    };
    assert!(rt; are_right);
}
