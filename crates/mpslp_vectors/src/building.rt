//! The builder: its calls in turn, with the error of each that is rejected, and the model that they mean.

use crate::decimals::number;
use mpslp_model::{
    BuildFault, Builder, FaultKind, Kind, Limit, Model, Name, NameFault, ReadFault, RowType, Sense,
};
use std::alloc::Global;

/// A name of these bytes.
fn named(alloc: Global, text: &str) -> Result<Name, BuildFault> {
    match Name::new(alloc, text.as_bytes()) {
        Ok(name) => Ok(name),
        Err(_) => Err(BuildFault::OutOfMemory),
    }
}

/// A limit of this literal.
fn limit(literal: &str) -> Limit {
    Limit::of(number(literal))
}

/// The model of a builder that has an objective, if there is one.
fn finished(builder: Builder) -> Option<Model> {
    if !builder.has_objective() {
        return None;
    }
    match builder.finish() {
        Ok(model) => Some(model),
        Err(_) => None,
    }
}

/// The results of calls that name the objective, rows and columns.
fn declared(
    alloc: Global,
    builder: &mut Builder,
) -> Result<[Result<(), BuildFault>; 7], BuildFault> {
    Ok([
        builder.objective(named(alloc, "f")?),
        builder.objective(named(alloc, "g")?),
        builder.row(named(alloc, "f")?, RowType::AtMost),
        builder.row(named(alloc, "r")?, RowType::AtMost),
        builder.row_limits(
            named(alloc, "s")?,
            Limit::of(number("1")),
            Limit::of(number("1")),
        ),
        builder.column(named(alloc, "x")?),
        builder.column(named(alloc, "x")?),
    ])
}

/// The results of calls that set coefficients, right-hand sides and ranges.
fn valued(builder: &mut Builder) -> [Result<(), BuildFault>; 10] {
    [
        builder.rhs(b"s", number("1")),
        builder.coefficient(b"q", b"x", number("1")),
        builder.coefficient(b"r", b"y", number("1")),
        builder.coefficient(b"r", b"x", number("1")),
        builder.coefficient(b"r", b"x", number("1")),
        builder.rhs(b"r", number("4")),
        builder.rhs(b"r", number("4")),
        builder.range(b"f", number("1")),
        builder.range(b"r", number("1e20")),
        builder.range(b"r", number("-2")),
    ]
}

/// The results of calls that bound columns and type them, and of the rest.
fn typed(builder: &mut Builder) -> [Result<(), BuildFault>; 10] {
    [
        builder.range(b"r", number("-2")),
        builder.bounds(b"x", Some(Limit::MinusInf), None),
        builder.bounds(
            b"x",
            Some(Limit::of(number("0"))),
            Some(Limit::of(number("1"))),
        ),
        builder.marked(b"x"),
        builder.integer(b"x"),
        builder.binary(b"y"),
        builder.constant(number("5")),
        builder.rhs(b"f", number("1")),
        builder.sense(Sense::Maximize),
        builder.sense(Sense::Maximize),
    ]
}

#[test]
fn calls_in_turn_are_accepted_or_rejected(rt: HostRuntime) -> Result<(), BuildFault> {
    let alloc = rt.alloc();
    let mut builder = Builder::new(alloc);
    assert!(rt; !builder.has_objective());
    assert_eq!(rt;
        declared(alloc, &mut builder)?,
        [
            Ok(()),
            Err(BuildFault::SecondObjective),
            Err(BuildFault::DuplicateRow),
            Ok(()),
            Ok(()),
            Ok(()),
            Ok(()),
        ]
    );
    assert_eq!(rt;
        valued(&mut builder),
        [
            Err(BuildFault::DuplicateRhs),
            Err(BuildFault::UnknownRow),
            Err(BuildFault::UnknownColumn),
            Ok(()),
            Err(BuildFault::DuplicateEntry),
            Ok(()),
            Err(BuildFault::DuplicateRhs),
            Err(BuildFault::RangeOnFree),
            Err(BuildFault::InfiniteValue),
            Ok(()),
        ]
    );
    assert_eq!(rt;
        typed(&mut builder),
        [
            Err(BuildFault::DuplicateRange),
            Ok(()),
            Err(BuildFault::DuplicateBound),
            Ok(()),
            Ok(()),
            Err(BuildFault::UnknownColumn),
            Ok(()),
            Err(BuildFault::DuplicateRhs),
            Ok(()),
            Err(BuildFault::DuplicateSense),
        ]
    );
    let has = [
        builder.has_objective(),
        builder.has_row(b"r"),
        builder.has_row(b"f"),
        builder.has_column(b"x"),
    ];
    assert_eq!(rt; has, [true; 4]);
    let has_not = [builder.has_row(b"x"), builder.has_column(b"r")];
    assert_eq!(rt; has_not, [false; 2]);
    let is_meant = match finished(builder) {
        Some(model) => is_built(&model),
        None => false,
    };
    assert!(rt; is_meant);
    Ok(())
}

/// Whether a model is that of the calls: r from 2 to 4, s equal to 1, x integer and free, the constant 5, maximized.
fn is_built(model: &Model) -> bool {
    model.num_rows() == 2
        && model.num_cols() == 1
        && model.row_lower(0) == limit("2")
        && model.row_upper(0) == limit("4")
        && model.row_lower(1) == limit("1")
        && model.row_upper(1) == limit("1")
        && model.col_lower(0) == Limit::MinusInf
        && model.col_upper(0) == Limit::PlusInf
        && model.is_integer(0)
        && model.objective_constant() == number("5")
        && model.objective_sense() == Sense::Maximize
}

#[test]
fn semi_continuous_columns_are_not_integer(rt: HostRuntime) -> Result<(), BuildFault> {
    let alloc = rt.alloc();
    let mut builder = Builder::new(alloc);
    builder.objective(named(alloc, "f")?)?;
    builder.column(named(alloc, "x")?)?;
    let answers = [
        builder.semi(b"y"),
        builder.semi(b"x"),
        builder.semi(b"x"),
        builder.integer(b"x"),
    ];
    assert_eq!(rt;
        answers,
        [
            Err(BuildFault::UnknownColumn),
            Ok(()),
            Ok(()),
            Err(BuildFault::SemiContinuous)
        ]
    );
    builder.bounds(b"x", None, Some(Limit::of(number("4"))))?;
    let is_semi = match finished(builder) {
        Some(model) => model.column_kind(0) == Kind::Semi && !model.is_integer(0),
        None => false,
    };
    assert!(rt; is_semi);
    Ok(())
}

#[test]
fn a_model_has_a_column(rt: HostRuntime) -> Result<(), BuildFault> {
    let alloc = rt.alloc();
    let mut builder = Builder::new(alloc);
    builder.objective(named(alloc, "f")?)?;
    assert!(rt; lacks_columns(&builder.finish()));
    Ok(())
}

/// Whether there is no model since there is no column.
fn lacks_columns(answer: &Result<Model, ReadFault>) -> bool {
    match answer {
        Err(ReadFault::File(fault)) => {
            fault.kind == FaultKind::NoColumns && fault.line == 0 && fault.name.is_none()
        }
        _ => false,
    }
}

/// Whether these bytes are rejected as a name, for this reason.
fn is_no_name(alloc: Global, text: &[u8], wanted: NameFault) -> bool {
    match Name::new(alloc, text) {
        Ok(_) => false,
        Err(fault) => fault == wanted,
    }
}

#[test]
fn names_are_legal(rt: HostRuntime) {
    let alloc = rt.alloc();
    let longest = [b'a'; 255];
    let is_named = match Name::new(alloc, &longest) {
        Ok(name) => name.as_bytes() == longest.as_slice() && name.is_lp(),
        Err(_) => false,
    };
    assert!(rt; is_named);
    let are_rejected = [
        is_no_name(alloc, b"", NameFault::NameLength),
        is_no_name(alloc, &[b'a'; 256], NameFault::NameLength),
        is_no_name(alloc, b"a b", NameFault::NameByte),
        is_no_name(alloc, b"'MARKER'", NameFault::NameMarker),
    ];
    assert_eq!(rt; are_rejected, [true; 4]);
    let is_lp = match Name::new(alloc, b"x-1") {
        Ok(name) => name.is_lp(),
        Err(_) => true,
    };
    assert!(rt; !is_lp);
}
