//! Calls of a builder, written as text.
//!
//! A call is its name and its arguments, separated by spaces, as in `coefficient r x 1`. For a bound that is not given it has `-`.
//! Calls are lines of a text, or are separated by semicolons.

use crate::texts::{number, row_type, side, side_if_given};
use mpslp_builder::Builder;
use mpslp_types::{BuildFault, Name, Sense};
use std::alloc::Global;

/// A legal name.
pub(super) fn named(alloc: Global, text: &str) -> Result<Name, BuildFault> {
    match Name::new(alloc, text.as_bytes()) {
        Ok(name) => Ok(name),
        Err(_) => Err(BuildFault::OutOfMemory),
    }
}

/// The sense of this name.
fn sense(text: &str) -> Sense {
    match text {
        "maximize" => Sense::Maximize,
        _ => Sense::Minimize,
    }
}

/// A call: its name and its arguments.
#[derive(Clone, Copy)]
struct Call<'a> {
    name: &'a str,
    first: &'a str,
    second: &'a str,
    third: &'a str,
}

impl<'a> Call<'a> {
    /// The call of a text.
    fn of(text: &'a str) -> Call<'a> {
        let mut words = text.split(' ');
        Call {
            name: words.next().unwrap_or(""),
            first: words.next().unwrap_or(""),
            second: words.next().unwrap_or(""),
            third: words.next().unwrap_or(""),
        }
    }
}

/// The result for a text that is no call. No test expects it, so a test with such a text fails.
const NO_CALL: Result<(), BuildFault> = Err(BuildFault::OutOfMemory);

/// Makes a call that declares a row, or the objective.
fn declare_row(builder: &mut Builder, alloc: Global, call: Call<'_>) -> Result<(), BuildFault> {
    let name = named(alloc, call.first)?;
    match call.name {
        "objective" => builder.objective(name),
        "row" => builder.row(name, row_type(call.second)),
        "limits" => builder.row_limits(name, side(call.second), side(call.third)),
        _ => NO_CALL,
    }
}

/// Makes a call for the numbers of a row.
fn declare_numbers(builder: &mut Builder, call: Call<'_>) -> Result<(), BuildFault> {
    let row = call.first.as_bytes();
    match call.name {
        "rhs" => builder.rhs(row, number(call.second)),
        "range" => builder.range(row, number(call.second)),
        "coefficient" => builder.coefficient(row, call.second.as_bytes(), number(call.third)),
        _ => NO_CALL,
    }
}

/// Makes a call for the bounds or the type of a column.
fn declare_bounds(builder: &mut Builder, call: Call<'_>) -> Result<(), BuildFault> {
    let column = call.first.as_bytes();
    match call.name {
        "bounds" => {
            builder.bounds(
                column,
                side_if_given(call.second),
                side_if_given(call.third),
            )
        }
        "marked" => builder.marked(column),
        "integer" => builder.integer(column),
        "binary" => builder.binary(column),
        "semi" => builder.semi(column),
        _ => NO_CALL,
    }
}

/// Makes a call.
fn declare(builder: &mut Builder, alloc: Global, call: Call<'_>) -> Result<(), BuildFault> {
    match call.name {
        "sense" => builder.sense(sense(call.first)),
        "constant" => builder.constant(number(call.first)),
        "column" => builder.column(named(alloc, call.first)?),
        "objective" | "row" | "limits" => declare_row(builder, alloc, call),
        "rhs" | "range" | "coefficient" => declare_numbers(builder, call),
        _ => declare_bounds(builder, call),
    }
}

/// The result of the query of a call that declares a row, or the objective.
fn check_row(builder: &Builder, call: Call<'_>) -> Result<(), BuildFault> {
    let name = call.first.as_bytes();
    match call.name {
        "objective" => builder.check_objective(name),
        "row" => builder.check_row(name),
        "limits" => builder.check_row_limits(name, &side(call.second), &side(call.third)),
        _ => NO_CALL,
    }
}

/// The result of the query of a call for the numbers of a row.
fn check_numbers(builder: &Builder, call: Call<'_>) -> Result<(), BuildFault> {
    let row = call.first.as_bytes();
    match call.name {
        "rhs" => builder.check_rhs(row),
        "range" => builder.check_range(row, number(call.second)),
        "coefficient" => builder.check_coefficient(row, call.second.as_bytes()),
        _ => NO_CALL,
    }
}

/// The result of the query of a call for the bounds or the type of a column.
fn check_bounds(builder: &Builder, call: Call<'_>) -> Result<(), BuildFault> {
    let column = call.first.as_bytes();
    match call.name {
        "bounds" => builder.check_bounds(
            column,
            &side_if_given(call.second),
            &side_if_given(call.third),
        ),
        "marked" => builder.check_marked(column),
        "integer" => builder.check_integer(column),
        "binary" => builder.check_binary(column),
        "semi" => builder.check_semi(column),
        _ => NO_CALL,
    }
}

/// The result of a call's query. There is none for a column, which may be declared again.
fn check(builder: &Builder, call: Call<'_>) -> Result<(), BuildFault> {
    match call.name {
        "sense" => builder.check_sense(),
        "constant" => builder.check_constant(),
        "column" => Ok(()),
        "objective" | "row" | "limits" => check_row(builder, call),
        "rhs" | "range" | "coefficient" => check_numbers(builder, call),
        _ => check_bounds(builder, call),
    }
}

/// Makes these calls in turn, up to the first that fails.
pub(super) fn declare_all(
    builder: &mut Builder,
    alloc: Global,
    calls: &str,
) -> Result<(), BuildFault> {
    for call in calls.split(['\n', ';']) {
        declare(builder, alloc, Call::of(call.trim()))?;
    }
    Ok(())
}

/// The builder after these calls, all of which succeed.
pub(super) fn built(alloc: Global, calls: &str) -> Result<Builder, BuildFault> {
    let mut builder = Builder::new(alloc);
    declare_all(&mut builder, alloc, calls)?;
    Ok(builder)
}

/// The name of the error of a call, or none.
fn fault_of(answer: &Result<(), BuildFault>) -> &'static str {
    match answer {
        Ok(()) => "",
        Err(fault) => fault.text(),
    }
}

/// Whether a call's query and then the call have the result of the line: the error after the colon, or none.
fn is_answered(builder: &mut Builder, alloc: Global, line: &str) -> bool {
    let (text, fault) = line.split_once(": ").unwrap_or((line, ""));
    let call = Call::of(text);
    let is_asked = fault_of(&check(builder, call)) == fault;
    is_asked && fault_of(&declare(builder, alloc, call)) == fault
}

/// The first of these lines, each a call and its error, whose call has another result, or whose query has another one.
pub(super) fn first_other_answer<'a>(
    builder: &mut Builder,
    alloc: Global,
    lines: &'a str,
) -> Option<&'a str> {
    for line in lines.lines() {
        if !is_answered(builder, alloc, line) {
            return Some(line);
        }
    }
    None
}
