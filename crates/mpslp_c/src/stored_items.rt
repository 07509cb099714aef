//! The items of the arrays of a caller, declared to a builder.

ghost use Rattle.std.specs.Prelude.{◌≡◌, Ok, slice_get, MatchResult};
ghost use Rattle.mpslp_c.specs.Stored.{name_given, bytes_at, IsFaultGiven, TakesSteps, sense_steps, objective_steps, row_steps, kind_steps, column_steps, element_steps};

use crate::arrays::{
    CONTINUOUS, INTEGER, MAXIMIZE, MINIMIZE, MpslpColumn, MpslpElement, MpslpModel, MpslpName,
    MpslpRow, SEMI,
};
use crate::numbers::{limit_given, number_given};
use mpslp_lines::LineError;
use mpslp_model::{Builder, FaultKind, Name, Sense};
use std::alloc::Global;

/// The bytes of a name, if they are within the names and legal.
fn name_given<'a>(names: &'a [u8], name: MpslpName) -> Result<&'a [u8], LineError>
    ensures { MatchResult result (λ bytes. name_given names.now name ≡ Ok bytes.now) (IsFaultGiven (name_given names.now name)) }
{
    if name.at > names.len() || name.len > names.len() - name.at {
        return Err(LineError::Fault(FaultKind::NameLength));
    }
    let bytes = &names[name.at..name.at + name.len];
    Name::check(bytes)?;
    Ok(bytes)
}

/// Declares the sense of the objective.
fn declare_sense(sense: u32, builder: &mut Builder) -> Result<(), LineError>
    ensures { TakesSteps (sense_steps sense) builder.old builder.new result }
{
    match sense {
        MINIMIZE => builder.sense(Sense::Minimize)?,
        MAXIMIZE => builder.sense(Sense::Maximize)?,
        _ => return Err(LineError::Fault(FaultKind::BadType)),
    }
    Ok(())
}

/// Declares the objective: its name, constant and sense.
pub(crate) fn declare_stored_objective(
    alloc: Global,
    model: &MpslpModel,
    builder: &mut Builder,
) -> Result<(), LineError>
    ensures { TakesSteps (objective_steps model.now) builder.old builder.new result }
{
    let name = name_given(model.names, model.objective)?;
    let constant = number_given(model.constant)?;
    builder.objective(Name::new(alloc, name)?)?;
    builder.constant(constant)?;
    declare_sense(model.sense, builder)
}

/// Declares a row.
pub(crate) fn declare_stored_row(
    alloc: Global,
    names: &[u8],
    row: MpslpRow,
    builder: &mut Builder,
) -> Result<(), LineError>
    ensures { TakesSteps (row_steps names.now row) builder.old builder.new result }
{
    let name = name_given(names, row.name)?;
    let lower = limit_given(row.lower)?;
    let upper = limit_given(row.upper)?;
    builder.row_limits(Name::new(alloc, name)?, lower, upper)?;
    Ok(())
}

/// Declares the type of a column.
fn declare_kind(column: &[u8], kind: u32, builder: &mut Builder) -> Result<(), LineError>
    ensures { TakesSteps (kind_steps column.now kind) builder.old builder.new result }
{
    match kind {
        CONTINUOUS => {}
        INTEGER => builder.integer(column)?,
        SEMI => builder.semi(column)?,
        _ => return Err(LineError::Fault(FaultKind::BadType)),
    }
    Ok(())
}

/// Declares a column without its elements.
pub(crate) fn declare_stored_column(
    alloc: Global,
    names: &[u8],
    objective: &[u8],
    column: MpslpColumn,
    builder: &mut Builder,
) -> Result<(), LineError>
    ensures { TakesSteps (column_steps names.now objective.now column) builder.old builder.new result }
{
    let name = name_given(names, column.name)?;
    let lower = limit_given(column.lower)?;
    let upper = limit_given(column.upper)?;
    let cost = number_given(column.cost)?;
    builder.column(Name::new(alloc, name)?)?;
    builder.bounds(name, Some(lower), Some(upper))?;
    builder.coefficient(objective, name, cost)?;
    declare_kind(name, column.kind, builder)
}

/// Declares an element of a column.
pub(crate) fn declare_stored_element(
    names: &[u8],
    rows: &[MpslpRow],
    column: &[u8],
    element: MpslpElement,
    builder: &mut Builder,
) -> Result<(), LineError>
    ensures { TakesSteps (element_steps names.now column.now (slice_get rows.now element.row) element) builder.old builder.new result }
{
    let Some(row) = rows.get(element.row) else {
        return Err(LineError::Fault(FaultKind::UnknownRow));
    };
    let value = number_given(element.value)?;
    builder.coefficient(bytes_at(names, row.name), column, value)?;
    Ok(())
}

/// The bytes at a place in the names, without what would be beyond their end.
pub(crate) fn bytes_at(names: &[u8], name: MpslpName) -> &[u8]
    ensures { result.now ≡ bytes_at names.now name }
{
    let rest = &names[name.at.min(names.len())..];
    &rest[..name.len.min(rest.len())]
}
