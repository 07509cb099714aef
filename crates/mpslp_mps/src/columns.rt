//! Lines of COLUMNS.

ghost use Rattle.std.specs.Prelude.{◌≡◌, ◌≢◌, map, true, false, Some, None};
ghost use Rattle.std.specs.List.{list_all};
ghost use Rattle.mpslp_builder.specs.Declaration.{Draft, has_row};
ghost use Rattle.mpslp_mps_fields.specs.declared.sections.Section.{Section};
ghost use Rattle.mpslp_mps_fields.specs.Line.{data_line};
ghost use Rattle.mpslp_mps_fields.specs.DataLine.{is_marker_line};
ghost use Rattle.mpslp_lines.specs.LineAnswer.{IfFault};
ghost use Rattle.mpslp_mps.specs.ColumnDeclared.{HasLastColumn};
ghost use Rattle.mpslp_mps.specs.LineAnswer.{item_fault, ReadsContent};
ghost use Rattle.mpslp_mps.specs.LineFault.{is_split};

use crate::clashes::has_column_clash;
use crate::context::LineContext;
use crate::data_lines::{check_column, check_marker};
use crate::usual_lines::read_usual;
use crate::values::RowValues;
use mpslp_builder::ReaderBuilder;
use mpslp_lines::LineError;
use mpslp_model::{Builder, FaultKind};
use mpslp_mps_fields::is_marker_line;
use std::alloc::Global;

/// Reads a marker line.
#[inline(never)]
fn read_marker(context: &mut LineContext, fields: &[&[u8]]) -> Result<(), LineError>
    requires section { context.old.section ≡ Some Section.Columns }
    requires marker { is_marker_line (map (λ field. field.now) fields.now) ≡ true }
    ensures answers { (earlier : Draft) → ReadsContent context.old earlier (data_line (map (λ field. field.now) fields.now)) result context.new earlier }
    ensures unchanged { IfFault result (context.new ≡ context.old) }
{
    let opens = check_marker(context, fields)?;
    context.pass_marker(opens);
    Ok(())
}

/// Whether the rows of the values are declared.
fn has_rows(builder: &Builder, values: &RowValues<'_>) -> bool
    ensures { result ≡ list_all (λ value. has_row builder.now value.0) values.now }
{
    let first = builder.has_row(values.first.row);
    match &values.second {
        Some(value) => first && builder.has_row(value.row),
        None => first,
    }
}

/// Whether the column has earlier lines, but the last line is not one of them.
fn is_split(context: &LineContext, builder: &Builder, column: &[u8]) -> bool
    ensures { result ≡ is_split context.now builder.now column.now }
{
    !context.is_last_column(column) && builder.has_column(column)
}

/// The error of a line of a column that has one: the first of these tests that fails.
#[inline(never)]
fn column_fault(context: &LineContext, builder: &Builder, fields: &[&[u8]]) -> FaultKind
    requires section { context.now.section ≡ Some Section.Columns }
    requires plain { is_marker_line (map (λ field. field.now) fields.now) ≡ false }
    requires faulty { item_fault context.now builder.now (data_line (map (λ field. field.now) fields.now)) ≢ None }
    ensures { item_fault context.now builder.now (data_line (map (λ field. field.now) fields.now)) ≡ Some result }
{
    if has_column_clash(context, builder, fields) {
        return FaultKind::SemiContinuous;
    }
    let (column, values) = match check_column(fields) {
        Ok(line) => line,
        Err(kind) => return kind,
    };
    if !has_rows(builder, &values) {
        return FaultKind::UnknownRow;
    }
    if is_split(context, builder, column) {
        return FaultKind::ColumnSplit;
    }
    // The only error that is left.
    FaultKind::DuplicateEntry
}

/// Reads a line of a column.
fn read_values(
    context: &mut LineContext,
    builder: &mut ReaderBuilder,
    alloc: Global,
    fields: &[&[u8]],
) -> Result<(), LineError>
    requires section { context.old.section ≡ Some Section.Columns }
    requires column { HasLastColumn context.old builder.old.draft }
    requires plain { is_marker_line (map (λ field. field.now) fields.now) ≡ false }
    ensures answers { ReadsContent context.old builder.old.draft (data_line (map (λ field. field.now) fields.now)) result context.new builder.new.draft }
    ensures unchanged { IfFault result ((context.new ≡ context.old) × (builder.new.draft ≡ builder.old.draft)) }
{
    if read_usual(context, builder, alloc, fields)? {
        return Ok(());
    }
    Err(LineError::Fault(column_fault(context, &builder.draft, fields)))
}

/// Reads a line of COLUMNS.
pub(crate) fn read_column(
    context: &mut LineContext,
    builder: &mut ReaderBuilder,
    alloc: Global,
    fields: &[&[u8]],
) -> Result<(), LineError>
    requires section { context.old.section ≡ Some Section.Columns }
    requires column { HasLastColumn context.old builder.old.draft }
    ensures answers { ReadsContent context.old builder.old.draft (data_line (map (λ field. field.now) fields.now)) result context.new builder.new.draft }
    ensures unchanged { IfFault result ((context.new ≡ context.old) × (builder.new.draft ≡ builder.old.draft)) }
{
    if is_marker_line(fields) {
        read_marker(context, fields)
    } else {
        read_values(context, builder, alloc, fields)
    }
}
