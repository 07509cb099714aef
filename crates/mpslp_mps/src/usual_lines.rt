//! Lines of COLUMNS without an error. Each row of such a line is looked up once.

ghost use Rattle.std.specs.Prelude.{◌≡◌, ◌≢◌, [], map, IfSome, Ok, Some, None, true, false, is_some};
ghost use Rattle.std.specs.Option.{option_map, option_map_or, ForSome};
ghost use Rattle.mpslp_types.specs.Name.{same_bytes};
ghost use Rattle.mpslp_types.specs.NameTests.{name_refusal};
ghost use Rattle.mpslp_builder.specs.ColumnLine.{pair_of, listed};
ghost use Rattle.mpslp_builder.specs.Declaration.{has_column};
ghost use Rattle.mpslp_builder.specs.Refusal.{refusals_in_turn};
ghost use Rattle.mpslp_lines.specs.FaultTests.{judged_by, first_held, number_tests};
ghost use Rattle.mpslp_mps.specs.ColumnDeclared.{HasLastColumn};
ghost use Rattle.mpslp_mps.specs.LineFault.{literals_of};
ghost use Rattle.mpslp_mps.specs.LineAnswer.{item_fault, MayRead};
ghost use Rattle.mpslp_mps.specs.LineValues.{named_values};
ghost use Rattle.mpslp_mps.specs.UsualLine.{shape_fault, TakesUsual, LeavesNext, LeavesFirst, LeavesFaulty, MayPass};
ghost use Rattle.mpslp_mps_fields.specs.DataLine.{column_shape, is_marker_line};
ghost use Rattle.mpslp_mps_fields.specs.Line.{data_line};
ghost use Rattle.mpslp_mps_fields.specs.declared.sections.Section.{Section};

use crate::context::LineContext;
use crate::values::{RowValue, RowValues, values_of};
use mpslp_builder::{Entries, Entry, ReaderBuilder};
use mpslp_lines::LineError;
use mpslp_model::laws::each_builder_is_made;
use mpslp_model::{Name, NameFault};
use mpslp_mps_fields::{ValuesLine, column_shape};
use std::alloc::Global;

/// A row and its value, as the builder takes them.
fn entry_of<'a>(value: &RowValue<'a>) -> Entry<'a>
    ensures { pair_of result ≡ value.now }
{
    Entry {
        row: value.row,
        value: value.value,
    }
}

/// The rows and values of a line, as the builder takes them.
///
/// A caller takes the struct apart and makes it again in the call: the prover does not cover a call that is passed a struct of
/// another crate which a function has returned.
fn entries_of<'a>(values: &RowValues<'a>) -> Entries<'a>
    ensures { listed result ≡ values.now }
{
    let first = entry_of(&values.first);
    match &values.second {
        Some(value) => Entries {
            first,
            second: Some(entry_of(value)),
        },
        None => Entries {
            first,
            second: None,
        },
    }
}

/// The column and the values of a line, if its fields and numbers have no error.
fn usual_parts<'a>(fields: &[&'a [u8]]) -> Option<(&'a [u8], RowValues<'a>)>
    ensures parts { let names = map (λ field. field.now) fields.now in
        IfSome result (λ line. (shape_fault names ≡ None) × (option_map named_values (column_shape names) ≡ Some (line.0.now, line.1))) }
    ensures found { shape_fault (map (λ field. field.now) fields.now) ≡ None → is_some result ≡ true }
{
    let Some(line) = column_shape(fields) else {
        return None;
    };
    let ValuesLine {
        name: column,
        pairs,
    } = line;
    match values_of(pairs) {
        Ok(values) => Some((column, values)),
        Err(_) => None,
    }
}

/// Declares the values of the column of the line before, if none of them has an error.
fn declare_next(
    builder: &mut ReaderBuilder,
    column: &[u8],
    is_marked: bool,
    values: &RowValues<'_>,
) -> Result<bool, LineError>
    ensures taken { TakesUsual builder.old.draft is_marked column.now values.now result builder.new.draft }
    ensures refused { LeavesNext builder.old.draft is_marked column.now values.now result }
{
    let Entries { first, second } = entries_of(values);
    let is_done = builder.next_line(column, is_marked, &Entries { first, second })?;
    each_builder_is_made(&builder.draft);
    Ok(is_done)
}

/// Declares a new column with these values, if none of them has an error.
fn declare_first(
    builder: &mut ReaderBuilder,
    alloc: Global,
    column: &[u8],
    is_marked: bool,
    values: &RowValues<'_>,
) -> Result<bool, LineError>
    ensures taken { TakesUsual builder.old.draft is_marked column.now values.now result builder.new.draft }
    ensures absent { result ≡ Ok true → has_column builder.old.draft column.now ≡ false }
    ensures refused { LeavesFirst builder.old.draft is_marked column.now values.now result }
{
    let name = match Name::new(alloc, column) {
        Ok(name) => name,
        Err(NameFault::OutOfMemory) => return Err(LineError::OutOfMemory),
        Err(_) => return Ok(false),
    };
    let Entries { first, second } = entries_of(values);
    let is_done = builder.first_line(name, is_marked, &Entries { first, second })?;
    each_builder_is_made(&builder.draft);
    Ok(is_done)
}

/// Declares the values of the column of the line before, and updates the context, if none of them has an error.
fn pass_next(
    context: &mut LineContext,
    builder: &mut ReaderBuilder,
    column: &[u8],
    values: &RowValues<'_>,
) -> Result<bool, LineError>
    requires { option_map_or (same_bytes column.now) context.old.last_column false ≡ true }
    ensures passed { MayPass context.old builder.old.draft column.now values.now result context.new builder.new.draft }
    ensures refused { LeavesNext builder.old.draft context.old.in_integer_part column.now values.now result }
{
    if declare_next(builder, column, context.in_integer_part(), values)? {
        context.pass_data();
        return Ok(true);
    }
    Ok(false)
}

/// Declares a new column with these values, and updates the context, if none of them has an error.
fn pass_first(
    context: &mut LineContext,
    builder: &mut ReaderBuilder,
    alloc: Global,
    column: &[u8],
    values: &RowValues<'_>,
) -> Result<bool, LineError>
    ensures passed { MayPass context.old builder.old.draft column.now values.now result context.new builder.new.draft }
    ensures refused { LeavesFirst builder.old.draft context.old.in_integer_part column.now values.now result }
{
    let is_marked = context.in_integer_part();
    if declare_first(builder, alloc, column, is_marked, values)? {
        context.pass_new_column(column)?;
        return Ok(true);
    }
    Ok(false)
}

/// Reads a line of a column, if it has no error. Otherwise this returns `false`, and nothing has changed.
pub(crate) fn read_usual(
    context: &mut LineContext,
    builder: &mut ReaderBuilder,
    alloc: Global,
    fields: &[&[u8]],
) -> Result<bool, LineError>
    requires section { context.old.section ≡ Some Section.Columns }
    requires column { HasLastColumn context.old builder.old.draft }
    requires plain { is_marker_line (map (λ field. field.now) fields.now) ≡ false }
    ensures read { MayRead context.old builder.old.draft (data_line (map (λ field. field.now) fields.now)) result context.new builder.new.draft }
    ensures refused { LeavesFaulty context.old builder.old.draft (data_line (map (λ field. field.now) fields.now)) result }
{
    let Some((column, values)) = usual_parts(fields) else {
        return Ok(false);
    };
    if context.is_last_column(column) {
        return pass_next(context, builder, column, &values);
    }
    pass_first(context, builder, alloc, column, &values)
}
