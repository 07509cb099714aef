//! Lines of RHS and RANGES.

ghost use Rattle.std.specs.Prelude.{◌≡◌, [], ◌∷◌, ◌++◌, ◌+◌, ◌&&◌, false, true, not, map, Some, None, IfErr, MatchResult};
ghost use Rattle.mpslp_builder.specs.Declaration.{has_row, is_free_row, rhs_declared, declare_range};
ghost use Rattle.mpslp_types.specs.Name.{same_bytes};
ghost use Rattle.mpslp_types.specs.FaultOrder.{least_kind};
ghost use Rattle.mpslp_lines.specs.Declaring.{declaring_faults, declared_fault};
ghost use Rattle.mpslp_mps_fields.specs.Line.{data_line};
ghost use Rattle.mpslp_lines.specs.LineAnswer.{IsErrorOf, AreDeclared, IfFault};
ghost use Rattle.mpslp_mps.specs.LineAnswer.{ReadsContent, ReturnsFault};
ghost use Rattle.mpslp_mps.specs.VectorDeclared.{HasMpsSides, rhs_pair_declared, rhs_values_declared, ranges_of};
ghost use Rattle.mpslp_mps_fields.specs.declared.sections.Section.{Section};

use crate::context::LineContext;
use crate::data_lines::check_vector;
use crate::values::{RowValue, RowValues, is_same_row};
use mpslp_lines::{LineError, lower_ranked_kind};
use mpslp_model::{Builder, FaultKind};
use mpslp_mps_fields::Section;

/// Whether both rows are declared. The objective counts as a row.
fn are_rows(builder: &Builder, first: &RowValue, second: &RowValue) -> bool
    ensures { result ≡ (has_row builder.now first.now.0 && has_row builder.now second.now.0) }
{
    builder.has_row(first.row) && builder.has_row(second.row)
}

/// Declares the right-hand side of a row.
fn declare_rhs<'a>(builder: &mut Builder, side: RowValue<'a>) -> Result<(), LineError>
    requires { HasMpsSides builder.old }
    ensures answers { AreDeclared builder.old (rhs_declared builder.old side.entry.0 side.entry.1) result builder.new }
    ensures unchanged { IfFault result (builder.new ≡ builder.old) }
{
    builder.rhs(side.row, side.value)?;
    Ok(())
}

/// The error, if any, of declaring this right-hand side.
fn check_rhs_value(builder: &Builder, side: &RowValue) -> Result<(), LineError>
    requires { HasMpsSides builder.now }
    ensures { ReturnsFault (declared_fault builder.now (rhs_declared builder.now side.now.0 side.now.1)) result }
{
    builder.check_rhs(side.row)?;
    Ok(())
}

/// Whether the second right-hand side repeats that of the first one's row. An N row may have several, which declare nothing.
fn is_second_rhs(builder: &Builder, first: &RowValue, second: &RowValue) -> bool
    ensures { result ≡ (same_bytes second.now.0 first.now.0 && not (is_free_row builder.now first.now.0)) }
{
    is_same_row(first, second) && !builder.is_free_row(first.row)
}

/// The error, if any, of declaring the right-hand sides of two declared rows.
fn check_rhs_pair(builder: &Builder, first: &RowValue, second: &RowValue) -> Result<(), LineError>
    requires sides { HasMpsSides builder.now }
    requires rows { (has_row builder.now first.now.0 && has_row builder.now second.now.0) ≡ true }
    ensures { ReturnsFault (declared_fault builder.now (rhs_pair_declared builder.now first.now second.now)) result }
{
    check_rhs_value(builder, first)?;
    if is_second_rhs(builder, first, second) {
        return Err(LineError::Fault(FaultKind::DuplicateRhs));
    }
    check_rhs_value(builder, second)
}

/// Declares the right-hand sides of two rows. An unknown row is reported before a repeated right-hand side. Both are checked
/// before the first is declared.
fn declare_rhs_pair<'a>(
    builder: &mut Builder,
    first: RowValue<'a>,
    second: RowValue<'a>,
) -> Result<(), LineError>
    requires { HasMpsSides builder.old }
    ensures answers { AreDeclared builder.old (rhs_pair_declared builder.old first.entry second.entry) result builder.new }
    ensures unchanged { IfFault result (builder.new ≡ builder.old) }
{
    if !are_rows(builder, &first, &second) {
        return Err(LineError::Fault(FaultKind::UnknownRow));
    }
    check_rhs_pair(builder, &first, &second)?;
    declare_rhs(builder, first)?;
    declare_rhs(builder, second)
}

/// Declares the right-hand sides of a line.
fn declare_rhs_values<'a>(builder: &mut Builder, sides: RowValues<'a>) -> Result<(), LineError>
    requires { HasMpsSides builder.old }
    ensures answers { AreDeclared builder.old (rhs_values_declared builder.old sides.entry) result builder.new }
    ensures unchanged { IfFault result (builder.new ≡ builder.old) }
{
    let RowValues { first, second } = sides;
    match second {
        Some(second) => declare_rhs_pair(builder, first, second),
        None => declare_rhs(builder, first),
    }
}

/// Reads a line of RHS.
pub(crate) fn read_rhs(
    context: &mut LineContext,
    builder: &mut Builder,
    fields: &[&[u8]],
) -> Result<(), LineError>
    requires section { context.old.section ≡ Some Section.Rhs }
    requires sides { HasMpsSides builder.old }
    ensures answers { ReadsContent context.old builder.old (data_line (map (λ field. field.now) fields.now)) result context.new builder.new }
    ensures unchanged { IfFault result ((context.new ≡ context.old) × (builder.new ≡ builder.old)) }
{
    let (set, sides) = check_vector(context.rhs_set(), fields)?;
    declare_rhs_values(builder, sides)?;
    context.pass_set(Section::Rhs, set)?;
    Ok(())
}

/// Declares the range of a row. If it is rejected, the builder is unchanged.
fn declare_range<'a>(builder: &mut Builder, row: RowValue<'a>) -> Result<(), LineError>
    ensures answers { AreDeclared builder.old (declare_range row.entry.0 row.entry.1 ∷ []) result builder.new }
    ensures unchanged { IfErr result (λ _. builder.new ≡ builder.old) }
{
    builder.range(row.row, row.value)?;
    Ok(())
}

/// The error, if any, of declaring this range.
fn check_range(builder: &Builder, row: &RowValue) -> Result<(), LineError>
    ensures { ReturnsFault (declared_fault builder.now (declare_range row.now.0 row.now.1 ∷ [])) result }
{
    builder.check_range(row.row, row.value)?;
    Ok(())
}

/// The error of a line whose first range has this error: that of the second range may come first in the order of kinds.
fn error_of_both(builder: &Builder, kind: FaultKind, second: &RowValue) -> LineError
    ensures { IsErrorOf (least_kind (kind ∷ declaring_faults builder.now (declare_range second.now.0 second.now.1 ∷ []))) result }
{
    match check_range(builder, second) {
        Ok(()) => LineError::Fault(kind),
        Err(LineError::Fault(other)) => LineError::Fault(lower_ranked_kind(kind, other)),
        Err(LineError::OutOfMemory) => LineError::OutOfMemory,
    }
}

/// The error, if any, of declaring the ranges of two different rows.
fn check_ranges_apart(
    builder: &Builder,
    first: &RowValue,
    second: &RowValue,
) -> Result<(), LineError>
    requires { same_bytes second.now.0 first.now.0 ≡ false }
    ensures { ReturnsFault (declared_fault builder.now (ranges_of (first.now ∷ second.now ∷ []))) result }
{
    match check_range(builder, first) {
        Ok(()) => check_range(builder, second),
        Err(LineError::Fault(kind)) => Err(error_of_both(builder, kind, second)),
        Err(LineError::OutOfMemory) => Err(LineError::OutOfMemory),
    }
}

/// Declares the ranges of two different rows. Both are checked before the first is declared.
fn declare_ranges_apart<'a>(
    builder: &mut Builder,
    first: RowValue<'a>,
    second: RowValue<'a>,
) -> Result<(), LineError>
    requires { same_bytes second.0 first.0 ≡ false }
    ensures answers { AreDeclared builder.old (ranges_of (first.entry ∷ second.entry ∷ [])) result builder.new }
    ensures unchanged { IfFault result (builder.new ≡ builder.old) }
{
    check_ranges_apart(builder, &first, &second)?;
    declare_range(builder, first)?;
    declare_range(builder, second)
}

/// Declares the ranges of two rows. If both are the same row, the second range is a duplicate, whatever the error of the
/// first.
fn declare_both_ranges<'a>(
    builder: &mut Builder,
    first: RowValue<'a>,
    second: RowValue<'a>,
) -> Result<(), LineError>
    ensures answers { AreDeclared builder.old (ranges_of (first.entry ∷ second.entry ∷ [])) result builder.new }
    ensures unchanged { IfFault result (builder.new ≡ builder.old) }
{
    if !is_same_row(&first, &second) {
        return declare_ranges_apart(builder, first, second);
    }
    if builder.has_row(first.row) {
        return Err(LineError::Fault(FaultKind::DuplicateRange));
    }
    Err(LineError::Fault(FaultKind::UnknownRow))
}

/// Declares the ranges of a line.
fn declare_ranges<'a>(builder: &mut Builder, ranges: RowValues<'a>) -> Result<(), LineError>
    ensures answers { AreDeclared builder.old (ranges_of ranges.entry) result builder.new }
    ensures unchanged { IfFault result (builder.new ≡ builder.old) }
{
    let RowValues { first, second } = ranges;
    match second {
        Some(second) => declare_both_ranges(builder, first, second),
        None => declare_range(builder, first),
    }
}

/// Reads a line of RANGES.
#[inline(never)]
pub(crate) fn read_range(
    context: &mut LineContext,
    builder: &mut Builder,
    fields: &[&[u8]],
) -> Result<(), LineError>
    requires { context.old.section ≡ Some Section.Ranges }
    ensures answers { ReadsContent context.old builder.old (data_line (map (λ field. field.now) fields.now)) result context.new builder.new }
    ensures unchanged { IfFault result ((context.new ≡ context.old) × (builder.new ≡ builder.old)) }
{
    let (set, ranges) = check_vector(context.ranges_set(), fields)?;
    declare_ranges(builder, ranges)?;
    context.pass_set(Section::Ranges, set)?;
    Ok(())
}
