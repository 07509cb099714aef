//! Reads lines: each is checked, and then its declarations are passed to the builder.

ghost use Rattle.std.specs.Prelude.{◌≡◌, Some, false, map};
ghost use Rattle.mpslp_builder.specs.Declaration.{Draft};
ghost use Rattle.mpslp_mps_fields.specs.declared.sections.Section.{Section};
ghost use Rattle.mpslp_mps_fields.specs.Line.{data_line, header_of, content_of, is_comment};
ghost use Rattle.mpslp_mps.specs.LineDeclarations.{is_new_objective, row_of_type};
ghost use Rattle.mpslp_lines.specs.LineAnswer.{AreDeclared, IfFault};
ghost use Rattle.mpslp_mps.specs.ColumnDeclared.{HasLastColumn};
ghost use Rattle.mpslp_mps.specs.LineAnswer.{ReadsContent};
ghost use Rattle.mpslp_mps.specs.ReadAnswer.{ReadsLine};
ghost use Rattle.mpslp_mps.specs.VectorDeclared.{HasMpsSides};

use crate::bounds::read_bound;
use crate::columns::read_column;
use crate::context::LineContext;
use crate::data_lines::{check_objname, check_row, check_sense};
use crate::header_lines::read_header;
use crate::vectors::{read_range, read_rhs};
use mpslp_builder::ReaderBuilder;
use mpslp_lines::{LineError, are_legal_bytes, has_legal_length};
use mpslp_model::{Builder, FaultKind, Name, RowType};
use mpslp_mps_fields::{Section, front_fields, is_comment, is_data};
use std::alloc::Global;

/// Reads a data line under OBJSENSE.
#[inline(never)]
pub(crate) fn read_sense(
    context: &mut LineContext,
    builder: &mut Builder,
    fields: &[&[u8]],
) -> Result<(), LineError>
    requires section { context.old.section ≡ Some Section.ObjSense }
    ensures answers { ReadsContent context.old builder.old (data_line (map (λ field. field.now) fields.now)) result context.new builder.new }
    ensures unchanged { IfFault result ((context.new ≡ context.old) × (builder.new ≡ builder.old)) }
{
    let sense = check_sense(context, fields)?;
    builder.sense(sense)?;
    context.pass_data();
    Ok(())
}

/// Reads a data line under OBJNAME.
#[inline(never)]
pub(crate) fn read_objname(context: &mut LineContext, fields: &[&[u8]]) -> Result<(), LineError>
    requires section { context.old.section ≡ Some Section.ObjName }
    ensures answers { (earlier : Draft) → ReadsContent context.old earlier (data_line (map (λ field. field.now) fields.now)) result context.new earlier }
    ensures unchanged { IfFault result (context.new ≡ context.old) }
{
    let name = check_objname(context, fields)?;
    context.pass_objname(name)?;
    Ok(())
}

/// Whether an N row of this name is the objective: the first N row, or the first one with the name of OBJNAME.
fn is_new_objective(context: &LineContext, builder: &Builder, name: &Name) -> bool
    ensures { result ≡ is_new_objective context.now builder.now name.now }
{
    !builder.has_objective() && context.may_name_objective(name.as_bytes())
}

/// Declares the row of a line of ROWS.
fn declare_row(
    context: &LineContext,
    builder: &mut Builder,
    row_type: RowType,
    name: Name,
) -> Result<(), LineError>
    ensures answers { AreDeclared builder.old (row_of_type context.now builder.old name row_type) result builder.new }
    ensures unchanged { IfFault result (builder.new ≡ builder.old) }
{
    if row_type == RowType::Free && is_new_objective(context, builder, &name) {
        builder.objective(name)?;
    } else {
        builder.row(name, row_type)?;
    }
    Ok(())
}

/// Reads a line of ROWS.
pub(crate) fn read_row(
    context: &mut LineContext,
    builder: &mut Builder,
    alloc: Global,
    fields: &[&[u8]],
) -> Result<(), LineError>
    requires section { context.old.section ≡ Some Section.Rows }
    ensures answers { ReadsContent context.old builder.old (data_line (map (λ field. field.now) fields.now)) result context.new builder.new }
    ensures unchanged { IfFault result ((context.new ≡ context.old) × (builder.new ≡ builder.old)) }
{
    let (row_type, name) = check_row(alloc, fields)?;
    declare_row(context, builder, row_type, name)?;
    context.pass_data();
    Ok(())
}

/// Reads a data line.
fn read_data(
    context: &mut LineContext,
    builder: &mut ReaderBuilder,
    alloc: Global,
    fields: &[&[u8]],
) -> Result<(), LineError>
    requires sides { HasMpsSides builder.old.draft }
    requires column { HasLastColumn context.old builder.old.draft }
    ensures answers { ReadsContent context.old builder.old.draft (data_line (map (λ field. field.now) fields.now)) result context.new builder.new.draft }
    ensures unchanged { IfFault result ((context.new ≡ context.old) × (builder.new.draft ≡ builder.old.draft)) }
{
    match context.section() {
        Some(Section::ObjSense) => read_sense(context, &mut builder.draft, fields),
        Some(Section::ObjName) => read_objname(context, fields),
        Some(Section::Rows) => read_row(context, &mut builder.draft, alloc, fields),
        Some(Section::Columns) => read_column(context, builder, alloc, fields),
        Some(Section::Rhs) => read_rhs(context, &mut builder.draft, fields),
        Some(Section::Ranges) => read_range(context, &mut builder.draft, fields),
        Some(Section::Bounds) => read_bound(context, &mut builder.draft, fields),
        Some(Section::Name | Section::EndData) | None => {
            Err(LineError::Fault(FaultKind::SectionOrder))
        }
    }
}

/// Reads a line that does not begin with a space or tab and is not skipped.
#[inline(never)]
fn read_keyword(
    context: &mut LineContext,
    builder: &mut ReaderBuilder,
    alloc: Global,
    fields: &[&[u8]],
) -> Result<(), LineError>
    ensures answers { ReadsContent context.old builder.old.draft (header_of (map (λ field. field.now) fields.now)) result context.new builder.new.draft }
    ensures unchanged { IfFault result ((context.new ≡ context.old) × (builder.new.draft ≡ builder.old.draft)) }
{
    match fields {
        [keyword, more @ ..] => read_header(context, &mut builder.draft, alloc, keyword, more),
        // Never taken: a line that is not skipped is not blank, so it has a field.
        [] => Ok(()),
    }
}

/// Reads a line of legal length and bytes that is not a comment.
fn read_content(
    context: &mut LineContext,
    builder: &mut ReaderBuilder,
    alloc: Global,
    line: &[u8],
) -> Result<(), LineError>
    requires content { is_comment line.now ≡ false }
    requires sides { HasMpsSides builder.old.draft }
    requires column { HasLastColumn context.old builder.old.draft }
    ensures answers { ReadsContent context.old builder.old.draft (content_of line.now) result context.new builder.new.draft }
    ensures unchanged { IfFault result ((context.new ≡ context.old) × (builder.new.draft ≡ builder.old.draft)) }
{
    let fields = front_fields(line);
    // Only spaces and tabs.
    if fields.is_empty() {
        return Ok(());
    }
    if is_data(line) {
        read_data(context, builder, alloc, &fields)
    } else {
        read_keyword(context, builder, alloc, &fields)
    }
}

/// Reads a line.
pub(crate) fn read_line(
    context: &mut LineContext,
    builder: &mut ReaderBuilder,
    alloc: Global,
    line: &[u8],
) -> Result<(), LineError>
    requires sides { HasMpsSides builder.old.draft }
    requires column { HasLastColumn context.old builder.old.draft }
    ensures answers { ReadsLine context.old builder.old.draft line.now result context.new builder.new.draft }
    ensures unchanged { IfFault result ((context.new ≡ context.old) × (builder.new.draft ≡ builder.old.draft)) }
{
    if !has_legal_length(line) {
        return Err(LineError::Fault(FaultKind::LineTooLong));
    }
    // A comment may have any bytes.
    if is_comment(line) {
        return Ok(());
    }
    if !are_legal_bytes(line) {
        return Err(LineError::Fault(FaultKind::BadByte));
    }
    read_content(context, builder, alloc, line)
}
