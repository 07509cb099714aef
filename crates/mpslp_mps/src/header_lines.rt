//! Reads headers.

ghost use Rattle.std.specs.Prelude.{◌≡◌, [], ◌∷◌, map, Some};
ghost use Rattle.std.specs.Option.{option_map_or};
ghost use Rattle.mpslp_builder.specs.Declaration.{declare_sense};
ghost use Rattle.mpslp_mps_fields.specs.Line.{header};
ghost use Rattle.mpslp_mps_fields.specs.DataLine.{word_shape};
ghost use Rattle.mpslp_mps.specs.LineDeclarations.{declared_if_some, sense_declared, default_objective, header_declared};
ghost use Rattle.mpslp_lines.specs.LineAnswer.{AreDeclared, IfFault};
ghost use Rattle.mpslp_mps.specs.LineAnswer.{ReadsContent};

use crate::context::LineContext;
use crate::headers::check_header;
use mpslp_lines::LineError;
use mpslp_model::{Builder, Name, Sense};
use mpslp_mps_fields::{Section, header_objname, section_of_word_due, sense_of, word_shape};
use std::alloc::Global;

/// The sense after the keyword OBJSENSE.
fn header_sense(more: &[&[u8]]) -> Option<Sense>
    ensures { option_map_or (λ sense. declare_sense sense ∷ []) result [] ≡ declared_if_some sense_declared (word_shape (map (λ field. field.now) more.now)) }
{
    match word_shape(more) {
        Some(word) => sense_of(word),
        None => None,
    }
}

/// Declares the sense after the keyword OBJSENSE, if there is one.
fn declare_sense(builder: &mut Builder, more: &[&[u8]]) -> Result<(), LineError>
    ensures answers { AreDeclared builder.old (declared_if_some sense_declared (word_shape (map (λ field. field.now) more.now))) result builder.new }
    ensures unchanged { IfFault result (builder.new ≡ builder.old) }
{
    if let Some(sense) = header_sense(more) {
        builder.sense(sense)?;
    }
    Ok(())
}

/// Names the objective `obj`, if no N row and no OBJNAME has named it.
fn declare_objective(
    context: &LineContext,
    builder: &mut Builder,
    alloc: Global,
) -> Result<(), LineError>
    ensures answers { AreDeclared builder.old (default_objective context.now builder.old) result builder.new }
    ensures unchanged { IfFault result (builder.new ≡ builder.old) }
{
    if !builder.has_objective() && !context.has_objname() {
        let name = Name::new(alloc, b"obj".as_slice())?;
        builder.objective(name)?;
    }
    Ok(())
}

/// Declares what the header of a section declares.
fn declare_header(
    context: &LineContext,
    builder: &mut Builder,
    alloc: Global,
    section: Section,
    more: &[&[u8]],
) -> Result<(), LineError>
    ensures answers { AreDeclared builder.old (header_declared context.now builder.old (map (λ field. field.now) more.now) (Some section)) result builder.new }
    ensures unchanged { IfFault result (builder.new ≡ builder.old) }
{
    match section {
        Section::ObjSense => declare_sense(builder, more),
        Section::Columns => declare_objective(context, builder, alloc),
        _ => Ok(()),
    }
}

/// Reads a header.
pub(crate) fn read_header(
    context: &mut LineContext,
    builder: &mut Builder,
    alloc: Global,
    keyword: &[u8],
    more: &[&[u8]],
) -> Result<(), LineError>
    ensures answers { ReadsContent context.old builder.old (header keyword.now (map (λ field. field.now) more.now)) result context.new builder.new }
    ensures unchanged { IfFault result ((context.new ≡ context.old) × (builder.new ≡ builder.old)) }
{
    let section = check_header(context, builder, keyword, more)?;
    declare_header(context, builder, alloc, section, more)?;
    context.pass_header(
        section,
        section_of_word_due(section, more),
        header_objname(section, more),
    )?;
    Ok(())
}
