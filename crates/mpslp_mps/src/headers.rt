//! The errors of headers.

ghost use Rattle.std.specs.Prelude.{◌≡◌, Some, None, map, MatchResult};
ghost use Rattle.mpslp_mps_fields.specs.Line.{section_named};
ghost use Rattle.mpslp_lines.specs.FaultTests.{first_held};
ghost use Rattle.mpslp_mps.specs.LineFault.{lacks_objective, section_tests, header_tests};

use crate::context::LineContext;
use mpslp_model::{Builder, FaultKind};
use mpslp_mps_fields::{Section, may_follow, section_named, sense_of, unknown_section};

/// Whether OBJNAME names the objective, but no N row has that name.
fn lacks_objective(context: &LineContext, builder: &Builder) -> bool
    ensures { result ≡ lacks_objective context.now builder.now }
{
    !builder.has_objective() && context.has_objname()
}

/// The error of a header that depends on its section: an unknown word of OBJSENSE, or an objective that ROWS does not have.
fn check_section(
    context: &LineContext,
    builder: &Builder,
    section: Section,
    more: &[&[u8]],
) -> Result<(), FaultKind>
    ensures { let first_fault = first_held (section_tests context.now builder.now section (map (λ field. field.now) more.now)) in
        MatchResult result (λ _. first_fault ≡ None) (λ kind. first_fault ≡ Some kind) }
{
    match (section, more) {
        (Section::ObjSense, [word, ..]) if sense_of(word).is_none() => Err(FaultKind::BadType),
        (Section::Columns, _) if lacks_objective(context, builder) => Err(FaultKind::UnknownRow),
        _ => Ok(()),
    }
}

/// The section of a header, or the error of its line in this context, with what the builder has.
pub(crate) fn check_header(
    context: &LineContext,
    builder: &Builder,
    keyword: &[u8],
    more: &[&[u8]],
) -> Result<Section, FaultKind>
    ensures { let first_fault = first_held (header_tests context.now builder.now keyword.now (map (λ field. field.now) more.now) (section_named keyword.now)) in
        MatchResult result (λ section. (section_named keyword.now ≡ Some section) × (first_fault ≡ None)) (λ kind. first_fault ≡ Some kind) }
{
    let Some(section) = section_named(keyword) else {
        return Err(unknown_section(keyword));
    };
    if context.is_out_of_order(section) {
        return Err(FaultKind::SectionOrder);
    }
    if context.has_seen(section) {
        return Err(FaultKind::SectionRepeated);
    }
    if !may_follow(section, more) {
        return Err(FaultKind::FieldCount);
    }
    check_section(context, builder, section, more)?;
    Ok(section)
}
