//! What may follow the keyword of a header.

ghost use Rattle.std.specs.Prelude.{◌≡◌, map};
ghost use Rattle.std.specs.Option.{option_map};
ghost use Rattle.mpslp_mps_fields.specs.Line.{may_follow, section_of_word_due};
ghost use Rattle.mpslp_mps_fields.specs.ObjNameHeader.{header_objname};

use crate::sections::Section;
use crate::shapes::word_shape;

/// Whether these fields may follow the keyword of the section: any fields after `NAME`, at most one after `OBJSENSE` and
/// `OBJNAME`, none after the others.
pub fn may_follow(section: Section, more: &[&[u8]]) -> bool
    ensures { result ≡ may_follow section (map (λ field. field.now) more.now) }
{
    match section {
        Section::Name => true,
        Section::ObjSense | Section::ObjName => more.len() <= 1,
        _ => more.is_empty(),
    }
}

/// The section, if it is OBJSENSE or OBJNAME and its header has no word: the word must follow on a line of its own.
pub fn section_of_word_due(section: Section, more: &[&[u8]]) -> Option<Section>
    ensures { result ≡ section_of_word_due section (map (λ field. field.now) more.now) }
{
    match (section, more) {
        (Section::ObjSense | Section::ObjName, []) => Some(section),
        _ => None,
    }
}

/// The name of the objective after the keyword OBJNAME; `None` after other keywords, and if there is not one word.
pub fn header_objname<'a>(section: Section, more: &[&'a [u8]]) -> Option<&'a [u8]>
    ensures { option_map (λ name. name.now) result ≡ header_objname section (map (λ field. field.now) more.now) }
{
    if section == Section::ObjName {
        word_shape(more)
    } else {
        None
    }
}
