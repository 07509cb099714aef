//! The context of a line: what the lines before it mean for it.

ghost use Rattle.std.specs.Prelude.{◌≡◌, [], true, false, Some, is_some, OnOk};
ghost use Rattle.std.specs.Option.{option_map, option_map_or, option_or};
ghost use Rattle.mpslp_types.specs.Name.{same_bytes};
ghost use Rattle.mpslp_mps_fields.specs.Line.{has, is_section};
ghost use Rattle.mpslp_mps_fields.specs.declared.sections.Section.{Section};
ghost use Rattle.mpslp_mps.specs.Context.{context_of};
ghost use Rattle.mpslp_mps.specs.ContextStep.{after_header, after_objname, after_data, after_marker, after_column, after_set};
ghost use Rattle.mpslp_mps.specs.NextContext.{without_names, kept_context};
ghost use Rattle.mpslp_mps.specs.LineFault.{may_begin, is_out_of_order};

use mpslp_mps_fields::Section;
use std::alloc::{AllocError, Global};
use std::marker::Model;

/// The context of a line: what the lines before it mean for it. Contracts see it as a `Context`.
///
/// After a call that ran out of memory the context must not be used.
#[derive(Debug, Drop)]
pub(crate) struct LineContext {
    alloc: Global,
    section: Option<Section>,
    sections_seen: Vec<Section>,
    word_due: Option<Section>,
    objname: Option<Vec<u8>>,
    in_integer_part: bool,
    last_column: Option<Vec<u8>>,
    rhs_set: Option<Vec<u8>>,
    ranges_set: Option<Vec<u8>>,
    bounds_set: Option<Vec<u8>>,
}

impl Model for LineContext {
    ghost use Rattle.std.specs.Option.{option_map};
    ghost use Rattle.mpslp_mps.specs.Context.{Context};

    ghost Value = { Context };

    ghost view = { λ c. record {
      section = c.section;
      sections_seen = c.sections_seen.items;
      word_due = c.word_due;
      objname = option_map (λ name. name.items) c.objname;
      in_integer_part = c.in_integer_part;
      last_column = option_map (λ name. name.items) c.last_column;
      rhs_set = option_map (λ name. name.items) c.rhs_set;
      ranges_set = option_map (λ name. name.items) c.ranges_set;
      bounds_set = option_map (λ name. name.items) c.bounds_set;
    } };
}

/// Whether there is a name and it has these bytes.
fn is_name(name: &Option<Vec<u8>>, bytes: &[u8]) -> bool
    ensures { result ≡ option_map_or (λ known. same_bytes bytes.now known.items) name.now false }
{
    match name {
        Some(known) => bytes == known.as_slice(),
        None => false,
    }
}

/// The bytes of a name.
fn set_name_bytes(name: &Option<Vec<u8>>) -> Option<&[u8]>
    ensures { option_map (λ bytes. bytes.now) result ≡ option_map (λ known. known.items) name.now }
{
    match name {
        Some(known) => Some(known.as_slice()),
        None => None,
    }
}

/// Keeps a copy of the bytes as the name, unless there is a name already.
fn keep_first(name: &mut Option<Vec<u8>>, alloc: Global, bytes: &[u8]) -> Result<(), AllocError>
    ensures { OnOk result (option_map (λ known. known.items) name.new ≡ option_or (option_map (λ known. known.items) name.old) (Some bytes.now)) }
{
    if name.is_none() {
        *name = Some(bytes.to_vec(alloc)?);
    }
    Ok(())
}

/// Keeps a copy of the bytes as the name. If there is a name already, its memory is used again.
fn replace_name(name: &mut Option<Vec<u8>>, alloc: Global, bytes: &[u8]) -> Result<(), AllocError>
    ensures { OnOk result (option_map (λ known. known.items) name.new ≡ Some bytes.now) }
{
    match name {
        Some(known) => {
            known.clear();
            known.extend_from_slice(bytes)
        }
        None => {
            *name = Some(bytes.to_vec(alloc)?);
            Ok(())
        }
    }
}

impl LineContext {
    /// The context at the start of a text.
    pub(crate) fn new(alloc: Global) -> LineContext
        ensures { result ≡ context_of [] }
    {
        LineContext {
            alloc,
            section: None,
            sections_seen: Vec::new(alloc),
            word_due: None,
            objname: None,
            in_integer_part: false,
            last_column: None,
            rhs_set: None,
            ranges_set: None,
            bounds_set: None,
        }
    }

    /// The section of the line.
    pub(crate) fn section(&self) -> Option<Section>
        ensures { result ≡ self.now.section }
    {
        self.section
    }

    /// Whether the line of ENDATA has been read.
    pub(crate) fn is_at_end(&self) -> bool
        ensures { result ≡ is_section Section.EndData self.now.section }
    {
        match self.section {
            Some(section) => section == Section::EndData,
            None => false,
        }
    }

    /// Whether the word of a bare OBJSENSE or OBJNAME header is still missing.
    pub(crate) fn is_word_due(&self) -> bool
        ensures { result ≡ is_some self.now.word_due }
    {
        self.word_due.is_some()
    }

    /// Whether OBJNAME has named the objective.
    pub(crate) fn has_objname(&self) -> bool
        ensures { result ≡ is_some self.now.objname }
    {
        self.objname.is_some()
    }

    /// Whether an N row of this name may be the objective: it has the name of OBJNAME, or there is no OBJNAME.
    pub(crate) fn may_name_objective(&self, name: &[u8]) -> bool
        ensures { result ≡ option_map_or (same_bytes name.now) self.now.objname true }
    {
        match &self.objname {
            Some(objname) => name == objname.as_slice(),
            None => true,
        }
    }

    /// Whether an integer block is open.
    pub(crate) fn in_integer_part(&self) -> bool
        ensures { result ≡ self.now.in_integer_part }
    {
        self.in_integer_part
    }

    /// Whether the last line is of this column.
    pub(crate) fn is_last_column(&self, column: &[u8]) -> bool
        ensures { result ≡ option_map_or (same_bytes column.now) self.now.last_column false }
    {
        is_name(&self.last_column, column)
    }

    /// Whether the section has begun.
    pub(crate) fn has_seen(&self, section: Section) -> bool
        ensures { result ≡ has self.now.sections_seen section }
    {
        self.sections_seen.contains(&section)
    }

    /// Whether the section, if it has not begun yet, may begin here.
    fn may_begin(&self, section: Section) -> bool
        ensures { result ≡ may_begin self.now section }
    {
        match section {
            Section::Name => self.section.is_none(),
            Section::ObjSense | Section::ObjName => !self.has_seen(Section::Rows),
            Section::Rows => true,
            Section::Columns => self.has_seen(Section::Rows),
            Section::Rhs | Section::Ranges | Section::Bounds | Section::EndData => {
                self.has_seen(Section::Columns)
            }
        }
    }

    /// Whether the header of a section that has not begun yet is out of order here.
    pub(crate) fn is_out_of_order(&self, section: Section) -> bool
        ensures { result ≡ is_out_of_order self.now section }
    {
        self.is_word_due() || !(self.has_seen(section) || self.may_begin(section))
    }

    /// The set name of the first line of RHS.
    pub(crate) fn rhs_set(&self) -> Option<&[u8]>
        ensures { option_map (λ name. name.now) result ≡ self.now.rhs_set }
    {
        set_name_bytes(&self.rhs_set)
    }

    /// The set name of the first line of RANGES.
    pub(crate) fn ranges_set(&self) -> Option<&[u8]>
        ensures { option_map (λ name. name.now) result ≡ self.now.ranges_set }
    {
        set_name_bytes(&self.ranges_set)
    }

    /// The set name of the first line of BOUNDS.
    pub(crate) fn bounds_set(&self) -> Option<&[u8]>
        ensures { option_map (λ name. name.now) result ≡ self.now.bounds_set }
    {
        set_name_bytes(&self.bounds_set)
    }

    /// Drops the names with which later lines are compared.
    fn drop_names(&mut self)
        ensures { self.new ≡ without_names self.old }
    {
        self.objname = None;
        self.last_column = None;
        self.rhs_set = None;
        self.ranges_set = None;
        self.bounds_set = None;
    }

    /// Drops the names with which later lines are compared, if the line of ENDATA has been read.
    pub(crate) fn drop_names_at_end(&mut self)
        ensures { self.new ≡ kept_context self.old }
    {
        if self.is_at_end() {
            self.drop_names();
        }
    }

    /// Updates the context after a header. `word_due` is the section whose word is still missing, and `objective` the name
    /// that an OBJNAME header gives.
    pub(crate) fn pass_header(
        &mut self,
        section: Section,
        word_due: Option<Section>,
        objective: Option<&[u8]>,
    ) -> Result<(), AllocError>
        ensures { OnOk result (self.new ≡ after_header self.old section word_due (option_map (λ name. name.now) objective.entry)) }
    {
        self.sections_seen.push(section)?;
        self.section = Some(section);
        self.word_due = word_due;
        if let Some(name) = objective {
            keep_first(&mut self.objname, self.alloc, name)?;
        }
        Ok(())
    }

    /// Updates the context after a data line of OBJNAME with this word.
    pub(crate) fn pass_objname(&mut self, name: &[u8]) -> Result<(), AllocError>
        ensures { OnOk result (self.new ≡ after_objname self.old name.now) }
    {
        self.word_due = None;
        keep_first(&mut self.objname, self.alloc, name)?;
        Ok(())
    }

    /// Updates the context after a data line of OBJSENSE or ROWS, or another line of the last column.
    pub(crate) fn pass_data(&mut self)
        ensures { self.new ≡ after_data self.old }
    {
        self.word_due = None;
    }

    /// Updates the context after a marker line that opens or closes an integer block.
    pub(crate) fn pass_marker(&mut self, opens: bool)
        ensures { self.new ≡ after_marker self.old opens }
    {
        self.word_due = None;
        self.in_integer_part = opens;
        self.last_column = None;
    }

    /// Updates the context after a line of a column that is not the last one. The memory of the last name is used again.
    pub(crate) fn pass_new_column(&mut self, column: &[u8]) -> Result<(), AllocError>
        ensures { OnOk result (self.new ≡ after_column self.old column.now) }
    {
        self.word_due = None;
        replace_name(&mut self.last_column, self.alloc, column)
    }

    /// Updates the context after a line of RHS, RANGES or BOUNDS with this set name.
    pub(crate) fn pass_set(&mut self, section: Section, set: &[u8]) -> Result<(), AllocError>
        ensures { OnOk result (self.new ≡ after_set self.old section set.now) }
    {
        self.word_due = None;
        match section {
            Section::Rhs => keep_first(&mut self.rhs_set, self.alloc, set)?,
            Section::Ranges => keep_first(&mut self.ranges_set, self.alloc, set)?,
            Section::Bounds => keep_first(&mut self.bounds_set, self.alloc, set)?,
            _ => {}
        }
        Ok(())
    }
}
