//! The sections that were opened.

ghost use Rattle.std.specs.Prelude.{◌≡◌};
ghost use Rattle.mpslp_lp_grammar.specs.Phrase.{has_seen, with_section, is_out_of_order, section_fault};

use mpslp_lp_tokens::Section;
use mpslp_model::FaultKind;

/// Which sections were opened before a phrase.
#[derive(Clone, Copy)]
pub struct SectionsSeen {
    pub(crate) objective: bool,
    pub(crate) rows: bool,
    pub(crate) bounds: bool,
    pub(crate) generals: bool,
    pub(crate) binaries: bool,
    pub(crate) semis: bool,
    pub(crate) end: bool,
}

impl SectionsSeen {
    /// Whether the section was opened before.
    fn has(&self, section: Section) -> bool
        ensures { result ≡ has_seen self.now section }
    {
        match section {
            Section::Objective => self.objective,
            Section::Rows => self.rows,
            Section::Bounds => self.bounds,
            Section::Generals => self.generals,
            Section::Binaries => self.binaries,
            Section::SemiContinuous => self.semis,
            Section::End => self.end,
        }
    }

    /// Whether the section may not be opened now, because of the order of sections.
    fn forbids(&self, section: Section) -> bool
        ensures { result ≡ is_out_of_order self.now section }
    {
        match section {
            Section::Objective => false,
            Section::Rows => {
                !self.objective
                    || (self.bounds
                        || (self.generals || (self.binaries || (self.semis || self.end))))
            }
            Section::End => !self.objective,
            Section::Bounds | Section::Generals | Section::Binaries | Section::SemiContinuous =>
                !self.objective || self.end,
        }
    }

    /// The error, if any, of a word that opens the section now.
    pub(crate) fn section_fault(&self, section: Section) -> Option<FaultKind>
        ensures { result ≡ section_fault self.now section }
    {
        if self.has(section) {
            Some(FaultKind::SectionRepeated)
        } else if self.forbids(section) {
            Some(FaultKind::SectionOrder)
        } else {
            None
        }
    }

    /// The sections seen, with this one added.
    pub(crate) fn with(self, section: Section) -> SectionsSeen
        ensures { result ≡ with_section self section }
    {
        match section {
            Section::Objective => SectionsSeen {
                objective: true,
                ..self
            },
            Section::Rows => SectionsSeen { rows: true, ..self },
            Section::Bounds => SectionsSeen {
                bounds: true,
                ..self
            },
            Section::Generals => SectionsSeen {
                generals: true,
                ..self
            },
            Section::Binaries => SectionsSeen {
                binaries: true,
                ..self
            },
            Section::SemiContinuous => SectionsSeen {
                semis: true,
                ..self
            },
            Section::End => SectionsSeen { end: true, ..self },
        }
    }
}
